//! What the words ask for.

/// The column that is filled.
#[derive(Debug, Drop)]
pub enum Target {
    /// One that is there: its name in the header, or its number from 1.
    There(String),
    /// A new one of this name, after the last one.
    New(String),
}

/// An example that the words give, beside those of the column.
#[derive(Debug, Drop)]
pub struct Typed {
    /// The row as a spreadsheet shows it, from 1: where there is a header, the first row is 2.
    pub row: u32,
    /// The text that its cell shall have.
    pub text: String,
}

/// A lookup table, or a key of one.
#[derive(Debug, Drop)]
pub enum Lookup {
    /// The table in the file of a path, and its name.
    Table { name: String, file: String },
    /// Columns of the table of this name, from 1: one to three that tell its rows apart.
    Key { table: String, columns: Vec<u32> },
}

/// A language of rules, by its name.
#[derive(Clone, Copy, Debug, PartialEq, Eq)]
pub enum ProfileName {
    /// The first one, `--profile 1`.
    First,
    /// The second one.
    Second,
    /// The third one, which needs the fewest examples.
    Third,
}

/// How many lookups may stand inside each other.
#[derive(Clone, Copy, Debug, PartialEq, Eq)]
pub enum Depth {
    /// One alone.
    One,
    /// Two at the most.
    Two,
    /// Three at the most.
    Three,
}

/// What the words ask for.
#[derive(Debug, Drop)]
pub struct Asked {
    /// The path of the sheet's file.
    pub file: String,
    /// The column that is filled.
    pub to: Target,
    /// The columns that rules may read, by name or number; none: all others, the first eight.
    pub from: Vec<String>,
    /// Whether the first record names the columns.
    pub header: bool,
    /// The examples, each for another row.
    pub examples: Vec<Typed>,
    /// Whether what the column holds is no example, and is replaced.
    pub replace: bool,
    /// The tables that rules may look up in, and then their keys.
    pub lookups: Vec<Lookup>,
    /// How many lookups may stand inside each other; no more than the profile allows.
    pub depth: Depth,
    /// Whether a column with the state of each cell comes last.
    pub states: bool,
    /// Whether a cell that is not sure stays empty.
    pub only_sure: bool,
    /// The language of the rules.
    pub profile: ProfileName,
    /// Whether nothing is told of a sheet that was filled.
    pub quiet: bool,
    /// Whether both answers are told on the first rows in doubt.
    pub explain: bool,
    /// Whether cells in doubt are asked about; then the sheet is not the standard input, and there is no quiet.
    pub ask: bool,
    /// Whether each cell has to be given or sure.
    pub strict: bool,
    /// The path that the rule is saved under, if it is.
    pub save: Option<String>,
}

/// A saved rule that is run over a sheet.
#[derive(Debug, Drop)]
pub struct Saved {
    /// The path of its file.
    pub rule: String,
    /// Whether nothing is told of a run that succeeds.
    pub quiet: bool,
}

/// What the words ask the program to do.
#[derive(Debug, Drop)]
pub enum Order {
    /// To fill a column of a sheet by a rule that is learned from it.
    Fill(Asked),
    /// To run a saved rule over the sheet that comes from standard input.
    Run(Saved),
}
