//! Rules.
use fill_text::List;
use fill_tree::Switch;
use fillcsv_options::Lookup;

/// The names of a rule's columns in the header of the sheet that it was learned on, as bytes.
#[derive(Debug, Drop)]
pub struct Names {
    /// Those of the columns that it reads, in their order.
    pub inputs: List<List<u8>>,
    /// That of the column that it fills.
    pub output: List<u8>,
}

/// A conditional program, and the columns that it reads and fills.
#[derive(Debug, Drop)]
pub struct Rule {
    /// The names of the columns, where the sheet had a header.
    pub names: Option<Names>,
    /// The columns that it reads as they stood in the sheet, rising. The program speaks of these.
    pub inputs: Vec<u32>,
    /// The column that it fills as it stood there.
    pub output: u32,
    /// The tables that the program looks up in, by the paths of their files, and their keys. It speaks of tables by their
    /// numbers in this order.
    pub lookups: Vec<Lookup>,
    /// The program.
    pub switch: Switch,
}
