//! The words that the program takes.
ghost use Rattle.std.specs.Prelude.{◌≡◌, IfOk, Some, false};
ghost use Rattle.clap.specs.Words.{app_of, rule_of};
ghost use Rattle.clap.specs.declared.builder.value_parser.ValueParser.TheVariants.{NonEmptyString};
ghost use Rattle.fillcsv_options.specs.Options.{app, bare_app, file_rule, flag_rule, from_rule, inputs, outputs, rules, run_app, runs, save_rule, saving, several_rule, text_rule, value_rule, with_rules};

use clap::builder::ValueParser;
use clap::{Arg, ArgAction, Command};
use std::alloc::{AllocError, Global};

const ABOUT: &str =
    "Fills in a column of a CSV sheet: it learns from the cells that are filled how they come from
other columns, and writes the sheet with the empty ones filled.";

const EXAMPLES: &str = "Examples:
  fillcsv people.csv --to Label
  fillcsv people.csv --to Label --from Name,City --state
  fillcsv people.csv --to Label --example '5=Noether (Erlangen)' --example 7=
  fillcsv people.csv --new Initials --example 2=AB
  fillcsv sales.csv --to Month --table months=months.csv --key months:1
  fillcsv people.csv --to Label --ask > filled.csv
  fillcsv people.csv --to Label --save-rule label.rule
  fillcsv --rule label.rule < more.csv > filled.csv";

const USAGE: &str = "fillcsv [OPTIONS] <--to <COLUMN>|--new <NAME>> <FILE>
       fillcsv --rule <RULE> [--quiet]";

const RUN_ABOUT: &str =
    "Runs a saved rule over the sheet that comes from standard input, row by row, and writes the sheet
with the empty cells of its column filled.";

const RUN_USAGE: &str = "fillcsv --rule <RULE> [--quiet] < SHEET > FILLED";

/// An option that takes a value.
fn valued<'a>(alloc: Global, name: &'a str, value: &'a str, help: &'a str) -> Arg<'a>
    ensures rule { rule_of result ≡ value_rule name.entry.now }
    ensures local { result.global ≡ false }
{
    Arg::new(alloc, name)
        .long(name)
        .value_name(value)
        .help(help)
}

/// An option that takes none.
fn flag<'a>(alloc: Global, name: &'a str, help: &'a str) -> Arg<'a>
    ensures rule { rule_of result ≡ flag_rule name.entry.now }
    ensures local { result.global ≡ false }
{
    Arg::new(alloc, name)
        .long(name)
        .action(ArgAction::SetTrue)
        .help(help)
}

/// An argument that the empty text is no value of.
fn nonempty(arg: Arg<'_>) -> Arg<'_>
    ensures { result ≡ record arg.entry { value_parser = Some NonEmptyString } }
{
    arg.value_parser(ValueParser::NonEmptyString)
}

fn file<'a>(alloc: Global) -> Arg<'a>
    ensures rule { rule_of result ≡ file_rule }
    ensures local { result.global ≡ false }
{
    nonempty(Arg::new(alloc, "FILE").required(true)).help("The sheet, a CSV file")
}

/// An option whose value is not empty.
fn text<'a>(alloc: Global, name: &'a str, value: &'a str, help: &'a str) -> Arg<'a>
    ensures rule { rule_of result ≡ text_rule name.entry.now }
    ensures local { result.global ≡ false }
{
    nonempty(valued(alloc, name, value, help))
}

/// An option that may stand several times.
fn several<'a>(alloc: Global, name: &'a str, value: &'a str, help: &'a str) -> Arg<'a>
    ensures rule { rule_of result ≡ several_rule name.entry.now }
    ensures local { result.global ≡ false }
{
    valued(alloc, name, value, help).action(ArgAction::Append)
}

fn from<'a>(alloc: Global) -> Arg<'a>
    ensures rule { rule_of result ≡ from_rule }
    ensures local { result.global ≡ false }
{
    let help = "The columns to read [default: the first eight others]";
    text(alloc, "from", "COLUMN,..", help).action(ArgAction::Append)
}

/// The option that names the file of the rule. `--save` is its old name.
fn save_rule<'a>(alloc: Global) -> Result<Arg<'a>, AllocError>
    ensures rule { IfOk result (λ arg. rule_of arg ≡ save_rule) }
    ensures local { IfOk result (λ arg. arg.global ≡ false) }
{
    let help = "Save the rule in this file, for --rule";
    text(alloc, "save-rule", "FILE", help).alias("save")
}

/// The words that the program takes, for `clap`.
pub(crate) fn options<'a>(alloc: Global) -> Result<Command<'a>, AllocError>
    ensures { IfOk result (λ c. app_of c ≡ app) }
{
    let command = bare(alloc, ABOUT, USAGE).after_help(EXAMPLES);
    let command = with_rules(alloc, with_inputs(alloc, command)?)?;
    with_saving(alloc, with_outputs(alloc, command)?)
}

/// The words that the program takes to run a saved rule, for `clap`.
pub(crate) fn run_options<'a>(alloc: Global) -> Result<Command<'a>, AllocError>
    ensures { IfOk result (λ c. app_of c ≡ run_app) }
{
    with_runs(alloc, bare(alloc, RUN_ABOUT, RUN_USAGE))
}

/// A program that takes no words but `--help` and `--version`.
fn bare<'a>(alloc: Global, about: &'a str, usage: &'a str) -> Command<'a>
    ensures { app_of result ≡ bare_app }
{
    Command::new(alloc, "fillcsv")
        .version("0.1.0")
        .about(about)
        .override_usage(usage)
        .no_binary_name(true)
}

/// The command with the words that say which saved rule is run.
fn with_runs<'a>(alloc: Global, command: Command<'a>) -> Result<Command<'a>, AllocError>
    ensures { IfOk result (λ c. app_of c ≡ with_rules (app_of command.entry) runs) }
{
    let rule = text(
        alloc,
        "rule",
        "RULE",
        "The file of the rule, as --save-rule writes it",
    );
    let quiet = flag(alloc, "quiet", "Tell nothing of a run that succeeds");
    command.arg(rule)?.arg(quiet)
}

/// The command with the words that say what is read.
fn with_inputs<'a>(alloc: Global, command: Command<'a>) -> Result<Command<'a>, AllocError>
    ensures { IfOk result (λ c. app_of c ≡ with_rules (app_of command.entry) inputs) }
{
    let to = valued(
        alloc,
        "to",
        "COLUMN",
        "The column to fill: its name, or its number from 1",
    );
    let new = text(
        alloc,
        "new",
        "NAME",
        "Fill a new column of this name, after the last one",
    );
    let no_header = flag(
        alloc,
        "no-header",
        "The first record is a row like the others",
    );
    let example = several(
        alloc,
        "example",
        "ROW=TEXT",
        "A cell to learn from and to write: the row as a spreadsheet shows it, and the text",
    );
    let replace = flag(
        alloc,
        "replace",
        "Replace what the column holds, and learn from --example alone",
    );
    command
        .arg(file(alloc))?
        .arg(to)?
        .arg(new)?
        .arg(from(alloc))?
        .arg(no_header)?
        .arg(example)?
        .arg(replace)
}

/// The command with the words that say in which tables is looked up, and which language the rules have.
fn with_rules<'a>(alloc: Global, command: Command<'a>) -> Result<Command<'a>, AllocError>
    ensures { IfOk result (λ c. app_of c ≡ with_rules (app_of command.entry) rules) }
{
    let table = several(
        alloc,
        "table",
        "NAME=FILE",
        "A table that rules may look up in, a CSV file",
    );
    let key = several(
        alloc,
        "key",
        "TABLE:COLUMN,..",
        "The numbers of one to three columns that tell the rows of a table apart",
    );
    let depth = valued(
        alloc,
        "depth",
        "NUMBER",
        "How many lookups may stand inside each other, 1 to 3 [default: 1]",
    );
    let profile = valued(
        alloc,
        "profile",
        "NUMBER",
        "The language of the rules, 1 to 3 [default: 3]",
    );
    command.arg(table)?.arg(key)?.arg(depth)?.arg(profile)
}

/// The command with the words that say what is written.
fn with_outputs<'a>(alloc: Global, command: Command<'a>) -> Result<Command<'a>, AllocError>
    ensures { IfOk result (λ c. app_of c ≡ with_rules (app_of command.entry) outputs) }
{
    let state = flag(alloc, "state", "Add a column with the state of each cell");
    let only = valued(
        alloc,
        "only",
        "STATE",
        "Fill only the cells in this state [possible values: sure]",
    );
    let strict = flag(
        alloc,
        "strict",
        "Status 1 also where a cell is neither given nor sure",
    );
    let quiet = flag(alloc, "quiet", "Tell nothing of a sheet that was filled");
    let explain = flag(
        alloc,
        "explain",
        "Tell what else the first ten cells in doubt could be, and by which rule",
    );
    let ask = flag(
        alloc,
        "ask",
        "Ask about the cells in doubt, one after another, and learn from the answers",
    );
    command
        .arg(state)?
        .arg(only)?
        .arg(strict)?
        .arg(quiet)?
        .arg(explain)?
        .arg(ask)
}

/// The command with the words that say where the rule is saved.
fn with_saving<'a>(alloc: Global, command: Command<'a>) -> Result<Command<'a>, AllocError>
    ensures { IfOk result (λ c. app_of c ≡ with_rules (app_of command.entry) saving) }
{
    let save = save_rule(alloc)?;
    command.arg(save)
}
