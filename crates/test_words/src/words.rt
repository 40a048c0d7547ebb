//! Words, and what they ask for.
use fillcsv_options::{Order, Refusal, read_words};
use std::alloc::{AllocError, Global};
use std::test::Fail;

/// What the words of a line ask for, as text.
fn answer(alloc: Global, words: &[String]) -> Result<String, AllocError> {
    match read_words(alloc, words) {
        Ok(Order::Fill(asked)) => format!(in alloc; "{asked:?}"),
        Ok(Order::Run(saved)) => format!(in alloc; "{saved:?}"),
        Err(Refusal::Shown(text)) => format!(in alloc; "shown: {text}"),
        Err(Refusal::Usage(text)) => format!(in alloc; "wrong: {text}"),
        Err(Refusal::NoMemory) => Err(AllocError),
    }
}

/// What a line asks for, whose words stand with a space between them.
fn answer_to(alloc: Global, line: &str) -> Result<String, AllocError> {
    let mut words = Vec::new(alloc);
    for word in line.split(' ') {
        words.push(String::from_str(alloc, word)?)?;
    }
    answer(alloc, words.as_slice())
}

/// Whether a line asks for this.
fn asks(alloc: Global, line: &str, wanted: &str) -> Result<bool, AllocError> {
    let answer = answer_to(alloc, line)?;
    Ok(answer.as_str() == wanted)
}

#[test]
fn words_that_ask(rt: HostRuntime) -> Result<(), Fail> {
    let table: [(&str, &str); 11] = [
        (
            "people.csv --to Label",
            "Asked { file: \"people.csv\", to: There(\"Label\"), from: [], header: true, examples: [], replace: false, lookups: [], depth: One, states: false, only_sure: false, profile: Third, quiet: false, explain: false, ask: false, strict: false, save: None }",
        ),
        (
            "--state --only=sure people.csv --profile 2 --to=Label --from Name,City --no-header --from 5",
            "Asked { file: \"people.csv\", to: There(\"Label\"), from: [\"Name\", \"City\", \"5\"], header: false, examples: [], replace: false, lookups: [], depth: One, states: true, only_sure: true, profile: Second, quiet: false, explain: false, ask: false, strict: false, save: None }",
        ),
        (
            "people.csv --new Initials --example 2=AB --replace --example=30= --quiet --example 4=a=b --strict",
            "Asked { file: \"people.csv\", to: New(\"Initials\"), from: [], header: true, examples: [Typed { row: 2, text: \"AB\" }, Typed { row: 30, text: \"\" }, Typed { row: 4, text: \"a=b\" }], replace: true, lookups: [], depth: One, states: false, only_sure: false, profile: Third, quiet: true, explain: false, ask: false, strict: true, save: None }",
        ),
        (
            "sales.csv --to Month --key months:1 --table months=months.csv --depth 2 --table=a=b=c --key a:2,1,30",
            "Asked { file: \"sales.csv\", to: There(\"Month\"), from: [], header: true, examples: [], replace: false, lookups: [Table { name: \"months\", file: \"months.csv\" }, Table { name: \"a\", file: \"b=c\" }, Key { table: \"months\", columns: [1] }, Key { table: \"a\", columns: [2, 1, 30] }], depth: Two, states: false, only_sure: false, profile: Third, quiet: false, explain: false, ask: false, strict: false, save: None }",
        ),
        (
            "people.csv --to Label --save-rule label.rule",
            "Asked { file: \"people.csv\", to: There(\"Label\"), from: [], header: true, examples: [], replace: false, lookups: [], depth: One, states: false, only_sure: false, profile: Third, quiet: false, explain: false, ask: false, strict: false, save: Some(\"label.rule\") }",
        ),
        (
            "people.csv --to Label --save=label.rule",
            "Asked { file: \"people.csv\", to: There(\"Label\"), from: [], header: true, examples: [], replace: false, lookups: [], depth: One, states: false, only_sure: false, profile: Third, quiet: false, explain: false, ask: false, strict: false, save: Some(\"label.rule\") }",
        ),
        (
            "people.csv --to Label --ask",
            "Asked { file: \"people.csv\", to: There(\"Label\"), from: [], header: true, examples: [], replace: false, lookups: [], depth: One, states: false, only_sure: false, profile: Third, quiet: false, explain: false, ask: true, strict: false, save: None }",
        ),
        (
            "people.csv --to Label --replace --ask",
            "Asked { file: \"people.csv\", to: There(\"Label\"), from: [], header: true, examples: [], replace: true, lookups: [], depth: One, states: false, only_sure: false, profile: Third, quiet: false, explain: false, ask: true, strict: false, save: None }",
        ),
        (
            "--rule=label.rule --quiet",
            "Saved { rule: \"label.rule\", quiet: true }",
        ),
        (
            "--to -- --people.csv",
            "wrong: error: a value is required for '--to <COLUMN>' but none was supplied\n\nFor more information, try '--help'.\n",
        ),
        (
            "--to 3 -- --people.csv",
            "Asked { file: \"--people.csv\", to: There(\"3\"), from: [], header: true, examples: [], replace: false, lookups: [], depth: One, states: false, only_sure: false, profile: Third, quiet: false, explain: false, ask: false, strict: false, save: None }",
        ),
    ];
    for (line, wanted) in table {
        assert!(rt; asks(rt.alloc(), line, wanted)?, "{line}");
    }
    Ok(())
}

#[test]
fn words_that_are_wrong(rt: HostRuntime) -> Result<(), Fail> {
    let table: [(&str, &str); 29] = [
        (
            "people.csv",
            "wrong: error: the following required arguments were not provided:\n  <--to <COLUMN>|--new <NAME>>\n\nFor more information, try '--help'.\n",
        ),
        (
            "--to Label",
            "wrong: error: the following required arguments were not provided:\n  <FILE>\n\nUsage: fillcsv [OPTIONS] <--to <COLUMN>|--new <NAME>> <FILE>\n       fillcsv --rule <RULE> [--quiet]\n\nFor more information, try '--help'.\n",
        ),
        (
            "people.csv --to Label --new Name",
            "wrong: error: the argument '--to <COLUMN>' cannot be used with '--new <NAME>'\n\nFor more information, try '--help'.\n",
        ),
        (
            "people.csv --to Label --ask --quiet",
            "wrong: error: the argument '--ask' cannot be used with '--quiet'\n\nFor more information, try '--help'.\n",
        ),
        (
            "- --to Label --ask",
            "wrong: error: the argument '--ask' cannot be used with the FILE '-': it reads the answers from standard input\n\nFor more information, try '--help'.\n",
        ),
        (
            "people.csv --to Label --form Name",
            "wrong: error: unexpected argument '--form' found\n\n  tip: a similar argument exists: '--from'\n\nUsage: fillcsv [OPTIONS] <--to <COLUMN>|--new <NAME>> <FILE>\n       fillcsv --rule <RULE> [--quiet]\n\nFor more information, try '--help'.\n",
        ),
        (
            "people.csv --to Label --save a.rule --save-rule b.rule",
            "wrong: error: the argument '--save-rule <FILE>' cannot be used multiple times\n\nUsage: fillcsv [OPTIONS] <--to <COLUMN>|--new <NAME>> <FILE>\n       fillcsv --rule <RULE> [--quiet]\n\nFor more information, try '--help'.\n",
        ),
        (
            "people.csv --to Label --replace",
            "wrong: error: the argument '--replace' cannot be used without '--example <ROW=TEXT>' or '--ask': there is nothing to learn from\n\nFor more information, try '--help'.\n",
        ),
        (
            "people.csv --to Label --save-rule people.csv",
            "wrong: error: invalid value 'people.csv' for '--save-rule <FILE>': this file is read, and the rule would be written over it\n\nFor more information, try '--help'.\n",
        ),
        (
            "people.csv --to Label --save-rule months.csv --table months=months.csv",
            "wrong: error: invalid value 'months.csv' for '--save-rule <FILE>': this file is read, and the rule would be written over it\n\nFor more information, try '--help'.\n",
        ),
        (
            "people.csv --to Label --only often",
            "wrong: error: invalid value 'often' for '--only <STATE>'\n  [possible values: sure]\n\nFor more information, try '--help'.\n",
        ),
        (
            "people.csv --to Label --profile 4",
            "wrong: error: invalid value '4' for '--profile <NUMBER>'\n  [possible values: 1, 2, 3]\n\nFor more information, try '--help'.\n",
        ),
        (
            " --to Label",
            "wrong: error: a value is required for '<FILE>' but none was supplied\n\nFor more information, try '--help'.\n",
        ),
        (
            "people.csv --to Label --to Name",
            "wrong: error: the argument '--to <COLUMN>' cannot be used multiple times\n\nUsage: fillcsv [OPTIONS] <--to <COLUMN>|--new <NAME>> <FILE>\n       fillcsv --rule <RULE> [--quiet]\n\nFor more information, try '--help'.\n",
        ),
        (
            "people.csv --to Label --example five",
            "wrong: error: invalid value 'five' for '--example <ROW=TEXT>': a row's number and '=' stand in front of its text\n\nFor more information, try '--help'.\n",
        ),
        (
            "people.csv --to Label --example =x",
            "wrong: error: invalid value '=x' for '--example <ROW=TEXT>': a row's number and '=' stand in front of its text\n\nFor more information, try '--help'.\n",
        ),
        (
            "people.csv --to Label --example 05=x",
            "wrong: error: invalid value '05=x' for '--example <ROW=TEXT>': a row's number and '=' stand in front of its text\n\nFor more information, try '--help'.\n",
        ),
        (
            "people.csv --to Label --example 0=x",
            "wrong: error: invalid value '0=x' for '--example <ROW=TEXT>': a row's number and '=' stand in front of its text\n\nFor more information, try '--help'.\n",
        ),
        (
            "people.csv --to Label --example +5=x",
            "wrong: error: invalid value '+5=x' for '--example <ROW=TEXT>': a row's number and '=' stand in front of its text\n\nFor more information, try '--help'.\n",
        ),
        (
            "people.csv --to Label --example 4294967296=x",
            "wrong: error: invalid value '4294967296=x' for '--example <ROW=TEXT>': a row's number and '=' stand in front of its text\n\nFor more information, try '--help'.\n",
        ),
        (
            "people.csv --to Label --example 5",
            "wrong: error: invalid value '5' for '--example <ROW=TEXT>': a row's number and '=' stand in front of its text\n\nFor more information, try '--help'.\n",
        ),
        (
            "people.csv --to Label --example 5=x --example 6=x --example 5=x",
            "wrong: error: invalid value '5=x' for '--example <ROW=TEXT>': the row has an example already\n\nFor more information, try '--help'.\n",
        ),
        (
            "people.csv --to Label --table months.csv",
            "wrong: error: invalid value 'months.csv' for '--table <NAME=FILE>': a name and '=' stand in front of the table's file\n\nFor more information, try '--help'.\n",
        ),
        (
            "people.csv --to Label --key months:1,0",
            "wrong: error: invalid value 'months:1,0' for '--key <TABLE:COLUMN,..>': a table's name and ':' stand in front of the numbers of one to three of its columns\n\nFor more information, try '--help'.\n",
        ),
        (
            "people.csv --to Label --key months:1,2,1",
            "wrong: error: invalid value 'months:1,2,1' for '--key <TABLE:COLUMN,..>': a table's name and ':' stand in front of the numbers of one to three of its columns\n\nFor more information, try '--help'.\n",
        ),
        (
            "people.csv --to Label --save label.rule --table months=months.csv",
            "Asked { file: \"people.csv\", to: There(\"Label\"), from: [], header: true, examples: [], replace: false, lookups: [Table { name: \"months\", file: \"months.csv\" }], depth: One, states: false, only_sure: false, profile: Third, quiet: false, explain: false, ask: false, strict: false, save: Some(\"label.rule\") }",
        ),
        (
            "--rule label.rule people.csv",
            "wrong: error: unexpected argument 'people.csv' found\n\nUsage: fillcsv --rule <RULE> [--quiet] < SHEET > FILLED\n\nFor more information, try '--help'.\n",
        ),
        (
            "--rule",
            "wrong: error: a value is required for '--rule <RULE>' but none was supplied\n\nFor more information, try '--help'.\n",
        ),
        (
            "people.csv --to Label --depth 4",
            "wrong: error: invalid value '4' for '--depth <NUMBER>'\n  [possible values: 1, 2, 3]\n\nFor more information, try '--help'.\n",
        ),
    ];
    for (line, wanted) in table {
        assert!(rt; asks(rt.alloc(), line, wanted)?, "{line}");
    }
    Ok(())
}

const HELP: &str =
    "shown: Fills in a column of a CSV sheet: it learns from the cells that are filled how they come from
other columns, and writes the sheet with the empty ones filled.

Usage: fillcsv [OPTIONS] <--to <COLUMN>|--new <NAME>> <FILE>
       fillcsv --rule <RULE> [--quiet]

Arguments:
  <FILE>  The sheet, a CSV file

Options:
      --to <COLUMN>            The column to fill: its name, or its number from 1
      --new <NAME>             Fill a new column of this name, after the last one
      --from <COLUMN,..>       The columns to read [default: the first eight others]
      --no-header              The first record is a row like the others
      --example <ROW=TEXT>     A cell to learn from and to write: the row as a spreadsheet shows it, and the text
      --replace                Replace what the column holds, and learn from --example alone
      --table <NAME=FILE>      A table that rules may look up in, a CSV file
      --key <TABLE:COLUMN,..>  The numbers of one to three columns that tell the rows of a table apart
      --depth <NUMBER>         How many lookups may stand inside each other, 1 to 3 [default: 1]
      --profile <NUMBER>       The language of the rules, 1 to 3 [default: 3]
      --state                  Add a column with the state of each cell
      --only <STATE>           Fill only the cells in this state [possible values: sure]
      --strict                 Status 1 also where a cell is neither given nor sure
      --quiet                  Tell nothing of a sheet that was filled
      --explain                Tell what else the first ten cells in doubt could be, and by which rule
      --ask                    Ask about the cells in doubt, one after another, and learn from the answers
      --save-rule <FILE>       Save the rule in this file, for --rule
  -h, --help                   Print help
  -V, --version                Print version

Examples:
  fillcsv people.csv --to Label
  fillcsv people.csv --to Label --from Name,City --state
  fillcsv people.csv --to Label --example '5=Noether (Erlangen)' --example 7=
  fillcsv people.csv --new Initials --example 2=AB
  fillcsv sales.csv --to Month --table months=months.csv --key months:1
  fillcsv people.csv --to Label --ask > filled.csv
  fillcsv people.csv --to Label --save-rule label.rule
  fillcsv --rule label.rule < more.csv > filled.csv
";

#[test]
fn texts_that_are_shown(rt: HostRuntime) -> Result<(), Fail> {
    let table: [(&str, &str); 3] = [
        ("--help", HELP),
        ("people.csv -h", HELP),
        ("--version", "shown: fillcsv 0.1.0\n"),
    ];
    for (line, wanted) in table {
        assert!(rt; asks(rt.alloc(), line, wanted)?, "{line}");
    }
    Ok(())
}
