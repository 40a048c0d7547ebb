//! The rule that was learned, as the text that `--rule` reads.
ghost use Rattle.std.specs.Prelude.{◌≡◌, ℕ, List as Listed, All, IfOk, OnErr, OnOk, Some, map, option_copied, option_map, string_bytes};
ghost use Rattle.fill_edge.specs.Outside.{Rose};
ghost use Rattle.fill_records.specs.Records.{field_of};
ghost use Rattle.fill_sheet.specs.Columns.{IsColumn};
ghost use Rattle.fill_tree.specs.Switch.{switch_tree};
ghost use Rattle.fill_tree.specs.declared.user.Example.{Example};
ghost use Rattle.fill_space.specs.declared.ground.Ground.{Ground};
ghost use Rattle.fillcsv_rules.specs.Rule.{rule_text};
ghost use Rattle.fillcsv_options.specs.Words.{data_of, lookup_data, target_data};
ghost use Rattle.fillcsv_blocks.specs.Blocks.{StandsFor};
ghost use Rattle.fillcsv_run.specs.Read.{AreChosen, AreParts, frame_data, read_data};
ghost use Rattle.fillcsv_run.specs.Saved.{IsSavedText, frame_of, lacks_rule, output_name, rule_with, saving_of, stored};

use crate::columns::rising;
use crate::opening::SheetFile;
use fill_edge::Failed;
use fill_files::Store;
use fill_records::Record;
use fill_text::{List, NoMemory};
use fill_tree::Switch;
use fillcsv_blocks::Block;
use fillcsv_options::{Asked, Lookup, Target};
use fillcsv_rules::{Names, Rule, rule_text};
use std::alloc::{AllocError, Global};

/// What a rule has beside its program.
#[derive(Drop)]
pub(crate) struct RuleFrame {
    /// The names of its columns, where the first record of the sheet names them.
    pub names: Option<Names>,
    /// The columns that it reads, in rising order.
    pub inputs: Vec<u32>,
    /// The column that it fills.
    pub output: u32,
    /// The tables that it looks up in, and their keys.
    pub lookups: Vec<Lookup>,
}

/// The frame of the rule that is to be saved, if one is.
pub(crate) fn saving_of(
    alloc: Global,
    asked: &Asked,
    read: &SheetFile,
) -> Result<Option<RuleFrame>, NoMemory>
    requires { AreChosen read.now.choice }
    ensures { (bytes : Listed ℕ) → AreParts (data_of asked.now) bytes read.now → IfOk result (λ saving. option_map frame_data saving ≡ saving_of (data_of asked.now) (read_data (data_of asked.now) bytes read.now)) }
{
    match asked.save {
        Some(_) => Ok(Some(frame_of(alloc, asked, read)?)),
        None => Ok(None),
    }
}

/// The frame of the rule for a sheet.
fn frame_of(alloc: Global, asked: &Asked, read: &SheetFile) -> Result<RuleFrame, NoMemory>
    requires { AreChosen read.now.choice }
    ensures { (bytes : Listed ℕ) → AreParts (data_of asked.now) bytes read.now → IfOk result (λ frame. frame_data frame ≡ frame_of (data_of asked.now) (read_data (data_of asked.now) bytes read.now)) }
{
    let inputs = rising(alloc, &read.choice.from)?;
    let output = read.choice.to;
    let names = names_in(alloc, asked, read.header.as_ref(), &inputs, output)?;
    Ok(RuleFrame {
        names,
        inputs,
        output,
        lookups: copied(alloc, &asked.lookups)?,
    })
}

/// Tables and keys, copied.
fn copied(alloc: Global, lookups: &[Lookup]) -> Result<Vec<Lookup>, NoMemory>
    ensures { IfOk result (λ copies. map lookup_data copies.items ≡ map lookup_data lookups.now) }
{
    let mut copies = Vec::with_capacity(alloc, lookups.len())?;
    for lookup in lookups {
        copies.push(copy_of(alloc, lookup)?)?;
    }
    Ok(copies)
}

/// A copy of a table or of a key.
fn copy_of(alloc: Global, lookup: &Lookup) -> Result<Lookup, AllocError>
    ensures { IfOk result (λ copy. lookup_data copy ≡ lookup_data lookup.now) }
{
    match lookup {
        Lookup::Table { name, file } => Ok(Lookup::Table {
            name: String::from_str(alloc, name.as_str())?,
            file: String::from_str(alloc, file.as_str())?,
        }),
        Lookup::Key { table, columns } => Ok(Lookup::Key {
            table: String::from_str(alloc, table.as_str())?,
            columns: Vec::from_slice(alloc, columns)?,
        }),
    }
}

/// The names of a rule's columns, where there is a header.
fn names_in(
    alloc: Global,
    asked: &Asked,
    header: Option<&Record>,
    inputs: &[u32],
    output: u32,
) -> Result<Option<Names>, NoMemory>
    requires inputs { All IsColumn inputs.now }
    requires output { IsColumn output }
    ensures { IfOk result (λ names. names ≡ option_map (λ fields. record { inputs = map (λ column. field_of column fields) inputs.now; output = output_name (data_of asked.now).to output fields }) (option_copied header.entry)) }
{
    match header {
        Some(header) => match rule_names(alloc, asked, inputs, output, header) {
            Ok(names) => Ok(Some(names)),
            Err(NoMemory) => Err(NoMemory),
        },
        None => Ok(None),
    }
}

/// The names of a rule's columns in a header.
fn rule_names(
    alloc: Global,
    asked: &Asked,
    inputs: &[u32],
    output: u32,
    header: &Record,
) -> Result<Names, NoMemory>
    requires inputs { All IsColumn inputs.now }
    requires output { IsColumn output }
    ensures { IfOk result (λ names. names ≡ record { inputs = map (λ column. field_of column header.now) inputs.now; output = output_name (data_of asked.now).to output header.now }) }
{
    Ok(Names {
        inputs: names_of(alloc, header, inputs)?,
        output: output_name(alloc, &asked.to, output, header)?,
    })
}

/// The names of these columns in a header.
fn names_of(alloc: Global, header: &Record, columns: &[u32]) -> Result<List<List<u8>>, NoMemory>
    requires { All IsColumn columns.now }
    ensures { IfOk result (λ names. names ≡ map (λ column. field_of column header.now) columns.now) }
{
    let mut names = List::new(alloc);
    for column in columns {
        names.push(name_of(alloc, header, *column)?)?;
    }
    Ok(names)
}

/// The name of a column in a header.
fn name_of(alloc: Global, header: &Record, column: u32) -> Result<List<u8>, NoMemory>
    requires { IsColumn column }
    ensures { IfOk result (λ name. name ≡ field_of column header.now) }
{
    let mut name = List::new(alloc);
    name.append(header.field(column))?;
    Ok(name)
}

/// The name of the column that is filled.
fn output_name(
    alloc: Global,
    to: &Target,
    column: u32,
    header: &Record,
) -> Result<List<u8>, NoMemory>
    requires { IsColumn column }
    ensures { IfOk result (λ name. name ≡ output_name (target_data to.now) column header.now) }
{
    match to {
        Target::There(_) => name_of(alloc, header, column),
        Target::New(name) => {
            let mut copy = List::new(alloc);
            copy.append(name.as_bytes())?;
            Ok(copy)
        }
    }
}

/// The text that is saved: that of the rule of a session, where it is to be saved and there is one.
pub(crate) fn saved_text(
    alloc: Global,
    saving: Option<RuleFrame>,
    block: &Block,
) -> Result<Option<List<u8>>, NoMemory>
    ensures { IfOk result (λ text. (g : Ground) (examples : Listed Example) → StandsFor g block.now examples → IsSavedText (option_map frame_data saving) g examples text) }
{
    let Some(frame) = saving else {
        return Ok(None);
    };
    match block.switch()? {
        Some(switch) => Ok(Some(text_of(alloc, frame, switch)?)),
        None => Ok(None),
    }
}

/// The text of the rule of a frame and a program.
fn text_of(alloc: Global, frame: RuleFrame, switch: Switch) -> Result<List<u8>, NoMemory>
    ensures { IfOk result (λ text. text ≡ rule_text (rule_with (frame_data frame) (switch_tree switch))) }
{
    let rule = Rule {
        names: frame.names,
        inputs: frame.inputs,
        output: frame.output,
        lookups: frame.lookups,
        switch,
    };
    rule_text(alloc, &rule)
}

/// Saves a text under a path, where both are there.
pub(crate) fn store_text<T: Store>(
    store: &mut T,
    path: &Option<String>,
    text: &Option<List<u8>>,
) -> Result<(), Failed>
    ensures ok { OnOk result (T.saved store.new ≡ stored (option_map string_bytes path.now) text.now (T.saved store.old)) }
    ensures err { OnErr result (Rose (T.faults store.old) (T.faults store.new)) }
    ensures unsaved { OnErr result (T.saved store.new ≡ T.saved store.old) }
    ensures both { OnErr result ((at : Listed ℕ) × (what : Listed ℕ) × (option_map string_bytes path.now ≡ Some at) × (text.now ≡ Some what)) }
{
    match (path, text) {
        (Some(path), Some(text)) => store.save(path.as_str(), text.as_slice()),
        _ => Ok(()),
    }
}

/// Whether a rule is to be saved, and there is none.
pub(crate) fn lacks_rule(path: &Option<String>, text: &Option<List<u8>>) -> bool
    ensures { result ≡ lacks_rule (option_map string_bytes path.now) text.now }
{
    path.is_some() && text.is_none()
}
