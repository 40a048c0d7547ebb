//! Writing a rule's file.
ghost use Rattle.std.specs.Prelude.{◌≡◌, ◌++◌, ◌∷◌, [], IfOk, OnOk, codes, map};
ghost use Rattle.std.specs.List.{flat_map};
ghost use Rattle.std.specs.Fmt.{decimal};
ghost use Rattle.fill_sheet.specs.Report.{record_text};
ghost use Rattle.fill_tree.specs.Switch.{switch_tree};
ghost use Rattle.fill_print.specs.Notation.{switch_text};
ghost use Rattle.fillcsv_rules.specs.Rule.{header_lines, names_lines, rule_data, rule_text};

use crate::lines::copied;
use crate::lookups::put_lookups;
use crate::{Names, Rule};
use fill_print::print_switch;
use fill_sheet::put_record;
use fill_text::{List, NoMemory};
use fill_tree::Switch;
use std::alloc::Global;

/// The bytes of a rule's file.
#[tactic(auto, unfolding(crate::specs::Rule::rule_text))]
pub fn rule_text(alloc: Global, rule: &Rule) -> Result<List<u8>, NoMemory>
    ensures { IfOk result (λ bytes. bytes ≡ rule_text (rule_data rule.now)) }
{
    let mut text = List::new(alloc);
    put_pair(alloc, &mut text, b"rule", b"1")?;
    put_header(alloc, &mut text, &rule.names)?;
    put_inputs(alloc, &mut text, &rule.inputs)?;
    put_output(alloc, &mut text, rule.output)?;
    put_names(alloc, &mut text, &rule.names)?;
    put_lookups(alloc, &mut text, &rule.lookups)?;
    put_switch(alloc, &mut text, &rule.switch)?;
    Ok(text)
}

/// Puts the line of the output at the end.
fn put_output(alloc: Global, to: &mut List<u8>, output: u32) -> Result<(), NoMemory>
    ensures { OnOk result (to.new ≡ to.old ++ record_text (codes "output" ∷ decimal output ∷ [])) }
{
    let mut buffer = itoa::Buffer::new();
    put_pair(alloc, to, b"output", buffer.format(output).as_bytes())
}

/// Puts the line of the program at the end.
fn put_switch(alloc: Global, to: &mut List<u8>, switch: &Switch) -> Result<(), NoMemory>
    ensures { OnOk result (to.new ≡ to.old ++ record_text (codes "switch" ∷ switch_text (switch_tree switch.now) ∷ [])) }
{
    let shown = print_switch(alloc, switch)?;
    put_pair(alloc, to, b"switch", shown.as_slice())
}

/// Puts a line of a word and a field at the end.
fn put_pair(alloc: Global, to: &mut List<u8>, word: &[u8], field: &[u8]) -> Result<(), NoMemory>
    ensures { OnOk result (to.new ≡ to.old ++ record_text (word.now ∷ field.now ∷ [])) }
{
    let mut fields = List::new(alloc);
    fields.push(copied(alloc, word)?)?;
    fields.push(copied(alloc, field)?)?;
    put_record(alloc, to, &fields)
}

/// Puts the line that says that the sheet had a header, if it had one.
fn put_header(alloc: Global, to: &mut List<u8>, names: &Option<Names>) -> Result<(), NoMemory>
    ensures { OnOk result (to.new ≡ to.old ++ flat_map record_text (header_lines names.now)) }
{
    match names {
        Some(_named) => {
            let mut fields = List::new(alloc);
            fields.push(copied(alloc, b"header")?)?;
            put_record(alloc, to, &fields)
        }
        None => Ok(()),
    }
}

/// Puts the line of the inputs at the end.
fn put_inputs(alloc: Global, to: &mut List<u8>, inputs: &[u32]) -> Result<(), NoMemory>
    ensures { OnOk result (to.new ≡ to.old ++ record_text (codes "inputs" ∷ map decimal inputs.now)) }
{
    let mut fields = List::new(alloc);
    fields.push(copied(alloc, b"inputs")?)?;
    for column in inputs {
        let mut buffer = itoa::Buffer::new();
        fields.push(copied(alloc, buffer.format(*column).as_bytes())?)?;
    }
    put_record(alloc, to, &fields)
}

/// Puts the line of the names at the end, if there are names.
fn put_names(alloc: Global, to: &mut List<u8>, names: &Option<Names>) -> Result<(), NoMemory>
    ensures { OnOk result (to.new ≡ to.old ++ flat_map record_text (names_lines names.now)) }
{
    match names {
        Some(names) => {
            let fields = names_line(alloc, names)?;
            put_record(alloc, to, &fields)
        }
        None => Ok(()),
    }
}

/// The line of the names.
fn names_line(alloc: Global, names: &Names) -> Result<List<List<u8>>, NoMemory>
    ensures { IfOk result (λ fields. fields ≡ codes "names" ∷ names.now.inputs ++ names.now.output ∷ []) }
{
    let mut fields = List::new(alloc);
    fields.push(copied(alloc, b"names")?)?;
    for name in names.inputs.as_slice() {
        fields.push(copied(alloc, name.as_slice())?)?;
    }
    fields.push(copied(alloc, names.output.as_slice())?)?;
    Ok(fields)
}
