//! The records of an application.
ghost use Rattle.std.specs.Prelude.{◌≡◌, ◌≤◌, ℕ, All, Contains, IsErrOf, List, OnOk, length};
ghost use Rattle.std.specs.Io.KnownBytes.{Appends};
ghost use Rattle.fill_apply.specs.Applied.{IsAppliedRecord};
ghost use Rattle.fill_apply.specs.Saved.{columns_read};
ghost use Rattle.fill_edge.specs.Outside.{AppendsPart, Rose};
ghost use Rattle.fill_open.specs.Apply.{application_data};
ghost use Rattle.fill_sheet.specs.Report.{record_text};
ghost use Rattle.fill_tree.specs.Switch.{switch_tree};
ghost use Rattle.fill_command.specs.Output.{WritesPartOfRows, WritesRows};

use fill_apply::applied_record;
use fill_edge::Sink;
use fill_open::Application;
use fill_output::Halt;
use std::alloc::Global;

/// Writes the records of what the conditional program gives on the rows of the sheet, each when it is made.
pub fn write_applied<O: Sink>(alloc: Global, a: &Application, out: &mut O) -> Result<(), Halt>
    requires { let s = switch_tree a.now.switch in let rows = a.now.sheet in All (Contains rows.inputs) (columns_read s.cases) }
    ensures whole { OnOk result (let applied = application_data a.now in WritesRows applied (length applied.sheet.rows) (O.written out.old) (O.written out.new)) }
    ensures part { IsErrOf result Halt.Fault → (let applied = application_data a.now in (n : ℕ) × (n ≤ length applied.sheet.rows) × WritesPartOfRows applied n (O.written out.old) (O.written out.new)) }
    ensures fault { IsErrOf result Halt.Fault → Rose (O.faults out.old) (O.faults out.new) }
    ensures memory { IsErrOf result Halt.NoMemory → (let applied = application_data a.now in (n : ℕ) × (n ≤ length applied.sheet.rows) × WritesRows applied n (O.written out.old) (O.written out.new)) }
{
    let rows = a.sheet.rows();
    for above in 0..rows {
        match write_row(alloc, a, above + 1, out) {
            Ok(()) => {}
            Err(halt) => return Err(halt),
        }
    }
    Ok(())
}

/// Writes the record of a row.
fn write_row<O: Sink>(alloc: Global, a: &Application, row: u32, out: &mut O) -> Result<(), Halt>
    requires inputs { let s = switch_tree a.now.switch in let rows = a.now.sheet in All (Contains rows.inputs) (columns_read s.cases) }
    requires first { 1 ≤ row }
    requires last { let sheet = a.now.sheet in row ≤ length sheet.rows }
    ensures whole { OnOk result ((fields : List (List ℕ)) × IsAppliedRecord a.now.sheet a.now.tables (switch_tree a.now.switch) row fields × Appends (O.written out.old) (O.written out.new) (record_text fields)) }
    ensures part { IsErrOf result Halt.Fault → ((fields : List (List ℕ)) × IsAppliedRecord a.now.sheet a.now.tables (switch_tree a.now.switch) row fields × AppendsPart (O.written out.old) (O.written out.new) (record_text fields)) }
    ensures fault { IsErrOf result Halt.Fault → Rose (O.faults out.old) (O.faults out.new) }
    ensures memory { IsErrOf result Halt.NoMemory → out.new ≡ out.old }
    ensures later { O.faults out.old ≤ O.faults out.new }
{
    applied_record(alloc, &a.switch, row, &a.sheet, &a.tables)?.write(out)
}
