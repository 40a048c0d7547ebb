//! The notation of guards and of conditional programs.
ghost use Rattle.std.specs.Prelude.{◌≡◌, ◌++◌, OnOk, IfOk, map};
ghost use Rattle.fill_tree.specs.Switch.{case_tree, switch_tree};
ghost use Rattle.fill_print.specs.Notation.{case_text, cases_text, guard_text, literal_text, second_text, switch_text};

use crate::pieces::{put, put_number, put_seq};
use crate::trees::put_program;
use fill_text::{List, NoMemory};
use fill_tree::{Case, Guard, Literal, Switch};
use std::alloc::Global;

fn put_literal(to: &mut List<u8>, literal: &Literal) -> Result<(), NoMemory>
    ensures { OnOk result (to.new ≡ to.old ++ literal_text literal.now) }
{
    put(to, if literal.negated { "!" } else { "" })?;
    put(to, "Match(")?;
    put_number(to, literal.column)?;
    put(to, ",")?;
    put_seq(to, &literal.seq)?;
    put(to, ",")?;
    put_number(to, literal.least as u32)?;
    put(to, ")")
}

fn put_guard(to: &mut List<u8>, guard: &Guard) -> Result<(), NoMemory>
    ensures { OnOk result (to.new ≡ to.old ++ guard_text guard.now) }
{
    put_literal(to, &guard.first)?;
    put_second(to, &guard.second)
}

/// Puts the second literal of a guard at the end, if there is one.
fn put_second(to: &mut List<u8>, second: &Option<Literal>) -> Result<(), NoMemory>
    ensures { OnOk result (to.new ≡ to.old ++ second_text second.now) }
{
    match second {
        Some(literal) => {
            put(to, "&")?;
            put_literal(to, literal)
        }
        None => Ok(()),
    }
}

fn put_case(to: &mut List<u8>, case: &Case) -> Result<(), NoMemory>
    ensures { OnOk result (to.new ≡ to.old ++ case_text (case_tree case.now)) }
{
    put_guard(to, &case.guard)?;
    put(to, "=>")?;
    put_program(to, &case.program)?;
    put(to, ";")
}

fn put_cases(to: &mut List<u8>, cases: &[Case]) -> Result<(), NoMemory>
    ensures { OnOk result (to.new ≡ to.old ++ cases_text (map case_tree cases.now)) }
{
    for case in cases {
        put_case(to, case)?;
    }
    Ok(())
}

/// The notation of a guard, as `Match(1,[Digits],2)&!Match(2,[Start Upper],1)`.
pub fn print_guard(alloc: Global, guard: &Guard) -> Result<List<u8>, NoMemory>
    ensures { IfOk result (λ bytes. bytes ≡ guard_text guard.now) }
{
    let mut bytes = List::new(alloc);
    put_guard(&mut bytes, guard)?;
    Ok(bytes)
}

/// The notation of a conditional program, as `Switch(Match(1,[Digits],1)=>Concat();else=>Concat(Const('k')))`.
pub fn print_switch(alloc: Global, switch: &Switch) -> Result<List<u8>, NoMemory>
    ensures { IfOk result (λ bytes. bytes ≡ switch_text (switch_tree switch.now)) }
{
    let mut bytes = List::new(alloc);
    put(&mut bytes, "Switch(")?;
    put_cases(&mut bytes, switch.cases.as_slice())?;
    put(&mut bytes, "else=>")?;
    put_program(&mut bytes, &switch.last)?;
    put(&mut bytes, ")")?;
    Ok(bytes)
}
