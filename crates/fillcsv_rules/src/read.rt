//! Reading a rule's file.
ghost use Rattle.std.specs.Prelude.{◌≢◌, All, Err, IfErr, IfOk, Ok};
ghost use Rattle.fillcsv_rules.specs.File.{FileIs};
ghost use Rattle.fillcsv_rules.specs.Rule.{IsRule, rule_data};

use crate::form::form_in;
use crate::{Rule, RuleError};
use fill_apply::{ApplyError, open_switch_by};
use fill_print::Notation;
use fill_records::{read_records, records_are_few};
use std::alloc::Global;

/// The rule whose file has these bytes, or why there is none. Its program may name any token.
pub fn read_rule(alloc: Global, bytes: &[u8]) -> Result<Rule, RuleError>
    ensures ok { IfOk result (λ rule. FileIs bytes.now (Ok (rule_data rule))) }
    ensures err { IfErr result (λ e. e ≢ RuleError.NoMemory → FileIs bytes.now (Err e)) }
    ensures rule { IfOk result (λ rule. IsRule (rule_data rule)) }
{
    records_are_few(bytes);
    let lines = read_records(alloc, bytes, bytes.len())?;
    let form = form_in(alloc, lines.as_slice())?;
    match open_switch_by(alloc, bytes, form.inputs.as_slice(), Notation::All) {
        Ok(switch) => Ok(Rule {
            names: form.names,
            inputs: form.inputs,
            output: form.output,
            lookups: form.lookups,
            switch,
        }),
        Err(why) => {
            if why == ApplyError::NoMemory {
                return Err(RuleError::NoMemory);
            }
            Err(RuleError::BadLine {
                number: lines.len(),
            })
        }
    }
}
