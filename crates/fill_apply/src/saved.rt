//! The conditional program that a report saves.
ghost use Rattle.std.specs.Prelude.{◌≢◌, All, Contains, IfErr, IfOk, Err, Ok};
ghost use Rattle.fill_tree.specs.Switch.{switch_tree};
ghost use Rattle.fill_print.specs.Tokens.{tokens_of};
ghost use Rattle.fill_apply.specs.Saved.{SavedBy, SavedIs, SpelledBy, columns_read};

use crate::ApplyError;
use crate::columns::first_other;
use crate::report::shown_text;
use fill_print::{Notation, ReadProgramError, read_switch};
use fill_tree::Switch;
use std::alloc::Global;

/// The conditional program that a report's bytes show last, for sheets with these input columns.
///
/// Its guards read input columns alone. Its sources may name any columns: such a source has no value where the column is
/// no input.
pub fn open_switch(alloc: Global, bytes: &[u8], inputs: &[u32]) -> Result<Switch, ApplyError>
    ensures ok { IfOk result (λ s. SavedIs inputs.now bytes.now (Ok (switch_tree s))) }
    ensures err { IfErr result (λ e. e ≢ ApplyError.NoMemory → SavedIs inputs.now bytes.now (Err e)) }
    ensures reads { IfOk result (λ s. let tree = switch_tree s in All (Contains inputs.now) (columns_read tree.cases)) }
{
    open_switch_by(alloc, bytes, inputs, Notation::Second)
}

/// The program that the last record of a file shows in this notation.
pub fn open_switch_by(
    alloc: Global,
    bytes: &[u8],
    inputs: &[u32],
    notation: Notation,
) -> Result<Switch, ApplyError>
    ensures ok { IfOk result (λ s. SavedBy (tokens_of notation) inputs.now bytes.now (Ok (switch_tree s))) }
    ensures err { IfErr result (λ e. e ≢ ApplyError.NoMemory → SavedBy (tokens_of notation) inputs.now bytes.now (Err e)) }
    ensures reads { IfOk result (λ s. let tree = switch_tree s in All (Contains inputs.now) (columns_read tree.cases)) }
{
    let text = shown_text(alloc, bytes)?;
    if text.as_slice().is_empty() {
        return Err(ApplyError::NoSwitch);
    }
    switch_in(alloc, text.as_slice(), inputs, notation)
}

/// The conditional program that a text spells in a notation.
fn switch_in(
    alloc: Global,
    text: &[u8],
    inputs: &[u32],
    notation: Notation,
) -> Result<Switch, ApplyError>
    ensures ok { IfOk result (λ s. SpelledBy (tokens_of notation) inputs.now text.now (Ok (switch_tree s))) }
    ensures err { IfErr result (λ e. e ≢ ApplyError.NoMemory → SpelledBy (tokens_of notation) inputs.now text.now (Err e)) }
{
    let switch = match read_switch(alloc, text, notation) {
        Ok(switch) => switch,
        Err(ReadProgramError::Bad { at }) => return Err(ApplyError::BadSwitch { at }),
        Err(ReadProgramError::NoMemory) => return Err(ApplyError::NoMemory),
    };
    match first_other(&switch, inputs) {
        Some(column) => Err(ApplyError::NoInput { column }),
        None => Ok(switch),
    }
}
