//! How far constants may go.
ghost use Rattle.std.specs.Prelude.{◌≤◌, length};
ghost use Rattle.fill_build.specs.Pieces.{AreAllowed};

use fill_text::is_separator;
use fill_tree::Constants;

/// How many of the first characters may stand in a constant together.
pub(crate) fn constant_width(constants: Constants, rest: &[char]) -> usize
    ensures within { result ≤ length rest.now }
    ensures exact { AreAllowed constants rest.now result }
{
    match constants {
        Constants::Any => rest.len(),
        Constants::Separators => separators(rest),
    }
}

/// How many of the first characters are separators, up to the first that is none.
fn separators(rest: &[char]) -> usize
    ensures within { result ≤ length rest.now }
    ensures exact { AreAllowed Constants.Separators rest.now result }
{
    for i in 0..rest.len() {
        if !is_separator(rest[i]) {
            return i;
        }
    }
    rest.len()
}
