//! What every place has by the types of its parts.
ghost use Rattle.std.specs.Prelude.{FitsSigned};
ghost use Rattle.std.specs.Int.{w32};
ghost use Rattle.fill_arena.specs.Contents.{EachIn};
ghost use Rattle.fill_arena.specs.WellMade.{IsSized};

use fill_tokens::Place;

/// A number of 32 bits is one. The call does nothing: what it tells is its clause.
fn keeps_number(number: i32)
    ensures { FitsSigned w32 number }
{
    let _number = number;
}

/// A place has a number of 32 bits, and at most three tokens on each side. The call does nothing: what it tells is its
/// clause.
fn keeps_size(place: &Place)
    ensures { IsSized place.now }
{
    match place {
        Place::CPos(number) => keeps_number(*number),
        Place::Pos(left, right, count) => {
            let _tokens = left.len() + right.len();
            keeps_number(*count);
        }
    }
}

/// So has each of these places.
pub(crate) fn keep_sizes(places: &[Place])
    ensures { EachIn IsSized places.now }
{
    for i in 0..places.len() {
        keeps_size(&places[i]);
    }
}
