//! Lists in which one may serve for others of the same value.
ghost use Rattle.std.specs.Prelude.{IsTrue, OnOk};
ghost use Rattle.fill_object.specs.Leasts.{Takes};

use fill_text::NoMemory;
use fill_tokens::Prices;

/// What may serve for others: it has their value, and is not after them.
pub(crate) trait Rival: Drop {
    ghost use Rattle.fill_tokens.specs.declared.prices.Prices.{Prices};

    ghost serving: { Prices → Self → Self → Type 0 };

    /// Whether it serves for the other, by the prices.
    fn serves(&self, other: &Self, prices: &Prices) -> bool
        ensures { IsTrue result → serving prices.now self.now other.now };
}

/// Takes one more, where none that is there serves for it; in the place of one that it serves for, if there is one.
pub(crate) fn take<T: Rival>(prices: &Prices, rivals: &mut Vec<T>, next: T) -> Result<(), NoMemory>
    ensures { OnOk result (Takes (T.serving prices.now) rivals.old.items next rivals.new.items) }
{
    for i in 0..rivals.as_slice().len() {
        if rivals[i].serves(&next, prices) {
            return Ok(());
        }
        if next.serves(&rivals[i], prices) {
            rivals[i] = next;
            return Ok(());
        }
    }
    match rivals.push(next) {
        Ok(()) => {}
        Err(_) => return Err(NoMemory),
    }
    Ok(())
}
