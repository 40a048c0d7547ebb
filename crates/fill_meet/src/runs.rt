//! Lists of numbers.
ghost use Rattle.std.specs.Prelude.{◌≡◌, ◌≤◌, [], length, IfOk, IsTrue, OnOk};
ghost use Rattle.fill_meet.specs.Runs.{Grows, HasFrom};

use fill_text::NoMemory;
use std::alloc::Global;

/// A list of numbers within another one, from a place up to another one.
#[derive(Clone, Copy)]
pub(crate) struct Run {
    pub(crate) start: usize,
    pub(crate) end: usize,
}

/// Lists of numbers, one after the other, and for each number the place where it was last put.
#[derive(Drop)]
pub(crate) struct Runs {
    pub(crate) numbers: Vec<usize>,
    pub(crate) lasts: Vec<usize>,
}

impl Runs {
    /// No list yet, of numbers up to the count.
    pub(crate) fn new(alloc: Global, count: usize) -> Result<Runs, NoMemory>
        ensures { IfOk result (λ runs. runs.numbers.items ≡ []) }
    {
        let lasts = vec![in alloc; 0; count]?;
        Ok(Runs {
            numbers: Vec::new(alloc),
            lasts,
        })
    }

    /// Whether the number was last put at this place or later.
    pub(crate) fn has(&self, start: usize, number: usize) -> bool
        ensures { IsTrue result → HasFrom self.now.numbers.items start number }
    {
        if number >= self.lasts.len() {
            return false;
        }
        let last = self.lasts[number];
        if last < start {
            return false;
        }
        if last >= self.numbers.len() {
            return false;
        }
        self.numbers[last] == number
    }

    /// Puts the number at the end, if it was not put at this place or later.
    #[tactic(auto, using(crate::proofs::Grown::from_pushed, crate::proofs::Grown::grows_pushed, crate::proofs::Grown::grows_same))]
    pub(crate) fn put(&mut self, start: usize, number: usize) -> Result<(), NoMemory>
        requires { start ≤ length self.old.numbers.items }
        ensures has { OnOk result (HasFrom self.new.numbers.items start number) }
        ensures grown { OnOk result (Grows self.old.numbers.items self.new.numbers.items) }
    {
        if self.has(start, number) {
            return Ok(());
        }
        if number < self.lasts.len() {
            self.lasts[number] = self.numbers.len();
        }
        self.numbers.push(number)?;
        Ok(())
    }
}
