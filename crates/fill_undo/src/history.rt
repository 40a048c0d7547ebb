//! The history.
ghost use Rattle.std.specs.Prelude.{◌≡◌, ◌≢◌, ◌↔◌, ◌+◌, ◌-◌, ◌<◌, ◌≤◌, ◌++◌, [], ◌∷◌, drop, length, IfOk, IfErr, OnErr, IsTrue, Some, vec_len, vec_capacity};
ghost use Rattle.std.specs.Borrow.{sem};
ghost use Rattle.fill_undo.specs.Done.{done_of};

use crate::{Done, Moved};
use fill_text::NoMemory;
use fill_tree::Edit;
use std::alloc::Global;
use std::marker::Model;

/// How many moves are kept, back and forth together.
const MOST_MOVES: usize = 32;

/// The edits that can be undone and those that can be redone, each with the state on its other side.
///
/// Contracts see it as two lists, `past` and `future`; the next edit to be undone, or redone, stands at the end of its list.
#[derive(Debug, Drop)]
pub struct History<S> {
    past: Vec<Moved<S>>,
    future: Vec<Moved<S>>,
}

impl<S> Model for History<S> {
    ghost use Rattle.fill_undo.specs.Moves.{Moves};

    ghost Value = { Moves S };

    ghost use Rattle.fill_undo.specs.Moves.{HaveRoom};

    ghost view = { λ history. record { past = history.past.items; future = history.future.items } };

    ghost invariant = { λ history. HaveRoom history.past history.future };
}

impl<S: Drop> History<S> {
    ghost use Rattle.fill_undo.specs.Moves.{count_of, latest, no_moves, state_at};
    ghost use Rattle.fill_undo.specs.Lends.{LendsState};

    /// A history of nothing. It takes the memory that it will ever need.
    pub fn new(alloc: Global) -> Result<History<S>, NoMemory>
        ensures { IfOk result (λ history. history ≡ no_moves) }
    {
        let past = Vec::with_capacity(alloc, MOST_MOVES)?;
        let future = Vec::with_capacity(alloc, MOST_MOVES)?;
        Ok(History { past, future })
    }

    /// Whether there is an edit to be redone.
    pub fn can_redo(&self) -> bool
        ensures { IsTrue result ↔ (self.now.future ≢ []) }
    {
        !self.future.is_empty()
    }

    /// How many states there are.
    pub fn len(&self) -> usize
        ensures count { result ≡ count_of self.now }
        ensures few { result ≤ 32 }
    {
        self.past.len() + self.future.len()
    }

    /// The state of a place, from 0: first those of the past, and then those of the future.
    pub fn state(&self, i: usize) -> &S
        requires { i < count_of self.now }
        ensures { state_at self.now i ≡ Some result.now }
    {
        let past = self.past.len();
        if i < past {
            &self.past[i].state
        } else {
            &self.future[i - past].state
        }
    }

    /// The state of a place, to be changed.
    pub fn state_mut(&mut self, i: usize) -> &mut S
        requires { i < count_of self.old }
        ensures value { state_at self.old i ≡ Some result.now }
        ensures* writes_back { sem 𝓛 (LendsState S.row self.entry i result) }
    {
        let past = self.past.len();
        if i < past {
            &mut self.past[i].state
        } else {
            &mut self.future[i - past].state
        }
    }

    /// Puts an accepted edit with the state before it at the end of the past, of which the 32 latest stay. There is no
    /// future any more.
    pub fn push(&mut self, edit: &Edit, old: S)
        ensures past { self.new.past ≡ latest (self.old.past ++ record { state = old; done = done_of edit.now } ∷ []) }
        ensures future { self.new.future ≡ [] }
    {
        let done = Done::of(edit);
        self.future.clear();
        make_room(&mut self.past);
        self.past.push_reserved(Moved { state: old, done });
    }

    /// Goes from the state `now` back to the one before the last edit, or hands `now` back where there is none.
    pub fn undo(&mut self, now: S) -> Result<Moved<S>, S>
        ensures taken { IfOk result (λ moved. self.old.past ≡ self.new.past ++ moved ∷ []) }
        ensures put { IfOk result (λ moved. self.new.future ≡ self.old.future ++ record { state = now; done = moved.done } ∷ []) }
        ensures none { OnErr result (self.old.past ≡ []) }
        ensures kept { OnErr result (self.new ≡ self.old) }
        ensures back { IfErr result (λ back. back ≡ now) }
    {
        match self.past.pop() {
            None => Err(now),
            Some(last) => {
                let done = last.done;
                self.future.push_reserved(Moved { state: now, done });
                Ok(last)
            }
        }
    }

    /// Goes from the state `now` forth to the one after the next edit, or hands `now` back where there is none.
    pub fn redo(&mut self, now: S) -> Result<Moved<S>, S>
        ensures taken { IfOk result (λ moved. self.old.future ≡ self.new.future ++ moved ∷ []) }
        ensures put { IfOk result (λ moved. self.new.past ≡ self.old.past ++ record { state = now; done = moved.done } ∷ []) }
        ensures none { OnErr result (self.old.future ≡ []) }
        ensures kept { OnErr result (self.new ≡ self.old) }
        ensures back { IfErr result (λ back. back ≡ now) }
    {
        match self.future.pop() {
            None => Err(now),
            Some(next) => {
                let done = next.done;
                self.past.push_reserved(Moved { state: now, done });
                Ok(next)
            }
        }
    }

    /// Forgets all edits and their states.
    pub fn forget(&mut self)
        ensures { self.new ≡ no_moves }
    {
        self.past.clear();
        self.future.clear();
    }
}

/// Drops the first move, if there are as many as can be.
fn make_room<S: Drop>(moves: &mut Vec<Moved<S>>)
    requires { vec_len moves.old ≤ 32 }
    ensures latest { moves.new.items ≡ drop (length moves.old.items - 31) moves.old.items }
    ensures few { vec_len moves.new < 32 }
    ensures room { vec_capacity moves.new ≡ vec_capacity moves.old }
{
    if moves.len() == MOST_MOVES {
        let _oldest = moves.remove(0);
    }
}
