//! A history of numbers.
use fill_text::Text;
use fill_tree::Edit;
use fill_undo::*;
use std::alloc::Global;
use std::test::Fail;

fn add(alloc: Global, row: u32) -> Edit {
    Edit::Add {
        row,
        text: Text::new(alloc),
    }
}

/// Whether the move leads to this state, over an edit of this kind at this row.
fn leads_to(moved: Result<Moved<u32>, u32>, state: u32, kind: Kind, row: u32) -> bool {
    match moved {
        Ok(moved) => moved.state == state && moved.done == Done { kind, row },
        Err(_) => false,
    }
}

/// Whether there is no move, and the state comes back.
fn stays(moved: Result<Moved<u32>, u32>, state: u32) -> bool {
    match moved {
        Ok(_) => false,
        Err(now) => now == state,
    }
}

/// Whether the states are these.
fn has_states(history: &History<u32>, states: &[u32]) -> bool {
    if history.len() != states.len() {
        return false;
    }
    for (i, state) in states.iter().enumerate() {
        if i >= history.len() || history.state(i) != state {
            return false;
        }
    }
    true
}

/// Whether two edits, from 10 to 11 and on to 12, are undone and redone.
fn goes_back_and_forth(alloc: Global, history: &mut History<u32>) -> bool {
    history.push(&add(alloc, 3), 10);
    history.push(&Edit::Clear, 11);
    let back = leads_to(history.undo(12), 11, Kind::Clear, 0)
        && leads_to(history.undo(11), 10, Kind::Add, 3)
        && stays(history.undo(10), 10);
    let forth = leads_to(history.redo(10), 11, Kind::Add, 3)
        && has_states(history, &[10, 12])
        && leads_to(history.redo(11), 12, Kind::Clear, 0)
        && stays(history.redo(12), 12);
    back && forth
}

/// Whether a state can be changed, and is then gone back to.
fn changes_a_state(history: &mut History<u32>) -> bool {
    if history.len() < 2 {
        return false;
    }
    *history.state_mut(1) = 20;
    has_states(history, &[10, 20]) && leads_to(history.undo(12), 20, Kind::Clear, 0)
}

/// Whether of more edits the last 32 are kept, and none once they are forgotten.
fn keeps_the_latest(alloc: Global, history: &mut History<u32>) -> bool {
    for state in 0..40 {
        history.push(&Edit::Retract { row: 5 }, state);
    }
    let kept = history.len() == 32 && leads_to(history.undo(40), 39, Kind::Retract, 5);
    history.push(
        &Edit::Correct {
            row: 6,
            text: Text::new(alloc),
        },
        50,
    );
    let ends = stays(history.redo(51), 51) && leads_to(history.undo(51), 50, Kind::Correct, 6);
    history.forget();
    kept && ends && history.len() == 0
}

/// Whether the history does all this.
fn holds(alloc: Global, history: &mut History<u32>) -> bool {
    goes_back_and_forth(alloc, history)
        && changes_a_state(history)
        && keeps_the_latest(alloc, history)
}

#[test]
fn a_history(rt: HostRuntime) -> Result<(), Fail> {
    let mut history: History<u32> = History::new(rt.alloc())?;
    assert!(rt; holds(rt.alloc(), &mut history));
    Ok(())
}
