//! What an entry does: edits and moves are told apart from questions.
ghost use Rattle.std.specs.Prelude.{◌≡◌};
ghost use Rattle.fill_script.specs.Entries.{IsEntry};
ghost use Rattle.fill_report.specs.Tasks.{IsProper, task_data, task_in};

use fill_script::Entry;
use fill_tree::Edit;

/// A way along the history of edits.
#[derive(Clone, Copy)]
pub(crate) enum Way {
    /// To the state before the last accepted edit.
    Back,
    /// To the state after the last edit that was undone.
    Forth,
}

/// A question. It leaves the examples and the history as they are.
#[derive(Clone, Copy)]
pub(crate) enum Query {
    Programs,
    Switch,
    Fill,
    Count,
    Answer { row: u32 },
    Object { row: u32 },
    Best { branch: u32, k: u32 },
}

/// What an entry does.
#[derive(Clone, Copy)]
pub(crate) enum Task<'e> {
    Change(&'e Edit),
    Go(Way),
    Ask(Query),
}

/// What the entry does.
pub(crate) fn task_of(entry: &Entry) -> Task<'_>
    requires { IsEntry entry.now }
    ensures is { task_data result ≡ task_in entry.now }
    ensures proper { IsProper (task_data result) }
{
    match entry {
        Entry::Edit(edit) => Task::Change(edit),
        Entry::Undo => Task::Go(Way::Back),
        Entry::Redo => Task::Go(Way::Forth),
        Entry::Programs => Task::Ask(Query::Programs),
        Entry::Switch => Task::Ask(Query::Switch),
        Entry::Fill => Task::Ask(Query::Fill),
        Entry::Count => Task::Ask(Query::Count),
        Entry::Answer { row } => Task::Ask(Query::Answer { row: *row }),
        Entry::Object { row } => Task::Ask(Query::Object { row: *row }),
        Entry::Best { branch, k } => Task::Ask(Query::Best {
            branch: *branch,
            k: *k,
        }),
    }
}
