//! What is told of a filled sheet.
ghost use Rattle.std.specs.Prelude.{◌≡◌, ◌||◌};
ghost use Rattle.fillcsv_rows.specs.Filled.{is_unsure};

use fill_states::RowState;

/// What is told of a filled sheet.
#[derive(Clone, Copy, Debug)]
pub struct Summary {
    pub counts: Counts,
    /// Whether some cell is neither given nor sure.
    pub unsure: bool,
}

impl Summary {
    /// Of no rows.
    pub const NONE: Summary = Summary {
        counts: Counts::NONE,
        unsure: false,
    };

    /// Tells of one more row.
    pub fn add(&mut self, row: u32, state: RowState)
        ensures { self.new.unsure ≡ (self.old.unsure || is_unsure state) }
    {
        self.counts.add(row, state);
        self.unsure = is_unsure_with(self.unsure, state);
    }
}

/// Whether a cell is neither given nor sure, or one before it.
fn is_unsure_with(before: bool, state: RowState) -> bool
    ensures { result ≡ (before || is_unsure state) }
{
    if before {
        return true;
    }
    is_unsure(state)
}

/// Whether a cell is neither given nor sure.
fn is_unsure(state: RowState) -> bool
    ensures { result ≡ is_unsure state }
{
    match state {
        RowState::Given | RowState::Sure => false,
        RowState::Doubt | RowState::Nothing | RowState::NothingInDoubt => true,
    }
}

/// How many cells have each state, and the first rows that are worth a look.
#[derive(Clone, Copy, Debug)]
pub struct Counts {
    pub given: u32,
    pub sure: u32,
    pub doubt: u32,
    pub nothing: u32,
    pub nothing_in_doubt: u32,
    /// The first rows in doubt, from 1, and 0 where there are fewer.
    pub doubtful: [u32; Counts::SHOWN],
}

impl Counts {
    /// How many rows in doubt are told.
    pub const SHOWN: usize = 10;

    /// Of no rows.
    const NONE: Counts = Counts {
        given: 0,
        sure: 0,
        doubt: 0,
        nothing: 0,
        nothing_in_doubt: 0,
        doubtful: [0; Counts::SHOWN],
    };

    /// Counts one more row.
    fn add(&mut self, row: u32, state: RowState) {
        match state {
            RowState::Given => self.given = self.given.saturating_add(1),
            RowState::Sure => self.sure = self.sure.saturating_add(1),
            RowState::Doubt => {
                self.doubt = self.doubt.saturating_add(1);
                self.note(row);
            }
            RowState::Nothing => self.nothing = self.nothing.saturating_add(1),
            RowState::NothingInDoubt => {
                self.nothing_in_doubt = self.nothing_in_doubt.saturating_add(1);
                self.note(row);
            }
        }
    }

    /// Notes a row in doubt, where there is room for it.
    fn note(&mut self, row: u32) {
        for i in 0..Counts::SHOWN {
            if self.doubtful[i] == 0 {
                self.doubtful[i] = row;
                return;
            }
        }
    }
}
