//! Laws of sessions.
use fill_session::laws::{
    accepted_stay_accepted, examples_are_reproduced, one_answer, one_fate, one_objector,
    one_outcome, undo_goes_back,
};

#[test]
fn laws_are_called(_rt: HostRuntime) {
    examples_are_reproduced();
    accepted_stay_accepted();
    one_fate();
    one_outcome();
    one_answer();
    one_objector();
    undo_goes_back();
}
