//! Records of reports, and their way to a sink.
#![tactic(auto)]

mod fields;
mod halt;
mod record;

pub use fields::{answer_field, value_word};
pub use halt::Halt;
pub use record::Record;
