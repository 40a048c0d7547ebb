//! A saved rule, run as a filter over a CSV stream of any length.
#![tactic(auto)]

mod command;
mod fields;
mod file;
mod lines;
mod loaded;
mod pass;
mod places;
mod progress;
mod rows;
mod run;
mod status;
mod text;

pub use command::{Ran, run_rule};
pub use file::{RuleFile, run_rule_file};
pub use loaded::LoadedRule;
pub use run::filter_stream;
pub use status::{Ended, Status};
