//! Opening: from the words of a command and its files to a session, a saved program or a search for keys that is ready.
#![tactic(auto)]

mod apply;
mod command;
mod fault;
mod file;
mod generator;
mod keys;
mod laws;
mod refusal;
mod script;
mod session;
mod sheet;
mod stop;
mod tables;

pub use apply::{Application, open_application};
pub use command::{Command, MOST_MADE_LINES, command_of};
pub use fault::Fault;
pub use generator::{MadeFiles, made};
pub use keys::open_keys;
pub use laws::{generated_session_opens, limits_are_as_specified};
pub use refusal::Refusal;
pub use session::{Ready, open_made, open_replay};
pub use stop::{Stop, line_of};
