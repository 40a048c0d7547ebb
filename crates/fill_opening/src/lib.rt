//! Steps that read files one after the other, and why they stop.
#![tactic(auto)]

mod stop;

pub use stop::Stop;
