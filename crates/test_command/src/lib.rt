//! What no contract says of the files and the words of the command, through public calls: session files, saved programs,
//! the steps of the opening, and whole runs.
#![tactic(auto)]

#[cfg(test)]
mod apply;
#[cfg(test)]
mod generator;
#[cfg(test)]
mod keys;
#[cfg(test)]
mod opening;
#[cfg(test)]
mod running;
#[cfg(test)]
mod script;
