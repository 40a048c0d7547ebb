//! What no contract says of filled sheets, through public calls: whole runs over files and output in memory.
#![tactic(auto)]

#[cfg(test)]
mod dialogue;
#[cfg(test)]
mod filling;
#[cfg(test)]
mod rules;
#[cfg(test)]
mod saving;
#[cfg(test)]
mod scene;
