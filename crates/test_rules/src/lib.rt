//! What no contract says of saved rules, through public calls: whole runs over streams and output in memory.
#![tactic(auto)]

#[cfg(test)]
mod files;
#[cfg(test)]
mod running;
