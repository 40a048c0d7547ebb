//! What no contract says of flags, branches and the spaces of programs, through their public calls.
#![tactic(auto)]

#[cfg(test)]
mod doubt;
#[cfg(test)]
mod space;
#[cfg(test)]
mod split;
