//! What no contract says of sessions and of histories, through their public calls.
#![tactic(auto)]

#[cfg(test)]
mod best;
#[cfg(test)]
mod edit;
#[cfg(test)]
mod laws;
#[cfg(test)]
mod moves;
#[cfg(test)]
mod session;
#[cfg(test)]
mod suggest;
#[cfg(test)]
mod undo;
#[cfg(test)]
mod want;
