//! What no contract says of sets and graphs of programs, through their public calls: made, trimmed, intersected, ranked, objected to.
#![tactic(auto)]

#[cfg(test)]
mod arena;
#[cfg(test)]
mod best;
#[cfg(test)]
mod build;
#[cfg(test)]
mod joined;
#[cfg(test)]
mod learn;
#[cfg(test)]
mod meet;
#[cfg(test)]
mod notation;
#[cfg(test)]
mod objector;
#[cfg(test)]
mod rank;
#[cfg(test)]
mod trim;
