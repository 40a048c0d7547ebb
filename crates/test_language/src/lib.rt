//! What no contract says of the language: tokens, positions, programs, what they give, guards and the notation, through
//! their public calls.
#![tactic(auto)]

#[cfg(test)]
mod eval;
#[cfg(test)]
mod guard;
#[cfg(test)]
mod notation;
#[cfg(test)]
mod places;
#[cfg(test)]
mod print;
#[cfg(test)]
mod reach;
#[cfg(test)]
mod shapes;
#[cfg(test)]
mod spans;
#[cfg(test)]
mod tokens;
#[cfg(test)]
mod tree;
