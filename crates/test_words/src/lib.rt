//! What no contract says of the words of `fillcsv`, and rules in plain English.
#![tactic(auto)]

#[cfg(test)]
mod prose;
#[cfg(test)]
mod words;
