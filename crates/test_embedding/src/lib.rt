//! The example of `docs/EMBEDDING.md`, which quotes it word for word.
#![tactic(auto)]

#[cfg(test)]
mod example;
