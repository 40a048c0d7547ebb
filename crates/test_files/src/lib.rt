//! What no contract says of the files: texts and their UTF-8, records, sheets, tables and their keys, through their public
//! calls.
#![tactic(auto)]

#[cfg(test)]
mod keys;
#[cfg(test)]
mod records;
#[cfg(test)]
mod sheet;
#[cfg(test)]
mod tables;
#[cfg(test)]
mod text;
