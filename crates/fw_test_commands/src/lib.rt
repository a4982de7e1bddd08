//! Tests of what the program's commands call: cutting, checking and importing files, columns that are kept as tags, loading, and serving
//! scripts. They are over the public calls.
//!
//! They stand in a crate of their own so that the crates which they test are proved once.
#![tactic(auto)]

#[cfg(test)]
mod checking;
#[cfg(test)]
mod cutting;
#[cfg(test)]
mod ended;
#[cfg(test)]
mod importing;
#[cfg(test)]
mod keeping;
#[cfg(test)]
mod limits;
#[cfg(test)]
mod loads;
#[cfg(test)]
mod serving;
#[cfg(test)]
mod stores;
