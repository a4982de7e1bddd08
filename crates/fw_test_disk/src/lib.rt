//! Tests of the disk and the journal, over their public calls.
//!
//! They stand in a crate of their own so that the crates which they test are proved once.
#![tactic(auto)]

#[cfg(test)]
mod calls;
#[cfg(test)]
mod disk;
#[cfg(test)]
mod ended;
#[cfg(test)]
mod files;
#[cfg(test)]
mod journal;
