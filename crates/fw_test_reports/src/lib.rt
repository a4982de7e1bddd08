//! Tests of what was accepted, and of reports on it, over the public calls.
//!
//! They stand in a crate of their own so that the crates which they test are proved once.
#![tactic(auto)]

#[cfg(test)]
mod ended;
#[cfg(test)]
mod given;
#[cfg(test)]
mod query;
#[cfg(test)]
mod snapshot;
#[cfg(test)]
mod warehouse;
#[cfg(test)]
mod workers;
