//! Tests of rows, commitments and policies: how they are read, kept and compared, and what covers them. They are over the public calls.
//!
//! They stand in a crate of their own so that the crates which they test are proved once.
#![tactic(auto)]

#[cfg(test)]
mod added;
#[cfg(test)]
mod amortise;
#[cfg(test)]
mod charge;
#[cfg(test)]
mod columns;
#[cfg(test)]
mod commitment;
#[cfg(test)]
mod cover;
#[cfg(test)]
mod ended;
#[cfg(test)]
mod given;
#[cfg(test)]
mod lines;
#[cfg(test)]
mod policy;
#[cfg(test)]
mod rows;
#[cfg(test)]
mod tags;
