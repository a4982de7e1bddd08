//! Tests of what is spelled in bytes: rows, terms, entries, segments and states, read and written over the public calls.
//!
//! They stand in a crate of their own so that the crates which they test are proved once.
//!
//! The table of all changes of a byte decodes some 190,000 times: `rt try --test`, which checks each step, wants `--seconds 400` for it.
#![tactic(auto)]

#[cfg(test)]
mod decoders;
#[cfg(test)]
mod ended;
#[cfg(test)]
mod entry;
#[cfg(test)]
mod segment;
#[cfg(test)]
mod vectors;
