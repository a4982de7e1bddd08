//! The entries of a warehouse as they were accepted, made again one by one from its state.
//!
//! A state keeps the heads of the entries in one sequence, and the rows of all posts in another one. [`EntriesLeft`] goes along both
//! from the front: it holds one entry at a time, and an entry that is passed over is never made. [`Runs`] lends the rows of the next one where
//! they stand.
#![tactic(auto)]

mod entries_left;
mod rows_left;
mod runs;

pub use entries_left::{EntriesLeft, row_count};
pub use runs::{Run, Runs};
