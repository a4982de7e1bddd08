//! What counts of a warehouse, as entries of a new one.
//!
//! A warehouse keeps each entry that it accepted, also posts that were withdrawn and the withdrawals. [`EntriesThatCount`] makes the others
//! again, each under a new number among those of its origin: 1, 2, 3 and so on. [`what_counts_stays_the_same`] says that a warehouse of
//! these has the same rows, commitments and policy, and [`a_compacted_list_is_accepted`] that there is such a warehouse.
#![tactic(auto)]

mod cursor;
mod laws;

pub use cursor::EntriesThatCount;
pub use laws::{
    a_compacted_list_is_accepted, counting_entries_are_numbered_in_turn, what_counts_stays_the_same,
};
