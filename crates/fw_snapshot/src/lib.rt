//! The state of a warehouse as a value that is never changed: what was accepted, and the verdict on what comes next.
//!
//! [`judge`] and [`State::apply`] cost the same in a warehouse of ten entries and in one of a million, but for a
//! logarithm, and what an entry itself brings. Nothing is copied for each row or entry that was accepted: heads and
//! segments are persistent sequences, to which a push adds two blocks at most, and a new state shares the rest with the
//! old one. No row is read again: beside the entries a state keeps counters, which say how many entries each origin sent,
//! how many commitments have each id and how many posts use it, and the verdict asks nothing else of the warehouse than
//! these and two lengths. A post counts once for each id that its rows carry, so each count can be taken back. The
//! counters are balanced trees, of which a new count copies one path. Commitments alone are copied when one more comes,
//! and there are at most 256 of them.
#![tactic(auto)]

mod head;
mod judging;
mod laws;
mod parts;
mod places;
mod posts;
mod snapshot;
mod state;
mod verdict;

pub use fw_entry::{Command, Entry, EntryFault};
pub use fw_posted::CountingSegments;
pub use head::{Content, Head};
pub use judging::judge;
pub use laws::{
    a_gap_names_the_next_number, a_refusal_has_its_reason, a_repeat_changes_nothing,
    a_repeat_is_answered_already, a_sender_is_kept_in_its_order, a_sender_withdraws_its_own_posts,
    accepted_entries_are_legal, each_commitment_has_its_own_id, each_entry_once,
    entries_are_judged_in_turn, no_number_is_missing, no_row_has_the_id_of_a_commitment,
    numbers_are_in_turn, rows_and_commitments_are_few, sending_again_changes_nothing,
    sent_at_least_once_is_kept_once, what_breaks_no_rule_is_accepted,
    what_is_accepted_breaks_no_rule, what_is_sent_often_stands_once,
};
pub use snapshot::Snapshot;
pub use state::{JoinedState, State, StateBuilder};
pub use verdict::{Conflict, Verdict};
