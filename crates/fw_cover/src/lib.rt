//! Which commitment covers which charge row in an hour, and how much of it.
//!
//! In each hour of its term a commitment has a capacity: a quantity, or a cost. The commitments come one after another, in the order that
//! [`in_order`] returns. Each meets the rows of the hour that it applies to, at lower rates first and then as they stand in the list, and
//! takes of each what is left of it ([`cover_hour`], [`cover`]). Only some rows are eligible for that ([`is_eligible`]).
//! `specs/Applies.antt` says which commitment applies to which row, `specs/Order.antt` in which order they meet, and `specs/Part.antt` and
//! `specs/Cover.antt` what is taken.
//!
//! The cost of an hour grows as the rows do, the commitments, and the pairs of a row and a commitment that lists its SKU. What the
//! commitments list is put into a table by SKU once, where each row finds its own SKU; a [`Roster`] keeps the table for the hours that
//! follow. Whoever knows which rows have one SKU looks it up once for all of them ([`Roster::offers`]) and hands in what was found
//! ([`Roster::cover_offered`]). The pairs of each commitment go into a list of their own, in the order of the rows, and only such a list is sorted, by rate.
//!
//! What was taken stands commitment by commitment ([`takes_stand_by_commitment`]), a commitment takes what it can
//! ([`commitments_take_what_they_can`]), and a row that no commitment applies to changes nothing ([`untouched_rows_change_nothing`]).
#![tactic(auto)]

mod covering;
mod eligible;
mod hour;
mod laws;
mod lending;
mod matching;
mod numbers;
mod offers;
mod order;
mod pair;
mod part;
mod roster;
mod taken;

pub use eligible::is_eligible;
pub use hour::{HourCover, cover, cover_hour};
pub use laws::{
    a_commitment_that_goes_last_changes_nothing_before_it, commitments_take_what_they_can,
    takes_apply, takes_stand_by_commitment, takes_stay_within, unlisted_rows_are_untouched,
    untouched_rows_change_nothing,
};
pub use lending::{lend, references};
pub use offers::SkuOffers;
pub use order::{in_order, is_in_term};
pub use part::in_proportion;
pub use roster::Roster;
pub use taken::Taken;
