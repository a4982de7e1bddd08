//! What commitments took of the rows of an hour, and what they could have taken, at the rows' own prices.
//!
//! [`lines_at_prices`] gives the lines of an hour: for each take a line with the part of the row's costs that was taken; for each row beside each
//! commitment that applies to it a line with the row's EffectiveCost, and with what of the commitment's capacity the row could have used; for each
//! unit in which commitments count the row a line with the most that it could have used of one; and for each row to which some commitment applies
//! a line by itself. Sums over the first are what was covered, sums over the others what could have been.
//! `specs/Lines.antt` and `specs/Usable.antt` say which lines these are. Where a tag has prices, it also gives each row that a provider's
//! commitment covers at its price, as `specs/Listed.antt` says.
//!
//! [`lines_at_amounts`] gives each row of an hour at the amount that a tag of it has.
#![tactic(auto)]

mod applied;
mod covered;
mod laws;
mod lines;
mod listed;
mod open;
mod price;
mod usable;

pub use laws::{
    a_row_counts_once_in_a_unit, covered_and_uncovered_cost_what_is_eligible,
    covered_and_uncovered_cost_what_the_rows_do, lines_at_amounts_are_one,
    lines_at_amounts_cost_what_their_amounts_do,
    lines_beside_a_commitment_say_what_rows_could_have_used, listed_lines_are_one,
    listed_lines_cost_what_their_prices_do, savings_are_what_lines_cost_less,
    what_rows_use_they_could_have_used,
};
pub use lines::lines_at_prices;
pub use listed::lines_at_amounts;
