//! What the commitments cost hour by hour, and the lines of an hour.
//!
//! The purchases of a commitment are spread over the hours of its term ([`hour_amount`]). In each hour the amount is shared among what the
//! commitment covered of the hour's rows and what it left unused. [`lines`] gives the hour's lines: the purchases, the rows that no
//! commitment may cover, the shares, and what is left of the rows that commitments may cover. `specs/Lines.antt` says which these are.
//! For many hours make an [`fw_cover::Roster`] of the commitments and those hours once and call [`lines_by_roster`] for each hour.
#![tactic(auto)]

mod amount;
mod hour;
mod laws;
mod line;
mod shared;
mod single;

pub use amount::{amounts_are_the_total, hour_amount};
pub use hour::{lines, lines_by_roster, lines_of_hour, own_lines};
pub use laws::{
    lines_are_known_by_their_text, lines_are_one, lines_carry_the_amount,
    lines_carry_the_purchases, lines_share_the_amount, no_rest_stands_beside_unused_capacity,
    purchases_cost_nothing, rows_are_accounted_for, rows_are_billed_for_what_is_left,
};
pub use line::{Line, LineDiscount, LineFields, LineKind};
pub use single::{cost_left, quantity_of};
