//! Figures of commitments: how well they were used, what they covered, and what that saved.
//!
//! [`commitments_of`] finds the figures of a range of hours, by commitment or by the values of keys, of the warehouse's own commitments and of
//! those that providers' rows name; [`written`] writes them as a [`Sheet`] says. What was covered and what could have been is summed by
//! [`priced`], at the rows' own prices. [`summed`] puts the sums of the amounts that rows have in a tag beside the costs of
//! a selection.
#![tactic(auto)]

mod book;
mod csv_text;
mod figures;
mod json;
mod laws;
mod page;
mod parts;
mod prices;
mod record;
mod sheet;
mod table;
mod tag_sums;

pub use figures::{Amount, Figures};
pub use laws::used_capacity_is_eligible;
pub use parts::{Commitments, Part, commitments_of};
pub use prices::priced;
pub use sheet::{Sheet, SheetFormat, written};
pub use tag_sums::summed;
