//! What one group of a tag cost, for its owner: alone, and beside the hours before.
//!
//! [`owned_of`] finds it, in a range of hours and in each period of the range, and [`written`] writes it as a table, as CSV, as JSON or as a page.
//! Nothing in it is of another group. Costs are nanos, 10^-9 of the currency unit, and hours are counted from 1970. Differences are exact; a
//! table and a page show cents.
//!
//! [`an_owner_sees_what_the_report_says`] says that what is found is what the report of all groups has of the one.
#![tactic(auto)]

mod csv_text;
mod json;
mod laws;
mod owned;
mod page;
mod table;
mod view;

pub use laws::an_owner_sees_what_the_report_says;
pub use owned::{Before, Owned, Stretch, owned_of};
pub use view::{View, written};
