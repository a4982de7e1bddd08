//! What the lines of a range of hours come to, by the groups of a tag key.
//!
//! [`totals_keeping`] sums the lines that commitments and rows have in the hours of a [`Query`], and keeps in a [`ReportCache`] what the next question on the
//! same rows and commitments needs too; [`totals_alone`] does so in one thread, and keeps nothing. Costs are counted in nanos, which are 10^-9 of the
//! currency unit, and hours from 1970. Whoever computes something else of a range finds the hours in which a commitment has a line by
//! [`touched_hours`], and the rows of these by [`rows_by_hour`] and [`rows_at`].
#![tactic(auto)]

mod cache;
mod corrections;
mod groups;
mod hours;
mod listed;
mod marks;
mod open_hours;
mod query;
mod segments;
mod summing;
mod total;
mod totals;
mod touched;
mod wholes;
mod workers;

pub use cache::ReportCache;
pub use hours::{HourPlace, is_touched, rows_by_hour};
pub use marks::every_hour;
pub use query::{MOST_HOURS, Query};
pub use segments::rows_at;
pub use total::Total;
pub use totals::{totals_alone, totals_keeping};
pub use touched::touched_hours;
