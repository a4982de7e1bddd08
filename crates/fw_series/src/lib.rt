//! Reports of the periods of a range, and reports of which only the groups that are charged most have lines of their own; and how they are
//! written for people and for programs.
//!
//! [`report_text`] answers a query by the text of its report: of the whole range or by period, of all groups or of some, as a table, as CSV, as
//! JSON or as a page of HTML. [`series_of`] makes the reports, [`most_charged`] chooses groups, [`lines_of`] are what is shown of a report, and
//! [`written`] writes all of it. [`page_without_charges`] is the page of a report to which no policy applies.
//! Other pages look like these by [`begin_page`] and [`end_page`], and show texts of others by [`push_shown`]. Costs are nanos, 10^-9 of the currency unit, and hours are counted from 1970.
#![tactic(auto)]

mod chart;
mod csv_text;
mod escapes;
mod frame;
mod json;
mod laws;
mod lines;
mod names;
mod page;
mod report;
mod series;
mod sums;
mod table;
mod top;
mod view;

pub use chart::push_stacks;
pub use escapes::push_shown;
pub use frame::{begin_page, end_page, push_markup};
pub use laws::{escaped_is_no_markup, lines_keep_the_sums, periods_sum_to_the_whole};
pub use lines::{Line, lines_of};
pub use page::page_without_charges;
pub use report::{ReportOptions, report_text};
pub use series::{Part, Series, series_of};
pub use sums::{Sums, sums_of};
pub use top::most_charged;
pub use view::{Format, View, written};
