//! Reports: what charge rows and commitments cost in some hours, by the groups of a tag key.
//!
//! [`report`] sums the lines of a range of hours by group, and [`report_csv`] writes what it found; [`lines_csv`] writes the lines. Costs are
//! counted in nanos, which are 10^-9 of the currency unit, and hours from 1970. What the lines of a group come to is found by `fw_sums`.
//!
//! What holds of every report and of its lines is said by laws: [`charged_is_direct`], [`commitments_are_carried`], [`rows_are_counted_once`],
//! [`answers_are_one`], [`what_is_withdrawn_changes_no_other_hours`].
#![tactic(auto)]

mod charges;
mod entries;
mod fault;
mod laws;
mod line_text;
mod listing;
mod reporting;
mod shown;
mod text;
mod too_large;

pub use entries::{Entry, Report};
pub use fault::QueryFault;
pub use fw_sums::{MOST_HOURS, Query, ReportCache};
pub use laws::{
    answers_are_one, charged_is_direct, commitments_are_carried, reports_keep_the_total,
    rows_are_counted_once, there_are_lines, what_is_withdrawn_changes_no_other_hours,
};
pub use line_text::{id_of, status_of};
pub use listing::lines_csv;
pub use reporting::{report, report_alone, report_keeping};
pub use shown::Shown;
pub use text::report_csv;
