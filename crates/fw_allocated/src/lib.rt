//! The lines behind the costs of a range of hours, as rows in the columns of FOCUS 1.0, for other tools to read.
//!
//! [`hour_text`] writes the lines of an hour, as CSV or as JSON lines, and [`head_text`] what stands in front of all of them. A line has the costs that
//! a report sums; its period, its class and its unit are those of the row that it is of (`specs/Exported.antt`). What the rows of a range come to is what
//! its reports say: [`exports_sum_to_the_report`]. Each is of the row of which its line is a part: [`each_export_is_of_its_true_row`].
#![tactic(auto)]

mod cells;
mod csv_text;
mod format;
mod hour;
mod instants;
mod json_object;
mod json_text;
mod laws;
mod row;
mod sources;
mod tags;
mod text;

pub use format::ExportFormat;
pub use laws::{each_export_is_of_its_true_row, exports_sum_to_the_report};
pub use text::{head_text, hour_text};
