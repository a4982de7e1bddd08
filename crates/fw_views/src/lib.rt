//! What the commands for people print of a warehouse, as text.
//!
//! [`answer`] answers a [`Question`] to an open warehouse. Reports are written by `fw_series`, lines by `fw_query`; coverage and what a
//! warehouse holds are written here. Amounts are exact; what is rounded is only what a table shows.
//!
//! [`applied_policy`] is the place of the policy that applies, and [`policies_text`] lists all that were accepted.
//!
//! [`AskedHours`] is the range of a question, of which what is left open comes from the rows ([`row_hours`]). [`has_key`] says whether a tag is
//! there at all.
#![tactic(auto)]

mod asked_hours;
mod covered;
mod keys;
mod laws;
mod policies;
mod questions;
mod row_span;
mod status;

pub use asked_hours::AskedHours;
pub use covered::{CoverageFormat, coverage_text};
pub use keys::{has_key, keys_in};
pub use laws::the_last_policy_applies;
pub use policies::{applied_policy, policies_text};
pub use questions::{Question, answer, answer_of};
pub use row_span::{RowHours, row_hours};
