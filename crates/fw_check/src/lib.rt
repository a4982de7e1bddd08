//! All faults of a CSV text of charges, and what is in it.
//!
//! A [`Checker`] takes a text part by part. [`locate`] says of one fault of a part where it stands, in which column, which value it is, and
//! what was expected. A checker may keep columns as tags, as an import does, and counts their values; and it finds the rows that stand twice.
#![tactic(auto)]

mod checker;
mod columns;
mod fields;
mod findings;
mod frequent;
mod kept;
mod kept_fields;
mod laws;
mod located;
mod prints;
mod repair;
mod repeats;
mod report;
mod statistics;

pub use checker::Checker;
pub use findings::{Finding, Place};
pub use kept::KeptColumn;
pub use laws::kept_columns_stand_once;
pub use located::{Located, line_ends, locate};
pub use repeats::{Repeat, Repeats};
pub use report::{as_json, as_text};
pub use statistics::{Coverage, Statistics};
