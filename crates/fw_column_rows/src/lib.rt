//! What a CSV text of charges reads as, as columns: its rows, or its first fault.
//!
//! The meaning is that of [`fw_rows::read_rows`]. No row is made on the way, and a text of tags that stands in many records is read once.
#![tactic(auto)]

mod filling;
mod keeping;
mod known;
mod reading;
mod view;

pub use keeping::read_columns_keeping;
pub use known::KnownTexts;
pub use reading::{read_columns, read_columns_after};
