//! Rows as bytes: how a charge row is read and written, and rows behind their number. Rows are written as columns lend them, and read into
//! columns. `fw_fields` reads and writes each field.
//!
//! A row is read from the front of a slice. A fault is reported as the number of bytes from its place to the end: a field that is cut off or
//! out of its range is a fault at that field, and fields that break a rule together are a fault at the first byte of the row, reported once
//! all of them were read. What is read is spelled so, and each row that keeps the rules is read from its spelling. `fw_charge` defines how a
//! row is spelled.
#![tactic(auto)]

mod row;
mod rows;
mod writing;

pub use row::row_of;
pub use rows::rows_of;
pub use writing::{put_row, put_rows, spelled};
