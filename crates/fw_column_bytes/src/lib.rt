//! Rows by column, as bytes.
//!
//! Rows that are kept by column are written column after column, with each of their texts once, in front of the columns, as a name; where a row has
//! the text there stands its place among the names. So the bytes are fewer than those of the rows one by one, and are copied between memory
//! and a file without a look at each row.
#![tactic(auto)]

mod fields;
mod reading;
mod rows;
mod whole;
mod writing;

pub use rows::columns_of;
pub use writing::put_columns;
