//! The rows that a warehouse was ever sent, by their places, and whether they are the rows of a part.
//!
//! [`StoredRows`] lends the rows of segments by their places among all rows. [`is_same_row`] compares two lent rows, field by field,
//! [`are_same_runs`] rows of columns with as many of others, and [`StoredRows::has_at`] the rows from a place on with those of a part. No row is copied.
#![tactic(auto)]

mod comparing;
mod runs;
mod stored;

pub use comparing::is_same_row;
pub use runs::are_same_runs;
pub use stored::StoredRows;
