//! One field of a record of a CSV text, and where the record ends.
//!
//! Whoever deals records by one of their fields looks at each byte once, and makes no record.
#![tactic(auto)]

mod place;
mod scan;

pub use place::{Action, Place};
pub use scan::{Scan, scan_record};
