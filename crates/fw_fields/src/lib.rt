//! The fields of rows and of commitments as bytes: how each is read and written, and the rules over several fields of a row.
//!
//! A field is read from the front of a slice. A fault is reported as the number of bytes from its place to the end: a field that is cut off or
//! out of its range is a fault at that field. What is read is spelled so, and each value in its range is read from its spelling. `fw_charge`
//! defines how a field is spelled.
#![tactic(auto)]

mod reading;
mod rules;
mod writing;

pub use reading::{
    category_of, class_of, kind_of, nanos_of, optional_nanos_of, optional_text_of, second_of,
    short_text_of, status_of, tag_text_of, tags_of,
};
pub use rules::{discount_agrees, keys_rise, tags_in_order};
pub use writing::{put_nanos, put_optional_nanos, put_optional_text, put_tag, put_tags};
