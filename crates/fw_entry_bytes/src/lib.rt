//! Entries as bytes: how an entry is read and written.
//!
//! An entry stands as its origin, its number, the kind of its command, and what the command brings. What is read is spelled so, and what
//! is spelled so is read again, whatever follows it. A reader that fails reports how many bytes were left from the fault to the end.
#![tactic(auto)]

mod fields;
mod form;
mod laws;
mod reading;
mod writing;

pub use fields::{kind_of, origin_of, seq_of};
pub use form::Form;
pub use laws::entries_have_one_spelling;
pub use reading::entry_of;
pub use writing::put_entry;
