//! Entries: what a sender asks a warehouse to do, with a name and a number by which one that is sent twice is known again.
//!
//! An [`Entry`] keeps its limits and has one spelling in bytes, so whoever holds one can store it.
#![tactic(auto)]

mod entry;
mod fault;
mod kind;

pub use entry::{Command, Entry, is_origin};
pub use fault::EntryFault;
pub use kind::CommandKind;
