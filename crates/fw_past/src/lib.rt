//! A warehouse as it was after its first entries.
//!
//! A warehouse keeps each entry that it accepted, and never changes one. So what it was after so many of them can be made again ([`as_of`]):
//! posts that were withdrawn later count in it, and purchases that were added later aren't there. [`the_past_stays`] says that
//! no later entry changes it.
#![tactic(auto)]

mod front;
mod laws;
mod past;

pub use laws::the_past_stays;
pub use past::as_of;
