//! The instants of charge periods and of purchases, as texts.
#![tactic(auto)]

mod last;
mod text;

pub use last::InstantReader;
pub use text::second_of;
