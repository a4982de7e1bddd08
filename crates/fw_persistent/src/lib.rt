//! Lists, counts and maps that are never changed: adding to one makes another that shares what both have.
#![tactic(auto)]

mod branches;
mod counters;
mod items;
mod map;
mod sequence;
mod share;

pub use counters::Counters;
pub use map::Map;
pub use sequence::Sequence;
pub use share::Share;
