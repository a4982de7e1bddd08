//! What the warehouse stores, as bytes: entries, groups of entries, segments of rows, and states.
//!
//! An entry and a group each have one spelling. A segment has one in each of two layouts: row after row, or column after column. A state has one for
//! each way to cut its rows into segments and to lay these out; it is written by column. A decoder gives a value exactly for its spellings; for all
//! other bytes it reports where the first fault is, in the order in which they are read.
#![tactic(auto)]

mod accepted;
mod decoding;
mod encoding;
mod fault;
mod groups;
mod heads;
mod laws;
mod layout;
mod segments;
mod states;

pub use accepted::append_accepted;
pub use decoding::{decode_entry, decode_group, decode_segment, decode_state};
pub use encoding::{encode_entry, encode_group, encode_segment, encode_state};
pub use fault::DecodeFault;
pub use laws::{spellings_are_one, states_are_one};
pub use layout::SegmentLayout;
pub use states::{append_joined, append_state};
