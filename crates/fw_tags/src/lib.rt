//! What a text of tags reads as: a JSON object of texts, booleans and nulls.
#![tactic(auto)]

mod fault;
mod reading;

pub use fault::TagFault;
pub use reading::{are_sized, read_tags};
