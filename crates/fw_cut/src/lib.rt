//! A CSV text of any length, cut between its records into parts that are texts of their own.
//!
//! A [`Cutter`] reads the text piece by piece and keeps one part of it in memory at a time. Each part has the header and the next
//! records, in order; a line feed within quotes ends no record.
#![tactic(auto)]

mod counting;
mod cutter;
mod cutting;
mod fault;
mod heads;
mod input;
mod place;
mod stopping;

pub use cutter::{Cutter, Part};
pub use cutting::{Cut, cut_off};
pub use fault::CutFault;
