//! A list that only grows. It exists in the proofs alone: what runs is a count. Threads share its length, and hand each other
//! beginnings of it, which take no memory. Two beginnings of one list can always be compared: the shorter begins the longer.
#![tactic(auto)]

mod growing;
mod rule;

pub use growing::{Beginning, Growing};
