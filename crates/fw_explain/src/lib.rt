//! What each code that the program prints means, what was expected, and what to do about it: the one table of words for faults.
#![tactic(auto)]

mod codes;
mod explanation;

pub use explanation::{Explanation, explain, explain_fault, explanations};
