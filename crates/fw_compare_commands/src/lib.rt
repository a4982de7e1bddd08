//! The command of `focusd` that compares a range of time with another one: `compare`.
//!
//! What is compared is computed by `fw_compare`; the warehouse is asked as `fw_commands` asks it.
#![tactic(auto)]

mod before;
mod compare;
mod groups;

pub use compare::print_comparison;
