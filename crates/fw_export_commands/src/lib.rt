//! What the commands of `focusd` do that read CSV exports of any length: one lists their faults, one takes them into a warehouse.
//!
//! Each takes what the command line took of its options, and prints.
#![tactic(auto)]

mod ahead;
mod check;
mod fitting;
mod import;
mod importing;
mod messages;
mod others;

pub use check::check_files;
pub use import::import_files;
