//! `focusd withdraw`, `focusd replace` and `focusd compact`: what was posted is corrected.
//!
//! Which posts stay and which go is decided by `fw_replace`, and `fw_compact` makes those entries again that count. This crate opens the folders,
//! reads the files, tries what would be added and adds it, asks and prints.
#![tactic(auto)]

mod asking;
mod choice;
mod compact;
mod costs;
mod entries;
mod groups;
mod reading;
mod replace;
mod texts;
mod withdraw;

pub use compact::compact_folder;
pub use replace::replace_rows;
pub use withdraw::withdraw_posts;
