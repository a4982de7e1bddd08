//! `focusd add`: commitments, policies and purchases are taken from TOML files into a warehouse.
//!
//! What a file is, is computed by `fw_documents`, and what becomes of it by `fw_adding`. This crate opens the folder, reads
//! the files and prints: [`add_files`]. [`document_of`], [`policy_file`] and [`say_fault`] are of use to other
//! commands that read such files.
#![tactic(auto)]

mod add;
mod bought;
mod check;
mod documents;
mod faults;
mod matched;
mod policy_option;
mod printing;
mod texts;

pub use add::add_files;
pub use documents::{document_of, other_kind};
pub use faults::say_fault;
pub use policy_option::{PolicyFile, policy_file};
