//! CSV exports that the command line names: they are opened, cut into parts and walked in order. What a command does with them is a [`Taker`].
#![tactic(auto)]

mod dialects;
mod faults;
mod files;
mod foreign;
mod keeps;
mod kept_columns;
mod opening;
mod taker;
mod walk;
mod walking;

pub use dialects::rewritten;
pub use faults::code_of;
pub use files::{all_exports, texts_of};
pub use keeps::{keeper_of, read_keeps};
pub use kept_columns::{HeaderFault, header_fault, say_header, say_kept};
pub use opening::Source;
pub use taker::Taker;
pub use walk::Walk;
pub use walking::walk_files;
