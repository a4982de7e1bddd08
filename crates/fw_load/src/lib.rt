//! Files that are loaded side by side: an importer on a thread of its own for each, a flusher, and analysts who view what is stored.
//!
//! [`load`] posts each CSV text as one entry, over the threads of `fw_threads`, and writes what became of each.
#![tactic(auto)]

mod board;
mod fault;
mod flushing;
mod laws;
mod lines;
mod loading;
mod posting;
mod progress;
mod seat;

pub use fault::LoadFault;
pub use laws::{
    a_checkpoint_leaves_the_warehouse, a_commit_leaves_none_or_all, a_run_leaves_what_was_accepted,
};
pub use loading::{Job, load};
pub use progress::Progress;
