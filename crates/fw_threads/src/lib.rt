//! Importers, a flusher and analysts on threads: the running system of `fw_group`, of which each step is one of its own functions.
//!
//! [`split`] takes a store apart into ends. An [`Importer`] posts entries and waits for their answers, the [`Flusher`] commits what
//! waits, group by group, and publishes it, and an [`Analyst`] views what is published and waits for nobody. The ends of one split
//! have its name in their type, as `J`.
#![tactic(auto)]

mod analyst;
mod flusher;
mod importer;
mod mark;
mod naming;
mod parts;
mod published;
mod publisher;
mod shared;
mod ticket;
mod waiting;

pub use analyst::{Analyst, Gone};
pub use flusher::{Flusher, Taken};
pub use importer::Importer;
pub use naming::{Naming, Opened};
pub use parts::{Parts, SplitFault, split};
pub use published::Published;
pub use publisher::CommitFault;
