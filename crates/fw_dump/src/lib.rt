//! A warehouse as a script that makes it again.
//!
//! [`dump`] writes the entries of a warehouse in their order, each as the command of a script that sends it. What is written of an entry is
//! read back at once, by the functions that serve a script, and only what reads as that very entry is handed on ([`entry_text`]). The rows of
//! a post are written, and compared with what was read, where they stand in the warehouse. So no promise rests on how texts are written here, and [`a_dump_makes_the_same_warehouse`] needs none.
#![tactic(auto)]

mod commitment;
mod dumping;
mod fault;
mod instants;
mod laws;
mod policy;
mod rows;
mod sending;
mod spelled;
mod texts;
mod values;

pub use dumping::dump;
pub use fault::{DumpFault, TextFault};
pub use laws::a_dump_makes_the_same_warehouse;
pub use texts::entry_text;
