//! The first fault of a table of rules.
//!
//! What a record, a commitment or a policy must be is a list of rules in order, each with the fault that it gives where it is broken.
//! `specs/Table.antt` says what the first broken rule's fault is, and when no rule is broken.
#![tactic(auto)]

mod table;

pub use table::{Ruled, first_is_one, first_or_none};
