//! What a TOML document reads as: a policy, or its first fault.
//!
//! `specs/Policy.antt` has the rules of a policy's document, in the order in which they are checked, and the policy that a document stands for.
#![tactic(auto)]

mod fault;
mod laws;
mod reading;
mod rule;
mod target;

pub use fault::{PolicyFault, PolicyField};
pub use laws::policy_reads_as_one;
pub use reading::read_policy;
