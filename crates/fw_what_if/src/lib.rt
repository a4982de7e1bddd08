//! A warehouse as it would be under another policy.
//!
//! A report is made of the rows and the commitments that count, and of the policy that was set last. [`under_policy`] is the warehouse with one
//! entry more, which sets a policy; nothing is written. [`only_the_policy_changes`] says that all else stays as it is, so that a report of it is
//! the report of the same rows under that policy.
#![tactic(auto)]

mod laws;
mod under;

pub use laws::only_the_policy_changes;
pub use under::under_policy;
