//! What a policy charges the groups: the groups that its rules name give their whole cost away, in shares by largest remainder.
//!
//! `specs/Charges.antt` says what [`charge`] answers. [`charges_are_one`] says that this is one list, and [`charges_keep_the_total`] that
//! costs are moved and none are made.
#![tactic(auto)]

mod charging;
mod cost;
mod gift;
mod groups;
mod laws;
mod search;

pub use charging::charge;
pub use cost::Cost;
pub use fw_policy::{PolicyFault, read_policy};
pub use fw_shares::share;
pub use fw_terms::{Give, Policy, Rule, Target};
pub use laws::{charges_are_one, charges_keep_the_total};
