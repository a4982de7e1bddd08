//! Commitments, purchases, those that are added to a commitment, and policies as bytes.
//!
//! `fw_terms` defines the bytes of each, and which of them have bytes at all; `specs/Reading.antt` says what bytes read as, and at which
//! place the first fault of other bytes is. A reader that fails reports how many bytes were left from the fault to the end.
#![tactic(auto)]

mod added;
mod commitment;
mod lists;
mod order;
mod policy;
mod writing;

pub use added::added_of;
pub use commitment::{commitment_of, purchase_of};
pub use policy::policy_of;
pub use writing::{put_added, put_commitment, put_policy, put_purchase};
