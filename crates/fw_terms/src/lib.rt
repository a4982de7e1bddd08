//! Commitments, and policies that share costs out: the types, and what each value of them keeps.
//!
//! A [`Commitment`] and a [`Policy`] keep their limits, so whoever holds one need not look at them again. What a text must hold for one to come
//! of it is said by the crates that read such texts. A commitment is never changed: [`Commitment::with_purchase`] makes another one, with a
//! purchase that was made later.
//!
//! `specs/Spelling.antt` has the bytes of each, and which of them have a spelling: each commitment and each policy has one, and knows its
//! length. The crate above that reads and writes them stands on the same definition.
#![tactic(auto)]

mod added;
mod commitment;
mod copies;
mod groups;
mod laws;
mod lengths;
mod policy;
mod spelled;

pub use added::AddedPurchase;
pub use commitment::{Commitment, CommitmentFields, Purchase, Rate, Terms, total_cost};
pub use groups::{has_double_from, has_target_from};
pub use laws::a_purchase_adds_its_cost;
pub use lengths::{added_len, commitment_len, policy_len};
pub use policy::{Give, Policy, Rule, Target};
pub use spelled::{
    added_has_spelling, commitment_has_spelling, policy_has_spelling, purchase_has_spelling,
};
