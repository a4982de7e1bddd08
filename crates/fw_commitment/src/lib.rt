//! How a TOML text reads as a commitment ([`read_commitment`]), and as a purchase that is added to one ([`read_purchase`]).
#![tactic(auto)]

mod added;
mod billing;
mod fault;
mod fields;
mod id_and_term;
mod laws;
mod names;
mod purchases;
mod reading;
mod tags;
mod terms;

pub use added::read_purchase;
pub use fault::{CommitmentFault, CommitmentField};
pub use fw_cover::{Taken, cover};
pub use fw_terms::{AddedPurchase, Commitment, Purchase, Rate, Terms};
pub use laws::{commitment_reads_as_one, purchase_reads_as_one};
pub use reading::read_commitment;
