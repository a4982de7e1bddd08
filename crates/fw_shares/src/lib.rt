//! Shares of a total by largest remainder (Hamilton's method).
//!
//! [`share`] divides a whole number of units among weights: each weight gets the floor of its exact part, and the units that the floors
//! leave go, one each, to the weights with the largest remainders, ties to the lower position. So nothing is lost and nothing is made up.
//! [`share_counts`] does the same for numbers that have no sign.
//! `specs/Shares.antt` says so as a relation; [`shares_are_one`] says that it determines the shares.
#![tactic(auto)]

mod hamilton;
mod laws;

pub use hamilton::{share, share_counts};
pub use laws::{counts_are_one, shares_are_one};
