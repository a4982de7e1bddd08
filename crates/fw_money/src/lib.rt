//! Amounts of money in nanos: how a number text reads, and how an amount is written.
//!
//! A nano is a billionth (10^-9) of one unit of the currency. An amount is a whole count of nanos of absolute value at most 10^17. Nothing
//! here knows which currency it is, and quantities are counted in the same way.
//!
//! [`parse`] rounds the exact value of a text to the nearest nano, a tie to the even one; [`text`] writes nine digits after the point, so
//! nothing is lost on the way out and in again ([`reads_back`]).
#![tactic(auto)]

mod laws;
mod nanos;
mod parts;
mod read;
mod rounding;
mod write;

pub use laws::{reads_as_one, reads_back};
pub use nanos::{MoneyFault, Nanos};
pub use read::parse;
pub use write::text;
