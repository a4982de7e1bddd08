//! Coverage: how well commitments were used in the hours of a range.
//!
//! [`coverage`] answers for each commitment what of its capacity was used, and what its lines there cost. What holds of every coverage is said by
//! [`coverage_adds_up`].
#![tactic(auto)]

mod covered;
mod covering;
mod laws;
mod line_sums;
mod tally;

pub use covered::Coverage;
pub use covering::coverage;
pub use laws::coverage_adds_up;
