//! Masks over columns, and exact sums of columns under a mask, also by code.
//!
//! A column is a slice of numbers. A [`Mask`] has a truth value for each place of it: [`mask_range`], [`mask_eq_u8`], [`mask_eq_u32`] and
//! [`mask_in_u8`] set it by what a column holds there, [`and_with`] narrows it, and [`count`] counts its places that are true. [`masked_sum`] adds up the
//! values at which a mask is true. [`add_by_code`] does so for two columns of costs at once and for each code apart, in one pass, and finds the
//! codes that the mask leaves; [`sums_by_code`] does it into a table of its own. No loop over values branches on what it reads.
//! `specs/Masked.antt` says what these masks and sums are.
#![tactic(auto)]

mod by_code;
mod laws;
mod mask;
mod sums;

pub use by_code::{CodeSum, add_by_code, code_count, sums_by_code};
pub use laws::limits_agree;
pub use mask::{Mask, and_with, count, mask_eq_u8, mask_eq_u32, mask_in_u8, mask_range};
pub use sums::masked_sum;
