//! The digest of a warehouse.
//!
//! [`digest`] is the SHA-256 of the currency and of the bytes of all entries, in order. Where an entry stands has no part in it: not in which of the
//! two files, in which group, or in which form. So it is the same before and after a checkpoint, and that of the warehouse that a dump makes.
//! [`a_digest_is_of_all_entries`] says what equal and different digests show.
#![tactic(auto)]

mod digesting;
mod hex_text;
mod laws;

pub use digesting::digest;
pub use hex_text::{digest_text, read_digest};
pub use laws::a_digest_is_of_all_entries;
