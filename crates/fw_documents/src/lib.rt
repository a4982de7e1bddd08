//! What a person keeps in a TOML file: a commitment, a policy, or a purchase that is added to a commitment.
//!
//! [`read_document`] reads a text as what it is, which its top-level names say. The rest is for messages: where a field
//! stands in a text ([`locate`]), what it must be, and which name is none of a document's fields ([`unknown_name`]).
#![tactic(auto)]

mod document;
mod expected;
mod fault;
mod kind;
mod locating;
mod unknown;

pub use document::{Document, read_document};
pub use expected::{expected_in_commitment, expected_in_policy, expected_in_purchase};
pub use fault::DocumentFault;
pub use kind::Kind;
pub use locating::{Located, locate};
pub use unknown::unknown_name;
