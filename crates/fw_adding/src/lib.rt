//! Commitments, policies and purchases that are added to a warehouse from TOML texts.
//!
//! `fw_documents` reads a text as what it is. [`try_document`] answers what a warehouse would become, and
//! [`add_document`] adds the document to a store as the next entry of an origin; what is there already, and is equal,
//! changes nothing. [`matches_of`] counts the rows that a commitment applies to, and why it doesn't apply to others of
//! its SKUs. The rest is for messages: what of a document is there already, and in which fields two commitments agree.
#![tactic(auto)]

mod adding;
mod fault;
mod fields;
mod matching;
mod standing;

pub use adding::{Outcome, Tried, add_document, try_document};
pub use fault::AddFault;
pub use fields::agree_in;
pub use matching::{Matches, matches_of};
pub use standing::{committed, policy_entry, registered};
