//! The dialect of Google's exports from BigQuery, and the FOCUS export that one in it stands for.
//!
//! Such an export has FOCUS columns, but times as `2024-09-01 00:00:00 UTC` and tags as a list, `[{"key":"team","value":"a"}]`. [`rewrite`] makes these
//! `2024-09-01T00:00:00Z` and `{"team":"a"}`. A field that isn't of this form stays as it is, so whoever reads the text finds its fault.
#![tactic(auto)]

mod dialect;
mod fields;
mod laws;
mod pairs;
mod proposing;
mod rewriting;
mod role;
mod times;

pub use dialect::Dialect;
pub use laws::rewritten_records_read_back;
pub use proposing::proposed;
pub use rewriting::rewrite;
