//! What a TOML document states, kind by kind.
//!
//! `specs/Tree.antt` has the words: the table of a text, the value under a name, and what it is to be a text, an integer, a table or
//! an array of which something holds. The functions decide them and lend what is there.
#![tactic(auto)]

mod document;
mod kinds;
mod lists;
mod names;

pub use document::{TableFault, table_of};
pub use kinds::{as_integer, as_text, integer, is_true, member, text};
pub use lists::{integers, named_texts, tables, texts};
pub use names::has_only;
pub use toml::{Table, Value};
