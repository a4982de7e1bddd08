//! The posts of a script, read in the order of its commands, by several workers ahead of them.
//!
//! What a post reads as is that of [`fw_column_rows::read_columns`], whoever read it and when.
#![tactic(auto)]

mod content;
mod piece;
mod posts;
mod read_post;

pub use posts::Posts;
