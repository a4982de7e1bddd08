//! The table that charge rows are kept in by column, each of their texts and each of their lists of tags once.
//!
//! A table lends its rows: a lent row has its texts and tags where the table keeps them, and knows how many bytes it is written in.
#![tactic(auto)]

mod codes;
mod hashed;
mod lending;
mod lengths;
mod lists;
mod names;
mod naming;
mod packed;
mod reading;
mod table;
mod table_lengths;

pub use lending::{LentDiscount, LentRow, LentTag, LentTags, RowView, lent_row, lent_tags};
pub use lists::Lists;
pub use names::Names;
pub use naming::{see_names, see_tags};
pub use packed::Packed;
pub use reading::{amount_at, category_at, fields_at};
pub use table::Table;
pub use table_lengths::Lengths;
