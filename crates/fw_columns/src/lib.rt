//! Charge rows kept by column, each of their texts and each of their lists of tags once.
//!
//! Columns are made row by row by a builder, or of a table that is checked, and never change after it, so copies share them. They lend
//! their rows: a lent row has its texts and tags where the columns keep them, and knows how many bytes it is written in.
#![tactic(auto)]

mod adding;
mod builder;
mod by_hour;
mod by_sku;
mod checking;
mod codes;
mod columns;
mod grouping;
mod hour_lists;
mod joining;
mod kept;
mod laws;
mod row_lists;

pub use builder::ColumnsBuilder;
pub use columns::Columns;
pub use fw_row_table::{LentDiscount, LentRow, LentTag, LentTags, Names, RowView};
pub use laws::limits_agree;
pub use row_lists::RowLists;
