//! What a CSV text of charges reads as: its rows, or its first fault.
//!
//! The rows themselves, their tags and currencies are those of [`fw_charge`], and stand here too. Fifteen columns are read; others are
//! passed over.
#![tactic(auto)]

mod ascii;
mod cells;
mod charged;
mod column;
mod details;
mod fault;
mod firsts;
mod header;
mod keep;
mod keeping;
mod kept_places;
mod kept_tags;
mod kept_texts;
mod known;
mod laws;
mod reading;
mod records;
mod row;
mod short;
mod sink;
mod values;

pub use cells::Cells;
pub use charged::{Charged, Costs, Period, PeriodReaders, Words};
pub use column::Column;
pub use details::NamedDiscount;
pub use fault::{RecordFault, Refusal, RowFault};
pub use fw_charge::{
    Category, Currency, Discount, DiscountKind, DiscountStatus, Row, RowFields, Tag, Tags,
};
pub use keep::Keep;
pub use keeping::read_into_keeping;
pub use kept_texts::Keeper;
pub use known::KnownTags;
pub use laws::{kept_columns_add_tags, rows_read_as_one};
pub use reading::{read_into, read_rows};
pub use sink::{GivenTags, KeepingSink, RowSink};
