//! Charge rows: their costs, their period, what they are charged for, and their tags.
//!
//! A [`Row`] keeps the rules that stand between its fields, so whoever holds one need not look at them again. What a CSV text must hold
//! for a row to come of it is said by the crate that reads such texts.
//!
//! `specs/Spelling.antt` has the bytes of a row and of its fields, and which of them have a spelling: each row has one, and knows its
//! length. The crate above that reads and writes rows stands on the same definition.
#![tactic(auto)]

mod category;
mod class;
mod currency;
mod discount;
mod laws;
mod lengths;
mod row;
mod short_text;
mod spelled;
mod tags;
mod time;

pub use category::Category;
pub use class::{class_code, class_from_code, class_from_word};
pub use currency::Currency;
pub use discount::{Discount, DiscountKind, DiscountStatus};
pub use laws::{categories_are_counted, limits_agree};
pub use lengths::{optional_text_len, tags_len};
pub use row::{MOST_POST_ROWS, Row, RowFields};
pub use short_text::{LONGEST_SHORT_TEXT, is_short_text};
pub use spelled::{
    nanos_has_spelling, optional_nanos_has_spelling, optional_text_has_spelling,
    short_text_has_spelling, tags_have_spelling,
};
pub use tags::{Tag, Tags};
pub use time::{LAST_HOUR, LAST_SECOND, SECONDS_PER_HOUR, hour_of};
