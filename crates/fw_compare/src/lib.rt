//! Two reports, group by group: what each group cost before and after, the difference, and what makes it.
//!
//! [`compared`] puts the groups of two reports side by side: a group that one of them hasn't costs nothing there. [`ranked`] orders them by
//! difference, and [`shown_lines`] leaves some out, whose sums are one line. [`written`] writes all of it as a table, as CSV or as JSON. Costs
//! are nanos, 10^-9 of the currency unit, and hours are counted from 1970. Differences are exact; a table shows cents, and shares in percent.
//!
//! [`hours_before`] and [`hours_from`] are the hours that a range is compared with. [`differences_keep_the_total`] says that the differences of the groups sum to the difference of the sums.
#![tactic(auto)]

mod comparing;
mod costs;
mod csv_text;
mod group;
mod json;
mod laws;
mod line;
mod ranges;
mod share;
mod shown;
mod table;
mod view;

pub use comparing::compared;
pub use costs::Costs;
pub use group::Group;
pub use laws::{differences_keep_the_total, shown_lines_keep_the_sums};
pub use line::Line;
pub use ranges::{hours_before, hours_from};
pub use share::difference_share;
pub use shown::{ranked, shown_lines, total_line};
pub use view::{Form, Key, View, written};
