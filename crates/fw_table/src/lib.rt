//! Tables for people: amounts in cents with their thousands apart, shares in percent, and columns that line up.
//!
//! What comes from outside is shown so that it acts on no terminal: [`shown_text`]. What is shown of amounts is rounded: [`cents_text`] and [`share_text`] say how. Sums are exact, and are rounded only where they are shown.
#![tactic(auto)]

mod amounts;
mod layout;
mod shares;
mod shown;

pub use amounts::{cents_text, count_text};
pub use layout::{Align, Line, table_text};
pub use shares::share_text;
pub use shown::{shown_text, what_is_shown_acts_on_no_terminal};
