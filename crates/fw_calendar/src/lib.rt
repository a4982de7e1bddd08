//! Times as people write them: a month, a date or an instant, each for the hour at which it begins; and ranges of hours, cut by hour, day or
//! month.
//!
//! Hours are counted from 1970-01-01T00:00Z, and all dates are those of UTC.
#![tactic(auto)]

mod steps;
mod texts;
mod times;

pub use steps::{Period, Step, last_periods, periods};
pub use texts::hour_text;
pub use times::{read_month, read_time};
