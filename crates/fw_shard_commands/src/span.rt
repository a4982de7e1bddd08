//! Hours, days and months as the names of parts have them.
use fw_calendar::{Period, Step, read_time};
use std::alloc::{AllocError, Global};

/// How many hours a day has.
const DAY_HOURS: u64 = 24;

/// The most hours of a month.
const MONTH_HOURS: u64 = 31 * DAY_HOURS;

/// The whole hour, day or month in which an hour lies.
pub(crate) fn span_of(alloc: Global, step: Step, hour: u64) -> Result<Period, AllocError> {
    match step {
        Step::Hour => Ok(Period {
            from: hour,
            to: hour.saturating_add(1),
        }),
        Step::Day => {
            let from = hour / DAY_HOURS * DAY_HOURS;
            Ok(Period {
                from,
                to: from.saturating_add(DAY_HOURS),
            })
        }
        Step::Month => {
            let from = month_start(alloc, hour)?.unwrap_or(hour);
            let last = from.saturating_add(MONTH_HOURS);
            let to = month_start(alloc, last)?.unwrap_or(last);
            Ok(Period { from, to })
        }
    }
}

// The first hour of the month in which an hour lies; none past the year 9999.
fn month_start(alloc: Global, hour: u64) -> Result<Option<u64>, AllocError> {
    let month = Step::Month.text(alloc, hour)?;
    read_time(alloc, month.as_str())
}

/// The name of the part of an hour, a day or a month, as `2024-09-01T00.csv`; where there are several piles with the number of one, counted from 1.
pub(crate) fn name_of(
    alloc: Global,
    step: Step,
    span: Period,
    pile: Option<usize>,
) -> Result<String, AllocError> {
    let text = step.text(alloc, span.from)?;
    let text = text.as_str();
    let time = text.strip_suffix(":00Z").unwrap_or(text);
    match pile {
        Some(pile) => format!(in alloc; "{time}.{pile}.csv"),
        None => format!(in alloc; "{time}.csv"),
    }
}
