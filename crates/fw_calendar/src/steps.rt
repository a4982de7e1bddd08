//! Steps of the calendar: hours, days and months, in UTC.
ghost use Rattle.std.specs.Prelude.{◌≡◌, ◌≤◌, ◌<◌, ◌+◌, IfOk, string_bytes};
ghost use Rattle.fw_calendar.specs.Periods.{ArePeriods, AreLast, IsPeriod, IsPlace, IsStart};
ghost use Rattle.fw_calendar.specs.Shown.{IsStepText};
ghost use Rattle.fw_calendar.specs.declared.steps.Step.TheVariants.{Month};
ghost use Rattle.fw_charge.specs.Charge.{last_hour};

use crate::texts::{date_of, day_text, hour_text, month_text};
use fw_charge::LAST_HOUR;
use std::alloc::{AllocError, Global};

/// How many hours a day has.
pub(crate) const DAY_HOURS: u64 = 24;

/// How many months a year has.
const YEAR_MONTHS: u64 = 12;

/// What a range of hours is cut by.
#[derive(Clone, Copy, Debug, Drop, PartialEq, Eq)]
pub enum Step {
    /// Each hour.
    Hour,
    /// Each day from 00:00 to 24:00 UTC.
    Day,
    /// Each month of the calendar, in UTC.
    Month,
}

/// Hours in a row, counted from 1970: those from `from` up to, and not including, `to`.
#[derive(Clone, Copy, Debug, Drop, PartialEq, Eq)]
pub struct Period {
    /// The first hour.
    pub from: u64,
    /// The hour after the last.
    pub to: u64,
}

impl Step {
    /// The word for the step, as a command line has it.
    pub fn word(self) -> &'static str {
        match self {
            Step::Hour => "hour",
            Step::Day => "day",
            Step::Month => "month",
        }
    }

    /// The text of the hour, the day or the month in which an hour lies, as `2024-01-31T14:00Z`, `2024-01-31` or `2024-01`.
    pub fn text(self, alloc: Global, hour: u64) -> Result<String, AllocError>
        ensures { IfOk result (λ s. IsStepText self hour (string_bytes s)) }
    {
        match self {
            Step::Hour => hour_text(alloc, hour),
            Step::Day => day_text(alloc, hour),
            Step::Month => month_text(alloc, hour),
        }
    }

    // The number of the hour, the day or the month in which an hour lies. All hours past the year 9999 are in one month.
    fn place(self, hour: u64) -> u64
        ensures { IsPlace self hour result }
    {
        match self {
            Step::Hour => hour,
            Step::Day => hour / DAY_HOURS,
            Step::Month => month_number(hour),
        }
    }
}

// The months from the year 0 to the one in which an hour lies.
fn month_number(hour: u64) -> u64
    ensures { IsPlace Month hour result }
{
    match date_of(hour) {
        Some(date) => u64::from(date.year.unsigned_abs()) * YEAR_MONTHS + u64::from(date.month),
        None => 0,
    }
}

/// The periods of a range of hours: it is cut where a new hour, day or month begins, so that the first and the last period may be parts of one.
/// The one error is that memory ran out.
pub fn periods(alloc: Global, step: Step, from: u64, to: u64) -> Result<Vec<Period>, AllocError>
    requires { from ≤ to }
    ensures { IfOk result (λ periods. ArePeriods step from to periods.items) }
{
    let mut periods = Vec::new(alloc);
    let mut start = from;
    while start < to {
        let end = end_of(step, start, to);
        periods.push(Period {
            from: start,
            to: end,
        })?;
        start = end;
    }
    Ok(periods)
}

/// The last `count` hours, days or months up to and including the one in which an hour lies, each whole: fewer where the calendar begins,
/// in 1970, within them.
pub fn last_periods(step: Step, count: u64, hour: u64) -> Period
    requires some { 1 ≤ count }
    requires dated { hour ≤ last_hour }
    ensures { AreLast step count hour result }
{
    Period {
        from: start_of_last(step, count, hour),
        to: end_of_whole(step, hour),
    }
}

// The first hour of the last `count` hours, days or months up to the one in which an hour lies.
fn start_of_last(step: Step, count: u64, hour: u64) -> u64
    requires { 1 ≤ count }
    ensures { IsStart step count hour result }
{
    let Some(before) = step.place(hour).checked_sub(count) else {
        return 0;
    };
    let mut start = hour;
    while start > 0 && step.place(start - 1) > before {
        start -= 1;
    }
    start
}

/// The hour after the last one of the hour, the day or the month in which an hour lies, which no later hour shares.
pub(crate) fn end_of_whole(step: Step, hour: u64) -> u64
    requires { hour ≤ last_hour }
    ensures { IsPeriod step hour (last_hour + 1) (record { from = hour; to = result }) }
{
    end_of(step, hour, u64::from(LAST_HOUR) + 1)
}

// Where the period that begins at an hour ends, in a range that ends at `to`.
fn end_of(step: Step, start: u64, to: u64) -> u64
    requires { start < to }
    ensures { IsPeriod step start to (record { from = start; to = result }) }
{
    let place = step.place(start);
    for hour in start + 1..to {
        if step.place(hour) != place {
            return hour;
        }
    }
    to
}
