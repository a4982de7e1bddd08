//! How hours, days and months are written.
ghost use Rattle.std.specs.Prelude.{◌≡◌, ◌<◌, ◌≤◌, IfOk, MatchOption, string_bytes};
ghost use Rattle.fw_calendar.specs.Shown.{IsDateOf, IsDayText, IsHourText, IsMonthText, day_digits, hour_digits, month_digits, number_digits};
ghost use Rattle.fw_charge.specs.Charge.{last_hour};

use crate::steps::DAY_HOURS;
use jiff_core::civil::Date;
use std::alloc::{AllocError, Global};

/// The text of the instant at which an hour since 1970 begins, as `2024-01-31T14:00Z`. An hour past the year 9999 is its number.
pub fn hour_text(alloc: Global, hour: u64) -> Result<String, AllocError>
    ensures { IfOk result (λ s. IsHourText hour (string_bytes s)) }
{
    let time = hour % DAY_HOURS;
    match date_of(hour) {
        Some(date) => hour_digits(alloc, date.year.unsigned_abs(), date.month, date.day, time),
        None => number_digits(alloc, hour),
    }
}

// The text of the day in which an hour lies, as `2024-01-31`.
pub(crate) fn day_text(alloc: Global, hour: u64) -> Result<String, AllocError>
    ensures { IfOk result (λ s. IsDayText hour (string_bytes s)) }
{
    match date_of(hour) {
        Some(date) => day_digits(alloc, date.year.unsigned_abs(), date.month, date.day),
        None => number_digits(alloc, hour),
    }
}

// The text of the month in which an hour lies, as `2024-01`.
pub(crate) fn month_text(alloc: Global, hour: u64) -> Result<String, AllocError>
    ensures { IfOk result (λ s. IsMonthText hour (string_bytes s)) }
{
    match date_of(hour) {
        Some(date) => month_digits(alloc, date.year.unsigned_abs(), date.month),
        None => number_digits(alloc, hour),
    }
}

// A date and an hour of its day.
fn hour_digits(
    alloc: Global,
    year: u16,
    month: u8,
    day: u8,
    time: u64,
) -> Result<String, AllocError>
    ensures { IfOk result (λ s. string_bytes s ≡ hour_digits year month day time) }
{
    format!(in alloc; "{year:04}-{month:02}-{day:02}T{time:02}:00Z")
}

// A date.
fn day_digits(alloc: Global, year: u16, month: u8, day: u8) -> Result<String, AllocError>
    ensures { IfOk result (λ s. string_bytes s ≡ day_digits year month day) }
{
    format!(in alloc; "{year:04}-{month:02}-{day:02}")
}

// A month.
fn month_digits(alloc: Global, year: u16, month: u8) -> Result<String, AllocError>
    ensures { IfOk result (λ s. string_bytes s ≡ month_digits year month) }
{
    format!(in alloc; "{year:04}-{month:02}")
}

// The number of an hour that no date has.
fn number_digits(alloc: Global, hour: u64) -> Result<String, AllocError>
    ensures { IfOk result (λ s. string_bytes s ≡ number_digits hour) }
{
    format!(in alloc; "hour {hour}")
}

/// The date of the day in which an hour since 1970 lies, or `None` past the year 9999.
pub(crate) fn date_of(hour: u64) -> Option<Date>
    ensures { MatchOption result (last_hour < hour)
        (λ date. (hour ≤ last_hour) × IsDateOf hour date) }
{
    Date::from_unix_epoch_day((hour / DAY_HOURS) as i64).ok()
}
