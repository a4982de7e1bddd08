//! How the second of an instant is written.
ghost use Rattle.std.specs.Prelude.{◌≡◌, ◌<◌, ◌≤◌, IfOk, MatchOption, string_bytes};
ghost use Rattle.std.specs.Fmt.{decimal};
ghost use Rattle.fw_charge.specs.Charge.{last_second};
ghost use Rattle.fw_allocated.specs.Instants.{IsDateOf, IsSecondText, instant_digits};

use jiff_core::civil::Date;
use std::alloc::{AllocError, Global};

/// How many seconds a minute, an hour and a day have.
const MINUTE: u64 = 60;

const HOUR: u64 = 3_600;

const DAY: u64 = 86_400;

/// The text of the instant of a second since 1970, as `2024-01-31T14:00:59Z`. A second past the year 9999 is its number.
pub(crate) fn second_text(alloc: Global, second: u64) -> Result<String, AllocError>
    ensures { IfOk result (λ text. IsSecondText second (string_bytes text)) }
{
    match date_of(second) {
        Some(date) => instant_digits(
            alloc,
            date.year.unsigned_abs(),
            date.month,
            date.day,
            second % DAY,
        ),
        None => number_digits(alloc, second),
    }
}

// The date of the day in which a second since 1970 lies, or `None` past the year 9999.
fn date_of(second: u64) -> Option<Date>
    ensures { MatchOption result (last_second < second) (λ date. (second ≤ last_second)
        × IsDateOf second date) }
{
    Date::from_unix_epoch_day((second / DAY) as i64).ok()
}

// A date and a time of its day, in seconds.
fn instant_digits(
    alloc: Global,
    year: u16,
    month: u8,
    day: u8,
    time: u64,
) -> Result<String, AllocError>
    ensures { IfOk result (λ text. string_bytes text ≡ instant_digits year month day time) }
{
    let hour = time / HOUR;
    let minute = time % HOUR / MINUTE;
    let second = time % MINUTE;
    format!(in alloc; "{year:04}-{month:02}-{day:02}T{hour:02}:{minute:02}:{second:02}Z")
}

// The number of a second that no date has.
fn number_digits(alloc: Global, second: u64) -> Result<String, AllocError>
    ensures { IfOk result (λ text. string_bytes text ≡ decimal second) }
{
    format!(in alloc; "{second}")
}
