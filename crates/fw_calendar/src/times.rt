//! How a time reads.
ghost use Rattle.std.specs.Prelude.{◌≡◌, ◌≤◌, ◌*◌, ℕ, IfOk, IfSome, MatchOption, length};
ghost use Rattle.fw_calendar.specs.Periods.{IsMonth};
ghost use Rattle.fw_calendar.specs.Times.{IsTimeText, tail_of};
ghost use Rattle.fw_charge.specs.Charge.{last_second, seconds_per_hour, last_hour};

use crate::steps::{Period, Step, end_of_whole};
use fw_charge::SECONDS_PER_HOUR;
use fw_instants::second_of;
use std::alloc::{AllocError, Global};

/// The length of a month's text, as 2024-01.
const MONTH_LENGTH: usize = 7;

/// The length of a date's text, as 2024-01-31.
const DATE_LENGTH: usize = 10;

/// The hour at which a time begins, in hours since 1970: of a month, as `2024-01`, its first hour; of a date, as `2024-01-31`, its
/// first hour; of an instant on a whole hour, as `2024-01-31T14:00Z`, that hour. `None` where the text is none of these, or the time
/// lies before 1970. The one error is that memory ran out.
pub fn read_time(alloc: Global, text: &str) -> Result<Option<u64>, AllocError>
    ensures value { IfOk result (λ hour. MatchOption hour ((h : ℕ) → ¬ IsTimeText text.now h)
        (IsTimeText text.now)) }
    ensures in_range { IfOk result (λ hour. IfSome hour (λ h. h ≤ last_hour)) }
{
    let mut instant = String::from_str(alloc, text)?;
    instant.push_str(tail_of(text))?;
    match second_of(instant.as_str()) {
        Some(second) => Ok(whole_hour(second)),
        None => Ok(None),
    }
}

/// The hours of a month that is written as `2024-01`. `None` where the text isn't that of a month from 1970 to 9999. The one error is
/// that memory ran out.
pub fn read_month(alloc: Global, text: &str) -> Result<Option<Period>, AllocError>
    ensures value { IfOk result (λ month. MatchOption month
        ((h : ℕ) → length text.now ≡ 7 → ¬ IsTimeText text.now h)
        (λ period. (length text.now ≡ 7) × IsTimeText text.now period.from)) }
    ensures whole { IfOk result (λ month. IfSome month IsMonth) }
{
    if text.len() != MONTH_LENGTH {
        return Ok(None);
    }
    match read_time(alloc, text)? {
        Some(from) => Ok(Some(Period {
            from,
            to: end_of_whole(Step::Month, from),
        })),
        None => Ok(None),
    }
}

// The hour that begins at a second, if one does.
fn whole_hour(second: u64) -> Option<u64>
    requires { second ≤ last_second }
    ensures value { MatchOption result ((h : ℕ) → ¬ (second ≡ h * seconds_per_hour))
        (λ h. second ≡ h * seconds_per_hour) }
    ensures in_range { IfSome result (λ h. h ≤ last_hour) }
{
    (second % SECONDS_PER_HOUR == 0).then_some(second / SECONDS_PER_HOUR)
}

// What makes the text of a month or of a date that of the instant at which it begins.
#[tactic(auto, unfolding(crate::specs::Times::tail_of))]
fn tail_of(text: &str) -> &'static str
    ensures { result.now ≡ tail_of text.now }
{
    match text.len() {
        MONTH_LENGTH => "-01T00:00Z",
        DATE_LENGTH => "T00:00Z",
        _ => "",
    }
}
