//! The hours that a range is compared with.
ghost use Rattle.std.specs.Prelude.{◌≡◌, ◌+◌, ◌-◌, ◌<◌, ◌≤◌, MatchBool, MatchOption};
ghost use Rattle.fw_calendar.specs.Periods.{IsMonth};
ghost use Rattle.fw_charge.specs.Charge.{last_hour};
ghost use Rattle.fw_compare.specs.Ranges.{AreBefore, AreFirstMonths, AreFrom, AreMonths, AreNoMonths, BeginsMonth, HasNoneBefore};

use fw_calendar::{Period, Step, last_periods};
use fw_charge::LAST_HOUR;

/// The hours just before a range: as many months where the range is whole months, fewer where 1970 begins within them; else as many hours. None where
/// the range begins with 1970, or these hours would begin before it.
pub fn hours_before(hours: Period) -> Option<Period>
    requires some { hours.from < hours.to }
    requires dated { hours.to ≤ last_hour + 1 }
    ensures { MatchOption result (HasNoneBefore hours) (AreBefore hours) }
{
    if hours.from == 0 {
        return None;
    }
    match whole_months(hours) {
        Some(months) => {
            let last = last_periods(Step::Month, months, hours.from - 1);
            Some(Period {
                from: last.from,
                to: hours.from,
            })
        }
        None => as_many_before(hours),
    }
}

// As many hours just before a range, where there are so many.
fn as_many_before(hours: Period) -> Option<Period>
    requires some { hours.from < hours.to }
    requires others { AreNoMonths hours }
    ensures { MatchOption result (HasNoneBefore hours) (AreBefore hours) }
{
    let from = hours.from.checked_sub(hours.to - hours.from)?;
    Some(Period {
        from,
        to: hours.from,
    })
}

/// The hours from an hour on that a range is compared with: as many months where the range is whole months and one begins with that hour, fewer where
/// the year 9999 ends within them; else as many hours.
pub fn hours_from(hours: Period, from: u64) -> Period
    requires some { hours.from < hours.to }
    requires dated { hours.to ≤ last_hour + 1 }
    requires start { from ≤ last_hour }
    ensures { AreFrom hours from result }
{
    if !begins_month(from) {
        return as_many_from(hours, from);
    }
    match whole_months(hours) {
        Some(months) => Period {
            from,
            to: end_of_months(from, months),
        },
        None => as_many_from(hours, from),
    }
}

// As many hours from an hour on as a range has.
fn as_many_from(hours: Period, from: u64) -> Period
    requires some { hours.from < hours.to }
    requires dated { hours.to ≤ last_hour + 1 }
    requires start { from ≤ last_hour }
    ensures begins { result.from ≡ from }
    ensures ends { result.to ≡ from + (hours.to - hours.from) }
{
    Period {
        from,
        to: from + (hours.to - hours.from),
    }
}

// How many months a range is, where it is whole months.
fn whole_months(hours: Period) -> Option<u64>
    requires some { hours.from < hours.to }
    requires dated { hours.to ≤ last_hour + 1 }
    ensures { MatchOption result (AreNoMonths hours) (λ n. (1 ≤ n) × AreMonths n hours) }
{
    if !begins_month(hours.from) {
        return None;
    }
    let mut months = 0_u64;
    let mut end = hours.from;
    while end < hours.to {
        end = end_of_month(end);
        months += 1;
    }
    if end == hours.to { Some(months) } else { None }
}

// The hour behind so many months from an hour on, or behind those up to the end of the year 9999 where these are fewer.
fn end_of_months(from: u64, months: u64) -> u64
    requires { from ≤ last_hour }
    ensures { AreFirstMonths months from result }
{
    let mut end = from;
    for _month in 0..months {
        if end > u64::from(LAST_HOUR) {
            return end;
        }
        end = end_of_month(end);
    }
    end
}

// The hour behind the month in which an hour lies.
fn end_of_month(hour: u64) -> u64
    requires { hour ≤ last_hour }
    ensures { IsMonth (record { from = hour; to = result }) }
{
    last_periods(Step::Month, 1, hour).to
}

// Whether a month begins with an hour.
fn begins_month(hour: u64) -> bool
    requires { hour ≤ last_hour }
    ensures { MatchBool result (BeginsMonth hour) (¬ BeginsMonth hour) }
{
    last_periods(Step::Month, 1, hour).from == hour
}
