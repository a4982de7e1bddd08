//! Which hours a question covers: the options `--from`, `--to`, `--month` and `--last`.
ghost use Rattle.std.specs.Prelude.{◌≡◌, ◌≤◌, IfSome};
ghost use Rattle.std.specs.Process.{exit_status};
ghost use Rattle.fw_console.specs.Statuses.{wrong_use_status};

use clap::ArgMatches;
use fw_calendar::{Period, Step, hour_text, read_month, read_time};
use fw_command_line::{FROM, LAST, MONTH, TO};
use fw_console::{Fault, WRONG_USE, read_range, wrong_time};
use fw_query::MOST_HOURS;
use fw_views::AskedHours;
use std::alloc::{AllocError, Global};
use std::process::ExitCode;

/// Which hours the options ask for, or the id of the option whose value is wrong. A range that is given in full and has no hour is a fault.
pub fn read_hours(
    alloc: Global,
    options: &ArgMatches<'_>,
) -> Result<Result<AskedHours, &'static str>, Fault> {
    if let Some(text) = options.get_str(MONTH) {
        return Ok(read_month(alloc, text)?.map(AskedHours::Given).ok_or(MONTH));
    }
    if let Some(words) = options.get_strs(LAST) {
        return Ok(read_last(words).ok_or(LAST));
    }
    match (options.get_str(FROM), options.get_str(TO)) {
        (Some(_), Some(_)) => match read_range(alloc, options)? {
            Ok((from, to)) => Ok(Ok(AskedHours::Given(Period { from, to }))),
            Err(option) => Ok(Err(option)),
        },
        (from, to) => read_open(alloc, from, to),
    }
}

// The hours of a range of which an end, or both, is left open, or the id of the option that is no time.
fn read_open(
    alloc: Global,
    from: Option<&str>,
    to: Option<&str>,
) -> Result<Result<AskedHours, &'static str>, Fault> {
    let first = read_end(alloc, from)?;
    let end = read_end(alloc, to)?;
    if from.is_some() && first.is_none() {
        return Ok(Err(FROM));
    }
    if to.is_some() && end.is_none() {
        return Ok(Err(TO));
    }
    Ok(Ok(AskedHours::Open {
        from: first,
        to: end,
    }))
}

// The hour at which a time begins, where one is given and it is one.
fn read_end(alloc: Global, text: Option<&str>) -> Result<Option<u64>, AllocError> {
    match text {
        Some(text) => read_time(alloc, text),
        None => Ok(None),
    }
}

// The last so many hours, days or months, as `3` and `months`.
fn read_last(words: &[&str]) -> Option<AskedHours> {
    match words {
        [count, unit] => Some(AskedHours::Last {
            count: read_count(count)?,
            step: step_named(unit)?,
        }),
        _ => None,
    }
}

// A number of hours, days or months: 1 to the most hours of a range.
fn read_count(text: &str) -> Option<u64>
    ensures { IfSome result (λ count. 1 ≤ count × count ≤ 26304) }
{
    match text.parse::<u64>() {
        Ok(count) if count >= 1 && count <= MOST_HOURS => Some(count),
        _ => None,
    }
}

// What a unit counts.
fn step_named(unit: &str) -> Option<Step> {
    match unit {
        "hour" | "hours" => Some(Step::Hour),
        "day" | "days" => Some(Step::Day),
        "month" | "months" => Some(Step::Month),
        _ => None,
    }
}

/// Says that the value of an option that names hours is wrong.
pub fn wrong_hours(rt: &HostRuntime, options: &ArgMatches<'_>, id: &str) -> ExitCode
    ensures { exit_status result ≡ wrong_use_status }
{
    match id {
        MONTH => wrong_month(rt, options.get_str(MONTH).unwrap_or("")),
        LAST => wrong_last(rt, options.get_strs(LAST).unwrap_or(&[])),
        _ => wrong_time(rt, options, id),
    }
}

// Says that the value of `--month` is no month.
fn wrong_month(rt: &HostRuntime, text: &str) -> ExitCode
    ensures { exit_status result ≡ wrong_use_status }
{
    let _ = eprintln!(rt;
        "focusd: --month: {text:?} is not a month from 1970-01 to 9999-12, as 2024-09"
    );
    ExitCode::from(WRONG_USE)
}

// Says that the values of `--last` are no number of hours, days or months.
fn wrong_last(rt: &HostRuntime, words: &[&str]) -> ExitCode
    ensures { exit_status result ≡ wrong_use_status }
{
    let count = words.first().unwrap_or(&"");
    let unit = words.last().unwrap_or(&"");
    let _ = eprintln!(rt;
        "focusd: --last: {count:?} {unit:?} is not a number of hours, days or months from 1 to 26,304, as 3 months"
    );
    ExitCode::from(WRONG_USE)
}

/// Says which hours are covered, where the command line doesn't say it in full.
pub(crate) fn say_hours(
    rt: &HostRuntime,
    asked: AskedHours,
    hours: Period,
) -> Result<(), AllocError> {
    if let AskedHours::Given(_) = asked {
        return Ok(());
    }
    let from = hour_text(rt.alloc(), hours.from)?;
    let to = hour_text(rt.alloc(), hours.to)?;
    let _ = eprintln!(rt; "from {from} to {to}");
    Ok(())
}
