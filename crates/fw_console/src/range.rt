//! The range of time of a question: the options `--from` and `--to`.
ghost use Rattle.std.specs.Prelude.{◌≡◌, ◌<◌, ℕ, IfOk, IfErr, codes};
ghost use Rattle.std.specs.Process.{exit_status};
ghost use Rattle.fw_calendar.specs.Times.{IsTimeText};
ghost use Rattle.fw_console.specs.Statuses.{wrong_use_status};

use crate::fault::{Fault, WRONG_USE};
use clap::ArgMatches;
use fw_calendar::read_time;
use fw_command_line::{FROM, TO};
use std::alloc::Global;
use std::process::ExitCode;

/// The first hour of the range and the hour after the last, counted from 1970, or the id of the option that is no time.
/// `Range` where the range has no hour, which is said before a warehouse is opened.
pub fn read_range(
    alloc: Global,
    options: &ArgMatches<'_>,
) -> Result<Result<(u64, u64), &'static str>, Fault>
    ensures { IfOk result (λ read. IfOk read (λ range. range.0 < range.1)) }
{
    let from = options.get_str(FROM).unwrap_or("");
    let to = options.get_str(TO).unwrap_or("");
    range_of(alloc, from, to)
}

// The range that begins and ends at the times that two texts stand for.
fn range_of(alloc: Global, from: &str, to: &str) -> Result<Result<(u64, u64), &'static str>, Fault>
    ensures times { IfOk result (λ read. IfOk read (λ range.
        IsTimeText from.now range.0 × IsTimeText to.now range.1 × (range.0 < range.1))) }
    ensures wrong { IfOk result (λ read. IfErr read (λ id.
        ((h : ℕ) → id.now ≡ codes "from" → ¬ IsTimeText from.now h)
        × ((h : ℕ) → id.now ≡ codes "to" → ¬ IsTimeText to.now h))) }
{
    let first = read_time(alloc, from)?;
    let end = read_time(alloc, to)?;
    match (first, end) {
        (Some(first), Some(end)) if end <= first => Err(Fault::Range),
        (Some(first), Some(end)) => Ok(Ok((first, end))),
        (None, _) => Ok(Err(FROM)),
        (_, None) => Ok(Err(TO)),
    }
}

/// Says that the value of an option is no time, or one before 1970 or after 9999.
pub fn wrong_time(rt: &HostRuntime, options: &ArgMatches<'_>, id: &str) -> ExitCode
    ensures { exit_status result ≡ wrong_use_status }
{
    let text = options.get_str(id).unwrap_or("");
    let _ = eprintln!(rt;
        "focusd: --{id}: {text:?} is not a time from 1970 to 9999: write a month (2024-01), a date (2024-01-31) or a whole hour (2024-01-31T14:00Z)"
    );
    ExitCode::from(WRONG_USE)
}
