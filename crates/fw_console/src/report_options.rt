//! The options of a report: how it is cut and written.
ghost use Rattle.std.specs.Prelude.{◌≡◌, ◌≤◌, IfSome};
ghost use Rattle.std.specs.Process.{exit_status};
ghost use Rattle.fw_console.specs.Statuses.{wrong_use_status};

use crate::fault::WRONG_USE;
use clap::ArgMatches;
use fw_calendar::Step;
use fw_command_line::{BY, FORMAT, TOP, WORKERS};
use fw_series::{Format, ReportOptions};
use std::process::ExitCode;
use std::thread::{Threads, available_parallelism};

/// The most groups that `--top` takes.
const MOST_TOP: usize = 1_000;

/// How the options have a report cut and written, which so many workers make, or the value of `--top` that is no number of groups.
pub fn read_options<'o>(
    options: &'o ArgMatches<'_>,
    workers: u32,
) -> Result<ReportOptions, &'o str> {
    let top = match options.get_str(TOP) {
        Some(text) => match read_top(text) {
            Some(top) => Some(top),
            None => return Err(text),
        },
        None => None,
    };
    Ok(ReportOptions {
        step: step_of(options.get_str(BY)),
        top,
        format: format_of(options.get_str(FORMAT)),
        workers,
    })
}

/// How many workers make a report: as many as the options say, which have `--workers`, or else as many as there are processors.
pub fn workers_of(threads: &impl Threads, options: &ArgMatches<'_>) -> u32
    ensures some { 1 ≤ result }
    ensures few { result ≤ 64 }
{
    let workers = match options.get_one(WORKERS) {
        Some(workers) => workers,
        None => processors(threads),
    };
    workers.clamp(1, 64)
}

// How many processors there are; 1 where that isn't known.
fn processors(threads: &impl Threads) -> u32 {
    match available_parallelism(threads) {
        Ok(count) => u32::try_from(count.get()).unwrap_or(1),
        Err(_) => 1,
    }
}

/// The period that a word of `--by` names.
pub fn step_of(word: Option<&str>) -> Option<Step> {
    match word {
        Some("hour") => Some(Step::Hour),
        Some("day") => Some(Step::Day),
        Some("month") => Some(Step::Month),
        _ => None,
    }
}

// The format that a word of `--format` names.
fn format_of(word: Option<&str>) -> Format {
    match word {
        Some("csv") => Format::Csv,
        Some("json") => Format::Json,
        Some("html") => Format::Html,
        _ => Format::Table,
    }
}

// The number of groups that `--top` says, if it is one.
fn read_top(text: &str) -> Option<usize>
    ensures { IfSome result (λ top. 1 ≤ top × top ≤ 1000) }
{
    match text.parse::<usize>() {
        Ok(top) if top >= 1 && top <= MOST_TOP => Some(top),
        _ => None,
    }
}

/// Says that the value of `--top` is no number of groups.
pub fn wrong_top(rt: &HostRuntime, text: &str) -> ExitCode
    ensures { exit_status result ≡ wrong_use_status }
{
    let _ = eprintln!(rt;
        "focusd: --top: {text:?} is not a number of groups from 1 to 1,000, as 5"
    );
    ExitCode::from(WRONG_USE)
}
