//! `focusd charge`: direct reports are added up, and charged under a policy.
ghost use Rattle.std.specs.Prelude.{◌≤◌};

use crate::reports::Reports;
use clap::ArgMatches;
use fw_add_commands::{PolicyFile, policy_file};
use fw_calendar::{Period, read_time};
use fw_command_line::{FILES, FROM, TAG, TO};
use fw_console::{Fault, print_answer, read_options, refuse, wrong_time, wrong_top};
use fw_direct::Sheet;
use fw_query::MOST_HOURS;
use fw_series::{ReportOptions, Series, View, written};
use fw_shards::AddFault;
use fw_terms::Policy;
use std::alloc::{AllocError, Global};
use std::process::ExitCode;

/// A range of time as the command line has it: each end is given or not.
#[derive(Clone, Copy, Drop)]
struct Asked {
    from: Option<u64>,
    to: Option<u64>,
}

/// Adds the reports that the options name, and prints what they come to.
pub fn charge_reports(rt: &HostRuntime, options: &ArgMatches<'_>) -> Result<ExitCode, Fault> {
    let shown = match read_options(options, 1) {
        Ok(shown) => shown,
        Err(text) => return Ok(wrong_top(rt, text)),
    };
    match read_asked(rt.alloc(), options)? {
        Ok(asked) => charge_named(rt, options, &shown, asked),
        Err(option) => Ok(wrong_time(rt, options, option)),
    }
}

// The range that the options name, or the id of the one that is no time.
fn read_asked(
    alloc: Global,
    options: &ArgMatches<'_>,
) -> Result<Result<Asked, &'static str>, AllocError> {
    let Some(from) = read_end(alloc, options, FROM)? else {
        return Ok(Err(FROM));
    };
    let Some(to) = read_end(alloc, options, TO)? else {
        return Ok(Err(TO));
    };
    Ok(Ok(Asked { from, to }))
}

// The end of a range that an option names, if it is given; none where its value is no time.
fn read_end(
    alloc: Global,
    options: &ArgMatches<'_>,
    id: &str,
) -> Result<Option<Option<u64>>, AllocError> {
    let Some(text) = options.get_str(id) else {
        return Ok(Some(None));
    };
    match read_time(alloc, text)? {
        Some(hour) => Ok(Some(Some(hour))),
        None => Ok(None),
    }
}

// Adds the reports that the options name, and prints what they come to, as the options have it.
fn charge_named(
    rt: &HostRuntime,
    options: &ArgMatches<'_>,
    shown: &ReportOptions,
    asked: Asked,
) -> Result<ExitCode, Fault> {
    match &policy_file(rt, options)? {
        PolicyFile::Policy(policy) => charge_under(rt, options, shown, asked, Some(policy)),
        PolicyFile::None => charge_under(rt, options, shown, asked, None),
        PolicyFile::Refused => Ok(ExitCode::FAILURE),
    }
}

// Adds the reports that the options name, and prints what they come to under a policy or none.
fn charge_under(
    rt: &HostRuntime,
    options: &ArgMatches<'_>,
    shown: &ReportOptions,
    asked: Asked,
    policy: Option<&Policy>,
) -> Result<ExitCode, Fault> {
    let mut reports = Reports::new(rt.alloc());
    let tag = options.get_str(TAG);
    for file in options.get_strs(FILES).unwrap_or(&[]) {
        if !reports.read(rt, *file, tag)? {
            return Ok(ExitCode::FAILURE);
        }
    }
    charge_all(rt, reports, shown, asked, policy)
}

// Prints what reports come to.
fn charge_all(
    rt: &HostRuntime,
    reports: Reports,
    shown: &ReportOptions,
    asked: Asked,
    policy: Option<&Policy>,
) -> Result<ExitCode, Fault> {
    let Some(hull) = reports.hull() else {
        return Ok(ExitCode::FAILURE);
    };
    let range = Period {
        from: asked.from.unwrap_or(hull.from),
        to: asked.to.unwrap_or(hull.to),
    };
    if !reports.lie_in(rt, range)? {
        return Ok(ExitCode::FAILURE);
    }
    if range.to <= range.from || range.to - range.from > MOST_HOURS {
        return Err(Fault::Range);
    }
    charge_range(rt, reports, shown, range, policy)
}

// Prints what reports come to, in a range that has their hours.
fn charge_range(
    rt: &HostRuntime,
    reports: Reports,
    shown: &ReportOptions,
    range: Period,
    policy: Option<&Policy>,
) -> Result<ExitCode, Fault>
    requires { range.from ≤ range.to }
{
    let (tag, currency) = reports.tag_and_currency();
    let tag = String::from_str(rt.alloc(), tag)?;
    let currency = String::from_str(rt.alloc(), currency)?;
    let mut sheet = Sheet::new(rt.alloc(), shown.step, range.from, range.to)?;
    if !reports.put_to(rt, &mut sheet)? {
        return Ok(ExitCode::FAILURE);
    }
    let view = View {
        tag: tag.as_str(),
        currency: currency.as_str(),
        from: range.from,
        to: range.to,
        step: shown.step,
        top: shown.top,
    };
    match sheet.series(rt.alloc(), view.tag, policy) {
        Ok(series) => print_series(rt, &series, &view, shown),
        Err(fault) => not_added(rt, &fault),
    }
}

// Says why reports aren't added up.
fn not_added(rt: &HostRuntime, fault: &AddFault) -> Result<ExitCode, Fault> {
    match fault {
        AddFault::TotalTooLarge { group: _ } => Err(Fault::TotalTooLarge),
        AddFault::NoMemory => Err(Fault::NoMemory),
        AddFault::OutOfRange => {
            refuse(
                rt,
                "the reports",
                "W6 OutOfRange",
                "their absolute costs come to more than 10^37 nanos",
            );
            Ok(ExitCode::FAILURE)
        }
    }
}

// Prints a series.
fn print_series(
    rt: &HostRuntime,
    series: &Series,
    view: &View<'_>,
    shown: &ReportOptions,
) -> Result<ExitCode, Fault> {
    let text = written(rt.alloc(), series, view, shown.format)?;
    print_answer(rt, text.as_slice())
}
