//! `focusd report`: what each group of a tag cost in a range of time.
use crate::ask::{Asked, ask_hours};
use crate::own::Owning;
use crate::policy::GivenPolicy;
use crate::range::{read_hours, wrong_hours};
use crate::reporting::Reporting;
use crate::wanted::{is_selection, read_wanted};
use clap::ArgMatches;
use fw_command_line::{BY, DIRECT, FORMAT, ONLY, POLICY, SUM, TAG};
use fw_console::{Fault, read_options, step_of, workers_of, wrong_top, wrong_use};
use fw_series::ReportOptions;
use fw_terms::Policy;
use fw_views::AskedHours;
use std::process::ExitCode;
use std::thread::Threads;

/// Prints the report that the options ask for: under the policy of the file that they name, where it is given, and else under that of the warehouse.
pub fn print_report(
    rt: &HostRuntime,
    threads: &(impl Threads + Sync),
    options: &ArgMatches<'_>,
    policy: Option<&Policy>,
) -> Result<ExitCode, Fault> {
    let hours = match read_hours(rt.alloc(), options)? {
        Ok(hours) => hours,
        Err(option) => return Ok(wrong_hours(rt, options, option)),
    };
    if is_selection(options) {
        return print_selection(rt, options, hours);
    }
    let key = options.get_str(TAG).unwrap_or("");
    if options.get_flag(DIRECT) {
        let step = step_of(options.get_str(BY));
        return Ok(ask_hours(rt, options, hours, &Asked::Direct { key, step }));
    }
    match read_options(options, workers_of(threads, options)) {
        Ok(shown) => print_groups(rt, threads, options, hours, key, shown, policy),
        Err(text) => Ok(wrong_top(rt, text)),
    }
}

/// Says what is wrong with the words of a report under the policy of a file, if anything is, before that file is read.
pub fn wrong_report(rt: &HostRuntime, options: &ArgMatches<'_>) -> Result<Option<ExitCode>, Fault> {
    if !options.contains_id(POLICY) {
        return Ok(None);
    }
    let hours = match read_hours(rt.alloc(), options)? {
        Ok(hours) => hours,
        Err(option) => return Ok(Some(wrong_hours(rt, options, option))),
    };
    if is_selection(options) {
        return Ok(Some(print_selection(rt, options, hours)?));
    }
    match read_options(options, 1) {
        Ok(_shown) => Ok(None),
        Err(text) => Ok(Some(wrong_top(rt, text))),
    }
}

// Prints the report by a tag, under the policy of the warehouse or the one of a file.
fn print_groups(
    rt: &HostRuntime,
    threads: &(impl Threads + Sync),
    options: &ArgMatches<'_>,
    hours: AskedHours,
    key: &str,
    shown: ReportOptions,
    policy: Option<&Policy>,
) -> Result<ExitCode, Fault> {
    let Some(policy) = policy else {
        return Ok(ask_report(rt, threads, options, hours, key, shown, None));
    };
    let file = options.get_str(POLICY).unwrap_or("");
    let given = GivenPolicy { file, policy };
    if policy.key() != key {
        return Ok(given.refuse(rt)?);
    }
    Ok(ask_report(rt, threads, options, hours, key, shown, Some(given)))
}

// Asks for the report by a tag, of all groups or of one alone.
fn ask_report(
    rt: &HostRuntime,
    threads: &(impl Threads + Sync),
    options: &ArgMatches<'_>,
    hours: AskedHours,
    key: &str,
    shown: ReportOptions,
    policy: Option<GivenPolicy<'_>>,
) -> ExitCode {
    if let Some(group) = options.get_str(ONLY) {
        let owning = Owning {
            key,
            group,
            step: shown.step,
            format: shown.format,
            policy,
        };
        return ask_hours(rt, options, hours, &owning);
    }
    let asked = Reporting {
        threads,
        key,
        options: shown,
        policy,
    };
    ask_hours(rt, options, hours, &asked)
}

// Prints the report by several keys, or under filters and maps, that the options ask for.
fn print_selection(
    rt: &HostRuntime,
    options: &ArgMatches<'_>,
    hours: AskedHours,
) -> Result<ExitCode, Fault> {
    if options.get_flag(DIRECT) {
        return Ok(wrong_use(rt, "--direct: a direct report is by one --tag"));
    }
    if options.contains_id(ONLY) {
        return Ok(wrong_use(rt, "--only: one group is shown of one --tag"));
    }
    if options.contains_id(POLICY) {
        return Ok(wrong_use(
            rt,
            "--policy: a policy shares the costs of all lines, by one --tag",
        ));
    }
    if options.contains_id(SUM) && options.get_str(FORMAT) == Some("html") {
        return Ok(wrong_use(
            rt,
            "--sum: a page has no such column; take --format table, csv or json",
        ));
    }
    match read_wanted(rt, options)? {
        Ok(wanted) => Ok(ask_hours(rt, options, hours, &Asked::Selection(&wanted))),
        Err(status) => Ok(status),
    }
}
