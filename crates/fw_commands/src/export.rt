//! `focusd export`: the lines behind the costs of a range of time, as rows for other tools.
use crate::ask::{no_rows, say_part};
use crate::past::{has_entries, past_of, read_as_of, too_few, wrong_as_of};
use crate::range::{read_hours, say_hours, wrong_hours};
use clap::ArgMatches;
use fw_allocated::{ExportFormat, head_text, hour_text};
use fw_calendar::Period;
use fw_command_line::{DIR, FORMAT};
use fw_console::{Fault, advised, let_go, letters, open_to_ask, printed, warn_unfinished};
use fw_query::{MOST_HOURS, Shown};
use fw_snapshot::{Snapshot, State};
use fw_views::{AskedHours, row_hours};
use std::io::{self, Write};
use std::process::ExitCode;

/// Prints the rows of the range that the options name.
pub fn print_export(rt: &HostRuntime, options: &ArgMatches<'_>) -> Result<ExitCode, Fault> {
    match read_hours(rt.alloc(), options)? {
        Ok(hours) => Ok(export_hours(rt, options, hours)),
        Err(option) => Ok(wrong_hours(rt, options, option)),
    }
}

// Opens the warehouse of the folder that the options name, and prints the rows of the hours that are asked for, of which its rows give what is left open.
fn export_hours(rt: &HostRuntime, options: &ArgMatches<'_>, hours: AskedHours) -> ExitCode {
    let folder = options.get_str(DIR).unwrap_or("");
    let as_of = match read_as_of(options) {
        Ok(as_of) => as_of,
        Err(text) => return wrong_as_of(rt, text),
    };
    let format = format_of(options.get_str(FORMAT));
    let exported = export_folder(rt, folder, as_of, hours, format);
    let is_range = matches!(exported, Err(Fault::Range));
    let status = advised(rt, folder, exported);
    if is_range {
        say_part(rt, hours);
    }
    status
}

// The format that a word of `--format` names.
fn format_of(word: Option<&str>) -> ExportFormat {
    match word {
        Some("jsonl") => ExportFormat::JsonLines,
        _ => ExportFormat::Csv,
    }
}

// Prints the rows of the warehouse of a folder, as of so many entries where a number is given.
fn export_folder(
    rt: &HostRuntime,
    folder: &str,
    as_of: Option<usize>,
    hours: AskedHours,
    format: ExportFormat,
) -> Result<ExitCode, Fault> {
    let store = open_to_ask(rt, folder)?;
    let exported = export_as_of(rt, folder, store.state(), as_of, hours, format);
    let_go(store, exported)
}

// Prints the rows of a warehouse, as of so many entries where a number is given.
fn export_as_of(
    rt: &HostRuntime,
    folder: &str,
    snapshot: &Snapshot,
    as_of: Option<usize>,
    hours: AskedHours,
    format: ExportFormat,
) -> Result<ExitCode, Fault> {
    warn_unfinished(rt, folder)?;
    if !has_entries(snapshot.state(), as_of) {
        return Ok(too_few(rt, folder, snapshot.state().entries())?);
    }
    let past = past_of(rt.alloc(), snapshot, as_of)?;
    export_state(rt, folder, past.state(), hours, format)
}

// Prints the rows of a state; says so where its rows are to give the range and there are none.
fn export_state(
    rt: &HostRuntime,
    folder: &str,
    state: &State,
    hours: AskedHours,
    format: ExportFormat,
) -> Result<ExitCode, Fault> {
    let rows = match hours {
        AskedHours::Given(_) => None,
        _ => row_hours(rt.alloc(), state)?,
    };
    let Some(covered) = hours.of_rows(rows) else {
        return Ok(no_rows(rt, folder)?);
    };
    say_hours(rt, hours, covered)?;
    if !is_range(covered) {
        return Err(Fault::Range);
    }
    let shown = Shown::of(rt.alloc(), state)?;
    write_hours(rt, &shown, format, covered)?;
    Ok(ExitCode::SUCCESS)
}

// Whether a range has an hour, and no more than a question may have.
fn is_range(hours: Period) -> bool {
    hours.from < hours.to && hours.to - hours.from <= MOST_HOURS
}

// Writes the rows of hours to standard output, hour by hour.
fn write_hours(
    rt: &HostRuntime,
    shown: &Shown,
    format: ExportFormat,
    hours: Period,
) -> Result<(), Fault> {
    let state = shown.state();
    let currency = state.currency();
    let mut output = rt.stdout();
    let head = head_text(rt.alloc(), format)?;
    if !is_taken(output.write_all(head.as_slice()))? {
        return Ok(());
    }
    for hour in hours.from..hours.to {
        let text = hour_text(rt.alloc(), shown, letters(&currency), format, hour)?;
        if !is_taken(output.write_all(text.as_slice()))? {
            return Ok(());
        }
    }
    printed(output.flush())
}

// Whether a reader takes more: one that has had enough, as `head`, is no fault.
fn is_taken(written: io::Result<()>) -> Result<bool, Fault> {
    let takes_more = written.is_ok();
    printed(written)?;
    Ok(takes_more)
}
