//! `focusd coverage`: how well commitments were used in a range of time.
use crate::ask::{Asked, ask_hours};
use crate::range::{read_hours, wrong_hours};
use clap::ArgMatches;
use fw_command_line::FORMAT;
use fw_console::Fault;
use fw_views::CoverageFormat;
use std::process::ExitCode;

/// Prints the coverage that the options ask for.
pub fn print_coverage(rt: &HostRuntime, options: &ArgMatches<'_>) -> Result<ExitCode, Fault> {
    let hours = match read_hours(rt.alloc(), options)? {
        Ok(hours) => hours,
        Err(option) => return Ok(wrong_hours(rt, options, option)),
    };
    let format = match options.get_str(FORMAT) {
        Some("csv") => CoverageFormat::Csv,
        _ => CoverageFormat::Table,
    };
    Ok(ask_hours(rt, options, hours, &Asked::Coverage { format }))
}
