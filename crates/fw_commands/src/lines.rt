//! `focusd lines`: each line behind the costs of a range of time.
use crate::ask::{Asked, ask_hours};
use crate::range::{read_hours, wrong_hours};
use clap::ArgMatches;
use fw_console::Fault;
use std::process::ExitCode;

/// Prints the lines of the range that the options name.
pub fn print_lines(rt: &HostRuntime, options: &ArgMatches<'_>) -> Result<ExitCode, Fault> {
    match read_hours(rt.alloc(), options)? {
        Ok(hours) => Ok(ask_hours(rt, options, hours, &Asked::Lines)),
        Err(option) => Ok(wrong_hours(rt, options, option)),
    }
}
