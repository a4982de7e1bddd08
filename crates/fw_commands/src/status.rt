//! `focusd status`: what a warehouse holds.
use crate::ask::ask;
use clap::ArgMatches;
use fw_views::Question;
use std::process::ExitCode;

/// Prints what the warehouse holds.
pub fn print_status(rt: &HostRuntime, options: &ArgMatches<'_>) -> ExitCode {
    ask(rt, options, &Question::Status)
}
