//! `focusd` keeps a warehouse of cloud charges, and answers what they cost.
//!
//! What it computes stands in libraries: `fw_serve::serve` runs scripts over any reader, writer and volume, and `fw_views` writes what the
//! commands for people print. `fw_command_line` is the command line, and `fw_commands`, `fw_export_commands`, `fw_add_commands`,
//! `fw_correct_commands`, `fw_shard_commands` and `fw_compare_commands` are what the commands do over folders and the standard streams. This crate
//! reads the words of the command line and runs the command that they name. `load`, which needs threads that wait, is here too.
#![tactic(auto)]

mod load;

use clap::ArgMatches;
use clap::error::ErrorKind;
use fw_add_commands::{PolicyFile, add_files, policy_file};
use fw_command_line::command_line;
use fw_commands::{
    list_policies, make_checkpoint, print_commitments, print_coverage, print_dump,
    print_explanation, print_export, print_lines, print_report, print_status, serve_script,
    verify_folder, wrong_report,
};
use fw_compare_commands::print_comparison;
use fw_console::{Fault, WRONG_USE, printed, stopped, wrong_use};
use fw_correct_commands::{compact_folder, replace_rows, withdraw_posts};
use fw_export_commands::{check_files, import_files};
use fw_shard_commands::{charge_reports, split_files};
use fw_table::shown_text;
use load::load_files;
use std::alloc::{AllocError, Global};
use std::env::{Env, FillError};
use std::process::ExitCode;
use std::sync::Wait;
use std::thread::Threads;
use std::{env, io};

/// The most bytes of a freed block that the C library keeps for later ones, less what it adds to a block of its own.
const LARGEST_KEPT: usize = 31 << 20;

fn main(rt: HostRuntime) -> ExitCode {
    match start(&rt, &rt) {
        Ok(status) => status,
        Err(fault) => stopped(&rt, &fault),
    }
}

// Has the C library keep blocks that are freed. It keeps those that are no larger than the largest one freed so far, and gives others back to the system, so
// that each post's would be taken from there again, page by page. None of this block's pages is touched. Where memory for it is refused, nothing
// else changes.
fn keep_freed_blocks(alloc: Global) {
    let _ = Vec::<u8>::with_capacity(alloc, LARGEST_KEPT);
}

// Reads the command line, and runs its command.
fn start<R: Threads + Wait + Sync>(rt: &HostRuntime, threads: &R) -> Result<ExitCode, Fault> {
    let alloc = rt.alloc();
    keep_freed_blocks(alloc);
    let words: Vec<String> = match env::args(rt) {
        Ok(words) => words.collect(alloc)?,
        Err(error) if error.kind() == io::ErrorKind::OutOfMemory => {
            return Err(Fault::NoMemory);
        }
        Err(_) => return not_utf8(rt),
    };
    match command_line(alloc)?.try_get_matches_from(words.as_slice()) {
        Ok(matches) => run_command(rt, threads, &matches),
        Err(error) => refused(rt, &error),
    }
}

/// The most bytes of an argument that is looked at: the system takes no longer one.
const LONGEST_ARGUMENT: usize = 128 << 10;

// Says which argument is not UTF-8. A file with such a name can't be named at all.
fn not_utf8(rt: &HostRuntime) -> Result<ExitCode, Fault> {
    let mut buffer = vec![in rt.alloc(); 0u8; LONGEST_ARGUMENT]?;
    let place = place_not_utf8(rt, buffer.as_mut_slice());
    let _ = eprintln!(rt;
        "focusd: argument {place} is not UTF-8: a file or a folder whose name is not UTF-8 can't be named; rename it"
    );
    Ok(ExitCode::from(WRONG_USE))
}

// The place of the first argument that is not UTF-8, counted from 1; 0 is the name of the program.
fn place_not_utf8<R: Env>(rt: &R, buffer: &mut [u8]) -> usize {
    for place in 0..usize::MAX {
        match rt.arg(place, buffer) {
            Ok(len) if str::from_utf8(buffer.split_at(len).0).is_ok() => {}
            Err(FillError::TooLong) => {}
            _ => return place,
        }
    }
    0
}

// Runs the command that the words name.
fn run_command<R: Threads + Wait + Sync>(
    rt: &HostRuntime,
    threads: &R,
    matches: &ArgMatches<'_>,
) -> Result<ExitCode, Fault> {
    match matches.subcommand() {
        Some(("run", options)) => serve_script(rt, threads, options),
        Some(("import", options)) => import_files(rt, threads, options),
        Some(("load", options)) => load_files(rt, threads, options),
        Some(("add", options)) => add_files(rt, options),
        Some(("replace", options)) => replace_rows(rt, options),
        Some(("withdraw", options)) => withdraw_posts(rt, options),
        Some(("checkpoint", options)) => Ok(make_checkpoint(rt, options)),
        Some(("compact", options)) => Ok(compact_folder(rt, options)),
        Some(("split", options)) => split_files(rt, options),
        Some((question, options)) => ask(rt, threads, question, options),
        None => Ok(wrong_use(rt, "no command")),
    }
}

// Runs a command that changes no warehouse.
fn ask(
    rt: &HostRuntime,
    threads: &(impl Threads + Sync),
    question: &str,
    options: &ArgMatches<'_>,
) -> Result<ExitCode, Fault> {
    match question {
        "check" => check_files(rt, options),
        "report" => report(rt, threads, options),
        "compare" => print_comparison(rt, threads, options),
        "lines" => print_lines(rt, options),
        "export" => print_export(rt, options),
        "coverage" => print_coverage(rt, options),
        "commitments" => print_commitments(rt, options),
        "policy" => Ok(list_policies(rt, options)),
        "status" => Ok(print_status(rt, options)),
        "verify" => Ok(verify_folder(rt, options)),
        "dump" => Ok(print_dump(rt, options)),
        "charge" => charge_reports(rt, options),
        "explain" => print_explanation(rt, options),
        _ => Ok(wrong_use(rt, "no command")),
    }
}

// Prints the report that the options ask for, under the policy of a file where they name one.
fn report(
    rt: &HostRuntime,
    threads: &(impl Threads + Sync),
    options: &ArgMatches<'_>,
) -> Result<ExitCode, Fault> {
    if let Some(status) = wrong_report(rt, options)? {
        return Ok(status);
    }
    match &policy_file(rt, options)? {
        PolicyFile::Policy(policy) => print_report(rt, threads, options, Some(policy)),
        PolicyFile::None => print_report(rt, threads, options, None),
        PolicyFile::Refused => Ok(ExitCode::FAILURE),
    }
}

// Prints a help that was asked for, or what is wrong with the command line.
fn refused(rt: &HostRuntime, error: &clap::Error) -> Result<ExitCode, Fault> {
    if error.kind() == ErrorKind::OutOfMemory {
        return Err(Fault::NoMemory);
    }
    if error.use_stderr() {
        print_refusal(rt, error)?;
        return Ok(ExitCode::from(WRONG_USE));
    }
    // A help that was asked for has to come out, unless its reader has had enough, as `head`.
    printed(error.print(rt))?;
    Ok(ExitCode::SUCCESS)
}

// Prints what is wrong with the command line. It has words of the command line, which may be names of files, so it is shown as texts of others are.
fn print_refusal(rt: &HostRuntime, error: &clap::Error) -> Result<(), AllocError> {
    let text = format!(in rt.alloc(); "{error}")?;
    for line in text.as_str().lines() {
        let line = shown_text(rt.alloc(), line)?;
        let line = line.as_str();
        let _ = eprintln!(rt; "{line}");
    }
    Ok(())
}
