//! `focusd split`: CSV exports are cut into parts by time and SKU.
use crate::dealing::Dealing;
use crate::listing::{Dealt, listing_text};
use crate::outputs::Outputs;
use crate::piles::Piles;
use clap::ArgMatches;
use fw_add_commands::{document_of, other_kind};
use fw_calendar::Step;
use fw_command_line::{BY, COMMITMENTS, FILES, FORMAT, INTO, NO_SYNC, OUT, QUIET};
use fw_console::{Fault, WRONG_USE, print_answer, refuse, step_of};
use fw_documents::Document;
use fw_export_files::{Walk, walk_files};
use fw_table::shown_text;
use std::process::ExitCode;
use std::{fs, io};

/// The most piles.
const MOST_PILES: usize = 1_000;

/// What the options ask for.
struct Job<'o> {
    folder: &'o str,
    step: Step,
    piles: usize,
    syncs: bool,
    is_json: bool,
}

impl Drop for Job<'_> {
    fn drop(self) {
        let Self {
            folder: _,
            step: _,
            piles: _,
            syncs: _,
            is_json: _,
        } = self;
    }
}

/// Cuts the exports that the options name.
pub fn split_files(rt: &HostRuntime, options: &ArgMatches<'_>) -> Result<ExitCode, Fault> {
    let piles = match options.get_str(INTO) {
        Some(text) => match read_piles(text) {
            Some(piles) => piles,
            None => return Ok(wrong_piles(rt, text)),
        },
        None => 1,
    };
    let job = Job {
        folder: options.get_str(OUT).unwrap_or(""),
        step: step_of(options.get_str(BY)).unwrap_or(Step::Day),
        piles,
        syncs: !options.get_flag(NO_SYNC),
        is_json: options.get_str(FORMAT) == Some("json"),
    };
    split_named(rt, options, &job)
}

// The number of piles that `--into` says, if it is one.
fn read_piles(text: &str) -> Option<usize> {
    match text.parse::<usize>() {
        Ok(piles) if piles >= 1 && piles <= MOST_PILES => Some(piles),
        _ => None,
    }
}

// Says that the value of `--into` is no number of piles.
fn wrong_piles(rt: &HostRuntime, text: &str) -> ExitCode {
    let _ = eprintln!(rt;
        "focusd: --into: {text:?} is not a number of piles from 1 to 1,000, as 4"
    );
    ExitCode::from(WRONG_USE)
}

// Reads the commitments that the options name, and cuts the exports.
fn split_named(
    rt: &HostRuntime,
    options: &ArgMatches<'_>,
    job: &Job<'_>,
) -> Result<ExitCode, Fault> {
    let mut piles = Piles::new(rt.alloc(), job.piles);
    let mut dealt = Dealt::new(rt.alloc());
    for file in options.get_strs(COMMITMENTS).unwrap_or(&[]) {
        if !add_commitment(rt, &mut piles, &mut dealt, *file)? {
            return Ok(ExitCode::FAILURE);
        }
    }
    dealt.find_piles(&piles);
    if !make_folder(rt, job.folder)? {
        return Ok(ExitCode::FAILURE);
    }
    let outputs = Outputs::new(rt.alloc(), job.folder, job.step, job.piles, job.syncs);
    let mut dealing = Dealing::new(rt.alloc(), piles, outputs);
    let files = options.get_strs(FILES).unwrap_or(&[]);
    let mut walk = Walk::new(rt, options.get_flag(QUIET), files);
    let done = walk_files(rt, files, &mut walk, &mut dealing);
    finish(rt, job, &mut dealing, &dealt, done)
}

// Ends the parts, and says what they are; where an export had a fault, they are removed.
fn finish(
    rt: &HostRuntime,
    job: &Job<'_>,
    dealing: &mut Dealing<'_>,
    dealt: &Dealt,
    done: Result<bool, Fault>,
) -> Result<ExitCode, Fault> {
    let ended = match done {
        Ok(true) => dealing.outputs.finish(rt),
        done => done,
    };
    match ended {
        Ok(true) => print_parts(rt, job, dealing, dealt),
        Ok(false) => {
            dealing.outputs.remove(rt);
            Ok(ExitCode::FAILURE)
        }
        Err(fault) => {
            dealing.outputs.remove(rt);
            Err(fault)
        }
    }
}

// Says what the parts are.
fn print_parts(
    rt: &HostRuntime,
    job: &Job<'_>,
    dealing: &Dealing<'_>,
    dealt: &Dealt,
) -> Result<ExitCode, Fault> {
    let parts = dealing.outputs.parts(rt.alloc())?;
    let rows = dealing.rows;
    if job.is_json {
        let text = listing_text(
            rt.alloc(),
            job.step,
            job.piles,
            rows,
            parts.as_slice(),
            dealt,
        )?;
        return print_answer(rt, text.as_bytes());
    }
    let count = parts.len();
    let row = if rows == 1 { "row" } else { "rows" };
    let file = if count == 1 { "file" } else { "files" };
    let text = format!(in rt.alloc(); "split {rows} {row} into {count} {file}\n")?;
    print_answer(rt, text.as_bytes())
}

// Adds the commitment of a file; false where it has none, which was said. A purchase that is added to a commitment joins no SKUs.
fn add_commitment(
    rt: &HostRuntime,
    piles: &mut Piles,
    dealt: &mut Dealt,
    file: &str,
) -> Result<bool, Fault> {
    match &document_of(rt, file)? {
        Some(Document::Commitment(commitment)) => {
            piles.add(rt.alloc(), commitment)?;
            dealt.add(rt.alloc(), file, commitment.id(), true)?;
            Ok(true)
        }
        Some(Document::Purchase(added)) => {
            dealt.add(rt.alloc(), file, added.id(), false)?;
            Ok(true)
        }
        Some(Document::Policy(_)) => other_kind(rt, file, "commitment"),
        None => Ok(false),
    }
}

// Makes the folder of the parts, where it isn't there; false where it can't be made, which was said.
fn make_folder(rt: &HostRuntime, folder: &str) -> Result<bool, Fault> {
    match fs::create_dir(rt, folder) {
        Ok(()) => Ok(true),
        Err(error) if error.kind() == io::ErrorKind::AlreadyExists => Ok(true),
        Err(error) => {
            let name = shown_text(rt.alloc(), folder)?;
            let reason = format!(in rt.alloc(); "{error}")?;
            Ok(refuse(rt, name.as_str(), "W10 NotWritten", reason.as_str()))
        }
    }
}
