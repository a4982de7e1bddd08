//! The command: all files are checked, and then each is added.
use crate::check::{Job, Tally, Trial, check_all, print_same};
use crate::faults::say_refusal;
use crate::matched::warn_unmatched;
use crate::printing::print_line;
use crate::texts::{Given, name_text, replaced_text};
use clap::ArgMatches;
use fw_adding::{Outcome, add_document};
use fw_command_line::{DIR, DRY_RUN, FILES, ORIGIN, YES};
use fw_console::{
    Fault, advised, closed, open_to_ask, open_warehouse, tell, tells_json, wrong_origin,
};
use fw_disk::Volume;
use fw_documents::Document;
use fw_entry::is_origin;
use fw_recover::Store;
use fw_snapshot::State;
use fw_table::shown_text;
use std::process::ExitCode;

/// Adds the files that the options name.
pub fn add_files(rt: &HostRuntime, options: &ArgMatches<'_>) -> Result<ExitCode, Fault> {
    let origin = options.get_str(ORIGIN).unwrap_or("");
    if !is_origin(origin.as_bytes()) {
        return Ok(wrong_origin(rt, origin));
    }
    let job = Job {
        origin,
        is_dry: options.get_flag(DRY_RUN),
        says_yes: options.get_flag(YES),
        is_silent: tells_json(options),
    };
    let folder = options.get_str(DIR).unwrap_or("");
    let mut tally = Tally::default();
    let files = options.get_strs(FILES).unwrap_or(&[]);
    let done = add_into(rt, folder, &job, &mut tally, files);
    let status = advised(rt, folder, done);
    if job.is_silent {
        return tell(rt, "add", &tally.members(), status);
    }
    Ok(status)
}

// Adds files to the warehouse of a folder.
fn add_into(
    rt: &HostRuntime,
    folder: &str,
    job: &Job<'_>,
    tally: &mut Tally,
    files: &[&str],
) -> Result<ExitCode, Fault> {
    let mut store = if job.is_dry {
        open_to_ask(rt, folder)?
    } else {
        open_warehouse(rt, folder)?
    };
    let done = add_to(rt, &mut store, job, tally, files);
    closed(store, done)
}

// Checks files against a warehouse, and where none has a fault adds them, unless nothing is to be written.
fn add_to<V: Volume>(
    rt: &HostRuntime,
    store: &mut Store<V>,
    job: &Job<'_>,
    tally: &mut Tally,
    files: &[&str],
) -> Result<ExitCode, Fault> {
    let mut trial = Trial::new(rt.alloc(), store.state().state(), store.form())?;
    if !check_all(rt, job, &mut trial, files)? {
        return Ok(nothing_added(rt));
    }
    if job.is_dry {
        *tally = trial.tally;
        return Ok(ExitCode::SUCCESS);
    }
    add_all(rt, store, job, tally, files, trial.documents())
}

// Says that a fault kept all files out.
fn nothing_added(rt: &HostRuntime) -> ExitCode {
    let _ = eprintln!(rt; "focusd: nothing was added");
    ExitCode::FAILURE
}

// Adds documents, each of the file at its place.
fn add_all<V: Volume>(
    rt: &HostRuntime,
    store: &mut Store<V>,
    job: &Job<'_>,
    tally: &mut Tally,
    files: &[&str],
    documents: &[Document],
) -> Result<ExitCode, Fault> {
    for (file, document) in files.iter().zip(documents) {
        let name = shown_text(rt.alloc(), file)?;
        if !add_one(rt, store, job, tally, name.as_str(), document)? {
            return Ok(ExitCode::FAILURE);
        }
    }
    Ok(ExitCode::SUCCESS)
}

// Adds a document, and says what became of it; false where it was refused, which was said.
fn add_one<V: Volume>(
    rt: &HostRuntime,
    store: &mut Store<V>,
    job: &Job<'_>,
    tally: &mut Tally,
    file: &str,
    document: &Document,
) -> Result<bool, Fault> {
    let name = name_text(rt.alloc(), document)?;
    let given = Given {
        file,
        document,
        name: name.as_str(),
        is_silent: job.is_silent,
    };
    add_given(rt, store, job, tally, &given)
}

// Adds a document, and says what became of it.
fn add_given<V: Volume>(
    rt: &HostRuntime,
    store: &mut Store<V>,
    job: &Job<'_>,
    tally: &mut Tally,
    given: &Given<'_>,
) -> Result<bool, Fault> {
    let replaced = replaced_text(rt.alloc(), store.state().state(), given.document)?;
    match add_document(rt.alloc(), store, job.origin, given.document, job.says_yes) {
        Ok(outcome) => {
            tally.count(outcome);
            let state = store.state().state();
            print_outcome(rt, state, job, given, outcome, replaced.as_str())
        }
        Err(fault) => say_refusal(rt, store.state().state(), job.origin, given, fault),
    }
}

// Says what became of a document. The answer is true.
fn print_outcome(
    rt: &HostRuntime,
    state: &State,
    job: &Job<'_>,
    given: &Given<'_>,
    outcome: Outcome,
    replaced: &str,
) -> Result<bool, Fault> {
    match outcome {
        Outcome::Added => {
            print_added(rt, state, job, given, replaced)?;
            warn_unmatched(rt, state, given)?;
        }
        Outcome::Same => print_same(rt, given)?,
    }
    Ok(true)
}

// Says that a document was added, as the last entry.
fn print_added(
    rt: &HostRuntime,
    state: &State,
    job: &Job<'_>,
    given: &Given<'_>,
    replaced: &str,
) -> Result<(), Fault> {
    let name = given.name;
    let entry = state.entries();
    let origin = job.origin;
    let number = last_number(state);
    let line = format!(in rt.alloc(); "{name}{replaced}: entry {entry} ({origin} {number})")?;
    print_line(rt, given, line.as_str())
}

// The number of the last entry among those of its origin.
fn last_number(state: &State) -> u64 {
    let heads = state.heads();
    let count = heads.len();
    if count == 0 {
        return 0;
    }
    heads.get(count - 1).seq()
}
