//! `focusd compact`: a warehouse of the entries that count.
use crate::groups::add_entries;
use crate::texts::{entries_of_text, print_line};
use clap::ArgMatches;
use fw_command_line::{DIR, INTO, QUIET};
use fw_compact::EntriesThatCount;
use fw_console::{Creates, Fault, advised, closed, let_go, open_folder, open_to_ask};
use fw_disk::{FolderFault, Volume};
use fw_entry::Entry;
use fw_recover::Store;
use fw_snapshot::State;
use std::alloc::{AllocError, Global};
use std::fs;
use std::io::{self, IsTerminal};
use std::process::ExitCode;

/// How many entries are added at once.
const GROUP: usize = 64;

/// Makes a warehouse of the entries that count, in the folder that the options name.
pub fn compact_folder(rt: &HostRuntime, options: &ArgMatches<'_>) -> ExitCode {
    let folder = options.get_str(DIR).unwrap_or("");
    let into = options.get_str(INTO).unwrap_or("");
    let shows = !options.get_flag(QUIET) && rt.stderr().is_terminal();
    match open_to_ask(rt, folder) {
        Ok(store) => {
            let done = compact(rt, store.state().state(), into, shows);
            advised(rt, into, let_go(store, done))
        }
        Err(fault) => advised(rt, folder, Err(fault)),
    }
}

// Makes a warehouse of the entries of a state that count, and says how many these are.
fn compact(rt: &HostRuntime, state: &State, into: &str, shows: bool) -> Result<ExitCode, Fault> {
    make_folder(rt, into)?;
    let mut store = open_folder(rt, into, Creates::New(state.currency()))?.into_store()?;
    let done = fill(rt, state, &mut store, shows);
    closed(store, done)
}

// Adds the entries of a state that count to a warehouse.
fn fill<V: Volume>(
    rt: &HostRuntime,
    state: &State,
    store: &mut Store<V>,
    shows: bool,
) -> Result<ExitCode, Fault> {
    let mut counting = EntriesThatCount::of(state);
    for _ in 0..u64::MAX {
        match add_next(rt, &mut counting, store, shows)? {
            Next::Group => {}
            Next::None => break,
            Next::Refused => return Ok(ExitCode::FAILURE),
        }
    }
    end(rt, state, store, shows)
}

// What became of the next entries.
enum Next {
    // They were added, and more may follow.
    Group,
    // No one is left.
    None,
    // One was refused, which was said.
    Refused,
}

// Adds the next entries.
fn add_next<V: Volume>(
    rt: &HostRuntime,
    counting: &mut EntriesThatCount<'_>,
    store: &mut Store<V>,
    shows: bool,
) -> Result<Next, Fault> {
    let entries = next_group(rt.alloc(), counting)?;
    if entries.is_empty() {
        return Ok(Next::None);
    }
    if !add_entries(rt, store, &entries)? {
        return Ok(Next::Refused);
    }
    show(rt, store, shows);
    Ok(Next::Group)
}

// Ends a warehouse that has all entries, and says how many these are.
fn end<V: Volume>(
    rt: &HostRuntime,
    state: &State,
    store: &mut Store<V>,
    shows: bool,
) -> Result<ExitCode, Fault> {
    if shows {
        let _ = eprintln!(rt; "");
    }
    store.checkpoint(rt.alloc())?;
    let kept = entries_of_text(rt.alloc(), store.state().state(), state)?;
    print_line(rt, kept.as_str())?;
    Ok(ExitCode::SUCCESS)
}

// Shows how many entries there are, where that is wanted.
fn show<V: Volume>(rt: &HostRuntime, store: &Store<V>, shows: bool) {
    if shows {
        let entries = store.state().state().entries();
        let word = if entries == 1 { "entry" } else { "entries" };
        let _ = eprint!(rt; "\r{entries} {word}");
    }
}

// The next entries, as many as are added at once; none where no one is left.
fn next_group(
    alloc: Global,
    counting: &mut EntriesThatCount<'_>,
) -> Result<Vec<Entry>, AllocError> {
    let mut group = Vec::new(alloc);
    for _ in 0..GROUP {
        match counting.next(alloc)? {
            Some(entry) => group.push(entry)?,
            None => break,
        }
    }
    Ok(group)
}

// Makes a folder, unless it is there.
fn make_folder(rt: &HostRuntime, folder: &str) -> Result<(), Fault> {
    match fs::create_dir(rt, folder) {
        Ok(()) => Ok(()),
        Err(error) if error.kind() == io::ErrorKind::AlreadyExists => Ok(()),
        Err(error) => Err(Fault::from(FolderFault::from(error))),
    }
}
