//! Entries that correct what an origin posted.
ghost use Rattle.fw_entry.specs.Spelling.{HasRowCount};
ghost use Rattle.fw_entry.specs.View.{command_view};

use fw_charge::MOST_POST_ROWS;
use fw_columns::Columns;
use fw_console::{Fault, entry_code, say_fault};
use fw_entry::{Command, Entry, EntryFault};
use fw_snapshot::{State, Verdict, judge};
use std::alloc::Global;

/// What withdraws the posts of these numbers, as the next entries of an origin; `None` where there are no such entries, which was said.
pub(crate) fn withdrawals_of(
    rt: &HostRuntime,
    state: &State,
    origin: &str,
    numbers: &[u64],
) -> Result<Option<Vec<Entry>>, Fault> {
    let Some(first) = next_number(rt.alloc(), state, origin)? else {
        return none_left(rt, origin);
    };
    let mut entries = Vec::new(rt.alloc());
    match put_withdrawals(rt.alloc(), &mut entries, origin, first, numbers) {
        Ok(()) => Ok(Some(entries)),
        Err(fault) => no_entry(rt, origin, fault),
    }
}

// Adds what withdraws the posts of these numbers, as entries of an origin from a number on.
fn put_withdrawals(
    alloc: Global,
    entries: &mut Vec<Entry>,
    origin: &str,
    first: u64,
    numbers: &[u64],
) -> Result<(), EntryFault> {
    let mut next = first;
    for number in numbers {
        put_entry(alloc, entries, origin, next, Command::Withdraw(*number))?;
        next = next.saturating_add(1);
    }
    Ok(())
}

/// Adds what posts those of these rows that aren't there, as entries of an origin behind its next ones, which the list has; false where there are
/// no such entries, which was said.
pub(crate) fn add_posts(
    rt: &HostRuntime,
    state: &State,
    origin: &str,
    entries: &mut Vec<Entry>,
    rows: Missing<'_>,
) -> Result<bool, Fault> {
    let Some(first) = next_number(rt.alloc(), state, origin)? else {
        let _ = none_left(rt, origin)?;
        return Ok(false);
    };
    let next = first.saturating_add(entries.len() as u64);
    match put_posts(rt.alloc(), entries, origin, next, rows) {
        Ok(()) => Ok(true),
        Err(fault) => {
            let _ = no_entry(rt, origin, fault)?;
            Ok(false)
        }
    }
}

/// The rows of posts, and for each whether they are there already.
#[derive(Clone, Copy, Drop)]
pub(crate) struct Missing<'a> {
    pub(crate) parts: &'a [Columns],
    pub(crate) is_there: &'a [bool],
}

// Adds what posts those rows that aren't there, as entries of an origin from a number on.
fn put_posts(
    alloc: Global,
    entries: &mut Vec<Entry>,
    origin: &str,
    first: u64,
    rows: Missing<'_>,
) -> Result<(), EntryFault> {
    let mut next = first;
    for (part, is_there) in rows.parts.iter().zip(rows.is_there) {
        if !*is_there {
            put_post(alloc, entries, origin, next, part)?;
            next = next.saturating_add(1);
        }
    }
    Ok(())
}

// Adds a post of an origin.
fn put_post(
    alloc: Global,
    entries: &mut Vec<Entry>,
    origin: &str,
    number: u64,
    rows: &Columns,
) -> Result<(), EntryFault> {
    let Ok(rows) = rows.copy() else {
        return Err(EntryFault::NoMemory);
    };
    keep(entries, post_of(alloc, origin, number, rows)?)
}

// Adds an entry of an origin.
fn put_entry(
    alloc: Global,
    entries: &mut Vec<Entry>,
    origin: &str,
    number: u64,
    command: Command,
) -> Result<(), EntryFault>
    requires { HasRowCount (command_view command) }
{
    keep(entries, entry_of(alloc, origin, number, command)?)
}

// Adds an entry to others.
fn keep(entries: &mut Vec<Entry>, entry: Entry) -> Result<(), EntryFault> {
    match entries.push(entry) {
        Ok(()) => Ok(()),
        Err(_) => Err(EntryFault::NoMemory),
    }
}

// A post of an origin.
fn post_of(alloc: Global, origin: &str, number: u64, rows: Columns) -> Result<Entry, EntryFault> {
    if rows.len() > MOST_POST_ROWS {
        return Err(EntryFault::TooLarge);
    }
    entry_of(alloc, origin, number, Command::Post(rows))
}

// An entry of an origin.
fn entry_of(alloc: Global, origin: &str, number: u64, command: Command) -> Result<Entry, EntryFault>
    requires { HasRowCount (command_view command) }
{
    Entry::new(alloc, origin.as_bytes(), number, command)
}

// The number of the next entry of an origin, if it has one: an entry that skips numbers is answered with it.
fn next_number(alloc: Global, state: &State, origin: &str) -> Result<Option<u64>, Fault> {
    match entry_of(alloc, origin, u64::MAX, Command::Withdraw(1)) {
        Ok(greatest) => match judge(state, &greatest) {
            Verdict::Gap { expected } => Ok(Some(expected)),
            Verdict::Accept | Verdict::Already { .. } | Verdict::Refused(_) => Ok(None),
        },
        Err(EntryFault::NoMemory) => Err(Fault::NoMemory),
        Err(_) => Ok(None),
    }
}

// Says that an origin has no next number.
fn none_left(rt: &HostRuntime, origin: &str) -> Result<Option<Vec<Entry>>, Fault> {
    let about = format!(in rt.alloc(); "{origin} has no next number")?;
    say_fault(rt, about.as_str(), "E2 Seq");
    Ok(None)
}

// Says why an entry can't be.
fn no_entry(
    rt: &HostRuntime,
    origin: &str,
    fault: EntryFault,
) -> Result<Option<Vec<Entry>>, Fault> {
    let code = entry_code(fault)?;
    let about = format!(in rt.alloc(); "an entry of {origin}")?;
    say_fault(rt, about.as_str(), code);
    Ok(None)
}
