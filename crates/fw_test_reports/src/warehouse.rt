//! Warehouses, entry by entry.
ghost use Rattle.std.specs.Prelude.{IfOk};
ghost use Rattle.fw_entry.specs.Spelling.{HasRowCount};
ghost use Rattle.fw_entry.specs.View.{command_view};

use crate::given::{dollar, rows};
use fw_columns::Columns;
use fw_commitment::{read_commitment, read_purchase};
use fw_entry::{Command, Entry};
use fw_policy::read_policy;
use fw_rows::Row;
use fw_snapshot::{Snapshot, State, Verdict, judge};
use std::alloc::{AllocError, Global};

/// A snapshot of a state.
pub(crate) fn shared(state: State) -> Result<Snapshot, AllocError> {
    Snapshot::new(state).ok().ok_or(AllocError)
}

/// A warehouse of dollars that has accepted nothing.
pub(crate) fn empty(alloc: Global) -> Result<Snapshot, AllocError> {
    shared(State::empty(alloc, dollar()?))
}

/// The warehouse after a post of these records, which is accepted.
pub(crate) fn posted(
    alloc: Global,
    before: &Snapshot,
    origin: &str,
    seq: u64,
    records: &str,
) -> Result<Snapshot, AllocError> {
    let post = post(alloc, &rows(alloc, records)?)?;
    after(alloc, before, origin, seq, post)
}

/// A post of 1 to 4,096 rows.
fn post(alloc: Global, rows: &[Row]) -> Result<Command, AllocError>
    ensures { IfOk result (λ command. HasRowCount (command_view command)) }
{
    if rows.is_empty() || rows.len() > 4_096 {
        return Err(AllocError);
    }
    Ok(Command::Post(Columns::from_rows(alloc, rows)?))
}

/// The warehouse after a commitment, which is accepted.
pub(crate) fn committed(
    alloc: Global,
    before: &Snapshot,
    origin: &str,
    seq: u64,
    text: &str,
) -> Result<Snapshot, AllocError> {
    match read_commitment(alloc, text.as_bytes()) {
        Ok(commitment) => after(alloc, before, origin, seq, Command::Commit(commitment)),
        Err(_) => Err(AllocError),
    }
}

/// The warehouse after a purchase that is added to a commitment, which is accepted.
pub(crate) fn added(
    alloc: Global,
    before: &Snapshot,
    origin: &str,
    seq: u64,
    text: &str,
) -> Result<Snapshot, AllocError> {
    match read_purchase(alloc, text.as_bytes()) {
        Ok(added) => after(alloc, before, origin, seq, Command::AddPurchase(added)),
        Err(_) => Err(AllocError),
    }
}

/// The warehouse after a policy, which is accepted.
pub(crate) fn ruled(
    alloc: Global,
    before: &Snapshot,
    origin: &str,
    seq: u64,
    text: &str,
) -> Result<Snapshot, AllocError> {
    match read_policy(alloc, text.as_bytes()) {
        Ok(policy) => after(alloc, before, origin, seq, Command::SetPolicy(policy)),
        Err(_) => Err(AllocError),
    }
}

/// The warehouse after the post of this number was withdrawn, which is accepted.
pub(crate) fn withdrawn(
    alloc: Global,
    before: &Snapshot,
    origin: &str,
    seq: u64,
    target: u64,
) -> Result<Snapshot, AllocError> {
    after(alloc, before, origin, seq, Command::Withdraw(target))
}

/// The warehouse after a command, which is accepted.
fn after(
    alloc: Global,
    before: &Snapshot,
    origin: &str,
    seq: u64,
    command: Command,
) -> Result<Snapshot, AllocError>
    requires { HasRowCount (command_view command) }
{
    match Entry::new(alloc, origin.as_bytes(), seq, command) {
        Ok(entry) => applied(before.state(), &entry),
        Err(_) => Err(AllocError),
    }
}

/// The warehouse after an entry, which is accepted.
fn applied(before: &State, entry: &Entry) -> Result<Snapshot, AllocError> {
    match judge(before, entry) {
        Verdict::Accept => shared(before.apply(entry)?),
        _ => Err(AllocError),
    }
}
