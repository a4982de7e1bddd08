//! What an import says, and why a part was refused.
use crate::fitting::say_room;
use crate::importing::Import;
use crate::others::Shared;
use fw_calendar::hour_text;
use fw_check::locate;
use fw_console::{Fault, House, WRONG_USE, conflict_code, entry_code, letters, say_fault};
use fw_cut::Part;
use fw_explain::explain_fault;
use fw_export_files::{Walk, say_kept};
use fw_import::ImportFault;
use fw_recover::StoreFault;
use fw_rows::{Currency, RecordFault, Row, RowFault, read_rows};
use fw_snapshot::{Conflict, State};
use fw_table::shown_text;
use std::alloc::{AllocError, Global};
use std::process::ExitCode;

/// Says that the currency that was named is not that of the warehouse.
pub(crate) fn wrong_currency(
    rt: &HostRuntime,
    folder: &str,
    named: Currency,
    own: Currency,
) -> Result<ExitCode, Fault> {
    let folder = shown_text(rt.alloc(), folder)?;
    let folder = folder.as_str();
    let named = letters(&named);
    let own = letters(&own);
    let _ = eprintln!(rt;
        "focusd: --currency {named}: the currency of the warehouse in {folder} is {own}"
    );
    Ok(ExitCode::from(WRONG_USE))
}

/// A part as its file has it, and as it was read.
#[derive(Clone, Copy, Drop)]
pub(crate) struct Seen<'p> {
    pub(crate) part: &'p Part,
    pub(crate) read: &'p Part,
}

/// Says why a part was not imported, and how to go on. The answer is false.
pub(crate) fn explain(
    rt: &HostRuntime,
    import: &Import<'_>,
    walk: &mut Walk<'_>,
    seen: &Seen<'_>,
    fault: ImportFault,
) -> Result<bool, Fault> {
    match fault {
        ImportFault::NoMemory | ImportFault::Store(StoreFault::NoMemory) => Err(Fault::NoMemory),
        ImportFault::Store(fault) => Err(Fault::Store(fault)),
        ImportFault::Rows(fault) => explain_rows(rt, import, walk, seen, fault),
        ImportFault::Conflict(conflict) => {
            explain_conflict(rt, &import.house, walk, seen.read, conflict)
        }
        ImportFault::Entry(fault) => say_post(rt, walk, entry_code(fault)?),
        ImportFault::Differs => say_entry(rt, walk, import.origin, import.number, "R1 Differs"),
        ImportFault::Withdrawn => say_entry(rt, walk, import.origin, import.number, "R2 Withdrawn"),
        ImportFault::Gap { expected } => say_entry(rt, walk, import.origin, expected, "R3 Gap"),
    }
}

// Says what is wrong with the post that begins here.
fn say_post(rt: &HostRuntime, walk: &Walk<'_>, fault: &str) -> Result<bool, Fault> {
    let (name, line, record) = (walk.shown.as_str(), walk.line, walk.record);
    let about = format!(in rt.alloc(); "{name}:{line}: the post from record {record} on")?;
    say_fault(rt, about.as_str(), fault);
    Ok(false)
}

// Says what is wrong with an entry of the origin, and from where on a file has its rows.
fn say_entry(
    rt: &HostRuntime,
    walk: &Walk<'_>,
    origin: &str,
    number: u64,
    fault: &str,
) -> Result<bool, Fault> {
    let (name, line, record) = (walk.shown.as_str(), walk.line, walk.record);
    let about = format!(in rt.alloc();
        "{name}:{line}: entry {number} of {origin}, from record {record} on"
    )?;
    say_fault(rt, about.as_str(), fault);
    Ok(false)
}

// Says why the rows of a part don't go with what is in the warehouse.
fn explain_conflict(
    rt: &HostRuntime,
    house: &House,
    walk: &Walk<'_>,
    part: &Part,
    conflict: Conflict,
) -> Result<bool, Fault> {
    match conflict {
        Conflict::Full => say_full(rt, house, walk),
        Conflict::OwnCommitment => explain_own(rt, house, walk, part),
        other => say_post(rt, walk, conflict_code(other)),
    }
}

// Says that the warehouse takes no more rows. The answer is false.
fn say_full(rt: &HostRuntime, house: &House, walk: &Walk<'_>) -> Result<bool, Fault> {
    let posted = house.rows_posted();
    let is_taken = say_post(rt, walk, "J1 Full")?;
    let _ = eprintln!(rt; "Rows that were posted before it, and stay: {posted}.");
    say_room(rt, house, 1);
    Ok(is_taken)
}

// Says which row of a part carries the id of a commitment of the warehouse.
fn explain_own(
    rt: &HostRuntime,
    house: &House,
    walk: &Walk<'_>,
    part: &Part,
) -> Result<bool, Fault> {
    let Some(state) = house.state() else {
        return Ok(false);
    };
    match read_rows(rt.alloc(), part.text.as_slice(), state.currency()) {
        Ok(rows) => say_first_own(rt, walk, part, state, rows.as_slice()),
        Err(RowFault::NoMemory) => Err(Fault::NoMemory),
        Err(_) => Ok(false),
    }
}

// Says which is the first of the rows of a part that carries the id of a commitment of the warehouse.
fn say_first_own(
    rt: &HostRuntime,
    walk: &Walk<'_>,
    part: &Part,
    state: &State,
    rows: &[Row],
) -> Result<bool, Fault> {
    for (before, row) in rows.iter().enumerate() {
        if let Some(id) = own_id(state, row) {
            return say_own(rt, walk, part, before, id);
        }
    }
    Ok(false)
}

// The id of a commitment of the warehouse, if a row carries it.
fn own_id<'a>(state: &State, row: &'a Row) -> Option<&'a str> {
    let id = row.discount()?.id();
    for commitment in state.commitment_list() {
        if commitment.id() == id {
            return Some(id);
        }
    }
    None
}

// Says that the row behind so many rows of a part carries the id of a commitment of the warehouse.
fn say_own(
    rt: &HostRuntime,
    walk: &Walk<'_>,
    part: &Part,
    before: usize,
    id: &str,
) -> Result<bool, Fault> {
    let number = u32::try_from(before).unwrap_or(0).saturating_add(1);
    // Where the record stands; in which column a fault is doesn't matter.
    let at = locate(
        rt.alloc(),
        part,
        walk.line_end,
        number,
        RecordFault::Commitment,
    )?;
    let name = walk.shown.as_str();
    let line = walk.line.saturating_add(at.lines_before);
    let record = walk.record.saturating_add(before as u64);
    let words = explain_fault("J4 OwnCommitment");
    let (expected, remedy) = (words.expected, words.remedy);
    let _ = eprintln!(rt;
        "focusd: {name}:{line}: record {record}, CommitmentDiscountId: {id:?}: J4 OwnCommitment: expected {expected}"
    );
    let _ = eprintln!(rt; "No row of its post was imported; those before it stay. {remedy}");
    Ok(false)
}

// Says which value of a file is wrong, and how to go on.
fn explain_rows(
    rt: &HostRuntime,
    import: &Import<'_>,
    walk: &mut Walk<'_>,
    seen: &Seen<'_>,
    fault: RowFault,
) -> Result<bool, Fault> {
    let currency = wanted_currency(rt.alloc(), &import.house)?;
    let is_taken = walk.refuse(rt, seen.part, fault, currency.as_str())?;
    if let Some(keeper) = &import.keeper {
        say_kept(rt, keeper.keeps(), seen.read, fault)?;
    }
    if let RowFault::Record { .. } = fault {
        let _ = eprintln!(rt;
            "No row of its post was imported; those before it stay. Correct the file and run the command again: it goes on from there. `focusd check` lists all faults."
        );
    }
    Ok(is_taken)
}

// Which currency is expected, in words.
fn wanted_currency(alloc: Global, house: &House) -> Result<String, AllocError> {
    let currency = house.currency();
    let letters = letters(&currency);
    if house.is_new() {
        return format!(in alloc;
            "{letters}, the currency of the warehouse that would be made; --currency names another"
        );
    }
    format!(in alloc; "{letters}, the currency of the warehouse")
}

/// Warns of rows that another origin has too.
pub(crate) fn warn_of_shared(
    rt: &HostRuntime,
    name: &str,
    shared: &Shared<'_>,
) -> Result<(), AllocError> {
    let hour = hour_text(rt.alloc(), u64::from(shared.hour))?;
    let origin = shared.origin;
    let account = shared.account;
    if account.is_empty() {
        let _ = eprintln!(rt;
            "focusd: warning: {name} has rows of {hour} without a sub-account, and so has the origin {origin}."
        );
    } else {
        let _ = eprintln!(rt;
            "focusd: warning: {name} has rows of {hour} and sub-account {account:?}, and so has the origin {origin}."
        );
    }
    let _ = eprintln!(rt;
        "All of them count. If this is the same export once more, its costs count twice: `focusd replace` puts an export in the place of one that was imported before."
    );
    Ok(())
}

/// Warns of posts of the origin behind those of the files: from a number on, so many, with so many rows that count.
pub(crate) fn warn_of_posts_behind(
    rt: &HostRuntime,
    origin: &str,
    first: u64,
    posts: u64,
    rows: u64,
) {
    let has = if posts == 1 { "post" } else { "posts" };
    let that_count = if rows == 1 {
        "row that counts"
    } else {
        "rows that count"
    };
    let _ = eprintln!(rt;
        "focusd: warning: {origin} has {posts} {has} more, from entry {first} on, with {rows} {that_count} and that the files don't have."
    );
    let _ = eprintln!(rt;
        "The export has shrunk since, or a file is missing from the list. `focusd replace` puts an export in the place of one that was imported before."
    );
}
