//! Entries that are judged beforehand, and added to a warehouse group by group.
ghost use Rattle.std.specs.Prelude.{◌≤◌, length, IfOk};
ghost use Rattle.fw_segment.specs.Groups.{group, IsGroup};

use fw_console::{Fault, conflict_code, say_fault};
use fw_disk::Volume;
use fw_entry::Entry;
use fw_entry_bytes::{Form, put_entry};
use fw_recover::Store;
use fw_segment::decode_group;
use fw_snapshot::{State, Verdict, judge};
use std::alloc::{AllocError, Global};

/// The most entries of a group.
const MOST_ENTRIES: usize = 64;

/// The most bytes of a group.
const MOST_BYTES: usize = 8_388_608;

/// How many bytes of a group say how many entries it has.
const COUNT_BYTES: usize = 4;

/// What a warehouse would be with all entries, each judged after those before it; `None` where one isn't accepted, which is said. Nothing changes.
pub(crate) fn state_with(
    rt: &HostRuntime,
    state: &State,
    entries: &[Entry],
) -> Result<Option<State>, Fault> {
    let mut after = state.copy()?;
    for entry in entries {
        match judge(&after, entry) {
            Verdict::Accept => after = after.apply(entry)?,
            verdict => {
                say_verdict(rt, verdict);
                return Ok(None);
            }
        }
    }
    Ok(Some(after))
}

/// How many of the entries, from the front, make one group.
pub(crate) fn group_len(entries: &[Entry]) -> usize {
    let mut bytes = COUNT_BYTES;
    for (place, entry) in entries.iter().enumerate() {
        bytes = bytes.saturating_add(entry.encoded_len());
        if place == MOST_ENTRIES || bytes > MOST_BYTES {
            return place;
        }
    }
    entries.len()
}

/// Adds all entries, in as few groups as they fit into, and makes a checkpoint whenever the log has become longer than the body; false where
/// one was refused, which was said. Where it stops, the groups before stand.
pub(crate) fn add_entries<V: Volume>(
    rt: &HostRuntime,
    store: &mut Store<V>,
    entries: &[Entry],
) -> Result<bool, Fault> {
    let mut rest = entries;
    for _ in 0..entries.len() {
        if rest.is_empty() {
            break;
        }
        let (first, others) = rest.split_at(group_len(rest).max(1).min(rest.len()));
        if !add_group(rt, store, first)? {
            return Ok(false);
        }
        if store.checkpoint_pays() {
            store.checkpoint(rt.alloc())?;
        }
        rest = others;
    }
    Ok(true)
}

// Adds entries as one group; false where one was refused, which was said.
fn add_group<V: Volume>(
    rt: &HostRuntime,
    store: &mut Store<V>,
    entries: &[Entry],
) -> Result<bool, Fault> {
    let group = group_of(rt.alloc(), entries)?;
    let verdicts = store.commit_group(rt.alloc(), &group)?;
    Ok(are_accepted(rt, &verdicts))
}

// Whether each verdict accepts; the first one that doesn't is said.
fn are_accepted(rt: &HostRuntime, verdicts: &[Verdict]) -> bool {
    for verdict in verdicts {
        if !verdict.is_accept() {
            say_verdict(rt, *verdict);
            return false;
        }
    }
    true
}

// Entries as a group: read back from their bytes, so a group by the rules that files are read by.
fn group_of(alloc: Global, entries: &[Entry]) -> Result<Vec<Entry>, AllocError>
    ensures group { IfOk result (λ group. IsGroup group.items) }
    ensures size { IfOk result (λ entries. length (group entries.items) ≤ 8388608) }
{
    let bytes = group_bytes(alloc, entries)?;
    if bytes.len() > MOST_BYTES {
        return Err(AllocError);
    }
    match decode_group(alloc, Form::Two, &bytes) {
        Ok(entries) => Ok(entries),
        Err(_) => Err(AllocError),
    }
}

// The bytes of a group of entries.
fn group_bytes(alloc: Global, entries: &[Entry]) -> Result<Vec<u8>, AllocError> {
    let count = entries.len() as u64;
    let mut bytes = Vec::new(alloc);
    bytes.extend_from_slice(&count.to_le_bytes()[..COUNT_BYTES])?;
    for entry in entries {
        put_entry(&mut bytes, entry)?;
    }
    Ok(bytes)
}

// Says why an entry isn't accepted.
fn say_verdict(rt: &HostRuntime, verdict: Verdict) {
    let fault = match verdict {
        Verdict::Refused(conflict) => conflict_code(conflict),
        Verdict::Accept | Verdict::Already { .. } | Verdict::Gap { .. } => "E2 Seq",
    };
    say_fault(rt, "an entry that was to be added", fault);
}
