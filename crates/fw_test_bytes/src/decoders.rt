//! What the decoders read, and the place of each fault.
use crate::ended::check_all;
use crate::vectors::{
    ADDED, ADDED_CHANGES, ADDED_FRONTS, Change, DEAR, FAULTS, FULL, FULL_CHANGES, FULL_FRONTS,
    Front, POLICY, POLICY_CHANGES, POLICY_FRONTS, SPEND, SPEND_CHANGES, TAX, TAX_CHANGES, USAGE,
    USAGE_CHANGES, USAGE_FRONTS, VALUES,
};
use fw_bytes::{ReadError, i64_at, put_byte, str_at, u32_at, u64_at};
use fw_charge::Row;
use fw_columns::{Columns, LentRow};
use fw_entry::{Command, Entry};
use fw_entry_bytes::{Form, entry_of, put_entry};
use fw_fields::{short_text_of, tag_text_of};
use fw_row_bytes::{put_row, row_of};
use fw_terms::{AddedPurchase, Commitment, Policy, added_len, commitment_len, policy_len};
use fw_terms_bytes::{added_of, commitment_of, policy_of, put_added, put_commitment, put_policy};
use std::alloc::{AllocError, Global};
use std::fmt::Debug;

/// What bytes are read as.
#[derive(Clone, Copy, Drop)]
pub(crate) enum What {
    U32,
    U64,
    I64,
    Text,
    ShortText,
    TagText,
    Row,
    Commitment,
    Policy,
    Added,
    /// An entry, as the first form has it.
    Entry,
    /// An entry, as the second form has it.
    EntryOfTwo,
}

/// What is written in bytes.
trait Spelled: Drop {
    fn shown(&self, alloc: Global) -> Result<String, AllocError>;

    fn put(&self, out: &mut Vec<u8>) -> Result<(), AllocError>;

    fn written_len(&self) -> usize;
}

impl Spelled for Row {
    fn shown(&self, alloc: Global) -> Result<String, AllocError> {
        printed(alloc, self)
    }

    fn put(&self, out: &mut Vec<u8>) -> Result<(), AllocError> {
        put_row(out, &LentRow::of_row(self))
    }

    fn written_len(&self) -> usize {
        LentRow::of_row(self).encoded_len()
    }
}

impl Spelled for Commitment {
    fn shown(&self, alloc: Global) -> Result<String, AllocError> {
        printed(alloc, self)
    }

    fn put(&self, out: &mut Vec<u8>) -> Result<(), AllocError> {
        put_commitment(out, self)
    }

    fn written_len(&self) -> usize {
        commitment_len(self)
    }
}

impl Spelled for Policy {
    fn shown(&self, alloc: Global) -> Result<String, AllocError> {
        printed(alloc, self)
    }

    fn put(&self, out: &mut Vec<u8>) -> Result<(), AllocError> {
        put_policy(out, self)
    }

    fn written_len(&self) -> usize {
        policy_len(self)
    }
}

impl Spelled for AddedPurchase {
    fn shown(&self, alloc: Global) -> Result<String, AllocError> {
        printed(alloc, self)
    }

    fn put(&self, out: &mut Vec<u8>) -> Result<(), AllocError> {
        put_added(out, self)
    }

    fn written_len(&self) -> usize {
        added_len(self)
    }
}

impl Spelled for Entry {
    fn shown(&self, alloc: Global) -> Result<String, AllocError> {
        let command = command_shown(alloc, self.command())?;
        format!(in alloc;
            "Entry {{ origin: {:?}, seq: {}, command: {command} }}",
            self.origin(),
            self.seq()
        )
    }

    fn put(&self, out: &mut Vec<u8>) -> Result<(), AllocError> {
        put_entry(out, self)
    }

    fn written_len(&self) -> usize {
        self.encoded_len()
    }
}

/// Adds the parts, one after the other.
fn join(bytes: &mut Vec<u8>, parts: &[&[u8]]) -> Result<(), AllocError> {
    for part in parts {
        bytes.extend_from_slice(part)?;
    }
    Ok(())
}

/// The parts, one after the other.
pub(crate) fn joined(alloc: Global, parts: &[&[u8]]) -> Result<Vec<u8>, AllocError> {
    let mut bytes = Vec::new(alloc);
    join(&mut bytes, parts)?;
    Ok(bytes)
}

/// A value as it prints.
fn printed<T: Debug>(alloc: Global, one: &T) -> Result<String, AllocError> {
    format!(in alloc; "{one:?}")
}

/// A command with all that it holds, as values print.
fn command_shown(alloc: Global, command: &Command) -> Result<String, AllocError> {
    match command {
        Command::Post(rows) => rows_shown(alloc, rows),
        Command::Commit(commitment) => format!(in alloc; "Commit({commitment:?})"),
        Command::SetPolicy(policy) => format!(in alloc; "SetPolicy({policy:?})"),
        Command::Withdraw(target) => format!(in alloc; "Withdraw({target})"),
        Command::AddPurchase(added) => format!(in alloc; "AddPurchase({added:?})"),
    }
}

/// Adds the rows of a post.
fn push_rows(all: &mut Vec<Row>, rows: &Columns) -> Result<(), AllocError> {
    for place in 0..rows.len() {
        all.push(rows.row(place)?)?;
    }
    Ok(())
}

/// The rows of a post, as values print.
fn rows_shown(alloc: Global, rows: &Columns) -> Result<String, AllocError> {
    let mut all = Vec::new(alloc);
    push_rows(&mut all, rows)?;
    format!(in alloc; "Post({all:?})")
}

/// Whether a value prints so.
fn prints<T: Spelled>(alloc: Global, one: &T, printed: &str) -> Result<bool, AllocError> {
    Ok(one.shown(alloc)?.as_str() == printed)
}

/// Whether a value is written as these bytes, here behind a 7.
fn writes<T: Spelled>(out: &mut Vec<u8>, one: &T, bytes: &[u8]) -> Result<bool, AllocError> {
    put_byte(out, 7)?;
    one.put(out)?;
    Ok(out.split_first() == Some((&7, bytes)) && one.written_len() == bytes.len())
}

/// Whether a value prints so and is written as these bytes.
fn is_shown<T: Spelled>(
    alloc: Global,
    one: &T,
    bytes: &[u8],
    printed: &str,
) -> Result<bool, ReadError> {
    let mut out = Vec::new(alloc);
    let is_written = writes(&mut out, one, bytes);
    Ok(is_written? && prints(alloc, one, printed)?)
}

/// Whether the value that was read prints so and is written as these bytes, and so many were left.
fn is_read<T: Spelled>(
    alloc: Global,
    read: Result<(T, &[u8]), ReadError>,
    left: usize,
    bytes: &[u8],
    printed: &str,
) -> Result<bool, ReadError> {
    match read {
        Ok((one, rest)) if rest.len() == left => is_shown(alloc, &one, bytes, printed),
        Ok(_) => Ok(false),
        Err(fault) => Err(fault),
    }
}

/// Whether these bytes, of which the last few are left, are a value that prints so, and are written again.
fn is_decoded(
    alloc: Global,
    what: What,
    bytes: &[u8],
    left: usize,
    printed: &str,
) -> Result<bool, ReadError> {
    let own = bytes
        .get(..bytes.len().saturating_sub(left))
        .unwrap_or(bytes);
    match what {
        What::Row => is_read(alloc, row_of(alloc, bytes), left, own, printed),
        What::Commitment => is_read(alloc, commitment_of(alloc, bytes), left, own, printed),
        What::Policy => is_read(alloc, policy_of(alloc, bytes), left, own, printed),
        What::Added => is_read(alloc, added_of(alloc, bytes), left, own, printed),
        What::Entry => is_read(alloc, entry_of(alloc, Form::One, bytes), left, own, printed),
        What::EntryOfTwo => is_read(alloc, entry_of(alloc, Form::Two, bytes), left, own, printed),
        _ => Ok(false),
    }
}

/// Whether a value is read and written with these bytes after its own.
fn is_spelled(
    alloc: Global,
    what: What,
    parts: &[&[u8]],
    after: &[u8],
    printed: &str,
) -> Result<bool, ReadError> {
    let mut bytes = joined(alloc, parts)?;
    match bytes.extend_from_slice(after) {
        Ok(()) => is_decoded(alloc, what, &bytes, after.len(), printed),
        Err(fault) => Err(ReadError::from(fault)),
    }
}

/// Whether a value is read and written with nothing after its bytes, and with two more.
fn is_right(alloc: Global, what: What, parts: &[&[u8]], printed: &str) -> Result<bool, ReadError> {
    Ok(
        is_spelled(alloc, what, parts, &[], printed)?
            && is_spelled(alloc, what, parts, &[7, 7], printed)?,
    )
}

/// What the first value prints that is not read or not written.
fn wrong_value(alloc: Global) -> Result<Option<&'static str>, ReadError> {
    for (what, parts, printed) in VALUES {
        if !is_right(alloc, *what, parts, printed)? {
            return Ok(Some(printed));
        }
    }
    Ok(None)
}

#[test]
fn values_are_read_and_written(rt: HostRuntime) {
    check_all(&rt, wrong_value(rt.alloc()));
}

/// The place of a decoder's fault in these bytes; `None` where it read a value. A fault before the bytes is at no place of a table.
fn place_of<T: Drop>(
    bytes: &[u8],
    read: Result<(T, &[u8]), ReadError>,
) -> Result<Option<usize>, AllocError> {
    match read {
        Ok(_) => Ok(None),
        Err(ReadError::Corrupt(left)) => {
            Ok(Some(bytes.len().checked_sub(left).unwrap_or(usize::MAX)))
        }
        Err(ReadError::NoMemory) => Err(AllocError),
    }
}

/// The place of the fault in these bytes; `None` where they begin with a value.
fn fault_of(alloc: Global, what: What, bytes: &[u8]) -> Result<Option<usize>, AllocError> {
    match what {
        What::U32 => place_of(bytes, u32_at(bytes)),
        What::U64 => place_of(bytes, u64_at(bytes)),
        What::I64 => place_of(bytes, i64_at(bytes)),
        What::Text => place_of(bytes, str_at(bytes)),
        What::ShortText => place_of(bytes, short_text_of(alloc, bytes)),
        What::TagText => place_of(bytes, tag_text_of(alloc, bytes)),
        What::Row => place_of(bytes, row_of(alloc, bytes)),
        What::Commitment => place_of(bytes, commitment_of(alloc, bytes)),
        What::Policy => place_of(bytes, policy_of(alloc, bytes)),
        What::Added => place_of(bytes, added_of(alloc, bytes)),
        What::Entry => place_of(bytes, entry_of(alloc, Form::One, bytes)),
        What::EntryOfTwo => place_of(bytes, entry_of(alloc, Form::Two, bytes)),
    }
}

/// The place of the fault in the bytes that the parts make.
fn fault(alloc: Global, what: What, parts: &[&[u8]]) -> Result<Option<usize>, AllocError> {
    let bytes = joined(alloc, parts)?;
    fault_of(alloc, what, &bytes)
}

/// The place of the fault once the byte at `place` is another.
fn changed(
    alloc: Global,
    what: What,
    bytes: &[u8],
    place: usize,
    byte: u8,
) -> Result<Option<usize>, AllocError> {
    let front = bytes.get(..place).unwrap_or(bytes);
    let rest = bytes.get(place.saturating_add(1)..).unwrap_or(&[]);
    fault(alloc, what, &[front, &[byte], rest])
}

/// The first change that makes no fault or makes it elsewhere.
fn wrong_change(
    alloc: Global,
    what: What,
    bytes: &[u8],
    changes: &[Change],
) -> Result<Option<Change>, AllocError> {
    for (place, byte, at) in changes {
        if changed(alloc, what, bytes, *place, *byte)? != Some(*at) {
            return Ok(Some((*place, *byte, *at)));
        }
    }
    Ok(None)
}

/// Spellings, and what faults their changes make.
const CHANGED: &[(What, &[u8], &[Change])] = &[
    (What::Row, &TAX, TAX_CHANGES),
    (What::Row, &FULL, FULL_CHANGES),
    (What::Commitment, &USAGE, USAGE_CHANGES),
    (What::Commitment, &DEAR, &[(106, 1, 0)]),
    (What::Commitment, &SPEND, SPEND_CHANGES),
    (What::Policy, &POLICY, POLICY_CHANGES),
    (What::Added, &ADDED, ADDED_CHANGES),
];

/// The first of all changes that makes no fault or makes it elsewhere, and the place of its spelling among those above.
fn wrong_change_of_all(alloc: Global) -> Result<Option<(usize, Change)>, AllocError> {
    for (i, (what, bytes, changes)) in CHANGED.iter().enumerate() {
        if let Some(change) = wrong_change(alloc, *what, bytes, changes)? {
            return Ok(Some((i, change)));
        }
    }
    Ok(None)
}

#[test]
fn changes_have_their_faults(rt: HostRuntime) {
    check_all(&rt, wrong_change_of_all(rt.alloc()));
}

/// The first front that has no fault or has it elsewhere.
fn wrong_front(
    alloc: Global,
    what: What,
    bytes: &[u8],
    fronts: &[Front],
) -> Result<Option<Front>, AllocError> {
    for (len, at) in fronts {
        if fault_of(alloc, what, bytes.get(..*len).unwrap_or(bytes))? != Some(*at) {
            return Ok(Some((*len, *at)));
        }
    }
    Ok(None)
}

/// Spellings, and what faults their fronts have.
const FRONTS: &[(What, &[u8], &[Front])] = &[
    (What::Row, &FULL, FULL_FRONTS),
    (What::Commitment, &USAGE, USAGE_FRONTS),
    (What::Policy, &POLICY, POLICY_FRONTS),
    (What::Added, &ADDED, ADDED_FRONTS),
];

/// The first of all fronts that has no fault or has it elsewhere, and the place of its spelling among those above.
fn wrong_front_of_all(alloc: Global) -> Result<Option<(usize, Front)>, AllocError> {
    for (i, (what, bytes, fronts)) in FRONTS.iter().enumerate() {
        if let Some(front) = wrong_front(alloc, *what, bytes, fronts)? {
            return Ok(Some((i, front)));
        }
    }
    Ok(None)
}

#[test]
fn fronts_have_their_faults(rt: HostRuntime) {
    check_all(&rt, wrong_front_of_all(rt.alloc()));
}

/// Whether the bytes that the parts make have their fault at this place, or none.
fn is_fault(
    alloc: Global,
    what: What,
    parts: &[&[u8]],
    at: Option<usize>,
) -> Result<bool, AllocError> {
    Ok(fault(alloc, what, parts)? == at)
}

/// The first of the faults that is none or stands elsewhere.
fn wrong_fault(alloc: Global) -> Result<Option<usize>, AllocError> {
    for (i, (what, parts, at)) in FAULTS.iter().enumerate() {
        if !is_fault(alloc, *what, parts, *at)? {
            return Ok(Some(i));
        }
    }
    Ok(None)
}

#[test]
fn faults_have_their_places(rt: HostRuntime) {
    check_all(&rt, wrong_fault(rt.alloc()));
}
