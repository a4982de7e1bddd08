//! Bytes to values.
ghost use Rattle.std.specs.Prelude.{◌≡◌, List, length, IfOk, IsTrue, Ok};
ghost use Rattle.fw_bytes.specs.Reading.{Gives};
ghost use Rattle.fw_charge.specs.Charge.{Charge};
ghost use Rattle.fw_entry.specs.Entry.{EntryValue};
ghost use Rattle.fw_entry.specs.Spelling.{entry, IsEntry};
ghost use Rattle.fw_entry_bytes.specs.Forms.{has_entry, IsOfForm};
ghost use Rattle.fw_entry_bytes.specs.Reading.{entry_at};
ghost use Rattle.fw_entry_bytes.specs.Whole.{whole};
ghost use Rattle.fw_snapshot.specs.History.{History};
ghost use Rattle.fw_segment.specs.Decoding.{Decodes};
ghost use Rattle.fw_segment.specs.Groups.{group, group_at, IsGroup};
ghost use Rattle.fw_segment.specs.Segments.{segment, segment_at, IsSegment};
ghost use Rattle.fw_segment.specs.States.{state_at, Spells};
ghost use Rattle.fw_segment.specs.declared.layout.SegmentLayout.{SegmentLayout};

use crate::fault::DecodeFault;
use crate::groups::group_of;
use crate::segments::segment_of;
use crate::states::state_of;
use fw_bytes::ReadError;
use fw_columns::Columns;
use fw_entry::Entry;
use fw_entry_bytes::{Form, entry_of};
use fw_snapshot::State;
use std::alloc::Global;

/// An entry that is all of the bytes.
#[tactic(auto, unfolding(fw_entry_bytes::specs::Whole::whole))]
fn whole_entry(alloc: Global, form: Form, bytes: &[u8]) -> Result<Entry, ReadError>
    ensures { Gives (λ e. e) result (whole (entry_at form) bytes.now) }
{
    match entry_of(alloc, form, bytes) {
        Ok((entry, [])) => Ok(entry),
        Ok((_, rest)) => Err(ReadError::Corrupt(rest.len())),
        Err(e) => Err(e),
    }
}

/// A group that is all of the bytes.
#[tactic(auto, unfolding(fw_entry_bytes::specs::Whole::whole))]
fn whole_group(alloc: Global, form: Form, bytes: &[u8]) -> Result<Vec<Entry>, ReadError>
    ensures { Gives (λ v. v.items) result (whole (group_at form) bytes.now) }
{
    match group_of(alloc, form, bytes) {
        Ok((entries, [])) => Ok(entries),
        Ok((_, rest)) => Err(ReadError::Corrupt(rest.len())),
        Err(e) => Err(e),
    }
}

/// The columns of a segment that is all of the bytes.
#[tactic(auto, unfolding(fw_entry_bytes::specs::Whole::whole))]
fn whole_segment(alloc: Global, bytes: &[u8]) -> Result<Columns, ReadError>
    ensures { Gives (λ c. c) result (whole segment_at bytes.now) }
{
    match segment_of(alloc, bytes) {
        Ok((columns, [])) => Ok(columns),
        Ok((_, rest)) => Err(ReadError::Corrupt(rest.len())),
        Err(e) => Err(e),
    }
}

/// The entry that the bytes spell. The form says which kinds of entries there are: any other kind is a fault at its byte.
///
/// Memory is taken as texts and items are read. A length prefix or a count is never trusted.
///
/// # Errors
/// [`DecodeFault::Corrupt`] at the first fault, with its offset. Fields are read in turn: one that is cut off or out of its range is a fault at
/// the offset of the field, a text at that of its length. Where the fields of a row, a commitment, a policy or an entry end, the rules over
/// several of them come, a fault at its first byte; an entry of more than 4,194,304 bytes is one of these. Bytes after the entry come last: a
/// fault at the first of them. [`DecodeFault::NoMemory`] where there is no memory for what is kept, reported where it runs out: a later fault isn't
/// looked for.
pub fn decode_entry(alloc: Global, form: Form, bytes: &[u8]) -> Result<Entry, DecodeFault>
    ensures found { IfOk result (λ e. IsEntry e × IsTrue (has_entry form e)
        × (bytes.now ≡ entry e)) }
    ensures only { (e : EntryValue) → IsEntry e → IsTrue (has_entry form e) → bytes.now ≡ entry e
        → Decodes (λ v. v) (length bytes.now) result (Ok e) }
    ensures exact { Decodes (λ v. v) (length bytes.now) result (whole (entry_at form) bytes.now) }
{
    match whole_entry(alloc, form, bytes) {
        Ok(entry) => Ok(entry),
        Err(e) => Err(DecodeFault::of(bytes.len(), e)),
    }
}

/// The entries of the group that the bytes spell: 1 to 64 of them.
///
/// # Errors
/// As those of [`decode_entry`]; a number of entries that is 0 or above 64 is a fault at offset 0, found before any entry is read.
pub fn decode_group(alloc: Global, form: Form, bytes: &[u8]) -> Result<Vec<Entry>, DecodeFault>
    ensures found { IfOk result (λ v. IsGroup v.items × IsOfForm form v.items
        × (bytes.now ≡ group v.items)) }
    ensures only { (es : List EntryValue) → IsGroup es → IsOfForm form es → bytes.now ≡ group es
        → Decodes (λ v. v.items) (length bytes.now) result (Ok es) }
    ensures exact { Decodes (λ v. v.items) (length bytes.now) result
        (whole (group_at form) bytes.now) }
{
    match whole_group(alloc, form, bytes) {
        Ok(entries) => Ok(entries),
        Err(e) => Err(DecodeFault::of(bytes.len(), e)),
    }
}

/// The rows of the segment that the bytes spell, in any layout: 1 to 65,536 of them.
///
/// # Errors
/// As those of [`decode_entry`]; a layout that isn't known is a fault at offset 0, and a number of rows that is 0 or above 65,536 is one at offset
/// 1, found before any row is read. Of rows by column a fault of a field is at its place in its column, and the rules over several fields come behind
/// all of them, as faults at offset 0, as does that the names are each text of the rows once, in the order in which it first occurs.
pub fn decode_segment(alloc: Global, bytes: &[u8]) -> Result<Columns, DecodeFault>
    ensures found { IfOk result (λ rows. IsSegment rows × (layout : SegmentLayout)
        × (bytes.now ≡ segment layout rows)) }
    ensures only { (layout : SegmentLayout) (rows : List Charge) → IsSegment rows
        → bytes.now ≡ segment layout rows → Decodes (λ v. v) (length bytes.now) result (Ok rows) }
    ensures exact { Decodes (λ v. v) (length bytes.now) result (whole segment_at bytes.now) }
{
    match whole_segment(alloc, bytes) {
        Ok(columns) => Ok(columns),
        Err(e) => Err(DecodeFault::of(bytes.len(), e)),
    }
}

/// The state that the bytes spell.
///
/// # Errors
/// As those of [`decode_entry`], for the currency, the heads and the segments in turn. After them, where there are not as many rows in the segments
/// as the heads say, it is a fault at offset 0; and the first head whose entry has more than 4,194,304 bytes, or isn't accepted after those
/// before it, is a fault at the offset of this head.
pub fn decode_state(alloc: Global, form: Form, bytes: &[u8]) -> Result<State, DecodeFault>
    ensures found { IfOk result (λ h. Spells bytes.now h × IsOfForm form h.entries) }
    ensures only { (h : History) → Spells bytes.now h → IsOfForm form h.entries
        → Decodes (λ s. s) (length bytes.now) result (Ok h) }
    ensures exact { Decodes (λ s. s) (length bytes.now) result (state_at form bytes.now) }
{
    match state_of(alloc, form, bytes) {
        Ok(state) => Ok(state),
        Err(e) => Err(DecodeFault::of(bytes.len(), e)),
    }
}
