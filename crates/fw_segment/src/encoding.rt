//! Values to bytes.
ghost use Rattle.std.specs.Prelude.{◌≡◌, List, IfOk};
ghost use Rattle.fw_charge.specs.Charge.{Charge};
ghost use Rattle.fw_entry.specs.Spelling.{entry};
ghost use Rattle.fw_segment.specs.Groups.{group, IsGroup};
ghost use Rattle.fw_segment.specs.Segments.{segment, IsSegment};
ghost use Rattle.fw_segment.specs.States.{Spells, SpellsByColumn};

use crate::groups::put_group;
use crate::layout::SegmentLayout;
use crate::segments::put_segment;
use crate::states::append_state;
use fw_columns::Columns;
use fw_entry::Entry;
use fw_entry_bytes::put_entry;
use fw_snapshot::State;
use std::alloc::{AllocError, Global};

/// The bytes of an entry: its one spelling. The error comes where memory ran out.
pub fn encode_entry(alloc: Global, one: &Entry) -> Result<Vec<u8>, AllocError>
    ensures { IfOk result (λ bytes. bytes.items ≡ entry one.now) }
{
    let mut out = Vec::with_capacity(alloc, one.encoded_len())?;
    put_entry(&mut out, one)?;
    Ok(out)
}

/// The bytes of a group of 1 to 64 entries: its one spelling. The error comes where memory ran out.
pub fn encode_group(alloc: Global, entries: &[Entry]) -> Result<Vec<u8>, AllocError>
    requires { IsGroup entries.now }
    ensures { IfOk result (λ bytes. bytes.items ≡ group entries.now) }
{
    let mut out = Vec::new(alloc);
    put_group(&mut out, entries)?;
    Ok(out)
}

/// The bytes of a segment of these rows in this layout: its one spelling. The error comes where memory ran out.
pub fn encode_segment(
    alloc: Global,
    columns: &Columns,
    layout: SegmentLayout,
) -> Result<Vec<u8>, AllocError>
    ensures spelled { IfOk result (λ bytes. bytes.items ≡ segment layout columns.now) }
    ensures valid { IfOk result (λ _. IsSegment columns.now) }
{
    // Proves that each row has a spelling.
    let _len = columns.encoded_len();
    let mut out = Vec::new(alloc);
    put_segment(&mut out, columns, layout)?;
    Ok(out)
}

/// The bytes of a state, each of its segments as one, by column: a spelling of it. The error comes where memory ran out.
pub fn encode_state(alloc: Global, one: &State) -> Result<Vec<u8>, AllocError>
    ensures spelled { IfOk result (λ bytes. Spells bytes.items one.now) }
    ensures by_column { IfOk result (λ bytes.
        (segments : List (List Charge)) × SpellsByColumn bytes.items one.now segments) }
{
    let mut out = Vec::new(alloc);
    append_state(&mut out, one)?;
    Ok(out)
}
