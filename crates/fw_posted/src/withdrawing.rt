//! Rows that are withdrawn.
ghost use Rattle.std.specs.Prelude.{◌≡◌, ◌<◌, ◌≤◌, ◌+◌, ◌^◌, length, IfOk};
ghost use Rattle.fw_posted.specs.Marks.{without};
ghost use Rattle.fw_posted.specs.Parts.{all_marks, AreParts};
ghost use Rattle.fw_posted.specs.Rows.{segment_rows};

use crate::finding::segment_of;
use crate::part::Part;
use fw_columns::Columns;
use fw_persistent::Sequence;
use std::alloc::{AllocError, Global};

/// The parts of segments of which so many rows, from one on, count no more. The parts of the other segments are shared.
pub(crate) fn parts_without(
    alloc: Global,
    segments: &Sequence<Columns>,
    parts: &Sequence<Part>,
    start: usize,
    count: usize,
) -> Result<Sequence<Part>, AllocError>
    requires parts { AreParts 0 parts.now segments.now }
    requires inside { start + count ≤ length (segment_rows segments.now) }
    requires some { 0 < count }
    requires fits { length (segment_rows segments.now) < 2 ^ 64 }
    ensures parts { IfOk result (λ after. AreParts 0 after segments.now) }
    ensures marks { IfOk result (λ after. all_marks after
        ≡ without start count (all_marks parts.now)) }
{
    let mut after = parts.copy()?;
    let mut segment = segment_of(segments, parts, start);
    let mut row = start;
    let behind = start + count;
    while row < behind {
        let rows = segments.get(segment);
        let part = after.get(segment);
        let from = row - part.start();
        let here = (rows.len() - from).min(behind - row);
        let part = part.without(alloc, from, here)?;
        after = after.set(alloc, segment, part)?;
        row += here;
        segment += 1;
    }
    Ok(after)
}
