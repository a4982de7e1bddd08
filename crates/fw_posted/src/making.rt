//! The parts of segments.
ghost use Rattle.std.specs.Prelude.{◌≡◌, true, length, replicate, IfOk};
ghost use Rattle.fw_posted.specs.Parts.{all_marks, AreParts};
ghost use Rattle.fw_posted.specs.Rows.{segment_rows};

use crate::part::Part;
use fw_columns::Columns;
use fw_persistent::Sequence;
use std::alloc::{AllocError, Global};

/// The parts of segments all of whose rows count, and how many rows they have. The error comes also where they have more than can be counted.
pub(crate) fn whole_parts(
    alloc: Global,
    segments: &Sequence<Columns>,
) -> Result<(Sequence<Part>, usize), AllocError>
    ensures parts { IfOk result (λ made. AreParts 0 made.0 segments.now) }
    ensures marks { IfOk result (λ made. all_marks made.0
        ≡ replicate (length (segment_rows segments.now)) true) }
    ensures rows { IfOk result (λ made. made.1 ≡ length (segment_rows segments.now)) }
{
    let mut parts = Sequence::new();
    let mut rows: usize = 0;
    for place in 0..segments.len() {
        let len = segments.get(place).len();
        let Some(behind) = rows.checked_add(len) else {
            return Err(AllocError);
        };
        parts = parts.push(alloc, Part::whole(rows, len))?;
        rows = behind;
    }
    Ok((parts, rows))
}

/// The parts of segments with these marks.
pub(crate) fn marked_parts(
    alloc: Global,
    segments: &Sequence<Columns>,
    counts: &[bool],
) -> Result<Sequence<Part>, AllocError>
    requires { length counts.now ≡ length (segment_rows segments.now) }
    ensures parts { IfOk result (λ parts. AreParts 0 parts segments.now) }
    ensures marks { IfOk result (λ parts. all_marks parts ≡ counts.now) }
{
    let mut parts = Sequence::new();
    let mut rest = counts;
    for place in 0..segments.len() {
        let rows = segments.get(place);
        let start = counts.len() - rest.len();
        let (marks, others) = rest.split_at(rows.len());
        let part = Part::marked(alloc, start, rows, marks)?;
        parts = parts.push(alloc, part)?;
        rest = others;
    }
    Ok(parts)
}
