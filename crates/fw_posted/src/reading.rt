//! What the parts of segments say.
ghost use Rattle.std.specs.Prelude.{◌≡◌, ◌≤◌, length, IfOk};
ghost use Rattle.fw_posted.specs.Marks.{selected};
ghost use Rattle.fw_posted.specs.Parts.{all_marks, AreParts};
ghost use Rattle.fw_posted.specs.Rows.{segment_rows};

use crate::part::Part;
use fw_columns::Columns;
use fw_persistent::Sequence;
use std::alloc::{AllocError, Global};

/// The marks of all parts, in order.
pub(crate) fn marks_of(alloc: Global, parts: &Sequence<Part>) -> Result<Vec<bool>, AllocError>
    ensures { IfOk result (λ marks. marks.items ≡ all_marks parts.now) }
{
    let mut marks = Vec::new(alloc);
    for place in 0..parts.len() {
        let own = parts.get(place).marks(alloc)?;
        marks.extend_from_slice(&own)?;
    }
    Ok(marks)
}

/// The rows that count, in order: of each segment that has some.
pub(crate) fn counting_rows(
    alloc: Global,
    segments: &Sequence<Columns>,
    parts: &Sequence<Part>,
) -> Result<Vec<Columns>, AllocError>
    requires { AreParts 0 parts.now segments.now }
    ensures rows { IfOk result (λ counting. segment_rows counting.items
        ≡ selected (all_marks parts.now) (segment_rows segments.now)) }
    ensures few { IfOk result (λ counting. length counting.items ≤ length segments.now) }
{
    let mut counting = Vec::new(alloc);
    for place in 0..segments.len() {
        let part = parts.get(place);
        if let Some(rows) = part.counting(alloc, segments.get(place))? {
            counting.push(rows)?;
        }
    }
    Ok(counting)
}
