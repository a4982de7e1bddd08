//! The front of rows that stand in segments.
ghost use Rattle.std.specs.Prelude.{◌≡◌, ◌<◌, IfOk, take};
ghost use Rattle.fw_posted.specs.Rows.{segment_rows};

use fw_columns::{Columns, ColumnsBuilder};
use fw_persistent::Sequence;
use std::alloc::{AllocError, Global};

/// The first rows of segments, or all where there are fewer: each segment as it stands, and of the last one its front.
pub(crate) fn front_of(
    alloc: Global,
    segments: &Sequence<Columns>,
    count: usize,
) -> Result<Sequence<Columns>, AllocError>
    ensures { IfOk result (λ front. segment_rows front ≡ take count (segment_rows segments.now)) }
{
    let mut front = Sequence::new();
    let mut left = count;
    for place in 0..segments.len() {
        if left == 0 {
            return Ok(front);
        }
        let columns = segments.get(place);
        front = front.push(alloc, first_of(alloc, columns, left)?)?;
        left = left.saturating_sub(columns.len());
    }
    Ok(front)
}

// The first rows of a segment, or all where there are fewer. All of them are shared.
fn first_of(alloc: Global, columns: &Columns, count: usize) -> Result<Columns, AllocError>
    requires { 0 < count }
    ensures { IfOk result (λ first. first ≡ take count columns.now) }
{
    if count >= columns.len() {
        return columns.copy();
    }
    let mut first = ColumnsBuilder::new(alloc);
    for place in 0..count {
        first.push_lent(&columns.lent(place))?;
    }
    first.finish()
}
