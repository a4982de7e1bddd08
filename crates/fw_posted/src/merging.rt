//! Segments that are joined where they are short, so that many small posts become few long segments.
ghost use Rattle.std.specs.Prelude.{◌≡◌, ◌<◌, ◌≤◌, ◌++◌, length, map, IfOk};
ghost use Rattle.fw_posted.specs.Rows.{segment_rows};
ghost use Rattle.fw_posted.specs.Merging.{joined_to, merged};
ghost use Rattle.fw_row_table.specs.Table.{most_column_rows};

use fw_columns::Columns;
use fw_persistent::Sequence;
use std::alloc::{AllocError, Global};

/// The segments, joined from the front: each with the next one, as long as they have at most 65,536 rows together.
pub(crate) fn merged_segments(
    alloc: Global,
    segments: &Sequence<Columns>,
) -> Result<Sequence<Columns>, AllocError>
    ensures { IfOk result (λ after. after ≡ merged segments.now) }
{
    let references = segments.references(alloc)?;
    with_merged(alloc, Sequence::new(), &references)
}

/// A sequence with more segments behind it, which are joined among themselves. Each run of them has more than half of the most rows together
/// with the next one, so there are few.
fn with_merged(
    alloc: Global,
    before: Sequence<Columns>,
    segments: &[&Columns],
) -> Result<Sequence<Columns>, AllocError>
    ensures { IfOk result (λ after. after ≡ before ++ merged (map (λ s. s.now) segments.now)) }
{
    let Some((first, rest)) = segments.split_first() else {
        return Ok(before);
    };
    let (run, others) = segments.split_at(1 + joined_to(first.len(), rest));
    let before = before.push(alloc, joined(alloc, run)?)?;
    with_merged(alloc, before, others)
}

/// How many of the segments, from the first one on, are joined to so many rows.
fn joined_to(rows: usize, segments: &[&Columns]) -> usize
    requires { rows ≤ most_column_rows }
    ensures joined { result ≡ joined_to rows (map (λ s. s.now) segments.now) }
    ensures within { result ≤ length segments.now }
{
    let mut rows = rows;
    for (count, segment) in segments.iter().enumerate() {
        rows += segment.len();
        if rows > Columns::MOST_ROWS {
            return count;
        }
    }
    segments.len()
}

/// The rows of segments in one.
fn joined(alloc: Global, segments: &[&Columns]) -> Result<Columns, AllocError>
    requires some { 0 < length segments.now }
    requires few { length (segment_rows (map (λ s. s.now) segments.now)) ≤ most_column_rows }
    ensures { IfOk result (λ one. one ≡ segment_rows (map (λ s. s.now) segments.now)) }
{
    let one = Columns::concat_all(alloc, segments)?;
    Ok(one)
}
