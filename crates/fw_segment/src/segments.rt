//! The readers and the writer of segments.
ghost use Rattle.std.specs.Prelude.{◌≡◌, ◌<◌, ◌≤◌, ◌++◌, length, All, OnOk};
ghost use Rattle.fw_bytes.specs.Reading.{Gives};
ghost use Rattle.fw_charge.specs.Spelling.{IsRow};
ghost use Rattle.fw_segment.specs.Segments.{segment, segment_at};
ghost use Rattle.fw_row_table.specs.Table.{most_column_rows};

use crate::layout::SegmentLayout;
use fw_bytes::{ReadError, put_byte};
use fw_column_bytes::{columns_of, put_columns};
use fw_columns::Columns;
use fw_row_bytes::{put_rows, rows_of};
use std::alloc::{AllocError, Global};

/// The columns of a segment in any layout, and the bytes after it.
#[tactic(auto, unfolding(crate::specs::Segments::segment_at))]
pub fn segment_of(alloc: Global, bytes: &[u8]) -> Result<(Columns, &[u8]), ReadError>
    ensures { Gives (λ x. (x.0, x.1.now)) result (segment_at bytes.now) }
{
    match bytes {
        [1, rest @ ..] => rows_of(alloc, Columns::MOST_ROWS as u32, rest),
        [2, ..] => columns_of(alloc, bytes),
        _ => Err(ReadError::Corrupt(bytes.len())),
    }
}

/// Writes a segment at the end of the buffer.
#[tactic(auto, unfolding(crate::specs::Segments::segment))]
pub fn put_segment(
    out: &mut Vec<u8>,
    columns: &Columns,
    layout: SegmentLayout,
) -> Result<(), AllocError>
    ensures spelled { OnOk result (out.new.items ≡ out.old.items ++ segment layout columns.now) }
    ensures some { 0 < length columns.now }
    ensures few { length columns.now ≤ most_column_rows }
{
    // Proves that there are rows, and not too many.
    let _len = columns.len();
    match layout {
        SegmentLayout::Rows => {
            put_byte(out, 1)?;
            put_rows(out, columns)?;
            Ok(())
        }
        SegmentLayout::Columns => put_columns(out, columns),
    }
}
