//! The rows of segments, by their places.
ghost use Rattle.std.specs.Prelude.{◌≡◌, ◌<◌, ◌≤◌, ◌+◌, ◌↔◌, IfOk, IsTrue, Some, length, slice_get, take, drop};
ghost use Rattle.fw_posted.specs.Rows.{rows_before_segment, segment_rows};
ghost use Rattle.fw_stored_rows.specs.Starts.{AreRowsFrom, AreStarts};

use crate::runs::are_same_runs;
use fw_columns::{Columns, LentRow};
use fw_persistent::Sequence;
use std::alloc::{AllocError, Global};
use std::marker::Model;

/// The rows of segments, in order, as those that were ever posted to a warehouse. They are lent from the segments, which are shared: no row is
/// copied. A contract sees the list of the rows.
pub struct StoredRows {
    segments: Sequence<Columns>,
    // how many rows stand before each segment
    starts: Vec<usize>,
    // how many rows there are
    rows: usize,
}

impl Drop for StoredRows {
    fn drop(self) {
        let Self {
            segments: _,
            starts: _,
            rows: _,
        } = self;
    }
}

impl Model for StoredRows {
    ghost use Rattle.std.specs.Prelude.{List};
    ghost use Rattle.fw_charge.specs.Charge.{Charge};
    ghost use Rattle.fw_stored_rows.specs.StoredView.{KeepsStarts, stored_view};

    ghost Value = { List Charge };

    ghost view = { stored_view };

    ghost invariant = { KeepsStarts };
}

impl StoredRows {
    /// The rows of segments, which it shares. It takes memory for a number for each segment. The error comes where there is none, where what is
    /// shared has as many owners as can be counted, and where there are more rows than can be.
    pub fn of(alloc: Global, segments: &Sequence<Columns>) -> Result<StoredRows, AllocError>
        ensures { IfOk result (λ rows. rows ≡ segment_rows segments.now) }
    {
        let (starts, rows) = starts_of(alloc, segments)?;
        let segments = segments.copy()?;
        Ok(StoredRows {
            segments,
            starts,
            rows,
        })
    }

    /// How many rows there are.
    pub fn len(&self) -> usize
        ensures { result ≡ length self.now }
    {
        self.rows
    }

    /// The row at a place, counted from 0. The time grows with the logarithm of the number of segments.
    pub fn lent(&self, place: usize) -> LentRow<'_>
        requires { place < length self.now }
        ensures { slice_get self.now place ≡ Some result }
    {
        lent_row(&self.segments, self.starts.as_slice(), place)
    }

    /// Whether the rows from a place on are those of a part, each in all its fields. It reads rows up to the first that differs, and those of each segment
    /// as [`are_same_runs`] does.
    pub fn has_at(&self, first: usize, part: &Columns) -> bool
        ensures { IsTrue result
            ↔ (take (length part.now) (drop first self.now) ≡ part.now) }
    {
        let count = part.len();
        if self.len().saturating_sub(first) < count {
            return false;
        }
        let alloc = *self.starts.allocator();
        let mut done = 0;
        while done < count {
            let (rows, from) = row_in(&self.segments, self.starts.as_slice(), first + done);
            let run = (rows.len() - from).min(count - done);
            if !are_same_runs(alloc, rows, from, part, done, run) {
                return false;
            }
            done += run;
        }
        true
    }
}

// How many rows stand before each segment, and how many there are.
fn starts_of(alloc: Global, segments: &Sequence<Columns>) -> Result<(Vec<usize>, usize), AllocError>
    ensures starts { IfOk result (λ made. AreStarts made.0.items segments.now) }
    ensures rows { IfOk result (λ made. made.1 ≡ length (segment_rows segments.now)) }
{
    let mut starts = Vec::with_capacity(alloc, segments.len())?;
    let mut rows: usize = 0;
    for place in 0..segments.len() {
        let len = segments.get(place).len();
        let Some(behind) = rows.checked_add(len) else {
            return Err(AllocError);
        };
        starts.push(rows)?;
        rows = behind;
    }
    Ok((starts, rows))
}

// The place of the segment that has a row. The segments that may have it are halved until one is left.
fn segment_of(segments: &Sequence<Columns>, starts: &[usize], row: usize) -> usize
    requires starts { AreStarts starts.now segments.now }
    requires inside { row < length (segment_rows segments.now) }
    ensures from { rows_before_segment segments.now result ≤ row }
    ensures until { row < rows_before_segment segments.now (result + 1) }
    ensures within { result < length segments.now }
{
    let mut first = 0;
    let mut behind = segments.len();
    while behind - first > 1 {
        let middle = first + (behind - first) / 2;
        if starts[middle] <= row {
            first = middle;
        } else {
            behind = middle;
        }
    }
    first
}

// The segment that has the row at a place among those of segments, and the row's place in it.
fn row_in<'a>(
    segments: &'a Sequence<Columns>,
    starts: &[usize],
    place: usize,
) -> (&'a Columns, usize)
    requires starts { AreStarts starts.now segments.now }
    requires inside { place < length (segment_rows segments.now) }
    ensures within { result.1 < length result.0.now }
    ensures rows { AreRowsFrom result.0.now result.1 (segment_rows segments.now) place }
{
    let segment = segment_of(segments, starts, place);
    (segments.get(segment), place - starts[segment])
}

// The row at a place among those of segments.
fn lent_row<'a>(segments: &'a Sequence<Columns>, starts: &[usize], place: usize) -> LentRow<'a>
    requires starts { AreStarts starts.now segments.now }
    requires inside { place < length (segment_rows segments.now) }
    ensures { slice_get (segment_rows segments.now) place ≡ Some result }
{
    let (rows, row) = row_in(segments, starts, place);
    rows.lent(row)
}
