//! Places among the rows of segments, and the rows behind them.
ghost use Rattle.std.specs.Prelude.{◌≡◌, ◌<◌, ◌≤◌, ◌+◌, ◌-◌, length};
ghost use Rattle.fw_posted.specs.Rows.{segment_rows};
ghost use Rattle.fw_snapshot.specs.Building.{rows_before, IsInside};

use fw_columns::Columns;
use fw_persistent::Sequence;

/// A place among the rows of segments: before a row of a segment, or behind its last one.
#[derive(Clone, Copy, Drop)]
pub struct Place {
    pub segment: usize,
    pub row: usize,
}

/// Rows of one segment: from the row `first` on, and before the row `end`.
#[derive(Clone, Copy, Drop)]
pub(crate) struct Run {
    pub segment: usize,
    pub first: usize,
    pub end: usize,
}

/// The rows behind a place that are in one segment: one at least, and so many at most.
pub(crate) fn next_run(segments: &Sequence<Columns>, place: Place, most: usize) -> Run
    requires some { rows_before segments.now place < length (segment_rows segments.now) }
    requires inside { IsInside segments.now place }
    requires wanted { 0 < most }
    ensures order { result.first < result.end }
    ensures few { result.end - result.first ≤ most }
    ensures segment { result.segment < length segments.now }
    ensures place { rows_before segments.now
        (record { segment = result.segment; row = result.first })
        ≡ rows_before segments.now place }
    ensures inside { IsInside segments.now (record { segment = result.segment; row = result.end }) }
{
    // Proves that the place of a segment is a number that fits.
    let _count = segments.len();
    let columns = segments.get(place.segment);
    let len = columns.len();
    if place.row < len {
        return Run {
            segment: place.segment,
            first: place.row,
            end: place.row + most.min(len - place.row),
        };
    }
    let columns = segments.get(place.segment + 1);
    Run {
        segment: place.segment + 1,
        first: 0,
        end: most.min(columns.len()),
    }
}
