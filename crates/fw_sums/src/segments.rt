//! The rows of segments at places.
ghost use Rattle.std.specs.Prelude.{◌≡◌, ◌<◌, ◌++◌, length, All, IfOk, OnOk};
ghost use Rattle.std.specs.List.{filter_map};
ghost use Rattle.fw_sums.specs.Hours.{HasRow, IsThere, lent, row_at, rows_at, rows_of_places};

use crate::hours::{HourPlace, RowPlace};
use fw_columns::{Columns, LentRow};
use std::alloc::{AllocError, Global};

// How many rows are at places.
pub(crate) fn count_at(segments: &[&Columns], places: &[HourPlace]) -> usize
    requires { All (IsThere (lent segments.now)) places.now }
{
    let mut count = 0_usize;
    for at in places {
        let rows = segments[at.segment as usize].places_in(at.number as usize);
        count = count.saturating_add(rows.len());
    }
    count
}

// Adds the rows of a segment at these places to rows that are lent.
fn lend_rows<'s>(
    rows: &mut Vec<LentRow<'s>>,
    segment: &'s Columns,
    places: &[u16],
) -> Result<(), AllocError>
    requires { All (λ place. place < length segment.now) places.now }
    ensures { OnOk result (rows.new.items
        ≡ rows.old.items ++ rows_of_places segment.now places.now) }
{
    for place in places {
        rows.push(segment.lent(usize::from(*place)))?;
    }
    Ok(())
}

/// The rows at places, lent. The one error is that memory ran out.
pub fn rows_at<'s>(
    alloc: Global,
    segments: &[&'s Columns],
    places: &[HourPlace],
) -> Result<Vec<LentRow<'s>>, AllocError>
    requires { All (IsThere (lent segments.now)) places.now }
    ensures { IfOk result (λ rows. rows.items ≡ rows_at (lent segments.now) places.now) }
{
    let mut rows = Vec::with_capacity(alloc, count_at(segments, places))?;
    for at in places {
        let segment = segments[at.segment as usize];
        lend_rows(&mut rows, segment, segment.places_in(at.number as usize))?;
    }
    Ok(rows)
}

// The rows at places of rows, lent.
pub(crate) fn rows_lent<'s>(
    alloc: Global,
    segments: &[&'s Columns],
    places: &[RowPlace],
) -> Result<Vec<LentRow<'s>>, AllocError>
    requires { All (HasRow (lent segments.now)) places.now }
    ensures { IfOk result (λ rows. rows.items
        ≡ filter_map (row_at (lent segments.now)) places.now) }
{
    let mut rows = Vec::with_capacity(alloc, places.len())?;
    for at in places {
        rows.push(segments[at.segment as usize].lent(usize::from(at.place)))?;
    }
    Ok(rows)
}
