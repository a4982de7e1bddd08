//! The hours in which rows start.
ghost use Rattle.std.specs.Prelude.{◌≡◌, ◌++◌, ◌∷◌, ℕ, List, [], IfOk, Option, Some, map};
ghost use Rattle.fw_charge.specs.Charge.{hour_of};
ghost use Rattle.fw_posted.specs.Rows.{segment_rows};
ghost use Rattle.fw_snapshot.specs.History.{rows_of};
ghost use Rattle.fw_views.specs.RowSpan.{AreEnds, HasEnds, start_hours};

use fw_columns::Columns;
use fw_snapshot::State;
use std::alloc::{AllocError, Global};

/// The first and the last hour in which rows start, counted from 1970.
#[derive(Clone, Copy, Debug, Drop, PartialEq, Eq)]
pub struct RowHours {
    /// The first hour in which a row starts.
    pub first: u32,
    /// The last hour in which a row starts.
    pub last: u32,
}

/// The first and the last hour in which rows that count start; `None` where no row counts. It costs a step for each hour of each segment of
/// rows. The one error is that memory ran out.
pub fn row_hours(alloc: Global, state: &State) -> Result<Option<RowHours>, AllocError>
    ensures { IfOk result (AreEnds (start_hours (rows_of state.now.entries))) }
{
    let counting = state.counting_segments(alloc)?;
    let segments = counting.references(alloc)?;
    Ok(hours_of(segments.as_slice()))
}

// The first and the last hour in which rows of segments start.
fn hours_of(segments: &[&Columns]) -> Option<RowHours>
    ensures { AreEnds (start_hours (segment_rows (map (λ s. s.now) segments.now))) result }
{
    let mut found = None;
    for columns in segments {
        found = with_hours(found, columns.hours());
    }
    found
}

// The first and the last of some hours and of more.
fn with_hours(found: Option<RowHours>, more: &[u32]) -> Option<RowHours>
    ensures { (hours : List ℕ) → AreEnds hours found → AreEnds (hours ++ more.now) result }
{
    let mut ends = found;
    for hour in more {
        ends = Some(with_hour(ends, *hour));
    }
    ends
}

// The first and the last of some hours and of one more.
fn with_hour(found: Option<RowHours>, hour: u32) -> RowHours
    ensures { (hours : List ℕ) → AreEnds hours found → AreEnds (hours ++ hour ∷ []) (Some result) }
{
    match found {
        Some(ends) => widened(ends, hour),
        None => RowHours {
            first: hour,
            last: hour,
        },
    }
}

// The first and the last of hours with these ends and of one more.
fn widened(ends: RowHours, hour: u32) -> RowHours
    ensures { (hours : List ℕ) → HasEnds hours ends → HasEnds (hours ++ hour ∷ []) result }
{
    if hour < ends.first {
        RowHours {
            first: hour,
            last: ends.last,
        }
    } else if ends.last < hour {
        RowHours {
            first: ends.first,
            last: hour,
        }
    } else {
        ends
    }
}
