//! The rows that the lines of an hour are exported as.
ghost use Rattle.std.specs.Prelude.{◌≡◌, ◌+◌, ◌<◌, ◌^◌, All, IfOk, MatchOption, ℕ, [], false, length, map, slice_index};
ghost use Rattle.fw_charge.specs.Charge.{hour_of};
ghost use Rattle.fw_cover.specs.Cover.{taken_of_row};
ghost use Rattle.fw_cover.specs.Hour.{quantities_of};
ghost use Rattle.fw_cover.specs.RosterView.{HasHour};
ghost use Rattle.fw_sums.specs.Hours.{all_rows, is_touched, lent};
ghost use Rattle.fw_allocated.specs.LineRows.{AreExportsAt, AreHourExports, exported_lines, line_rows};

use crate::row::ExportedRow;
use crate::sources::{LentLineRows, exported_lines, given_rows, rest_rows, used_rows};
use fw_amortise::{Line, lines_by_roster};
use fw_columns::Columns;
use fw_cover::{HourCover, Roster, references};
use fw_row_table::LentRow;
use fw_sums::{every_hour, is_touched, rows_at, rows_by_hour};
use fw_terms::Commitment;
use std::alloc::{AllocError, Global};

/// The rows that the lines of an hour are exported as, among the rows of segments.
pub(crate) fn exports_at<'a>(
    alloc: Global,
    segments: &[&'a Columns],
    commitments: &'a [Commitment],
    hour: u64,
) -> Result<Vec<ExportedRow<'a>>, AllocError>
    requires { hour + 1 < 2 ^ 64 }
    ensures { IfOk result (λ exports. AreExportsAt commitments.now (all_rows (lent segments.now))
        hour exports.items) }
{
    let every = every_hour(alloc, 1)?;
    let by_hour = rows_by_hour(alloc, segments, hour, every.as_slice())?;
    let roster = Roster::new(alloc, commitments, hour, hour + 1)?;
    let rows = rows_at(alloc, segments, by_hour[0].as_slice())?;
    exports_of_hour(alloc, &roster, rows.as_slice(), hour)
}

// The rows that the lines of an hour are exported as, where these are the rows of the hour.
fn exports_of_hour<'a>(
    alloc: Global,
    roster: &Roster<'a>,
    rows: &[LentRow<'a>],
    hour: u64,
) -> Result<Vec<ExportedRow<'a>>, AllocError>
    requires hour { HasHour roster.now hour }
    requires rows { All (λ r. hour_of r.start ≡ hour) rows.now }
    ensures { IfOk result (λ exports. AreHourExports roster.now.commitments rows.now hour
        exports.items) }
{
    let Some(hour) = line_hour(roster.commitments(), rows, hour) else {
        return Ok(Vec::new(alloc));
    };
    let rows = references(alloc, rows)?;
    let rows = rows.as_slice();
    let lines = lines_by_roster(alloc, roster, rows, hour)?;
    let cover = roster.cover(alloc, rows, hour)?;
    exports_of_lines(alloc, rows, &cover, lines.as_slice())
}

// The rows that lines are exported as, where these are the rows of their hour, and this was taken of them.
fn exports_of_lines<'a>(
    alloc: Global,
    rows: &[&LentRow<'a>],
    cover: &HourCover,
    lines: &[Line<'a>],
) -> Result<Vec<ExportedRow<'a>>, AllocError>
    requires one_each { length cover.now.row_left.items ≡ length rows.now }
    requires left { (r : ℕ) → taken_of_row r cover.now.taken.items + slice_index
        cover.now.row_left.items r ≡ slice_index (quantities_of (map (λ r. r.now) rows.now)) r }
    ensures { IfOk result (λ exports. exports.items ≡ exported_lines (line_rows (map
        (λ r. r.now) rows.now) cover.now.taken.items) lines.now) }
{
    let given = given_rows(alloc, rows)?;
    let used = used_rows(alloc, rows, cover.taken.as_slice())?;
    let rest = rest_rows(alloc, rows, cover)?;
    let rows = LentLineRows {
        given: given.as_slice(),
        used: used.as_slice(),
        rest: rest.as_slice(),
    };
    exported_lines(alloc, rows, lines)
}

// The hour, if it has rows or a commitment has a line in it; no later hour does.
fn line_hour(commitments: &[Commitment], rows: &[LentRow<'_>], hour: u64) -> Option<u32>
    requires { All (λ r. hour_of r.start ≡ hour) rows.now }
    ensures { MatchOption result ((rows.now ≡ []) × (is_touched commitments.now hour ≡ false)) (λ
        h. h ≡ hour) }
{
    if let Some(row) = rows.first() {
        return Some(row.hour());
    }
    if is_touched(commitments, hour) {
        return Some(hour as u32);
    }
    None
}
