//! The rows that the lines of an hour are of.
ghost use Rattle.std.specs.Prelude.{◌≡◌, ◌+◌, ◌++◌, ℕ, IfOk, OnOk, drop, length, map, option_copied, option_to_list, slice_get, slice_index};
ghost use Rattle.fw_cover.specs.Cover.{taken_of_row};
ghost use Rattle.fw_cover.specs.Hour.{quantities_of};
ghost use Rattle.fw_allocated.specs.LineRows.{exported_lines, given_rows, next_row, rest_row, rest_rows, rows_behind, used_rows};
ghost use Rattle.fw_allocated.specs.SourceView.{line_rows_of};

use crate::row::{ExportedRow, exported};
use fw_amortise::{Line, LineKind};
use fw_cover::{HourCover, Taken, is_eligible};
use fw_row_table::LentRow;
use std::alloc::{AllocError, Global};

/// The rows that the lines of an hour are of: those of given lines, of used lines and of rests, each in the order of these lines.
#[derive(Clone, Copy, Drop)]
pub(crate) struct LentLineRows<'r, 'a> {
    pub(crate) given: &'r [&'r LentRow<'a>],
    pub(crate) used: &'r [&'r LentRow<'a>],
    pub(crate) rest: &'r [&'r LentRow<'a>],
}

/// The rows that no commitment may cover.
#[tactic(auto, unfolding(crate::specs::LineRows::given_rows))]
pub(crate) fn given_rows<'r, 'a>(
    alloc: Global,
    rows: &[&'r LentRow<'a>],
) -> Result<Vec<&'r LentRow<'a>>, AllocError>
    ensures { IfOk result (λ given. map (λ r. r.now) given.items ≡ given_rows (map
        (λ r. r.now) rows.now)) }
{
    let mut given = Vec::new(alloc);
    for row in rows {
        if !is_eligible(row) {
            given.push(*row)?;
        }
    }
    Ok(given)
}

/// The row of each take.
#[tactic(auto, unfolding(crate::specs::LineRows::used_rows))]
pub(crate) fn used_rows<'r, 'a>(
    alloc: Global,
    rows: &[&'r LentRow<'a>],
    taken: &[Taken],
) -> Result<Vec<&'r LentRow<'a>>, AllocError>
    ensures { IfOk result (λ used. map (λ r. r.now) used.items ≡ used_rows (map
        (λ r. r.now) rows.now) taken.now) }
{
    let mut used = Vec::new(alloc);
    for take in taken {
        push_row_at(&mut used, rows, take.row)?;
    }
    Ok(used)
}

// Adds the row at a place, where there is one.
fn push_row_at<'r, 'a>(
    used: &mut Vec<&'r LentRow<'a>>,
    rows: &[&'r LentRow<'a>],
    place: usize,
) -> Result<(), AllocError>
    ensures { OnOk result (map (λ r. r.now) used.new.items
        ≡ map (λ r. r.now) used.old.items
        ++ option_to_list (slice_get (map (λ r. r.now) rows.now) place)) }
{
    if place < rows.len() {
        used.push(rows[place])?;
    }
    Ok(())
}

/// The rows of which something is left.
pub(crate) fn rest_rows<'r, 'a>(
    alloc: Global,
    rows: &[&'r LentRow<'a>],
    cover: &HourCover,
) -> Result<Vec<&'r LentRow<'a>>, AllocError>
    requires one_each { length cover.now.row_left.items ≡ length rows.now }
    requires left { (r : ℕ) → taken_of_row r cover.now.taken.items + slice_index
        cover.now.row_left.items r
        ≡ slice_index (quantities_of (map (λ r. r.now) rows.now)) r }
    ensures { IfOk result (λ rest. map (λ r. r.now) rest.items
        ≡ rest_rows (map (λ r. r.now) rows.now) cover.now.taken.items) }
{
    let mut rest = Vec::new(alloc);
    for (place, row) in rows.iter().enumerate() {
        push_rest(&mut rest, row, cover.row_left[place])?;
    }
    Ok(rest)
}

// Adds a row, if commitments may cover it and something is left of it.
#[tactic(auto, unfolding(crate::specs::LineRows::rest_row))]
fn push_rest<'r, 'a>(
    rest: &mut Vec<&'r LentRow<'a>>,
    row: &'r LentRow<'a>,
    left: u64,
) -> Result<(), AllocError>
    ensures { OnOk result (map (λ r. r.now) rest.new.items
        ≡ map (λ r. r.now) rest.old.items ++ rest_row row.now left) }
{
    if is_eligible(row) && left > 0 {
        rest.push(row)?;
    }
    Ok(())
}

// The first of some rows, and those behind it.
fn split_first<'r, 'a>(
    rows: &'r [&'r LentRow<'a>],
) -> (Option<&'r LentRow<'a>>, &'r [&'r LentRow<'a>])
    ensures first { option_copied result.0 ≡ slice_get (map (λ r. r.now) rows.now) 0 }
    ensures behind { map (λ r. r.now) result.1.now ≡ drop 1 (map (λ r. r.now) rows.now) }
{
    match rows {
        [first, behind @ ..] => (Some(*first), behind),
        [] => (None, rows),
    }
}

// The row of the next line, by its kind, and the rows of the lines behind it.
fn next_row<'r, 'a>(
    kind: LineKind,
    rows: LentLineRows<'r, 'a>,
) -> (Option<&'r LentRow<'a>>, LentLineRows<'r, 'a>)
    ensures next { option_copied result.0 ≡ next_row kind (line_rows_of rows.entry) }
    ensures behind { line_rows_of result.1 ≡ rows_behind kind (line_rows_of rows.entry) }
{
    match kind {
        LineKind::Purchase | LineKind::Unused => (None, rows),
        LineKind::Given => {
            let (row, given) = split_first(rows.given);
            (row, LentLineRows { given, ..rows })
        }
        LineKind::Used => {
            let (row, used) = split_first(rows.used);
            (row, LentLineRows { used, ..rows })
        }
        LineKind::Rest => {
            let (row, rest) = split_first(rows.rest);
            (row, LentLineRows { rest, ..rows })
        }
    }
}

/// The rows that lines are exported as, where these are the rows that they are of.
pub(crate) fn exported_lines<'r, 'a>(
    alloc: Global,
    rows: LentLineRows<'r, 'a>,
    lines: &[Line<'a>],
) -> Result<Vec<ExportedRow<'a>>, AllocError>
    ensures { IfOk result (λ exports. exports.items ≡ exported_lines (line_rows_of rows.entry)
        lines.now) }
{
    let mut exports = Vec::with_capacity(alloc, lines.len())?;
    let mut left = rows;
    for line in lines {
        let (row, behind) = next_row(line.kind(), left);
        exports.push(exported(row, line))?;
        left = behind;
    }
    Ok(exports)
}
