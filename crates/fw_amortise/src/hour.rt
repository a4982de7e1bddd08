//! The lines of an hour.
ghost use Rattle.std.specs.Prelude.{◌≡◌, ◌≤◌, ◌<◌, ◌+◌, ◌++◌, ◌==◌, ℕ, length, map, filter, slice_index, slice_get, ◌∷◌, [], All, IfOk, OnOk};
ghost use Rattle.std.specs.List.{flat_map, prefix_len};
ghost use Rattle.fw_charge.specs.Charge.{hour_of};
ghost use Rattle.fw_cover.specs.Eligible.{is_of_hour};
ghost use Rattle.fw_terms.specs.Commitment.{CommitmentValue};
ghost use Rattle.fw_cover.specs.Applies.{is_in_term};
ghost use Rattle.fw_cover.specs.Cover.{IsTakeWithin, taken_of_row, used_of};
ghost use Rattle.fw_cover.specs.HourCovers.{IsHourCover};
ghost use Rattle.fw_cover.specs.Hour.{quantity_of, quantities_of, capacities_of, takes_of, unused_of};
ghost use Rattle.fw_cover.specs.RosterView.{HasHour, roster_order};
ghost use Rattle.fw_amortise.specs.Lines.{AreHourLines, AreLines, AreOwnLines, rows_in, purchase_lines, purchase_lines_of, given_lines, rest_of, rest_lines, running};
ghost use Rattle.fw_amortise.specs.Adding.{AddsShared};

use crate::line::Line;
use crate::shared::push_commitment;
use crate::single::{given_line, is_in_hour, purchase_line, rest_line};
use fw_charge::Row;
use fw_cover::{HourCover, Roster, Taken, is_eligible, is_in_term, lend, references};
use fw_row_table::LentRow;
use fw_terms::Commitment;
use std::alloc::{AllocError, Global};

/// Adds the purchases of a commitment that fall in the hour.
#[tactic(auto, unfolding(crate::specs::Lines::purchase_lines_of))]
fn push_purchases_of<'a>(
    lines: &mut Vec<Line<'a>>,
    commitment: &'a Commitment,
    hour: u32,
) -> Result<(), AllocError>
    ensures { OnOk result (lines.new.items
        ≡ lines.old.items ++ purchase_lines_of hour commitment.now) }
{
    for purchase in commitment.purchases() {
        if is_in_hour(purchase.at(), hour) {
            lines.push(purchase_line(commitment, purchase, hour))?;
        }
    }
    Ok(())
}

/// Adds the purchases of the hour, by the order of the commitments.
#[tactic(auto, unfolding(crate::specs::Lines::purchase_lines))]
fn push_purchases<'a>(
    lines: &mut Vec<Line<'a>>,
    commitments: &'a [Commitment],
    hour: u32,
) -> Result<(), AllocError>
    ensures { OnOk result (lines.new.items
        ≡ lines.old.items ++ purchase_lines commitments.now hour) }
{
    for commitment in commitments {
        push_purchases_of(lines, commitment, hour)?;
    }
    Ok(())
}

/// Adds the rows that no commitment may cover.
#[tactic(auto, unfolding(crate::specs::Lines::given_lines))]
fn push_given<'a>(
    lines: &mut Vec<Line<'a>>,
    rows: &[&LentRow<'a>],
    hour: u32,
) -> Result<(), AllocError>
    ensures { OnOk result (lines.new.items
        ≡ lines.old.items ++ given_lines (map (λ r. r.now) rows.now) hour) }
{
    for row in rows {
        if !is_eligible(row) {
            lines.push(given_line(row, hour))?;
        }
    }
    Ok(())
}

/// Adds what is left of a row, if commitments may cover it and something is left.
#[tactic(auto, unfolding(crate::specs::Lines::rest_of))]
fn push_rest<'a>(
    lines: &mut Vec<Line<'a>>,
    row: &LentRow<'a>,
    left: u64,
    hour: u32,
) -> Result<(), AllocError>
    requires { left ≤ quantity_of row.now }
    ensures { OnOk result (lines.new.items ≡ lines.old.items ++ rest_of hour row.now left) }
{
    if is_eligible(row) && left > 0 {
        lines.push(rest_line(row, left, hour))?;
    }
    Ok(())
}

/// Adds what is left of the rows that commitments may cover.
fn push_rests<'a>(
    lines: &mut Vec<Line<'a>>,
    rows: &[&LentRow<'a>],
    cover: &HourCover,
    hour: u32,
) -> Result<(), AllocError>
    requires one_each { length cover.now.row_left.items ≡ length rows.now }
    requires left { (r : ℕ) → taken_of_row r cover.now.taken.items
        + slice_index cover.now.row_left.items r
        ≡ slice_index (quantities_of (map (λ r. r.now) rows.now)) r }
    ensures { OnOk result (lines.new.items
        ≡ lines.old.items ++ rest_lines (map (λ r. r.now) rows.now) cover.now.taken.items hour) }
{
    for (place, row) in rows.iter().enumerate() {
        push_rest(lines, row, cover.row_left[place], hour)?;
    }
    Ok(())
}

/// How many takes from the first on are those of the commitment at a place.
fn run_of(takes: &[Taken], place: usize) -> usize
    ensures run { result ≡ prefix_len (λ t. t.commitment == place) takes.now }
    ensures within { result ≤ length takes.now }
{
    takes
        .iter()
        .take_while(|take| take.commitment == place)
        .count()
}

/// Adds the lines of the commitment at a place, which took this, if its term has the hour.
fn push_shared_at<'a>(
    alloc: Global,
    lines: &mut Vec<Line<'a>>,
    commitments: &'a [Commitment],
    place: usize,
    rows: &[&LentRow<'a>],
    cover: &HourCover,
    takes: &[Taken],
    hour: u32,
) -> Result<(), AllocError>
    requires place { place < length commitments.now }
    requires commitments { length cover.now.unused.items ≡ length commitments.now }
    requires within { All (IsTakeWithin (length commitments.now) (length rows.now))
        cover.now.taken.items }
    requires takes { takes.now ≡ takes_of place cover.now.taken.items }
    requires unused { (c : ℕ) → used_of c cover.now.taken.items
        + slice_index cover.now.unused.items c ≡ slice_index (capacities_of commitments.now) c }
    ensures { OnOk result ((c : CommitmentValue) → slice_get commitments.now place ≡ Some c
        → AddsShared commitments.now (map (λ r. r.now) rows.now) cover.now.taken.items hour
        (filter (λ c. is_in_term c.1 hour) ((place, c) ∷ [])) lines.old.items lines.new.items) }
{
    let commitment = &commitments[place];
    if !is_in_term(commitment, hour) {
        return Ok(());
    }
    push_commitment(
        alloc,
        lines,
        commitment,
        rows,
        takes,
        cover.unused[place],
        hour,
    )
}

/// Adds the lines of each commitment whose term has the hour, one of the roster's, in their order. What they took stands commitment by
/// commitment in the same order, so the takes are gone through once.
fn push_shared<'a>(
    alloc: Global,
    lines: &mut Vec<Line<'a>>,
    roster: &Roster<'a>,
    rows: &[&LentRow<'a>],
    cover: &HourCover,
    hour: u32,
) -> Result<(), AllocError>
    requires hour { HasHour roster.now hour }
    requires commitments { length cover.now.unused.items ≡ length roster.now.commitments }
    requires takes { All (IsTakeWithin (length roster.now.commitments) (length rows.now))
        cover.now.taken.items }
    requires runs { cover.now.taken.items ≡ flat_map (λ c. takes_of c.0 cover.now.taken.items)
        (roster_order roster.now) }
    requires unused { (c : ℕ) → used_of c cover.now.taken.items
        + slice_index cover.now.unused.items c
        ≡ slice_index (capacities_of roster.now.commitments) c }
    ensures { OnOk result (AddsShared roster.now.commitments
        (map (λ r. r.now) rows.now) cover.now.taken.items hour
        (running roster.now.commitments hour) lines.old.items lines.new.items) }
{
    let commitments = roster.commitments();
    let mut left: &[Taken] = &cover.taken;
    for place in roster.order() {
        let (takes, later) = left.split_at(run_of(left, *place));
        push_shared_at(alloc, lines, commitments, *place, rows, cover, takes, hour)?;
        left = later;
    }
    Ok(())
}

/// The rows of an hour.
#[tactic(auto, unfolding(crate::specs::Lines::rows_in, fw_cover::specs::Eligible::is_of_hour))]
fn rows_in<'a>(alloc: Global, rows: &'a [Row], hour: u32) -> Result<Vec<&'a Row>, AllocError>
    ensures { IfOk result (λ v. map (λ r. r.now) v.items ≡ rows_in hour rows.now) }
{
    let mut found = Vec::new(alloc);
    for row in rows {
        if row.hour() == hour {
            found.push(row)?;
        }
    }
    Ok(found)
}

/// The lines of one of a roster's hours, counted from 1970, of rows that are all of that hour, under the commitments of the roster.
///
/// First come the purchases of the hour, then the rows that no commitment may cover, then for each commitment that runs what it covered of
/// the rows and what it left unused, and last what is left of the rows that commitments may cover. The lines lend the texts and tags of the
/// rows and commitments.
///
/// # Errors
/// The one error is that memory ran out.
pub fn lines_by_roster<'a>(
    alloc: Global,
    roster: &Roster<'a>,
    rows: &[&LentRow<'a>],
    hour: u32,
) -> Result<Vec<Line<'a>>, AllocError>
    requires hour { HasHour roster.now hour }
    requires rows { All (λ r. hour_of r.start ≡ hour) (map (λ r. r.now) rows.now) }
    ensures { IfOk result (λ v. AreHourLines roster.now.commitments
        (map (λ r. r.now) rows.now) hour v.items) }
{
    let cover = roster.cover(alloc, rows, hour)?;
    let mut lines = Vec::with_capacity(alloc, rows.len())?;
    push_purchases(&mut lines, roster.commitments(), hour)?;
    push_given(&mut lines, rows, hour)?;
    push_shared(alloc, &mut lines, roster, rows, &cover, hour)?;
    push_rests(&mut lines, rows, &cover, hour)?;
    Ok(lines)
}

/// The commitments' own lines in one of a roster's hours, counted from 1970, of rows that are all of that hour and of which the commitments took
/// this. Of the lines of [`lines_by_roster`] these are those that are no row as it was given, and no rest of one: the purchases of the hour, and
/// then for each commitment that runs what it covered of the rows and what it left unused. What is left of each row stands in the cover.
///
/// # Errors
/// The one error is that memory ran out.
pub fn own_lines<'a>(
    alloc: Global,
    roster: &Roster<'a>,
    rows: &[&LentRow<'a>],
    cover: &HourCover,
    hour: u32,
) -> Result<Vec<Line<'a>>, AllocError>
    requires hour { HasHour roster.now hour }
    requires cover { IsHourCover roster.now.commitments (map (λ r. r.now) rows.now) hour cover.now }
    ensures { IfOk result (λ lines. AreOwnLines roster.now.commitments
        (map (λ r. r.now) rows.now) hour lines.items) }
{
    let expected = cover.taken.len().saturating_add(roster.order().len());
    let mut own = Vec::with_capacity(alloc, expected)?;
    push_purchases(&mut own, roster.commitments(), hour)?;
    push_shared(alloc, &mut own, roster, rows, cover, hour)?;
    Ok(own)
}

/// The lines of an hour, counted from 1970, of rows that are all of that hour: those of [`lines_by_roster`] for a roster of the commitments
/// for this hour. For many hours make the [`Roster`] once.
///
/// # Errors
/// The one error is that memory ran out.
pub fn lines_of_hour<'a>(
    alloc: Global,
    commitments: &'a [Commitment],
    rows: &[&'a Row],
    hour: u32,
) -> Result<Vec<Line<'a>>, AllocError>
    requires { All (λ r. hour_of r.start ≡ hour) (map (λ r. r.now) rows.now) }
    ensures { IfOk result (λ v. AreHourLines commitments.now
        (map (λ r. r.now) rows.now) hour v.items) }
{
    let lent = lend(alloc, rows)?;
    let rows = references(alloc, &lent)?;
    let first = u64::from(hour);
    let roster = Roster::new(alloc, commitments, first, first + 1)?;
    lines_by_roster(alloc, &roster, &rows, hour)
}

/// The lines of an hour, counted from 1970, among rows of any hours; rows of other hours are passed over. They are those of
/// [`lines_of_hour`] for the rows of the hour.
///
/// # Errors
/// The one error is that memory ran out.
pub fn lines<'a>(
    alloc: Global,
    commitments: &'a [Commitment],
    rows: &'a [Row],
    hour: u32,
) -> Result<Vec<Line<'a>>, AllocError>
    ensures { IfOk result (λ v. AreLines commitments.now rows.now hour v.items) }
{
    let rows = rows_in(alloc, rows, hour)?;
    lines_of_hour(alloc, commitments, &rows, hour)
}
