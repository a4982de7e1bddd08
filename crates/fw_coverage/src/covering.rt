//! How well commitments were used, by the hours of a range.
ghost use Rattle.std.specs.Prelude.{◌≡◌, ◌+◌, ◌<◌, ◌^◌, length, map, filter, All, IfErr, IfOk, MatchBool};
ghost use Rattle.std.specs.Bool.{OnTrue};
ghost use Rattle.fw_charge.specs.Charge.{hour_of};
ghost use Rattle.fw_cover.specs.RosterView.{HasHour};
ghost use Rattle.fw_coverage.specs.Coverage.{IsCoverage};
ghost use Rattle.fw_coverage.specs.Tallies.{AreAfter, AreApart, ArePlaced, AreTallies, coverage_from};
ghost use Rattle.fw_sums.specs.Hours.{AreByHour, AreTouched, HasHours, IsThere, all_rows, lent, rows_at, rows_marked};
ghost use Rattle.fw_sums.specs.Limits.{IsRange};
ghost use Rattle.fw_query.specs.Refusals.{AreRefused};
ghost use Rattle.fw_snapshot.specs.History.{commitments_of, rows_of};

use crate::covered::Coverage;
use crate::tally::{Tally, no_tallies, with_hour};
use fw_columns::Columns;
use fw_cover::Roster;
use fw_query::{QueryFault, Shown};
use fw_snapshot::Snapshot;
use fw_sums::{HourPlace, MOST_HOURS, rows_at, rows_by_hour, touched_hours};
use fw_terms::Commitment;
use std::alloc::{AllocError, Global};

/// How well the commitments of a snapshot were used in the hours from `from` up to, and not including, `to`, counted from 1970: those that have a
/// line there, in the order in which they were accepted. The costs are those of the lines that [`lines_csv`](fw_query::lines_csv) writes. A purchase
/// that was added to a commitment later is one of its purchases: it is spread over every hour of the term, and so changes the costs of past
/// hours too.
///
/// It costs as much as the rows and the lines of the hours in which some commitment has a line; the lines of other hours are not made.
///
/// # Errors
/// `Range` where the range has no hour, or more than 26,304; `NoMemory` where memory ran out.
pub fn coverage(
    alloc: Global,
    snapshot: &Snapshot,
    from: u64,
    to: u64,
) -> Result<Vec<Coverage<'_>>, QueryFault>
    ensures range { IfOk result (λ _. IsRange from to) }
    ensures coverage { IfOk result (λ found. IsCoverage (commitments_of snapshot.now.entries)
        (rows_of snapshot.now.entries) from to found.items) }
    ensures fault { IfErr result (AreRefused from to) }
{
    if from >= to || to - from > MOST_HOURS {
        return Err(QueryFault::Range);
    }
    let state = snapshot.state();
    let shown = Shown::of(alloc, state)?;
    let commitments = state.commitment_list();
    match coverage_on(alloc, &shown, commitments, from, (to - from) as usize) {
        Ok(found) => Ok(found),
        Err(AllocError) => Err(QueryFault::NoMemory),
    }
}

// The coverage of a state in so many hours from this one on. What is found borrows these commitments, which are the state's.
fn coverage_on<'a>(
    alloc: Global,
    shown: &Shown,
    commitments: &'a [Commitment],
    from: u64,
    hours: usize,
) -> Result<Vec<Coverage<'a>>, AllocError>
    requires fits { from + hours < 2 ^ 64 }
    requires same { commitments.now ≡ commitments_of shown.now.entries }
    ensures { IfOk result (λ found. IsCoverage (commitments_of shown.now.entries)
        (rows_of shown.now.entries) from (from + hours) found.items) }
{
    // each entry was accepted, so no row has the id of a commitment
    let _entries = shown.state().entries();
    let segments = shown.segments(alloc)?;
    coverage_of(
        alloc,
        segments.as_slice(),
        shown.state().commitment_list(),
        commitments,
        from,
        hours,
    )
}

// The coverage of commitments by the rows of segments in so many hours from this one on. What is found borrows the second list of the same
// commitments.
fn coverage_of<'a, 'r>(
    alloc: Global,
    segments: &[&'r Columns],
    listed: &'r [Commitment],
    commitments: &'a [Commitment],
    from: u64,
    hours: usize,
) -> Result<Vec<Coverage<'a>>, AllocError>
    requires fits { from + hours < 2 ^ 64 }
    requires same { commitments.now ≡ listed.now }
    requires apart { AreApart listed.now (all_rows (lent segments.now)) }
    ensures { IfOk result (λ found. IsCoverage listed.now (all_rows (lent segments.now)) from
        (from + hours) found.items) }
{
    let touched = touched_hours(alloc, listed, from, hours)?;
    let by_hour = rows_by_hour(alloc, segments, from, touched.as_slice())?;
    let roster = Roster::new(alloc, listed, from, from + hours as u64)?;
    let tallies = tallies_of(
        alloc,
        segments,
        commitments,
        &roster,
        by_hour.as_slice(),
        touched.as_slice(),
        from,
    )?;
    coverage_from(alloc, tallies.as_slice())
}

// The tallies of a roster's commitments after hours in turn, from this one on. The rows of those that are touched are at these places.
fn tallies_of<'a, 'r>(
    alloc: Global,
    segments: &[&'r Columns],
    commitments: &'a [Commitment],
    roster: &Roster<'r>,
    by_hour: &[Vec<HourPlace>],
    touched: &[bool],
    from: u64,
) -> Result<Vec<Tally<'a>>, AllocError>
    requires fits { from + length by_hour.now < 2 ^ 64 }
    requires same { commitments.now ≡ roster.now.commitments }
    requires roster { HasHours roster.now from (length by_hour.now) }
    requires many { length touched.now ≡ length by_hour.now }
    requires touched { AreTouched roster.now.commitments from (length by_hour.now) touched.now }
    requires by_hour { AreByHour (lent segments.now)
        (rows_marked touched.now from (all_rows (lent segments.now))) from
        (length by_hour.now) by_hour.now }
    requires apart { AreApart roster.now.commitments (all_rows (lent segments.now)) }
    ensures { IfOk result (λ tallies. AreTallies roster.now.commitments
        (all_rows (lent segments.now)) from (length by_hour.now) tallies.items) }
{
    let mut tallies = no_tallies(alloc, commitments)?;
    let mut hour = from;
    for places in by_hour {
        let is_touched = touched[(hour - from) as usize];
        tallies = with_places(
            alloc,
            tallies,
            segments,
            roster,
            places.as_slice(),
            is_touched,
            hour,
        )?;
        hour += 1;
    }
    Ok(tallies)
}

// The tallies after one more of a roster's hours, whose rows are at these places. In an hour that isn't touched they stay.
fn with_places<'a, 'r>(
    alloc: Global,
    tallies: Vec<Tally<'a>>,
    segments: &[&'r Columns],
    roster: &Roster<'r>,
    places: &[HourPlace],
    is_touched: bool,
    hour: u64,
) -> Result<Vec<Tally<'a>>, AllocError>
    requires placed { ArePlaced (length roster.now.commitments) tallies.items }
    requires hour { HasHour roster.now hour }
    requires there { All (IsThere (lent segments.now)) places.now }
    requires of_hour { All (λ r. hour_of r.start ≡ hour) (rows_at (lent segments.now) places.now) }
    requires early { OnTrue is_touched (hour < 2 ^ 32) }
    ensures { IfOk result (λ after. MatchBool is_touched
        (AreAfter roster.now.commitments
        (rows_at (lent segments.now) places.now) hour tallies.entry.items after.items)
        (after.items ≡ tallies.entry.items)) }
{
    if !is_touched {
        return Ok(tallies);
    }
    let rows = rows_at(alloc, segments, places)?;
    with_hour(
        alloc,
        tallies.as_slice(),
        roster,
        rows.as_slice(),
        hour as u32,
    )
}

// The coverage that tallies come to: of those whose commitment has a line.
fn coverage_from<'a>(alloc: Global, tallies: &[Tally<'a>]) -> Result<Vec<Coverage<'a>>, AllocError>
    ensures { IfOk result (λ found. found.items
        ≡ map coverage_from (filter (λ t. t.sums.shown) tallies.now)) }
{
    let mut found = Vec::new(alloc);
    for tally in tallies {
        if tally.sums.shown {
            found.push(Coverage::of_tally(tally))?;
        }
    }
    Ok(found)
}
