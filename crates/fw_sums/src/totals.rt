//! What the lines of a range of hours come to.
ghost use Rattle.std.specs.Prelude.{◌≤◌, ◌-◌, IfOk};
ghost use Rattle.fw_sums.specs.ReportCache.{AreKept, AreKeptUnder, AreOpen};
ghost use Rattle.fw_sums.specs.Hours.{HasHours, all_rows, lent};
ghost use Rattle.fw_sums.specs.Listed.{AreListed};
ghost use Rattle.fw_sums.specs.Limits.{IsRange};
ghost use Rattle.fw_sums.specs.Parts.{range_costs};
ghost use Rattle.fw_sums.specs.Sums.{Counts};
ghost use Rattle.fw_sums.specs.Totals.{HasTotals};

use crate::cache::{HourSums, ReportCache};
use crate::groups::Groups;
use crate::listed::Listed;
use crate::marks::every_hour;
use crate::open_hours::OpenHours;
use crate::query::Query;
use crate::total::Total;
use fw_columns::Columns;
use fw_cover::Roster;
use fw_terms::Commitment;
use std::alloc::{AllocError, Global};
use std::thread::Threads;

/// What the lines that the commitments and the rows of these segments have in the hours of the query's range come to: a total for each group that one of
/// the lines is in, in rising byte order of the groups. Each worker counts the rows of a piece of the segments, in a thread of its own where there are
/// processors for it; their number changes nothing in the totals.
///
/// What commitments bring to an hour and the rows of a segment to the sums is taken from what is kept, and what this call finds is kept too. All that is
/// kept must be of these commitments and rows. After an error, which is that memory ran out, it still is.
pub fn totals_keeping<'a>(
    rt: &(impl Threads + Sync),
    alloc: Global,
    segments: &[&'a Columns],
    commitments: &'a [Commitment],
    cache: &mut ReportCache,
    query: &Query<'_>,
    workers: u32,
) -> Result<Vec<Total>, AllocError>
    requires range { IsRange query.now.from_hour query.now.to_hour }
    requires some_workers { 1 ≤ workers }
    requires kept { AreKept commitments.now (all_rows (lent segments.now)) cache.old }
    ensures kept { AreKept commitments.now (all_rows (lent segments.now)) cache.new }
    ensures totals { IfOk result (λ totals. HasTotals commitments.now
        (all_rows (lent segments.now)) query.now.key.now query.now.from_hour query.now.to_hour
        totals.items) }
{
    let mut kept = cache.take(query.key, segments);
    let rows = Groups::of_wholes(
        rt,
        alloc,
        query.key,
        segments,
        &kept.wholes,
        query.from_hour,
        query.to_hour,
        workers,
    )?;
    let roster = Roster::new(alloc, commitments, query.from_hour, query.to_hour)?;
    let hours = open_hours(alloc, segments, commitments, &kept.hours, query)?;
    let listed = Listed::of_segments(
        alloc,
        segments,
        &roster,
        query.from_hour,
        hours.marks.as_slice(),
    )?;
    hours.keep_all(
        rt,
        alloc,
        query.key,
        segments,
        &roster,
        &listed,
        &mut kept.hours,
        query.from_hour,
        workers,
    );
    let totals = totals_of(
        segments,
        rows,
        &roster,
        &listed,
        &mut kept.hours,
        &hours,
        query,
    )?;
    cache.put(query.key, kept);
    Ok(totals)
}

/// The same totals by one worker, in the thread that asks; nothing is kept.
pub fn totals_alone<'a>(
    alloc: Global,
    segments: &[&'a Columns],
    commitments: &'a [Commitment],
    query: &Query<'_>,
) -> Result<Vec<Total>, AllocError>
    requires range { IsRange query.now.from_hour query.now.to_hour }
    ensures totals { IfOk result (λ totals. HasTotals commitments.now
        (all_rows (lent segments.now)) query.now.key.now query.now.from_hour query.now.to_hour
        totals.items) }
{
    let marks = every_hour(alloc, (query.to_hour - query.from_hour) as usize)?;
    let rows = Groups::of_piece(
        alloc,
        query.key,
        segments,
        query.from_hour,
        marks.as_slice(),
    )?;
    let roster = Roster::new(alloc, commitments, query.from_hour, query.to_hour)?;
    let mut kept = HourSums::new(alloc);
    let hours = open_hours(alloc, segments, commitments, &kept, query)?;
    let listed = Listed::of_segments(
        alloc,
        segments,
        &roster,
        query.from_hour,
        hours.marks.as_slice(),
    )?;
    totals_of(segments, rows, &roster, &listed, &mut kept, &hours, query)
}

// The open hours of the query's range.
fn open_hours(
    alloc: Global,
    segments: &[&Columns],
    commitments: &[Commitment],
    kept: &HourSums,
    query: &Query<'_>,
) -> Result<OpenHours, AllocError>
    requires { IsRange query.now.from_hour query.now.to_hour }
    ensures { IfOk result (AreOpen (lent segments.now)
        (all_rows (lent segments.now)) commitments.now kept.now query.now.from_hour
        (query.now.to_hour - query.now.from_hour)) }
{
    let hours = (query.to_hour - query.from_hour) as usize;
    OpenHours::of_range(alloc, segments, commitments, kept, query.from_hour, hours)
}

// The totals, given the sums of the range's rows.
fn totals_of<'r, 'a>(
    segments: &[&'a Columns],
    rows: Groups,
    roster: &'r Roster<'a>,
    listed: &Listed<'r, 'a>,
    kept: &mut HourSums,
    hours: &OpenHours,
    query: &Query<'_>,
) -> Result<Vec<Total>, AllocError>
    requires range { IsRange query.now.from_hour query.now.to_hour }
    requires rows { Counts rows (range_costs query.now.key.now query.now.from_hour query.now.to_hour
        (all_rows (lent segments.now))) }
    requires roster { HasHours roster.now query.now.from_hour
        (query.now.to_hour - query.now.from_hour) }
    requires listed { AreListed (lent segments.now) roster.now listed.now }
    requires hours { AreOpen (lent segments.now)
        (all_rows (lent segments.now)) roster.now.commitments kept.old query.now.from_hour
        (query.now.to_hour - query.now.from_hour) hours.now }
    requires kept { AreKeptUnder roster.now.commitments
        (all_rows (lent segments.now)) query.now.key.now kept.old }
    ensures kept { AreKeptUnder roster.now.commitments
        (all_rows (lent segments.now)) query.now.key.now kept.new }
    ensures totals { IfOk result (λ totals. HasTotals roster.now.commitments
        (all_rows (lent segments.now)) query.now.key.now query.now.from_hour query.now.to_hour
        totals.items) }
{
    let key = query.key;
    let from = query.from_hour;
    Groups::of_hours(rows, key, segments, roster, listed, kept, hours, from)?.into_totals()
}
