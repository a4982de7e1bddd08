//! The text of the lines of a range of hours.
ghost use Rattle.std.specs.Prelude.{◌≡◌, ◌+◌, ◌<◌, ◌^◌, false, All, IfErr, IfOk, List, MatchOption, OnOk, ℕ, [], length, map};
ghost use Rattle.fw_amortise.specs.LineValue.{LineValue};
ghost use Rattle.fw_charge.specs.Charge.{Charge, hour_of};
ghost use Rattle.fw_cover.specs.RosterView.{HasHour};
ghost use Rattle.fw_sums.specs.Hours.{AreByHour, HasHours, IsThere, all_rows, is_touched, lent, rows_at, rows_of_list};
ghost use Rattle.fw_sums.specs.Limits.{IsRange};
ghost use Rattle.fw_query.specs.Listing.{IsListing, WritesHour, WritesHours};
ghost use Rattle.fw_sums.specs.RangeLines.{AreRangeLines};
ghost use Rattle.fw_query.specs.Refusals.{AreRefused};
ghost use Rattle.fw_query.specs.Texts.{lines_text};
ghost use Rattle.fw_query.specs.Writers.{HasWritten};
ghost use Rattle.fw_snapshot.specs.History.{commitments_of, rows_of};

use crate::fault::QueryFault;
use crate::line_text::{write_lines, write_names};
use crate::shown::Shown;
use csv::{Writer, WriterBuilder};
use fw_amortise::lines_by_roster;
use fw_columns::{Columns, LentRow};
use fw_cover::{Roster, references};
use fw_snapshot::Snapshot;
use fw_sums::{HourPlace, MOST_HOURS, every_hour, is_touched, rows_at, rows_by_hour};
use fw_terms::Commitment;
use std::alloc::{AllocError, Global};

/// The text of the lines that the commitments and the rows of a snapshot have in the hours from `from` up to, and not including, `to`, counted
/// from 1970, as CSV: a line of names, and a record for each line, hour by hour. What is null is an empty field; costs and quantities have nine
/// digits after the point. A purchase that was added to a commitment later is one of its purchases: it has a line in the hour in which it was paid,
/// and is spread over every hour of the term, so it changes the amounts of past hours too.
pub fn lines_csv(
    alloc: Global,
    snapshot: &Snapshot,
    from: u64,
    to: u64,
) -> Result<Vec<u8>, QueryFault>
    ensures range { IfOk result (λ _. IsRange from to) }
    ensures text { IfOk result (λ text. (lines : List LineValue)
        × AreRangeLines (commitments_of snapshot.now.entries)
        (rows_of snapshot.now.entries) from to lines × (text.items ≡ lines_text lines)) }
    ensures fault { IfErr result (AreRefused from to) }
{
    if from >= to || to - from > MOST_HOURS {
        return Err(QueryFault::Range);
    }
    let shown = Shown::of(alloc, snapshot.state())?;
    match lines_csv_on(alloc, &shown, from, (to - from) as usize) {
        Ok(text) => Ok(text),
        Err(AllocError) => Err(QueryFault::NoMemory),
    }
}

// The text of the lines of a state in so many hours from this one on.
fn lines_csv_on(
    alloc: Global,
    shown: &Shown,
    from: u64,
    hours: usize,
) -> Result<Vec<u8>, AllocError>
    requires { from + hours < 2 ^ 64 }
    ensures { IfOk result (λ text. IsListing (commitments_of shown.now.entries)
        (rows_of shown.now.entries) from hours text.items) }
{
    let segments = shown.segments(alloc)?;
    lines_csv_of(
        alloc,
        segments.as_slice(),
        shown.state().commitment_list(),
        from,
        hours,
    )
}

// The text of the lines of so many hours from this one on.
fn lines_csv_of<'a>(
    alloc: Global,
    segments: &[&'a Columns],
    commitments: &'a [Commitment],
    from: u64,
    hours: usize,
) -> Result<Vec<u8>, AllocError>
    requires { from + hours < 2 ^ 64 }
    ensures { IfOk result (λ text. IsListing commitments.now
        (all_rows (lent segments.now)) from hours text.items) }
{
    let every = every_hour(alloc, hours)?;
    let by_hour = rows_by_hour(alloc, segments, from, every.as_slice())?;
    let roster = Roster::new(alloc, commitments, from, from + hours as u64)?;
    let mut writer = WriterBuilder::new().from_writer(Vec::new(alloc));
    write_names(&mut writer)?;
    write_hours(
        alloc,
        &mut writer,
        segments,
        &roster,
        by_hour.as_slice(),
        from,
    )?;
    match writer.into_inner() {
        Ok(text) => Ok(text),
        Err(_) => Err(AllocError),
    }
}

// Writes the lines of hours in turn, from this one on, whose rows are at these places.
fn write_hours<'a>(
    alloc: Global,
    writer: &mut Writer<Vec<u8>>,
    segments: &[&'a Columns],
    roster: &Roster<'a>,
    by_hour: &[Vec<HourPlace>],
    from: u64,
) -> Result<(), AllocError>
    requires fits { from + length by_hour.now < 2 ^ 64 }
    requires roster { HasHours roster.now from (length by_hour.now) }
    requires by_hour { (rows : List Charge) × AreByHour (lent segments.now) rows from
        (length by_hour.now) by_hour.now }
    ensures { OnOk result ((text : List ℕ) → HasWritten writer.old text
        → WritesHours writer.new text roster.now.commitments
        (map (rows_of_list (lent segments.now)) by_hour.now) from) }
{
    let mut hour = from;
    for places in by_hour {
        let rows = rows_at(alloc, segments, places.as_slice())?;
        write_hour(alloc, writer, roster, rows.as_slice(), hour)?;
        hour += 1;
    }
    Ok(())
}

// Writes the lines of an hour whose rows are these.
fn write_hour<'a>(
    alloc: Global,
    writer: &mut Writer<Vec<u8>>,
    roster: &Roster<'a>,
    rows: &[LentRow<'a>],
    hour: u64,
) -> Result<(), AllocError>
    requires hour { HasHour roster.now hour }
    requires rows { All (λ r. hour_of r.start ≡ hour) rows.now }
    ensures { OnOk result ((text : List ℕ) → HasWritten writer.old text
        → WritesHour writer.new text roster.now.commitments rows.now hour) }
{
    let Some(hour) = line_hour(roster.commitments(), rows, hour) else {
        return Ok(());
    };
    let rows = references(alloc, rows)?;
    let lines = lines_by_roster(alloc, roster, rows.as_slice(), hour)?;
    write_lines(alloc, writer, lines.as_slice())
}

// The hour, if it has rows or a commitment has a line in it; no later hour does.
fn line_hour(commitments: &[Commitment], rows: &[LentRow<'_>], hour: u64) -> Option<u32>
    requires { All (λ r. hour_of r.start ≡ hour) rows.now }
    ensures { MatchOption result ((rows.now ≡ []) × (is_touched commitments.now hour ≡ false))
        (λ h. h ≡ hour) }
{
    if let Some(row) = rows.first() {
        return Some(row.hour());
    }
    if is_touched(commitments, hour) {
        return Some(hour as u32);
    }
    None
}
