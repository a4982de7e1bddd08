//! The lines at prices, and the rows at amounts, of a range of hours, summed by group.
ghost use Rattle.std.specs.Prelude.{◌≡◌, ◌+◌, ◌-◌, ◌<◌, ◌^◌, [], All, IfErr, IfOk, List, MatchOption, OnOk, length, map, option_copied};
ghost use Rattle.fw_amortise.specs.LineValue.{LineValue};
ghost use Rattle.fw_charge.specs.Charge.{Charge, hour_of};
ghost use Rattle.fw_cover.specs.RosterView.{HasHour};
ghost use Rattle.fw_figures.specs.Prices.{AreAmountTotals, AreCounted, ArePriced, AreTotalsBy, CountsHour, HasCounted};
ghost use Rattle.fw_query.specs.Refusals.{AreRefused};
ghost use Rattle.fw_select.specs.Selectors.{costs_of};
ghost use Rattle.fw_select.specs.Table.{AreSums};
ghost use Rattle.fw_snapshot.specs.History.{commitments_of, rows_of};
ghost use Rattle.fw_sums.specs.Hours.{AreByHour, HasHours, all_rows, lent, rows_of_list};
ghost use Rattle.fw_sums.specs.Limits.{IsRange};

use fw_amortise::Line;
use fw_columns::{Columns, LentRow};
use fw_cover::{Roster, references};
use fw_finops::{lines_at_amounts, lines_at_prices};
use fw_query::{MOST_HOURS, QueryFault, Shown};
use fw_select::{Counter, Group, Selector};
use fw_snapshot::Snapshot;
use fw_sums::{HourPlace, every_hour, rows_at, rows_by_hour};
use fw_terms::Commitment;
use std::alloc::{AllocError, Global};

/// Which lines of an hour are counted.
#[derive(Clone, Copy)]
enum Counted<'t> {
    /// Those at prices; and, where a tag has prices, those of the rows that providers' commitments cover at these.
    AtPrices(Option<&'t str>),
    /// The rows at their amounts in a tag.
    AtAmounts(&'t str),
}

impl<'t> Counted<'t> {
    // The lines of one of a roster's hours whose rows are these.
    fn lines<'a>(
        self,
        alloc: Global,
        roster: &Roster<'a>,
        rows: &[&LentRow<'a>],
        hour: u32,
    ) -> Result<Vec<Line<'a>>, AllocError>
        requires { HasHour roster.now hour }
        ensures { IfOk result (λ lines. AreCounted self.entry roster.now.commitments
            (map (λ r. r.now) rows.now) hour lines.items) }
    {
        match self {
            Counted::AtPrices(tag) => lines_at_prices(alloc, roster, rows, hour, tag),
            Counted::AtAmounts(tag) => lines_at_amounts(alloc, rows, hour, tag),
        }
    }
}

/// What the lines at prices come to in the hours from `from` up to, and not including, `to`, counted from 1970: of those that the selector takes, a
/// group for each list of values that its keys have on one of them, with the exact sums of both costs. These are the lines at the rows' own
/// prices; and, where a tag has prices, those of the rows that providers' commitments cover at these prices, where EffectiveCost is the price,
/// and BilledCost is a nano for each row that has none.
///
/// # Errors
/// `Range` where the range has no hour or more than 26,304; `NoMemory` where memory ran out.
pub fn priced(
    alloc: Global,
    snapshot: &Snapshot,
    selector: &Selector<'_, '_, '_>,
    tag: Option<&str>,
    from: u64,
    to: u64,
) -> Result<Vec<Group>, QueryFault>
    ensures range { IfOk result (λ _. IsRange from to) }
    ensures priced { IfOk result (λ groups. ArePriced (commitments_of snapshot.now.entries)
        (option_copied tag.entry) (rows_of snapshot.now.entries) selector.now from (to - from)
        groups.items) }
    ensures fault { IfErr result (AreRefused from to) }
{
    groups_in(alloc, snapshot, selector, Counted::AtPrices(tag), from, to)
}

/// What the rows come to at their amounts in a tag in the hours from `from` up to, and not including, `to`, counted from 1970: of those that the
/// selector takes, a group for each list of values that its keys have on one of them. EffectiveCost is the exact sum of the amounts that the
/// texts of the tag read as, and BilledCost is a nano for each row that has none. Commitments split no row: each counts once, as it was given.
///
/// # Errors
/// `Range` where the range has no hour or more than 26,304; `NoMemory` where memory ran out.
pub(crate) fn amounts(
    alloc: Global,
    snapshot: &Snapshot,
    selector: &Selector<'_, '_, '_>,
    tag: &str,
    from: u64,
    to: u64,
) -> Result<Vec<Group>, QueryFault>
    ensures range { IfOk result (λ _. IsRange from to) }
    ensures amounts { IfOk result (λ groups. AreAmountTotals tag.now (rows_of snapshot.now.entries)
        selector.now from (to - from) groups.items) }
    ensures fault { IfErr result (AreRefused from to) }
{
    groups_in(alloc, snapshot, selector, Counted::AtAmounts(tag), from, to)
}

// The totals of the lines of the hours from `from` up to, and not including, `to`.
fn groups_in(
    alloc: Global,
    snapshot: &Snapshot,
    selector: &Selector<'_, '_, '_>,
    counted: Counted<'_>,
    from: u64,
    to: u64,
) -> Result<Vec<Group>, QueryFault>
    ensures range { IfOk result (λ _. IsRange from to) }
    ensures totals { IfOk result (λ groups. AreTotalsBy (AreCounted counted.entry (commitments_of
        snapshot.now.entries)) (rows_of snapshot.now.entries) selector.now from (to - from)
        groups.items) }
    ensures fault { IfErr result (AreRefused from to) }
{
    if from >= to || to - from > MOST_HOURS {
        return Err(QueryFault::Range);
    }
    let shown = Shown::of(alloc, snapshot.state())?;
    let hours = (to - from) as usize;
    Ok(groups_on(alloc, &shown, selector, counted, from, hours)?)
}

// The totals of the lines of a state in so many hours from this one on.
fn groups_on(
    alloc: Global,
    shown: &Shown,
    selector: &Selector<'_, '_, '_>,
    counted: Counted<'_>,
    from: u64,
    hours: usize,
) -> Result<Vec<Group>, AllocError>
    requires { from + hours < 2 ^ 64 }
    ensures { IfOk result (λ groups. AreTotalsBy (AreCounted counted.entry (commitments_of
        shown.now.entries)) (rows_of shown.now.entries) selector.now from hours groups.items) }
{
    let segments = shown.segments(alloc)?;
    groups_of(
        alloc,
        segments.as_slice(),
        shown.state().commitment_list(),
        selector,
        counted,
        from,
        hours,
    )
}

// The totals of the lines of so many hours from this one on.
fn groups_of<'a>(
    alloc: Global,
    segments: &[&'a Columns],
    commitments: &'a [Commitment],
    selector: &Selector<'_, '_, '_>,
    counted: Counted<'_>,
    from: u64,
    hours: usize,
) -> Result<Vec<Group>, AllocError>
    requires { from + hours < 2 ^ 64 }
    ensures { IfOk result (λ groups. AreTotalsBy (AreCounted counted.entry commitments.now)
        (all_rows (lent segments.now)) selector.now from hours groups.items) }
{
    let every = every_hour(alloc, hours)?;
    let by_hour = rows_by_hour(alloc, segments, from, every.as_slice())?;
    let roster = Roster::new(alloc, commitments, from, from + hours as u64)?;
    let mut counter = Counter::new(alloc);
    add_hours(
        alloc,
        &mut counter,
        selector,
        counted,
        segments,
        &roster,
        by_hour.as_slice(),
        from,
    )?;
    Ok(counter.into_groups()?)
}

// Counts the lines of hours in turn, from this one on, whose rows are at these places.
fn add_hours<'a>(
    alloc: Global,
    counter: &mut Counter,
    selector: &Selector<'_, '_, '_>,
    counted: Counted<'_>,
    segments: &[&'a Columns],
    roster: &Roster<'a>,
    by_hour: &[Vec<HourPlace>],
    from: u64,
) -> Result<(), AllocError>
    requires fits { from + length by_hour.now < 2 ^ 64 }
    requires roster { HasHours roster.now from (length by_hour.now) }
    requires by_hour { (rows : List Charge) × AreByHour (lent segments.now) rows from (length
        by_hour.now) by_hour.now }
    requires empty { AreSums counter.old.table [] }
    ensures { OnOk result (HasCounted counter.new selector.now (AreCounted counted.entry
        roster.now.commitments) from (map (rows_of_list (lent segments.now)) by_hour.now)) }
{
    let mut hour = from;
    for places in by_hour {
        let rows = rows_at(alloc, segments, places.as_slice())?;
        add_hour(
            alloc,
            counter,
            selector,
            counted,
            roster,
            rows.as_slice(),
            hour,
        )?;
        hour += 1;
    }
    Ok(())
}

// Counts the lines of an hour whose rows are these.
fn add_hour<'a>(
    alloc: Global,
    counter: &mut Counter,
    selector: &Selector<'_, '_, '_>,
    counted: Counted<'_>,
    roster: &Roster<'a>,
    rows: &[LentRow<'a>],
    hour: u64,
) -> Result<(), AllocError>
    requires hour { HasHour roster.now hour }
    requires rows { All (λ r. hour_of r.start ≡ hour) rows.now }
    ensures { OnOk result ((before : List LineValue) → AreSums counter.old.table (costs_of
        selector.now before) → CountsHour counter.new before selector.now (AreCounted counted.entry
        roster.now.commitments) rows.now hour) }
{
    let Some(hour) = hour_of_rows(rows, hour) else {
        return Ok(());
    };
    let rows = references(alloc, rows)?;
    let lines = counted.lines(alloc, roster, rows.as_slice(), hour)?;
    counter.add_lines(selector, lines.as_slice())?;
    Ok(())
}

// The hour, if it has rows; no hour without rows has a line.
fn hour_of_rows(rows: &[LentRow<'_>], hour: u64) -> Option<u32>
    requires { All (λ r. hour_of r.start ≡ hour) rows.now }
    ensures { MatchOption result (rows.now ≡ []) (λ h. h ≡ hour) }
{
    let row = rows.first()?;
    Some(row.hour())
}
