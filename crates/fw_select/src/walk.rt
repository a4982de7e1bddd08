//! The lines of a range of hours, counted in the groups that a selector has them in.
ghost use Rattle.std.specs.Prelude.{◌≡◌, ◌+◌, ◌<◌, ◌^◌, [], All, IfOk, List, OnOk, length, map};
ghost use Rattle.fw_charge.specs.Charge.{Charge, hour_of};
ghost use Rattle.fw_cover.specs.RosterView.{HasHour};
ghost use Rattle.fw_select.specs.Counting.{CountsHour, CountsHours, HasTotals};
ghost use Rattle.fw_select.specs.Groups.{GroupCost};
ghost use Rattle.fw_select.specs.Rows.{IsCount};
ghost use Rattle.fw_select.specs.Table.{AreSums};
ghost use Rattle.fw_snapshot.specs.History.{commitments_of, rows_of};
ghost use Rattle.fw_sums.specs.Hours.{AreByHour, HasHours, IsThere, all_rows, lent, rows_at, rows_of_list};

use crate::count::Count;
use crate::group::Group;
use crate::selector::Selector;
use fw_amortise::lines_by_roster;
use fw_columns::{Columns, LentRow};
use fw_cover::{Roster, references};
use fw_query::Shown;
use fw_sums::{HourPlace, every_hour, is_touched, rows_at, rows_by_hour};
use fw_terms::Commitment;
use std::alloc::{AllocError, Global};

// The totals of the lines of a state in so many hours from this one on.
pub(crate) fn groups_on(
    alloc: Global,
    shown: &Shown,
    selector: &Selector<'_, '_, '_>,
    from: u64,
    hours: usize,
) -> Result<Vec<Group>, AllocError>
    requires { from + hours < 2 ^ 64 }
    ensures { IfOk result (λ groups. HasTotals (commitments_of shown.now.entries) (rows_of
        shown.now.entries) selector.now from hours groups.items) }
{
    let segments = shown.segments(alloc)?;
    groups_of(
        alloc,
        segments.as_slice(),
        shown.state().commitment_list(),
        selector,
        from,
        hours,
    )
}

// The totals of the lines of so many hours from this one on.
fn groups_of<'a>(
    alloc: Global,
    segments: &[&'a Columns],
    commitments: &'a [Commitment],
    selector: &Selector<'_, '_, '_>,
    from: u64,
    hours: usize,
) -> Result<Vec<Group>, AllocError>
    requires { from + hours < 2 ^ 64 }
    ensures { IfOk result (λ groups. HasTotals commitments.now (all_rows (lent segments.now))
        selector.now from hours groups.items) }
{
    let every = every_hour(alloc, hours)?;
    let by_hour = rows_by_hour(alloc, segments, from, every.as_slice())?;
    let to = from + hours as u64;
    let roster = Roster::new(alloc, commitments, from, to)?;
    let mut count = Count::new(alloc, selector, segments, from, to)?;
    add_hours(
        alloc,
        &mut count,
        selector,
        segments,
        &roster,
        by_hour.as_slice(),
        from,
    )?;
    Ok(count.into_groups()?)
}

// Counts the lines of hours in turn, from this one on, whose rows are at these places.
fn add_hours<'a>(
    alloc: Global,
    count: &mut Count,
    selector: &Selector<'_, '_, '_>,
    segments: &[&'a Columns],
    roster: &Roster<'a>,
    by_hour: &[Vec<HourPlace>],
    from: u64,
) -> Result<(), AllocError>
    requires fits { from + length by_hour.now < 2 ^ 64 }
    requires roster { HasHours roster.now from (length by_hour.now) }
    requires by_hour { (rows : List Charge) × AreByHour (lent segments.now) rows from (length
        by_hour.now) by_hour.now }
    requires count { IsCount selector.now (lent segments.now) count.old }
    requires empty { AreSums count.old.table [] }
    ensures { OnOk result (CountsHours count.new.table selector.now roster.now.commitments (map
        (rows_of_list (lent segments.now)) by_hour.now) from) }
{
    let mut hour = from;
    for places in by_hour {
        add_hour(
            alloc,
            count,
            selector,
            segments,
            roster,
            places.as_slice(),
            hour,
        )?;
        hour += 1;
    }
    Ok(())
}

// Counts the lines of an hour whose rows are at these places. Where no commitment has a line in it, they are what the rows are.
fn add_hour<'a>(
    alloc: Global,
    count: &mut Count,
    selector: &Selector<'_, '_, '_>,
    segments: &[&'a Columns],
    roster: &Roster<'a>,
    places: &[HourPlace],
    hour: u64,
) -> Result<(), AllocError>
    requires there { All (IsThere (lent segments.now)) places.now }
    requires hour { HasHour roster.now hour }
    requires rows { All (λ r. hour_of r.start ≡ hour) (rows_at (lent segments.now) places.now) }
    requires count { IsCount selector.now (lent segments.now) count.old }
    ensures counts { OnOk result ((before : List GroupCost) → AreSums count.old.table before
        → CountsHour count.new.table before selector.now roster.now.commitments (rows_at (lent
        segments.now) places.now) hour) }
    ensures count { OnOk result (IsCount selector.now (lent segments.now) count.new) }
{
    if is_touched(roster.commitments(), hour) {
        let rows = rows_at(alloc, segments, places)?;
        add_touched(alloc, count, selector, roster, rows.as_slice(), hour as u32)?;
        return Ok(());
    }
    count.add_places(alloc, selector, segments, places)?;
    Ok(())
}

// Counts the lines of an hour whose rows are these.
fn add_touched<'a>(
    alloc: Global,
    count: &mut Count,
    selector: &Selector<'_, '_, '_>,
    roster: &Roster<'a>,
    rows: &[LentRow<'a>],
    hour: u32,
) -> Result<(), AllocError>
    requires hour { HasHour roster.now hour }
    requires rows { All (λ r. hour_of r.start ≡ hour) rows.now }
    requires room { length count.old.room.group.items ≡ length selector.now.keys.now }
    ensures counts { OnOk result ((before : List GroupCost) → AreSums count.old.table before
        → CountsHour count.new.table before selector.now roster.now.commitments rows.now hour) }
    ensures count { OnOk result ((segments : List (List Charge)) → IsCount selector.now segments
        count.old → IsCount selector.now segments count.new) }
{
    let rows = references(alloc, rows)?;
    let lines = lines_by_roster(alloc, roster, rows.as_slice(), hour)?;
    count.add_lines(selector, lines.as_slice())?;
    Ok(())
}
