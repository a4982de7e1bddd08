//! Sums by group, as they grow line by line.
ghost use Rattle.std.specs.Prelude.{◌≡◌, ◌+ℤ◌, ◌+◌, ◌<◌, ◌^◌, ℕ, length, ◌++◌, ◌∷◌, List, [], map, replicate, true, All, IfNone, IfOk, IfSome, OnOk};
ghost use Rattle.std.specs.List.{range_with_len};
ghost use Rattle.fw_amortise.specs.Lines.{rows_in};
ghost use Rattle.fw_cover.specs.RosterView.{HasHour};
ghost use Rattle.fw_sums.specs.Costs.{Cost, costs_of};
ghost use Rattle.fw_sums.specs.ReportCache.{AreKeptUnder, AreOpen, AreOpenByHour, AreOwnSums, kept_at};
ghost use Rattle.fw_sums.specs.Hours.{AreTouched, HasHours, IsThere, all_rows, lent, row_cost, rows_at, rows_marked};
ghost use Rattle.fw_sums.specs.Listed.{AreListed};
ghost use Rattle.fw_sums.specs.Sums.{AddsLine, AreAmounts, AreSums, Counts, CountsHour, CountsHours, HasRoom, IsInOrder, kept_total, sums_at};
ghost use Rattle.fw_sums.specs.Totals.{AreTotals};

use crate::cache::HourSums;
use crate::hours::HourPlace;
use crate::listed::Listed;
use crate::open_hours::OpenHours;
use crate::segments::rows_lent;
use crate::total::Total;
use fw_amortise::{Line, own_lines};
use fw_columns::Columns;
use fw_cover::{Roster, references};
use fw_money::Nanos;
use indexmap::IndexMap;
use std::alloc::{AllocError, Global};

// Sums of costs, in nanos.
#[derive(Clone, Copy, Drop)]
pub(crate) struct Sums {
    billed: i128,
    effective: i128,
}

impl Sums {
    // The sums of one line.
    fn of_line(billed: Nanos, effective: Nanos) -> Sums
        ensures value { result ≡ record { billed = billed; effective = effective } }
        ensures amounts { AreAmounts billed effective }
        ensures room { HasRoom result }
    {
        Sums {
            billed: i128::from(billed.count()),
            effective: i128::from(effective.count()),
        }
    }

    // These sums.
    pub(crate) fn of_sums(billed: i128, effective: i128) -> Sums
        ensures { result ≡ record { billed = billed; effective = effective } }
    {
        Sums { billed, effective }
    }

    // Adds other sums.
    fn add(&mut self, other: &Sums)
        requires room { HasRoom self.old }
        requires small { HasRoom other.now }
        ensures billed { self.new.billed ≡ self.old.billed +ℤ other.now.billed }
        ensures effective { self.new.effective ≡ self.old.effective +ℤ other.now.effective }
    {
        self.billed += other.billed;
        self.effective += other.effective;
    }
}

// The sums of each group that a line was in, under the group's text.
#[derive(Drop)]
pub(crate) struct Groups {
    pub(crate) alloc: Global,
    pub(crate) by_group: IndexMap<String, Sums>,
    pub(crate) lines: u64,
}

impl Groups {
    // No groups.
    pub(crate) fn new(alloc: Global) -> Groups
        ensures counts { Counts result [] }
        ensures no_lines { result.lines ≡ 0 }
    {
        Groups {
            alloc,
            by_group: IndexMap::new(alloc),
            lines: 0,
        }
    }

    // The sums of the lines of hours in turn from this one on, given those of their rows. Where no commitment has a line in an hour, its lines bring
    // what its rows do; so only the rows of other hours, of which nothing is kept, are sorted by hour.
    pub(crate) fn of_hours<'r, 'a>(
        mut rows: Groups,
        key: &str,
        segments: &[&'a Columns],
        roster: &'r Roster<'a>,
        listed: &Listed<'r, 'a>,
        kept: &mut HourSums,
        hours: &OpenHours,
        from: u64,
    ) -> Result<Groups, AllocError>
        requires fits { from + length hours.now.by_hour.items < 2 ^ 64 }
        requires roster { HasHours roster.now from (length hours.now.by_hour.items) }
        requires listed { AreListed (lent segments.now) roster.now listed.now }
        requires hours { AreOpen (lent segments.now)
            (all_rows (lent segments.now)) roster.now.commitments kept.old from
            (length hours.now.by_hour.items) hours.now }
        requires rows { Counts rows (map (row_cost key.now)
            (rows_marked (replicate (length hours.now.by_hour.items) true) from
            (all_rows (lent segments.now)))) }
        requires kept { AreKeptUnder roster.now.commitments
            (all_rows (lent segments.now)) key.now kept.old }
        ensures kept { AreKeptUnder roster.now.commitments
            (all_rows (lent segments.now)) key.now kept.new }
        ensures groups { IfOk result (λ groups. CountsHours groups [] key.now roster.now.commitments
            (map (λ h. rows_in h (all_rows (lent segments.now)))
            (range_with_len from (length hours.now.by_hour.items))) from) }
    {
        rows.add_hours(
            key,
            segments,
            roster,
            listed,
            kept,
            hours.by_hour.as_slice(),
            hours.touched.as_slice(),
            from,
        )?;
        Ok(rows)
    }

    // Counts the lines of the hours, where their rows are counted; those of the open hours are at these places. The first place of either list
    // is of this hour.
    fn add_hours<'r, 'a>(
        &mut self,
        key: &str,
        segments: &[&'a Columns],
        roster: &'r Roster<'a>,
        listed: &Listed<'r, 'a>,
        kept: &mut HourSums,
        by_hour: &[Vec<HourPlace>],
        touched: &[bool],
        from: u64,
    ) -> Result<(), AllocError>
        requires fits { from + length by_hour.now < 2 ^ 64 }
        requires roster { HasHours roster.now from (length by_hour.now) }
        requires listed { AreListed (lent segments.now) roster.now listed.now }
        requires many { length touched.now ≡ length by_hour.now }
        requires touched { AreTouched roster.now.commitments from (length by_hour.now) touched.now }
        requires by_hour { AreOpenByHour (lent segments.now)
            (all_rows (lent segments.now)) roster.now.commitments kept.old from
            (length by_hour.now) by_hour.now }
        requires counts { Counts self.old (map (row_cost key.now)
            (rows_marked (replicate (length by_hour.now) true) from
            (all_rows (lent segments.now)))) }
        requires kept { AreKeptUnder roster.now.commitments
            (all_rows (lent segments.now)) key.now kept.old }
        ensures kept { AreKeptUnder roster.now.commitments
            (all_rows (lent segments.now)) key.now kept.new }
        ensures counts { OnOk result (CountsHours self.new [] key.now roster.now.commitments
            (map (λ h. rows_in h (all_rows (lent segments.now)))
            (range_with_len from (length by_hour.now))) from) }
    {
        let mut hour = from;
        for places in by_hour {
            if touched[(hour - from) as usize] {
                self.add_hour(
                    key,
                    segments,
                    roster,
                    listed,
                    kept,
                    places.as_slice(),
                    hour as u32,
                )?;
            }
            hour += 1;
        }
        Ok(())
    }

    // Counts the lines of an hour whose rows are counted, and are at these places where nothing is kept of the hour. What the commitments bring to it
    // is taken from what is kept, or found and kept.
    fn add_hour<'r, 'a>(
        &mut self,
        key: &str,
        segments: &[&'a Columns],
        roster: &'r Roster<'a>,
        listed: &Listed<'r, 'a>,
        kept: &mut HourSums,
        places: &[HourPlace],
        hour: u32,
    ) -> Result<(), AllocError>
        requires counts { (costs : List Cost) × Counts self.old costs }
        requires hour { HasHour roster.now hour }
        requires listed { AreListed (lent segments.now) roster.now listed.now }
        requires there { All (IsThere (lent segments.now)) places.now }
        requires rows { IfNone (kept_at kept.old hour)
            (rows_at (lent segments.now) places.now ≡ rows_in hour (all_rows (lent segments.now))) }
        requires kept { AreKeptUnder roster.now.commitments
            (all_rows (lent segments.now)) key.now kept.old }
        ensures kept { AreKeptUnder roster.now.commitments
            (all_rows (lent segments.now)) key.now kept.new }
        ensures others { (h : ℕ) → hour < h → kept_at kept.new h ≡ kept_at kept.old h }
        ensures counts { OnOk result ((costs : List Cost)
            → Counts self.old (costs ++ map (row_cost key.now)
            (rows_in hour (all_rows (lent segments.now))))
            → CountsHour self.new costs key.now roster.now.commitments
            (rows_in hour (all_rows (lent segments.now))) hour) }
    {
        if let Some(sums) = kept.of_hour(hour) {
            return self.add_groups(sums);
        }
        let sums = Groups::of_commitments(self.alloc, key, segments, roster, listed, places, hour)?;
        self.add_groups(&sums)?;
        kept.keep(hour, sums);
        Ok(())
    }

    // What commitments bring to an hour whose rows are at these places: their own lines, and what corrects the rows that they took of. A row whose SKU none
    // of them lists isn't lent; what they list of the SKUs of the others was found before, by code.
    pub(crate) fn of_commitments<'r, 'a>(
        alloc: Global,
        key: &str,
        segments: &[&'a Columns],
        roster: &'r Roster<'a>,
        listed: &Listed<'r, 'a>,
        places: &[HourPlace],
        hour: u32,
    ) -> Result<Groups, AllocError>
        requires hour { HasHour roster.now hour }
        requires listed { AreListed (lent segments.now) roster.now listed.now }
        requires there { All (IsThere (lent segments.now)) places.now }
        ensures { IfOk result (AreOwnSums roster.now.commitments
            (rows_at (lent segments.now) places.now) key.now hour) }
    {
        let at = listed.places(alloc, segments, places)?;
        let at = at.as_slice();
        let offers = listed.offers_at(alloc, segments, roster, at)?;
        let rows = rows_lent(alloc, segments, at)?;
        let each = references(alloc, rows.as_slice())?;
        let each = each.as_slice();
        let cover = roster.cover_offered(alloc, each, offers.as_slice(), hour)?;
        let own = own_lines(alloc, roster, each, &cover, hour)?;
        let mut sums = Groups::new(alloc);
        sums.add_lines(key, own.as_slice())?;
        sums.correct_rows(key, rows.as_slice(), cover.row_left.as_slice())?;
        Ok(sums)
    }

    // Counts lines.
    fn add_lines(&mut self, key: &str, lines: &[Line<'_>]) -> Result<(), AllocError>
        requires { (costs : List Cost) × Counts self.old costs }
        ensures { OnOk result ((costs : List Cost) → Counts self.old costs
            → Counts self.new (costs ++ costs_of key.now lines.now)) }
    {
        for line in lines {
            self.add(line.tags().group(key), line.billed(), line.effective())?;
        }
        Ok(())
    }

    // Counts a line, or a correction, in its group. More of them than 2^64, which no memory holds, are answered as out of memory.
    pub(crate) fn add(
        &mut self,
        group: &str,
        billed: Nanos,
        effective: Nanos,
    ) -> Result<(), AllocError>
        requires { (costs : List Cost) × Counts self.old costs }
        ensures { OnOk result ((costs : List Cost) → Counts self.old costs
            → Counts self.new (costs ++ record
            { group = group.now; billed = billed; effective = effective } ∷ [])) }
    {
        let Some(lines) = self.lines.checked_add(1) else {
            return Err(AllocError);
        };
        self.put(group, Sums::of_line(billed, effective))?;
        self.lines = lines;
        Ok(())
    }

    // Adds sums to those of a group. Memory is taken for a new group alone.
    pub(crate) fn put(&mut self, group: &str, added: Sums) -> Result<(), AllocError>
        requires room { IfSome (sums_at self.old group.now) HasRoom }
        requires small { HasRoom added }
        ensures { OnOk result (AddsLine self.old self.new
            (record { group = group.now; billed = added.billed; effective = added.effective })) }
    {
        match self.by_group.get_mut(group) {
            Some(sums) => sums.add(&added),
            None => {
                self.by_group
                    .insert(String::from_str(self.alloc, group)?, added)?;
            }
        }
        Ok(())
    }

    // The same sums, in rising byte order of the groups.
    fn in_order(mut self) -> Result<Groups, AllocError>
        ensures { IfOk result (IsInOrder self) }
    {
        self.by_group.sort_unstable_keys()?;
        Ok(self)
    }

    // The totals of the groups, in rising byte order of the groups.
    pub(crate) fn into_totals(self) -> Result<Vec<Total>, AllocError>
        ensures { IfOk result (λ totals. (costs : List Cost) → AreSums self costs
            → AreTotals costs totals.items) }
    {
        let sorted = self.in_order()?;
        kept_totals(sorted.alloc, sorted.by_group)
    }
}

// The totals of the groups, in the order in which they are kept.
fn kept_totals(alloc: Global, by_group: IndexMap<String, Sums>) -> Result<Vec<Total>, AllocError>
    ensures { IfOk result (λ totals. totals.items ≡ map kept_total by_group.entries) }
{
    by_group
        .into_iter()
        .map(|pair| Total::of_sums(pair.0, pair.1.billed, pair.1.effective))
        .collect(alloc)
}
