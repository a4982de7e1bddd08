//! Lines and rows, counted in the groups that a selector has them in.
ghost use Rattle.std.specs.Prelude.{◌≡◌, ◌++◌, ◌∷◌, [], All, IfOk, List, OnOk, length, map};
ghost use Rattle.fw_select.specs.Groups.{AreTotals, GroupCost};
ghost use Rattle.fw_select.specs.Rows.{IsCount, plain_line};
ghost use Rattle.fw_select.specs.Selectors.{costs_of};
ghost use Rattle.fw_select.specs.Table.{AreSums, KeepsGroups};
ghost use Rattle.fw_sums.specs.Hours.{IsThere, lent, rows_at};

use crate::group::Group;
use crate::known::Known;
use crate::rows::{add_each, add_lines, add_rows};
use crate::selector::{Room, Selector};
use crate::table::Table;
use fw_amortise::Line;
use fw_columns::Columns;
use fw_sums::HourPlace;
use std::alloc::{AllocError, Global};

// To tell the rows of a segment apart costs as much as to look at so small a part of them one by one.
const PART_THAT_PAYS: usize = 8;

// Sums by group as they grow, and what is known of the rows of each segment: nothing before one of them is counted, and never where it doesn't pay.
pub(crate) struct Count {
    pub(crate) table: Table,
    pub(crate) room: Room,
    pub(crate) known: Vec<Option<Known>>,
    pub(crate) pays: bool,
}

impl Drop for Count {
    fn drop(self) {
        let Self {
            table: _,
            room: _,
            known: _,
            pays: _,
        } = self;
    }
}

impl Count {
    // Of no lines, where those of the hours from `from` up to, and not including, `to` are to be counted.
    pub(crate) fn new(
        alloc: Global,
        selector: &Selector<'_, '_, '_>,
        segments: &[&Columns],
        from: u64,
        to: u64,
    ) -> Result<Count, AllocError>
        ensures count { IfOk result (IsCount selector.now (lent segments.now)) }
        ensures sums { IfOk result (λ count. AreSums count.table []) }
    {
        let mut known = Vec::with_capacity(alloc, segments.len())?;
        for _segment in segments {
            known.push(None)?;
        }
        Ok(Count {
            table: Table::new(alloc),
            room: Room::new(alloc, selector.keys.len())?,
            known,
            pays: pays(segments, from, to),
        })
    }

    // Counts lines, those that the selector takes.
    pub(crate) fn add_lines(
        &mut self,
        selector: &Selector<'_, '_, '_>,
        lines: &[Line<'_>],
    ) -> Result<(), AllocError>
        requires { length self.old.room.group.items ≡ length selector.now.keys.now }
        ensures sums { OnOk result ((before : List GroupCost) → AreSums self.old.table before
            → AreSums self.new.table (before ++ costs_of selector.now lines.now)) }
        ensures kept { OnOk result (KeepsGroups self.old.table self.new.table) }
        ensures known { self.new.known ≡ self.old.known }
        ensures room { length self.new.room.group.items ≡ length selector.now.keys.now }
    {
        add_lines(&mut self.table, &mut self.room, selector, lines)?;
        Ok(())
    }

    // Counts the rows at places as lines, of each of which commitments took nothing.
    pub(crate) fn add_places(
        &mut self,
        alloc: Global,
        selector: &Selector<'_, '_, '_>,
        segments: &[&Columns],
        places: &[HourPlace],
    ) -> Result<(), AllocError>
        requires there { All (IsThere (lent segments.now)) places.now }
        requires count { IsCount selector.now (lent segments.now) self.old }
        ensures sums { OnOk result ((before : List GroupCost) → AreSums self.old.table before
            → AreSums self.new.table (before ++ costs_of selector.now (map plain_line (rows_at
            (lent segments.now) places.now)))) }
        ensures count { OnOk result (IsCount selector.now (lent segments.now) self.new) }
    {
        for at in places {
            self.add_place(alloc, selector, segments, *at)?;
        }
        Ok(())
    }

    // Counts the rows at a place.
    fn add_place(
        &mut self,
        alloc: Global,
        selector: &Selector<'_, '_, '_>,
        segments: &[&Columns],
        at: HourPlace,
    ) -> Result<(), AllocError>
        requires there { IsThere (lent segments.now) at }
        requires count { IsCount selector.now (lent segments.now) self.old }
        ensures sums { OnOk result ((before : List GroupCost) → AreSums self.old.table before
            → AreSums self.new.table (before ++ costs_of selector.now (map plain_line (rows_at
            (lent segments.now) (at ∷ []))))) }
        ensures count { OnOk result (IsCount selector.now (lent segments.now) self.new) }
    {
        let segment = segments[at.segment as usize];
        let places = segment.places_in(at.number as usize);
        if !self.pays {
            add_each(&mut self.table, &mut self.room, selector, segment, places)?;
            return Ok(());
        }
        let known = &mut self.known[at.segment as usize];
        add_rows(
            alloc,
            &mut self.table,
            &mut self.room,
            known,
            selector,
            segment,
            places,
        )?;
        Ok(())
    }

    // The totals of what was counted, in rising order of the groups.
    pub(crate) fn into_groups(self) -> Result<Vec<Group>, AllocError>
        ensures { IfOk result (λ groups. (costs : List GroupCost) → AreSums self.table costs
            → AreTotals costs groups.items) }
    {
        let Count {
            table,
            room: _,
            known: _,
            pays: _,
        } = self;
        table.into_groups()
    }
}

// Whether it pays to tell the rows of segments apart: whether those of the hours from `from` up to, and not including, `to` are a good part of them.
fn pays(segments: &[&Columns], from: u64, to: u64) -> bool {
    let mut all = 0_usize;
    let mut within = 0_usize;
    for segment in segments {
        all = all.saturating_add(segment.len());
        within = within.saturating_add(rows_between(segment, from, to));
    }
    within >= all / PART_THAT_PAYS
}

// How many rows of a segment are of the hours from `from` up to, and not including, `to`.
fn rows_between(segment: &Columns, from: u64, to: u64) -> usize {
    let hours = segment.hours();
    let mut count = 0_usize;
    for number in 0..hours.len() {
        let hour = u64::from(hours[number]);
        if from <= hour && hour < to {
            count = count.saturating_add(segment.places_in(number).len());
        }
    }
    count
}
