//! The sums of whole segments, kept from one report to the next.
ghost use Rattle.std.specs.Prelude.{◌≡◌, ◌⊎◌, ◌<◌, ◌≤◌, ◌&&◌, ℕ, List, [], Some, drop, length, nat_le, option_copied, take, All, IfOk, IfSome, OnOk};
ghost use Rattle.std.specs.Bool.{OnTrue};
ghost use Rattle.fw_charge.specs.Charge.{Charge};
ghost use Rattle.fw_sums.specs.Hours.{all_rows, lent};
ghost use Rattle.fw_sums.specs.Parts.{PartCounts, range_costs};
ghost use Rattle.fw_sums.specs.Sums.{Counts};
ghost use Rattle.fw_sums.specs.Wholes.{AreDivided, AreWholes, IsBetween, IsWhole, whole_at};

use crate::cache::MOST_GROUPS;
use crate::groups::Groups;
use crate::marks::every_hour;
use crate::query::MOST_HOURS;
use fw_columns::Columns;
use indexmap::IndexMap;
use std::alloc::{AllocError, Global};
use std::thread::Threads;

// The sums of all rows of a segment.
#[derive(Drop)]
pub(crate) struct Whole {
    // How many rows there are.
    len: u64,
    // They are of hours from this one on,
    from: u64,
    // and before this one.
    to: u64,
    sums: Groups,
}

// The sums of whole segments under one key, each by the place of its first row among all rows.
#[derive(Drop)]
pub(crate) struct Wholes {
    by_first: IndexMap<u64, Whole>,
    // How many groups there are in all, those of each segment counted.
    groups: usize,
}

// The hour that the rows of a segment are from on, and the one that they are before.
pub(crate) fn hours_between(segment: &Columns) -> (u64, u64)
    ensures { All (IsBetween result.0 result.1) segment.now }
{
    let hours = segment.hours();
    let last = hours.len() - 1;
    (u64::from(hours[0]), u64::from(hours[last]) + 1)
}

// Whether no row of a segment is of an hour from this one on and before that one.
fn is_outside(segment: &Columns, from: u64, to: u64) -> bool
    ensures { OnTrue result ((key : List ℕ) → range_costs key from to segment.now ≡ []) }
{
    let (first, behind) = hours_between(segment);
    behind <= from || to <= first
}

impl Whole {
    // The sums of a segment's rows. There are none where its rows are of more hours than a report can have, or of none.
    fn of_segment(alloc: Global, key: &str, segment: &Columns) -> Result<Option<Whole>, AllocError>
        ensures sums { IfOk result (λ found. IfSome found (IsWhole key.now segment.now)) }
        ensures len { IfOk result (λ found. IfSome found
            (λ whole. whole.len ≡ length segment.now)) }
    {
        let (from, to) = hours_between(segment);
        let hours = to.saturating_sub(from);
        if hours > MOST_HOURS {
            return Ok(None);
        }
        let marks = every_hour(alloc, hours as usize)?;
        let mut sums = Groups::new(alloc);
        sums.add_segment(key, segment, from, marks.as_slice())?;
        Ok(Some(Whole {
            len: segment.len() as u64,
            from,
            to,
            sums,
        }))
    }

    // Whether the rows are of hours from this one on and before that one, all of them.
    fn is_within(&self, from: u64, to: u64) -> bool
        ensures { result ≡ (nat_le from self.now.from && nat_le self.now.to to) }
    {
        from <= self.from && self.to <= to
    }
}

impl Wholes {
    // Nothing is kept.
    pub(crate) fn new(alloc: Global) -> Wholes
        ensures { result.by_first.entries ≡ [] }
    {
        Wholes {
            by_first: IndexMap::new(alloc),
            groups: 0,
        }
    }

    // What is kept of the segment whose first row is at this place.
    fn of_first(&self, first: u64) -> Option<&Whole>
        ensures { option_copied result ≡ whole_at self.now first }
    {
        self.by_first.get(&first)
    }

    // Keeps the sums of a segment whose first row is at this place. Where memory is short nothing is kept, and the next report finds it anew.
    fn keep(&mut self, first: u64, whole: Whole)
        ensures { (f : ℕ) → (whole_at self.new f ≡ whole_at self.old f)
            ⊎ ((f ≡ first) × (whole_at self.new f ≡ Some whole)) }
    {
        let groups = self.groups.saturating_add(whole.sums.by_group.len());
        if self.by_first.insert(first, whole).is_ok() {
            self.groups = groups;
        }
    }

    // Keeps the sums of the segment whose first row is at this place, where nothing is kept of it and there is room. Where memory is short they aren't kept.
    fn keep_segment(&mut self, alloc: Global, key: &str, segment: &Columns, first: u64)
        ensures { (rows : List Charge) → take (length segment.now) (drop first rows) ≡ segment.now
            → AreWholes key.now rows self.old → AreWholes key.now rows self.new }
    {
        if self.groups >= MOST_GROUPS || self.of_first(first).is_some() {
            return;
        }
        if let Ok(Some(whole)) = Whole::of_segment(alloc, key, segment) {
            self.keep(first, whole);
        }
    }

    // Keeps the sums of the segments of which nothing is kept, while there is room.
    pub(crate) fn fill(&mut self, alloc: Global, key: &str, segments: &[&Columns])
        ensures { AreWholes key.now (all_rows (lent segments.now)) self.old
            → AreWholes key.now (all_rows (lent segments.now)) self.new }
    {
        let mut first = 0_u64;
        for segment in segments {
            self.keep_segment(alloc, key, segment, first);
            match first.checked_add(segment.len() as u64) {
                Some(behind) => first = behind,
                None => return,
            }
        }
    }

    // The sums that are kept of the segment with so many rows whose first row is at this place.
    fn of_rows(&self, first: u64, len: u64) -> Option<&Whole>
        ensures { IfSome (option_copied result)
            (λ whole. (whole.len ≡ len) × (whole_at self.now first ≡ Some whole)) }
    {
        match self.of_first(first) {
            Some(whole) if whole.len == len => Some(whole),
            _ => None,
        }
    }
}

impl Groups {
    // Counts the rows of those segments whose sums are kept and whose rows are all of hours from this one on and before that one. What comes back are
    // the segments whose rows are still to be counted: others that have a row of these hours. More rows than 2^64, which no memory holds, are answered as out of memory.
    fn add_wholes<'a>(
        &mut self,
        wholes: &Wholes,
        segments: &[&'a Columns],
        from: u64,
        to: u64,
    ) -> Result<Vec<&'a Columns>, AllocError>
        requires none { Counts self.old [] }
        requires wholes { (key : List ℕ) × AreWholes key (all_rows (lent segments.now)) wholes.now }
        ensures { IfOk result (λ others. (key : List ℕ)
            → AreWholes key (all_rows (lent segments.now)) wholes.now
            → AreDivided key from to (all_rows (lent segments.now)) self.new
            (all_rows (lent others.items))) }
    {
        let mut others = Vec::new(self.alloc);
        let mut first = 0_u64;
        for segment in segments {
            let len = segment.len() as u64;
            let Some(behind) = first.checked_add(len) else {
                return Err(AllocError);
            };
            match wholes.of_rows(first, len) {
                Some(whole) if whole.is_within(from, to) => self.add_groups(&whole.sums)?,
                _ if is_outside(segment, from, to) => {}
                _ => others.push(*segment)?,
            }
            first = behind;
        }
        Ok(others)
    }

    // The rows of segments that are of hours from this one on and before that one, each of which has a mark: kept sums are added, and each of so many
    // workers counts a piece of the other segments.
    pub(crate) fn of_wholes(
        rt: &(impl Threads + Sync),
        alloc: Global,
        key: &str,
        segments: &[&Columns],
        wholes: &Wholes,
        from: u64,
        to: u64,
        workers: u32,
    ) -> Result<Groups, AllocError>
        requires workers { 0 < workers }
        requires order { from ≤ to }
        requires wholes { AreWholes key.now (all_rows (lent segments.now)) wholes.now }
        ensures { PartCounts (range_costs key.now from to (all_rows (lent segments.now))) result }
    {
        let mut groups = Groups::new(alloc);
        let others = groups.add_wholes(wholes, segments, from, to)?;
        let marks = every_hour(alloc, (to - from) as usize)?;
        let rest = Groups::of_segments(
            rt,
            alloc,
            key,
            others.as_slice(),
            from,
            marks.as_slice(),
            workers,
        )?;
        groups.add_groups(&rest)?;
        Ok(groups)
    }
}
