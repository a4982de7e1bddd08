//! The hours of a range that commitments have lines in, and of which nothing is kept.
ghost use Rattle.std.specs.Prelude.{◌≡◌, ◌+◌, ◌<◌, ◌^◌, All, IfOk, IfSome, false, length, slice_index_or};
ghost use Rattle.fw_sums.specs.ReportCache.{AreFound, AreKeptUnder, AreOpen, CanFind, IsFound, KeepsMore};
ghost use Rattle.fw_sums.specs.Hours.{HasHours, all_rows, lent};
ghost use Rattle.fw_sums.specs.Listed.{AreListed};

use crate::cache::{HourSum, HourSums};
use crate::groups::Groups;
use crate::hours::{HourPlace, rows_by_hour};
use crate::listed::Listed;
use crate::marks::has_mark;
use crate::touched::touched_hours;
use fw_columns::Columns;
use fw_cover::Roster;
use fw_terms::Commitment;
use fw_workers::in_threads;
use std::alloc::{AllocError, Global};
use std::sync::atomic::{AtomicUsize, Ordering};
use std::thread::Threads;

// So many hours are found at once, before what was found is kept: what they come to is in memory together.
const HOURS_AT_ONCE: usize = 1_024;

// Whether there is a mark at a place, and it is true.
fn is_true_at(marks: &[bool], place: usize) -> bool
    ensures { result ≡ slice_index_or marks.now place false }
{
    match marks.get(place) {
        Some(mark) => *mark,
        None => false,
    }
}

// Some hours in turn: which of them a commitment has a line in, which of these are open, since nothing is kept of them, and where the rows of those are.
pub(crate) struct OpenHours {
    pub(crate) touched: Vec<bool>,
    pub(crate) marks: Vec<bool>,
    pub(crate) by_hour: Vec<Vec<HourPlace>>,
}

impl Drop for OpenHours {
    fn drop(self) {
        let Self {
            touched: _,
            marks: _,
            by_hour: _,
        } = self;
    }
}

impl OpenHours {
    // The open ones of so many hours from this one on.
    pub(crate) fn of_range(
        alloc: Global,
        segments: &[&Columns],
        commitments: &[Commitment],
        kept: &HourSums,
        from: u64,
        hours: usize,
    ) -> Result<OpenHours, AllocError>
        requires { from + hours < 2 ^ 64 }
        ensures { IfOk result (AreOpen (lent segments.now)
            (all_rows (lent segments.now)) commitments.now kept.now from hours) }
    {
        let touched = touched_hours(alloc, commitments, from, hours)?;
        let marks = kept.open_hours(alloc, touched.as_slice(), from)?;
        let by_hour = rows_by_hour(alloc, segments, from, marks.as_slice())?;
        Ok(OpenHours {
            touched,
            marks,
            by_hour,
        })
    }

    // What commitments bring to the hour at a place, where it is open. Where memory is short nothing is found.
    fn find<'r, 'a>(
        &self,
        alloc: Global,
        key: &str,
        segments: &[&'a Columns],
        roster: &'r Roster<'a>,
        listed: &Listed<'r, 'a>,
        from: u64,
        place: usize,
    ) -> Option<HourSum>
        requires can { CanFind (lent segments.now) roster.now listed.now from self.now }
        ensures { IfSome result (IsFound roster.now.commitments
            (all_rows (lent segments.now)) key.now) }
    {
        if place >= self.by_hour.len() {
            return None;
        }
        if is_true_at(&self.touched, place) && is_true_at(&self.marks, place) {
            let hour = (from + place as u64) as u32;
            let places = self.by_hour[place].as_slice();
            if let Ok(sums) = Groups::of_commitments(
                alloc, key, segments, roster, listed, places, hour,
            ) {
                return Some(HourSum { hour, sums });
            }
        }
        None
    }

    // The same of each hour that this worker takes: the next one before the end that no worker took yet, again and again. The workers begin at most `HOURS_AT_ONCE` hours before the
    // end. Commitments aren't spread evenly over a
    // range, so some hours cost more than others; a worker that is done with one takes another, and none waits while there are hours left.
    fn find_each<'r, 'a>(
        &self,
        alloc: Global,
        key: &str,
        segments: &[&'a Columns],
        roster: &'r Roster<'a>,
        listed: &Listed<'r, 'a>,
        from: u64,
        next: &AtomicUsize,
        end: usize,
    ) -> Result<Vec<HourSum>, AllocError>
        requires can { CanFind (lent segments.now) roster.now listed.now from self.now }
        ensures { AreFound roster.now.commitments (all_rows (lent segments.now)) key.now result }
    {
        let mut found = Vec::new(alloc);
        for _taken in 0..HOURS_AT_ONCE {
            let place = next.fetch_add(1, Ordering::SeqCst);
            if place >= end {
                break;
            }
            if let Some(one) = self.find(alloc, key, segments, roster, listed, from, place) {
                found.push(one)?;
            }
        }
        Ok(found)
    }

    // The same of at most `HOURS_AT_ONCE` hours from a place on, found by so many workers, each in a thread of its own.
    fn find_by_workers<'r, 'a>(
        &self,
        rt: &(impl Threads + Sync),
        alloc: Global,
        key: &str,
        segments: &[&'a Columns],
        roster: &'r Roster<'a>,
        listed: &Listed<'r, 'a>,
        from: u64,
        first: usize,
        workers: u32,
    ) -> Result<Vec<Result<Vec<HourSum>, AllocError>>, AllocError>
        requires can { CanFind (lent segments.now) roster.now listed.now from self.now }
        ensures { IfOk result (λ each. All (AreFound roster.now.commitments
            (all_rows (lent segments.now)) key.now) each.items) }
    {
        let end = first.saturating_add(HOURS_AT_ONCE).min(self.by_hour.len());
        let next = AtomicUsize::new(first);
        in_threads(
            rt,
            alloc,
            workers as usize,
            &|_worker: usize| -> Result<Vec<HourSum>, AllocError>
                requires { CanFind (lent segments.now) roster.now listed.now from self.now }
                ensures { AreFound roster.entry.now.commitments
                    (all_rows (lent segments.entry.now)) key.entry.now result }
            { self.find_each(alloc, key, segments, roster, listed, from, &next, end) },
        )
    }

    // Keeps what commitments bring to the open hours, found by so many workers, while there is room. A single worker leaves that to whoever adds
    // the hours up.
    pub(crate) fn keep_all<'r, 'a>(
        &self,
        rt: &(impl Threads + Sync),
        alloc: Global,
        key: &str,
        segments: &[&'a Columns],
        roster: &'r Roster<'a>,
        listed: &Listed<'r, 'a>,
        kept: &mut HourSums,
        from: u64,
        workers: u32,
    )
        requires fits { from + length self.now.by_hour.items < 2 ^ 64 }
        requires roster { HasHours roster.now from (length self.now.by_hour.items) }
        requires listed { AreListed (lent segments.now) roster.now listed.now }
        requires hours { AreOpen (lent segments.now)
            (all_rows (lent segments.now)) roster.now.commitments kept.old from
            (length self.now.by_hour.items) self.now }
        requires kept { AreKeptUnder roster.now.commitments
            (all_rows (lent segments.now)) key.now kept.old }
        ensures kept { AreKeptUnder roster.now.commitments
            (all_rows (lent segments.now)) key.now kept.new }
        ensures more { KeepsMore kept.old kept.new }
    {
        if workers == 1 || !has_mark(self.marks.as_slice()) {
            return;
        }
        let mut first = 0_usize;
        for _batch in 0..self.by_hour.len().div_ceil(HOURS_AT_ONCE) {
            if !kept.has_room() {
                return;
            }
            match self.find_by_workers(
                rt, alloc, key, segments, roster, listed, from, first, workers,
            ) {
                Ok(each) => kept.keep_each(each),
                Err(AllocError) => return,
            }
            first = first.saturating_add(HOURS_AT_ONCE);
        }
    }
}
