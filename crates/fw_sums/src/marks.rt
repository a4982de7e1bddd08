//! Marked hours: a mark for each of some hours in turn, and the rows of those that are marked.
ghost use Rattle.std.specs.Prelude.{◌≡◌, ◌+◌, ◌<◌, ◌^◌, ℕ, length, map, nat_abs, pos, replicate, true, All, IfOk, IfSome};
ghost use Rattle.std.specs.Bool.{OnTrue};
ghost use Rattle.std.specs.List.{list_all, list_any};
ghost use Rattle.fw_charge.specs.Charge.{hour_of};
ghost use Rattle.fw_lanes.specs.Masked.{is_between};
ghost use Rattle.fw_sums.specs.Hours.{IsMarkedPlace, is_marked};
ghost use Rattle.fw_sums.specs.Wholes.{IsBetween};

use crate::hours::second_of;
use crate::wholes::hours_between;
use fw_charge::{SECONDS_PER_HOUR, hour_of};
use fw_columns::Columns;
use fw_lanes::{Mask, mask_range};
use std::alloc::{AllocError, Global};

/// The marks of so many hours, all of them marked. The one error is that memory ran out.
pub fn every_hour(alloc: Global, hours: usize) -> Result<Vec<bool>, AllocError>
    ensures { IfOk result (λ marks. marks.items ≡ replicate hours true) }
{
    Ok(vec![in alloc; true; hours]?)
}

// The place of an hour among the hours of the marks, of which this one is the first, where it is marked.
pub(crate) fn place_of_hour(hour: u64, from: u64, marks: &[bool]) -> Option<usize>
    ensures { IsMarkedPlace hour from marks.now result }
{
    if hour < from {
        return None;
    }
    let place = (hour - from) as usize;
    if place >= marks.len() {
        return None;
    }
    if marks[place] { Some(place) } else { None }
}

// Whether a second is of a marked hour.
fn is_marked(second: u64, from: u64, marks: &[bool]) -> bool
    ensures { result ≡ is_marked marks.now from (hour_of second) }
{
    place_of_hour(hour_of(second), from, marks).is_some()
}

// For each row of a segment whether it is of a marked hour.
pub(crate) fn mask_of(
    alloc: Global,
    segment: &Columns,
    from: u64,
    marks: &[bool],
) -> Result<Mask, AllocError>
    ensures { IfOk result (λ mask. mask ≡ map
        (λ row. is_marked marks.now from (hour_of row.start)) segment.now) }
{
    let mut mask = Mask::new(alloc, segment.len())?;
    match every_second(from, marks) {
        Some((first, end)) => mask_between(segment, from, marks, (first, end), &mut mask),
        None => mask_by_hour(segment.starts(), from, marks, &mut mask),
    }
    Ok(mask)
}

// Sets each place to whether its row is of a marked hour, where each hour is marked, by the first second of these and the one behind their last. Where all
// rows of the segment are of these hours, no row is looked at.
fn mask_between(segment: &Columns, from: u64, marks: &[bool], seconds: (i64, i64), mask: &mut Mask)
    requires same { length mask.old ≡ length segment.now }
    requires every { list_all (λ mark. mark) marks.now ≡ true }
    requires between { (s : ℕ) → is_between seconds.0 seconds.1 (pos s)
        ≡ is_marked marks.now from (hour_of s) }
    ensures { mask.new ≡ map (λ row. is_marked marks.now from (hour_of row.start)) segment.now }
{
    if are_within(segment, from, marks.len() as u64) {
        mask.fill(true);
        return;
    }
    mask_range(segment.starts(), seconds.0, seconds.1, mask);
}

// Whether the rows of a segment are all of so many hours from this one on.
fn are_within(segment: &Columns, from: u64, hours: u64) -> bool
    ensures { OnTrue result (All (IsBetween from (from + hours)) segment.now) }
{
    let (least, behind) = hours_between(segment);
    from <= least && behind.saturating_sub(from) <= hours
}

// The first second of the hours of the marks and the one behind their last, where each of them is marked; `None` where one isn't, or where they are past
// what a second of a row can be.
fn every_second(from: u64, marks: &[bool]) -> Option<(i64, i64)>
    ensures every { IfSome result (λ r. list_all (λ mark. mark) marks.now ≡ true) }
    ensures between { IfSome result (λ r. (s : ℕ)
        → is_between r.0 r.1 (pos s) ≡ is_marked marks.now from (hour_of s)) }
{
    if !are_all(marks) {
        return None;
    }
    let first = from.checked_mul(SECONDS_PER_HOUR)?;
    let len = (marks.len() as u64).checked_mul(SECONDS_PER_HOUR)?;
    let end = first.checked_add(len)?;
    if end > 0x7fff_ffff_ffff_ffff {
        return None;
    }
    Some((first as i64, end as i64))
}

// Whether each of the marks is true.
fn are_all(marks: &[bool]) -> bool
    ensures { result ≡ list_all (λ mark. mark) marks.now }
{
    marks.iter().all(|mark| *mark)
}

// Sets each place to whether its second is of a marked hour, which is looked up for each.
fn mask_by_hour(seconds: &[i64], from: u64, marks: &[bool], mask: &mut Mask)
    requires { length mask.old ≡ length seconds.now }
    ensures { mask.new ≡ map (λ s. is_marked marks.now from (hour_of (nat_abs s))) seconds.now }
{
    for place in 0..seconds.len() {
        mask.set(place, is_marked(second_of(seconds, place), from, marks));
    }
}

// Whether some mark of a mask is true.
pub(crate) fn has_mark(mask: &[bool]) -> bool
    ensures { result ≡ list_any (λ mark. mark) mask.now }
{
    for mark in mask {
        if *mark {
            return true;
        }
    }
    false
}
