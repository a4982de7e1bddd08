//! The hours in which commitments have lines.
ghost use Rattle.std.specs.Prelude.{◌==◌, ◌&&◌, ◌+◌, ◌<◌, ◌≤◌, ◌^◌, nat_le, nat_lt, IfOk};
ghost use Rattle.fw_sums.specs.Hours.{AddsMarks, AreTouched, has_line};

use fw_charge::hour_of;
use fw_terms::Commitment;
use std::alloc::{AllocError, Global};

// Marks an hour, where it is one of those of the marks; the first mark is of the hour `from`.
fn mark_hour(hour: u64, from: u64, marks: &mut [bool])
    requires early { hour < 2 ^ 32 }
    ensures { AddsMarks (λ h. hour == h) from marks.old marks.new }
{
    if hour < from {
        return;
    }
    let place = (hour - from) as usize;
    if place < marks.len() {
        marks[place] = true;
    }
}

// Marks the hours from `first` up to, and not including, `end` that are among those of the marks; the first mark is of the hour `from`.
fn mark_hours(first: u64, end: u64, from: u64, marks: &mut [bool])
    requires early { end ≤ 2 ^ 32 }
    ensures { AddsMarks (λ h. nat_le first h && nat_lt h end) from marks.old marks.new }
{
    let behind = (end.saturating_sub(from) as usize).min(marks.len());
    let begin = (first.saturating_sub(from) as usize).min(behind);
    for place in begin..behind {
        marks[place] = true;
    }
}

// Marks the hours in which a commitment has a line; the first mark is of the hour `from`.
#[tactic(auto, unfolding(fw_charge::specs::Charge::hour_of))]
fn mark_lines(commitment: &Commitment, from: u64, marks: &mut [bool])
    ensures { AddsMarks (λ h. has_line h commitment.now) from marks.old marks.new }
{
    let start = u64::from(commitment.start());
    let end = start + u64::from(commitment.hours());
    mark_hours(start, end, from, marks);
    for purchase in commitment.purchases() {
        mark_hour(hour_of(purchase.at()), from, marks);
    }
}

/// The marks of the hours in which some commitment has a line, among so many hours from `from` on, counted from 1970. It costs a step for each hour, and one
/// for each hour that a commitment runs in and for each purchase. The one error is that memory ran out.
pub fn touched_hours(
    alloc: Global,
    commitments: &[Commitment],
    from: u64,
    hours: usize,
) -> Result<Vec<bool>, AllocError>
    requires { from + hours < 2 ^ 64 }
    ensures { IfOk result (λ marks. AreTouched commitments.now from hours marks.items) }
{
    let mut marks = vec![in alloc; false; hours]?;
    for commitment in commitments {
        mark_lines(commitment, from, &mut marks);
    }
    Ok(marks)
}
