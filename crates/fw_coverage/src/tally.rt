//! What is kept of each commitment while hours are read.
ghost use Rattle.std.specs.Prelude.{◌≡◌, ◌+◌, ◌<◌, length, map, slice_index, All, IfOk};
ghost use Rattle.std.specs.List.{enumerate_from};
ghost use Rattle.fw_charge.specs.Charge.{hour_of};
ghost use Rattle.fw_cover.specs.RosterView.{HasHour};
ghost use Rattle.fw_coverage.specs.Coverage.{in_term};
ghost use Rattle.fw_coverage.specs.Tallies.{AreAfter, ArePlaced, after_hour, no_tally};

use crate::line_sums::LineSums;
use fw_amortise::{Line, lines_by_roster};
use fw_columns::LentRow;
use fw_cover::{Roster, is_in_term, references};
use fw_terms::Commitment;
use std::alloc::{AllocError, Global};
use std::marker::Model;

// What is kept of a commitment: its place in the list, what its hours so far had, and what their lines carry of it.
#[derive(Drop)]
pub(crate) struct Tally<'a> {
    pub(crate) place: usize,
    pub(crate) commitment: &'a Commitment,
    pub(crate) capacity: u128,
    pub(crate) unused: u128,
    pub(crate) sums: LineSums,
}

impl<'a> Model for Tally<'a> {
    ghost use Rattle.fw_coverage.specs.Tallies.{TallyValue};

    ghost Value = { TallyValue };

    ghost view = { λ t. record { place = t.place; commitment = t.commitment.now; capacity = t.capacity; unused = t.unused; sums = t.sums } };
}

impl<'a> Tally<'a> {
    // Of the commitment at a place, before any hour.
    #[tactic(auto, unfolding(crate::specs::Tallies::no_tally))]
    fn new(place: usize, commitment: &'a Commitment) -> Tally<'a>
        ensures { result ≡ no_tally (place, commitment.now) }
    {
        Tally {
            place,
            commitment,
            capacity: 0,
            unused: 0,
            sums: LineSums::none(),
        }
    }

    // After one more hour, which has these lines, and in which nothing used so much of each commitment's capacity.
    fn after_hour(
        &self,
        unused: &[u64],
        lines: &[Line<'_>],
        hour: u32,
    ) -> Result<Tally<'a>, AllocError>
        requires { self.now.place < length unused.now }
        ensures { IfOk result (λ tally. tally
            ≡ after_hour hour (slice_index unused.now) lines.now self.now) }
    {
        let commitment = self.commitment;
        let capacity = in_term(commitment, hour, capacity_of(commitment));
        let unused = in_term(commitment, hour, unused[self.place]);
        let sums = LineSums::of_lines(commitment.id(), lines)?;
        Ok(Tally {
            place: self.place,
            commitment,
            capacity: total(self.capacity, capacity)?,
            unused: total(self.unused, unused)?,
            sums: self.sums.with(sums)?,
        })
    }
}

// The capacity of a commitment in each hour of its term, in nanos.
fn capacity_of(commitment: &Commitment) -> u64
    ensures { result ≡ commitment.now.capacity }
{
    commitment.capacity().count() as u64
}

// An amount of an hour of a commitment's term, or 0 in another hour.
#[tactic(auto, unfolding(crate::specs::Coverage::in_term))]
fn in_term(commitment: &Commitment, hour: u32, amount: u64) -> u64
    ensures { result ≡ in_term commitment.now hour amount }
{
    if is_in_term(commitment, hour) {
        amount
    } else {
        0
    }
}

// The sum of two quantities. One past 2^128 takes more than 2^64 hours, and is answered as out of memory.
fn total(a: u128, b: u64) -> Result<u128, AllocError>
    ensures { IfOk result (λ sum. sum ≡ a + b) }
{
    match a.checked_add(u128::from(b)) {
        Some(sum) => Ok(sum),
        None => Err(AllocError),
    }
}

// The tallies of commitments before any hour, in the order of the list.
pub(crate) fn no_tallies<'a>(
    alloc: Global,
    commitments: &'a [Commitment],
) -> Result<Vec<Tally<'a>>, AllocError>
    ensures { IfOk result (λ tallies. tallies.items
        ≡ map no_tally (enumerate_from 0 commitments.now)) }
{
    let mut tallies = Vec::with_capacity(alloc, commitments.len())?;
    for (place, commitment) in commitments.iter().enumerate() {
        tallies.push(Tally::new(place, commitment))?;
    }
    Ok(tallies)
}

// The tallies after one more hour, which has these lines, and in which nothing used so much of each commitment's capacity.
fn with_lines<'a>(
    alloc: Global,
    tallies: &[Tally<'a>],
    unused: &[u64],
    lines: &[Line<'_>],
    hour: u32,
) -> Result<Vec<Tally<'a>>, AllocError>
    requires { ArePlaced (length unused.now) tallies.now }
    ensures { IfOk result (λ after. after.items
        ≡ map (after_hour hour (slice_index unused.now) lines.now) tallies.now) }
{
    let mut after = Vec::with_capacity(alloc, tallies.len())?;
    for tally in tallies {
        after.push(tally.after_hour(unused, lines, hour)?)?;
    }
    Ok(after)
}

// The tallies after one more of a roster's hours, whose rows are these.
pub(crate) fn with_hour<'a, 'r>(
    alloc: Global,
    tallies: &[Tally<'a>],
    roster: &Roster<'r>,
    rows: &[LentRow<'r>],
    hour: u32,
) -> Result<Vec<Tally<'a>>, AllocError>
    requires hour { HasHour roster.now hour }
    requires rows { All (λ r. hour_of r.start ≡ hour) rows.now }
    requires places { ArePlaced (length roster.now.commitments) tallies.now }
    ensures { IfOk result (λ after. AreAfter roster.now.commitments rows.now hour tallies.now
        after.items) }
{
    let rows = references(alloc, rows)?;
    let cover = roster.cover(alloc, rows.as_slice(), hour)?;
    let lines = lines_by_roster(alloc, roster, rows.as_slice(), hour)?;
    with_lines(
        alloc,
        tallies,
        cover.unused.as_slice(),
        lines.as_slice(),
        hour,
    )
}
