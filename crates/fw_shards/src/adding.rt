//! Direct reports, added up.
ghost use Rattle.std.specs.Prelude.{◌≡◌, ◌≤◌, ◌+◌, ◌++◌, ◌∷◌, ◌↔◌, [], List, MatchOption, IfErr, IfOk, OnOk, min, sum_by, true, unsigned_abs};
ghost use Rattle.std.specs.Cmp.Lexicographic.{slice_cmp};
ghost use Rattle.std.specs.Ordering.{nat_cmp};
ghost use Rattle.fw_query.specs.Limits.{most_total};
ghost use Rattle.fw_shards.specs.Added.{CanBeAdded, PassesAtEntry, all_of, billed_size, capped, direct_size};
ghost use Rattle.fw_shards.specs.Places.{IsPlaceOf};
ghost use Rattle.fw_shards.specs.Refusals.{AreNotAdded};
ghost use Rattle.fw_sums.specs.Costs.{Cost, groups_of};
ghost use Rattle.fw_sums.specs.Totals.{AreTotals};
ghost use Rattle.fw_terms.specs.Texts.{IsRising};

use crate::direct::{Direct, DirectReport};
use crate::fault::AddFault;
use crate::range::can_be_added;
use std::alloc::{AllocError, Global};
use std::cmp::Ordering;

// The most that the absolute direct costs of a report may sum to, in nanos.
const MOST_TOTAL: u128 = 10_000_000_000_000_000_000;

/// What direct reports add up to: for each group that one of them has the exact sums of its costs, in rising byte order of the groups, each
/// group once. Where they are the reports of the shards of one warehouse, on the hours in which each was dealt something, this is the direct
/// report of the one warehouse.
///
/// As in a report, the absolute direct costs may sum to at most 10^19 nanos: else the error names the first group, in byte order, at which
/// they pass it.
pub fn added(alloc: Global, reports: &[DirectReport]) -> Result<DirectReport, AddFault>
    ensures sums { IfOk result (λ sum. AreTotals (all_of reports.now) sum) }
    ensures rising { IfOk result (λ sum. IsRising (groups_of sum)) }
    ensures within { IfOk result (λ sum. direct_size sum ≤ most_total) }
    ensures fault { IfErr result (AreNotAdded (all_of reports.now)) }
{
    if !can_be_added(reports) {
        return Err(AddFault::OutOfRange);
    }
    let mut totals = totals_of(alloc, reports)?;
    if let Some(place) = first_past(totals.as_slice()) {
        return Err(AddFault::TotalTooLarge {
            group: totals.swap_remove(place).into_group(),
        });
    }
    Ok(DirectReport::of_entries(totals))
}

// The totals of all entries.
fn totals_of(alloc: Global, reports: &[DirectReport]) -> Result<Vec<Direct>, AllocError>
    requires { CanBeAdded (all_of reports.now) }
    ensures { IfOk result (λ totals. AreTotals (all_of reports.now) totals.items) }
{
    let mut totals = Vec::new(alloc);
    for report in reports {
        add_report(alloc, &mut totals, report.entries())?;
    }
    Ok(totals)
}

// Adds the entries of a report to totals.
fn add_report(alloc: Global, totals: &mut Vec<Direct>, entries: &[Direct]) -> Result<(), AllocError>
    requires { (costs : List Cost) × AreTotals costs totals.old.items × CanBeAdded (costs ++
        entries.now) }
    ensures { OnOk result ((costs : List Cost) → AreTotals costs totals.old.items → AreTotals (costs
        ++ entries.now) totals.new.items) }
{
    for entry in entries {
        add_entry(alloc, totals, entry)?;
    }
    Ok(())
}

// Adds an entry to the total of its group.
fn add_entry(alloc: Global, totals: &mut Vec<Direct>, entry: &Direct) -> Result<(), AllocError>
    requires { (costs : List Cost) × AreTotals costs totals.old.items × CanBeAdded (costs ++
        entry.now ∷ []) }
    ensures { OnOk result ((costs : List Cost) → AreTotals costs totals.old.items → AreTotals (costs
        ++ entry.now ∷ []) totals.new.items) }
{
    match place_of(totals.as_slice(), entry.group()) {
        Ok(place) => totals[place].add(entry),
        Err(place) => totals.insert(place, entry.copy(alloc)?)?,
    }
    Ok(())
}

// Where the total of a group stands, or where it would.
fn place_of(totals: &[Direct], group: &str) -> Result<usize, usize>
    requires { IsRising (groups_of totals.now) }
    ensures { IsPlaceOf (groups_of totals.now) group.now result }
{
    let order = |total: &Direct| -> Ordering
        ensures { result ≡ slice_cmp nat_cmp total.now.group group.entry.now }
    { total.group().cmp(group) };
    match totals.binary_search_by(order) {
        Ok(place) => Ok(place),
        Err(place) => Err(place),
    }
}

// The place of the first total at which the running sum of the absolute direct costs passes the most, if there is one.
fn first_past(totals: &[Direct]) -> Option<usize>
    ensures { MatchOption result (direct_size totals.now ≤ most_total) (PassesAtEntry totals.now) }
{
    let mut size = 0u128;
    for (place, total) in totals.iter().enumerate() {
        size += total.direct().unsigned_abs();
        if size > MOST_TOTAL {
            return Some(place);
        }
    }
    None
}
