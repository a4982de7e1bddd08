//! Direct reports of a snapshot, and reports of what direct reports add up to.
ghost use Rattle.std.specs.Prelude.{◌≡◌, ◌≤◌, IfErr, IfOk, map};
ghost use Rattle.std.specs.Cmp.Lexicographic.{slice_cmp};
ghost use Rattle.std.specs.Option.{option_copied};
ghost use Rattle.std.specs.Ordering.{nat_cmp};
ghost use Rattle.fw_query.specs.Limits.{most_total};
ghost use Rattle.fw_query.specs.Refusals.{AreRefused};
ghost use Rattle.fw_query.specs.Reports.{entries_of};
ghost use Rattle.fw_shards.specs.Added.{IsDirectOn, direct_size};
ghost use Rattle.fw_shards.specs.Charged.{IsChargedReport};
ghost use Rattle.fw_shards.specs.Entries.{cost_at, cost_of_total, entry_of};
ghost use Rattle.fw_sums.specs.Costs.{groups_of};
ghost use Rattle.fw_sums.specs.Limits.{IsRange};
ghost use Rattle.fw_terms.specs.Texts.{IsRising};

use crate::charging::charged;
use crate::direct::{Direct, DirectReport};
use fw_allocate::Cost;
use fw_query::{Entry, Query, QueryFault, Report, Shown};
use fw_snapshot::Snapshot;
use fw_sums::{Total, totals_alone};
use fw_terms::Policy;
use std::alloc::{AllocError, Global};
use std::cmp::Ordering;

/// The direct report over the lines of the hours of the query's range: those that the commitments and the rows of the snapshot have there. For
/// each group that one of the lines is in it has the sums of their costs, whichever policy was set. It is made by one worker, in the thread
/// that asks.
///
/// # Errors
/// `Range` where the range has no hour or more than 26,304; `NoMemory` where memory ran out.
pub fn direct_alone(
    alloc: Global,
    snapshot: &Snapshot,
    query: &Query<'_>,
) -> Result<DirectReport, QueryFault>
    ensures report { IfOk result (IsDirectOn snapshot.now.entries query.now.key.now
        query.now.from_hour query.now.to_hour) }
    ensures range { IfOk result (λ _. IsRange query.now.from_hour query.now.to_hour) }
    ensures fault { IfErr result (AreRefused query.now.from_hour query.now.to_hour) }
{
    if !query.is_range() {
        return Err(QueryFault::Range);
    }
    let shown = Shown::of(alloc, snapshot.state())?;
    Ok(direct_on(alloc, &shown, query)?)
}

// The direct report over a state, in a range of hours.
fn direct_on(alloc: Global, shown: &Shown, query: &Query<'_>) -> Result<DirectReport, AllocError>
    requires range { IsRange query.now.from_hour query.now.to_hour }
    ensures { IfOk result (IsDirectOn shown.now.entries query.now.key.now query.now.from_hour
        query.now.to_hour) }
{
    let segments = shown.segments(alloc)?;
    let commitments = shown.state().commitment_list();
    let totals = totals_alone(alloc, segments.as_slice(), commitments, query)?;
    direct_totals(alloc, totals)
}

// The direct report of totals.
fn direct_totals(alloc: Global, totals: Vec<Total>) -> Result<DirectReport, AllocError>
    ensures { IfOk result (λ report. report ≡ totals.items) }
{
    Ok(DirectReport::of_entries(direct_entries(alloc, totals)?))
}

// The entries of totals.
fn direct_entries(alloc: Global, totals: Vec<Total>) -> Result<Vec<Direct>, AllocError>
    ensures { IfOk result (λ entries. entries.items ≡ map cost_of_total totals.items) }
{
    totals.into_iter().map(Direct::of_total).collect(alloc)
}

/// The report of what direct reports add up to, under a tag key and a policy: an entry for each group that is charged, with what it is
/// [charged](charged), and what it was billed and cost directly. The only error is a failed allocation.
pub fn charged_report(
    alloc: Global,
    key: &str,
    sum: &DirectReport,
    policy: Option<&Policy>,
) -> Result<Report, AllocError>
    requires rising { IsRising (groups_of sum.now) }
    requires small { direct_size sum.now ≤ most_total }
    ensures { IfOk result (IsChargedReport (option_copied policy.entry) key.now sum.now) }
{
    let costs = charged(alloc, key, sum, policy)?;
    let entries = entries_of(alloc, sum.entries(), costs.as_slice())?;
    Ok(Report::of_entries(entries))
}

// The entries of charged groups.
fn entries_of(alloc: Global, sum: &[Direct], charged: &[Cost]) -> Result<Vec<Entry>, AllocError>
    requires { IsRising (groups_of sum.now) }
    ensures { IfOk result (λ entries. entries.items ≡ map (entry_of sum.now) charged.now) }
{
    let mut entries = Vec::new(alloc);
    for cost in charged {
        entries.push(entry_of(alloc, sum, cost)?)?;
    }
    Ok(entries)
}

// The entry of a charged group. One without lines has no costs of its own.
fn entry_of(alloc: Global, sum: &[Direct], cost: &Cost) -> Result<Entry, AllocError>
    requires { IsRising (groups_of sum.now) }
    ensures { IfOk result (λ entry. entry ≡ entry_of sum.now cost.now) }
{
    let name = cost.group();
    let group = String::from_str(alloc, name)?;
    match own_costs(sum, name) {
        Some(own) => Ok(Entry::of_charge(group, own.billed(), own.direct(), cost.cost())),
        None => Ok(Entry::of_charge(group, 0, 0, cost.cost())),
    }
}

// The costs of a group.
fn own_costs<'a>(sum: &'a [Direct], group: &str) -> Option<&'a Direct>
    requires { IsRising (groups_of sum.now) }
    ensures { option_copied result ≡ cost_at sum.now group.now }
{
    let order = |total: &Direct| -> Ordering
        ensures { result ≡ slice_cmp nat_cmp total.now.group group.entry.now }
    { total.group().cmp(group) };
    match sum.binary_search_by(order) {
        Ok(place) => Some(&sum[place]),
        Err(_) => None,
    }
}
