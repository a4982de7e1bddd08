//! A report over a snapshot.
ghost use Rattle.std.specs.Prelude.{◌≡◌, ◌≤◌, map, IfErr, IfOk};
ghost use Rattle.fw_sums.specs.ReportCache.{AreKept};
ghost use Rattle.fw_sums.specs.Limits.{IsRange};
ghost use Rattle.fw_sums.specs.Totals.{HasTotals};
ghost use Rattle.fw_query.specs.Entries.{plain_entry};
ghost use Rattle.fw_query.specs.Refusals.{IsRefused};
ghost use Rattle.fw_query.specs.Reports.{IsReport};
ghost use Rattle.fw_snapshot.specs.History.{commitments_of, policy_of, rows_of};

use crate::charges::under_policy;
use crate::entries::{Entry, Report};
use crate::fault::QueryFault;
use crate::shown::Shown;
use crate::too_large::first_past;
use fw_snapshot::{Snapshot, State};
use fw_sums::{Query, ReportCache, Total, totals_alone, totals_keeping};
use std::alloc::{AllocError, Global};
use std::thread::Threads;

/// The report over the lines of the hours of the query's range: those that the commitments and the rows of the snapshot have there. For each
/// group that one of the lines is in it has the sums of their costs and what the group is charged. Under a policy for the query's key the
/// groups that the policy names give their direct costs away; else each group is charged its direct cost. A purchase that was added to a
/// commitment later is one of its purchases: it is spread over every hour of the term, and so changes the amounts of past hours too. Each worker
/// counts the rows of a piece of the snapshot's segments, in a thread of its own where there are processors for it; their number changes nothing in the
/// report. Whoever asks for many reports on the same entries is answered faster by [`report_keeping`], and whoever has no leave to start threads asks
/// [`report_alone`].
pub fn report(
    rt: &(impl Threads + Sync),
    alloc: Global,
    snapshot: &Snapshot,
    query: &Query<'_>,
    workers: u32,
) -> Result<Report, QueryFault>
    requires some_workers { 1 ≤ workers }
    requires few_workers { workers ≤ 64 }
    ensures range { IfOk result (λ _. IsRange query.now.from_hour query.now.to_hour) }
    ensures report { IfOk result (IsReport (commitments_of snapshot.now.entries)
        (rows_of snapshot.now.entries)
        (policy_of snapshot.now.entries) query.now.key.now query.now.from_hour query.now.to_hour) }
    ensures fault { IfErr result (IsRefused (commitments_of snapshot.now.entries)
        (rows_of snapshot.now.entries) query.now.key.now query.now.from_hour query.now.to_hour) }
{
    let mut cache = ReportCache::new(alloc);
    report_keeping(rt, alloc, snapshot, &mut cache, query, workers)
}

/// The same report, by what reports before it kept of what the commitments bring to an hour and the rows of a segment to the sums; what this one
/// finds is kept too. All that is kept must be of the snapshot's entries. After an error it still is.
pub fn report_keeping(
    rt: &(impl Threads + Sync),
    alloc: Global,
    snapshot: &Snapshot,
    cache: &mut ReportCache,
    query: &Query<'_>,
    workers: u32,
) -> Result<Report, QueryFault>
    requires some_workers { 1 ≤ workers }
    requires few_workers { workers ≤ 64 }
    requires kept { AreKept (commitments_of snapshot.now.entries)
        (rows_of snapshot.now.entries) cache.old }
    ensures kept { AreKept (commitments_of snapshot.now.entries)
        (rows_of snapshot.now.entries) cache.new }
    ensures range { IfOk result (λ _. IsRange query.now.from_hour query.now.to_hour) }
    ensures report { IfOk result (IsReport (commitments_of snapshot.now.entries)
        (rows_of snapshot.now.entries)
        (policy_of snapshot.now.entries) query.now.key.now query.now.from_hour query.now.to_hour) }
    ensures fault { IfErr result (IsRefused (commitments_of snapshot.now.entries)
        (rows_of snapshot.now.entries) query.now.key.now query.now.from_hour query.now.to_hour) }
{
    if !query.is_range() {
        return Err(QueryFault::Range);
    }
    let shown = Shown::of(alloc, snapshot.state())?;
    report_on(rt, alloc, &shown, cache, query, workers)
}

/// The same report by one worker, in the thread that asks.
pub fn report_alone(
    alloc: Global,
    snapshot: &Snapshot,
    query: &Query<'_>,
) -> Result<Report, QueryFault>
    ensures range { IfOk result (λ _. IsRange query.now.from_hour query.now.to_hour) }
    ensures report { IfOk result (IsReport (commitments_of snapshot.now.entries)
        (rows_of snapshot.now.entries)
        (policy_of snapshot.now.entries) query.now.key.now query.now.from_hour query.now.to_hour) }
    ensures fault { IfErr result (IsRefused (commitments_of snapshot.now.entries)
        (rows_of snapshot.now.entries) query.now.key.now query.now.from_hour query.now.to_hour) }
{
    if !query.is_range() {
        return Err(QueryFault::Range);
    }
    let shown = Shown::of(alloc, snapshot.state())?;
    report_alone_on(alloc, &shown, query)
}

// The report over a state, in a range of hours.
fn report_on(
    rt: &(impl Threads + Sync),
    alloc: Global,
    shown: &Shown,
    cache: &mut ReportCache,
    query: &Query<'_>,
    workers: u32,
) -> Result<Report, QueryFault>
    requires range { IsRange query.now.from_hour query.now.to_hour }
    requires some_workers { 1 ≤ workers }
    requires kept { AreKept (commitments_of shown.now.entries)
        (rows_of shown.now.entries) cache.old }
    ensures kept { AreKept (commitments_of shown.now.entries)
        (rows_of shown.now.entries) cache.new }
    ensures report { IfOk result (IsReport (commitments_of shown.now.entries)
        (rows_of shown.now.entries) (policy_of shown.now.entries) query.now.key.now
        query.now.from_hour query.now.to_hour) }
    ensures fault { IfErr result (IsRefused (commitments_of shown.now.entries)
        (rows_of shown.now.entries) query.now.key.now query.now.from_hour query.now.to_hour) }
{
    let state = shown.state();
    let segments = shown.segments(alloc)?;
    let totals = totals_keeping(
        rt,
        alloc,
        segments.as_slice(),
        state.commitment_list(),
        cache,
        query,
        workers,
    )?;
    report_of(alloc, state, query, totals)
}

// The same by one worker.
fn report_alone_on(alloc: Global, shown: &Shown, query: &Query<'_>) -> Result<Report, QueryFault>
    requires range { IsRange query.now.from_hour query.now.to_hour }
    ensures report { IfOk result (IsReport (commitments_of shown.now.entries)
        (rows_of shown.now.entries) (policy_of shown.now.entries) query.now.key.now
        query.now.from_hour query.now.to_hour) }
    ensures fault { IfErr result (IsRefused (commitments_of shown.now.entries)
        (rows_of shown.now.entries) query.now.key.now query.now.from_hour query.now.to_hour) }
{
    let state = shown.state();
    let segments = shown.segments(alloc)?;
    let totals = totals_alone(alloc, segments.as_slice(), state.commitment_list(), query)?;
    report_of(alloc, state, query, totals)
}

// The report over a state, in a range of hours, given what its lines there come to.
fn report_of(
    alloc: Global,
    state: &State,
    query: &Query<'_>,
    totals: Vec<Total>,
) -> Result<Report, QueryFault>
    requires range { IsRange query.now.from_hour query.now.to_hour }
    requires totals { HasTotals (commitments_of state.now.entries)
        (rows_of state.now.entries) query.now.key.now query.now.from_hour query.now.to_hour
        totals.items }
    ensures report { IfOk result (IsReport (commitments_of state.now.entries)
        (rows_of state.now.entries) (policy_of state.now.entries) query.now.key.now
        query.now.from_hour query.now.to_hour) }
    ensures fault { IfErr result (IsRefused (commitments_of state.now.entries)
        (rows_of state.now.entries) query.now.key.now query.now.from_hour query.now.to_hour) }
{
    let mut entries = direct_entries(alloc, totals)?;
    if let Some(place) = first_past(entries.as_slice()) {
        return Err(QueryFault::TotalTooLarge {
            group: entries.swap_remove(place).into_group(),
        });
    }
    match state.policy() {
        Some(policy) if policy.key() == query.key => Ok(Report::of_entries(under_policy(
            alloc,
            entries.as_slice(),
            policy,
        )?)),
        _ => Ok(Report::of_entries(entries)),
    }
}

// The entries of totals, each charged its direct cost.
fn direct_entries(alloc: Global, totals: Vec<Total>) -> Result<Vec<Entry>, AllocError>
    ensures { IfOk result (λ entries. entries.items ≡ map plain_entry totals.items) }
{
    totals.into_iter().map(Entry::of_total).collect(alloc)
}
