//! What one group cost in a range of hours, in the periods of the range, and in the hours before each.
ghost use Rattle.std.specs.Prelude.{◌≡◌, ◌<◌, All, IfErr, IfOk, Some};
ghost use Rattle.fw_owner.specs.Owned.{AreStretches, IsBeforeIfAny, IsFound, IsOwned, IsOwnedRefused, IsRefusedUpTo, IsStretch, costs_in, found};
ghost use Rattle.fw_series.specs.Series.{IsRefusedOn};

use fw_calendar::{Period, Step, periods};
use fw_charge::LAST_HOUR;
use fw_compare::{Costs, hours_before};
use fw_query::{Entry, Query, QueryFault, report_alone};
use fw_snapshot::Snapshot;
use std::alloc::Global;

/// What a group cost in the hours before others, and how much more it costs in these.
#[derive(Clone, Copy, Debug, Drop, PartialEq, Eq)]
pub struct Before {
    /// The hours before.
    pub hours: Period,
    /// What the group cost there.
    pub costs: Costs,
    /// What it costs now, less that.
    pub change: Costs,
}

/// What a group cost in some hours.
#[derive(Clone, Copy, Debug, Drop, PartialEq, Eq)]
pub struct Stretch {
    /// The hours.
    pub hours: Period,
    /// Whether the report of these hours has the group.
    pub is_there: bool,
    /// What the group cost; nothing where it isn't there.
    pub costs: Costs,
    /// What it cost before; none where there are no hours before ([`hours_before`]), or the hours end behind the year 9999.
    pub before: Option<Before>,
}

/// What a group cost in a range of hours, and in the periods that it is cut into.
#[derive(Debug)]
pub struct Owned {
    /// The whole range.
    pub whole: Stretch,
    /// The periods in order; none where the range isn't cut.
    pub parts: Vec<Stretch>,
}

impl Drop for Owned {
    fn drop(self) {
        let Self { whole: _, parts: _ } = self;
    }
}

/// What one group of a query's report cost in the range and, where there is a step, in each period of it, as the reports of these hours have it; and
/// beside each what it cost in the hours before: as many months where it is whole months, else as many hours ([`hours_before`]).
///
/// # Errors
/// `Range` where the range has no hour or more than 26,304; `TotalTooLarge` where the costs of all groups in the range, in a period or in the hours
/// before one pass 10^19 nanos; `NoMemory` where memory ran out.
pub fn owned_of(
    alloc: Global,
    snapshot: &Snapshot,
    query: &Query<'_>,
    step: Option<Step>,
    group: &str,
) -> Result<Owned, QueryFault>
    ensures owned { IfOk result (IsOwned snapshot.now.entries query.now.key.now group.now
        query.now.from_hour query.now.to_hour step) }
    ensures fault { IfErr result (IsOwnedRefused snapshot.now.entries query.now.key.now
        query.now.from_hour query.now.to_hour) }
{
    let hours = Period {
        from: query.from_hour,
        to: query.to_hour,
    };
    let whole = stretch_of(alloc, snapshot, query.key, hours, group)?;
    let parts = match step {
        Some(step) => parts_of(alloc, snapshot, query, step, group)?,
        None => Vec::new(alloc),
    };
    Ok(Owned { whole, parts })
}

// What a group cost in each period of a query's range.
fn parts_of(
    alloc: Global,
    snapshot: &Snapshot,
    query: &Query<'_>,
    step: Step,
    group: &str,
) -> Result<Vec<Stretch>, QueryFault>
    requires { query.now.from_hour < query.now.to_hour }
    ensures parts { IfOk result (λ parts. AreStretches snapshot.now.entries query.now.key.now
        group.now query.now.from_hour query.now.to_hour step parts.items) }
    ensures fault { IfErr result (IsOwnedRefused snapshot.now.entries query.now.key.now
        query.now.from_hour query.now.to_hour) }
{
    let periods = periods(alloc, step, query.from_hour, query.to_hour)?;
    let mut parts = Vec::new(alloc);
    for period in &periods {
        match stretch_of(alloc, snapshot, query.key, *period, group) {
            Ok(part) => parts.push(part)?,
            Err(fault) => return Err(fault),
        }
    }
    Ok(parts)
}

// What a group cost in some hours, and before.
fn stretch_of(
    alloc: Global,
    snapshot: &Snapshot,
    key: &str,
    hours: Period,
    group: &str,
) -> Result<Stretch, QueryFault>
    ensures hours { IfOk result (λ stretch. stretch.hours ≡ hours) }
    ensures some { IfOk result (λ _. hours.from < hours.to) }
    ensures stretch { IfOk result (IsStretch snapshot.now.entries key.now group.now) }
    ensures fault { IfErr result
        (IsOwnedRefused snapshot.now.entries key.now hours.from hours.to) }
{
    let found = costs_of(alloc, snapshot, key, hours, group)?;
    let costs = found.unwrap_or(Costs::NONE);
    let before = before_of(alloc, snapshot, key, hours, group, costs)?;
    Ok(Stretch {
        hours,
        is_there: found.is_some(),
        costs,
        before,
    })
}

// What a group cost in the hours before some, beside what it costs in these.
fn before_of(
    alloc: Global,
    snapshot: &Snapshot,
    key: &str,
    hours: Period,
    group: &str,
    now: Costs,
) -> Result<Option<Before>, QueryFault>
    requires { hours.from < hours.to }
    ensures before { IfOk result (IsBeforeIfAny snapshot.now.entries key.now group.now hours now) }
    ensures fault { IfErr result (IsRefusedUpTo snapshot.now.entries key.now hours.to) }
{
    if hours.to > u64::from(LAST_HOUR) + 1 {
        return Ok(None);
    }
    let Some(before) = hours_before(hours) else {
        return Ok(None);
    };
    let found = match costs_of(alloc, snapshot, key, before, group) {
        Ok(found) => found,
        Err(fault) => return Err(fault),
    };
    let costs = found.unwrap_or(Costs::NONE);
    let Some(change) = now.less(costs) else {
        return Err(QueryFault::NoMemory);
    };
    Ok(Some(Before {
        hours: before,
        costs,
        change,
    }))
}

// What the report of some hours says of a group, where it has the group.
fn costs_of(
    alloc: Global,
    snapshot: &Snapshot,
    key: &str,
    hours: Period,
    group: &str,
) -> Result<Option<Costs>, QueryFault>
    ensures some { IfOk result (λ _. hours.from < hours.to) }
    ensures found { IfOk result (IsFound snapshot.now.entries key.now group.now hours.from
        hours.to) }
    ensures fault { IfErr result
        (IsRefusedOn snapshot.now.entries key.now hours.from hours.to) }
{
    let query = Query {
        key,
        from_hour: hours.from,
        to_hour: hours.to,
    };
    let report = report_alone(alloc, snapshot, &query)?;
    Ok(costs_among(report.entries(), group))
}

// What the entries of a report say of a group, where one of them is of it.
fn costs_among(entries: &[Entry], group: &str) -> Option<Costs>
    ensures { result ≡ found group.now entries.now }
{
    for entry in entries {
        if entry.group() == group {
            return Some(costs_in(entry));
        }
    }
    None
}

// The costs of an entry.
fn costs_in(entry: &Entry) -> Costs
    ensures { result ≡ costs_in entry.now }
{
    Costs {
        billed: entry.billed(),
        effective: entry.direct(),
        charged: entry.charged(),
    }
}
