//! The reports of the periods of a range.
ghost use Rattle.std.specs.Prelude.{◌≡◌, ◌<◌, ◌≤◌, IfErr, IfOk, Some};
ghost use Rattle.fw_snapshot.specs.History.{commitments_of, rows_of};
ghost use Rattle.fw_sums.specs.ReportCache.{AreKept};
ghost use Rattle.fw_series.specs.Series.{AreParts, IsPartReport, IsRefusedOn, IsSeries, IsSeriesRefused};

use fw_calendar::{Period, Step, periods};
use fw_query::{Query, QueryFault, Report, ReportCache, report_keeping};
use fw_snapshot::Snapshot;
use std::alloc::Global;
use std::thread::Threads;

/// A period of a range, and its report.
#[derive(Debug)]
pub struct Part {
    /// The hours of the period.
    pub period: Period,
    /// The report of these hours.
    pub report: Report,
}

impl Drop for Part {
    fn drop(self) {
        let Self {
            period: _,
            report: _,
        } = self;
    }
}

/// The report of a range of hours, and the reports of the periods that it is cut into.
#[derive(Debug)]
pub struct Series {
    /// The report of the whole range.
    pub whole: Report,
    /// The periods in order, each with its report; none where the range isn't cut.
    pub parts: Vec<Part>,
}

impl Drop for Series {
    fn drop(self) {
        let Self { whole: _, parts: _ } = self;
    }
}

/// The report that a query asks for and, where there is a step, the report of each period of its range: the range is cut where a new hour,
/// day or month begins. Each report is that of [`fw_query::report`] over its hours alone, so that common costs are shared period by period.
/// Without a step the report of the range is the only one that is made. So many workers share the rows of the range, each in a thread of its own; their
/// number changes nothing. What they find of commitments is kept for the periods.
///
/// # Errors
/// `Range` where the range has no hour or more than 26,304; `TotalTooLarge` where the costs of the
/// range or, where it is cut, of a period pass 10^19 nanos; `NoMemory` where memory ran out.
pub fn series_of(
    rt: &(impl Threads + Sync),
    alloc: Global,
    snapshot: &Snapshot,
    query: &Query<'_>,
    step: Option<Step>,
    workers: u32,
) -> Result<Series, QueryFault>
    requires some_workers { 1 ≤ workers }
    requires few_workers { workers ≤ 64 }
    ensures series { IfOk result (IsSeries snapshot.now.entries query.now.key.now
        query.now.from_hour query.now.to_hour step) }
    ensures fault { IfErr result (IsSeriesRefused snapshot.now.entries query.now.key.now
        query.now.from_hour query.now.to_hour step) }
{
    let mut cache = ReportCache::new(alloc);
    let whole = report_keeping(rt, alloc, snapshot, &mut cache, query, workers)?;
    let parts = match step {
        Some(step) => parts_of(rt, alloc, snapshot, &mut cache, query, step)?,
        None => Vec::new(alloc),
    };
    Ok(Series { whole, parts })
}

// The periods of a query's range, each with its report.
fn parts_of(
    rt: &(impl Threads + Sync),
    alloc: Global,
    snapshot: &Snapshot,
    cache: &mut ReportCache,
    query: &Query<'_>,
    step: Step,
) -> Result<Vec<Part>, QueryFault>
    requires kept { AreKept (commitments_of snapshot.now.entries)
        (rows_of snapshot.now.entries) cache.old }
    requires range { query.now.from_hour < query.now.to_hour }
    ensures parts { IfOk result (λ parts. AreParts snapshot.now.entries query.now.key.now
        query.now.from_hour query.now.to_hour step parts.items) }
    ensures fault { IfErr result (IsSeriesRefused snapshot.now.entries query.now.key.now
        query.now.from_hour query.now.to_hour (Some step)) }
{
    let periods = periods(alloc, step, query.from_hour, query.to_hour)?;
    let mut parts = Vec::new(alloc);
    for period in &periods {
        match part_of(rt, alloc, snapshot, cache, query.key, *period) {
            Ok(part) => parts.push(part)?,
            Err(fault) => return Err(fault),
        }
    }
    Ok(parts)
}

// A period with its report.
fn part_of(
    rt: &(impl Threads + Sync),
    alloc: Global,
    snapshot: &Snapshot,
    cache: &mut ReportCache,
    key: &str,
    period: Period,
) -> Result<Part, QueryFault>
    requires { AreKept (commitments_of snapshot.now.entries)
        (rows_of snapshot.now.entries) cache.old }
    ensures kept { AreKept (commitments_of snapshot.now.entries)
        (rows_of snapshot.now.entries) cache.new }
    ensures period { IfOk result (λ part. part.period ≡ period) }
    ensures report { IfOk result (IsPartReport snapshot.now.entries key.now) }
    ensures fault { IfErr result
        (IsRefusedOn snapshot.now.entries key.now period.from period.to) }
{
    let query = Query {
        key,
        from_hour: period.from,
        to_hour: period.to,
    };
    let report = report_keeping(rt, alloc, snapshot, cache, &query, 1)?;
    Ok(Part { period, report })
}
