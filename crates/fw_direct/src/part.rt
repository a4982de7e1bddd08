//! The direct reports of the periods of a range.
ghost use Rattle.std.specs.Prelude.{◌≡◌, IfOk};
ghost use Rattle.fw_direct.specs.Parts.{AreDirectParts, IsDirectPart};
ghost use Rattle.fw_sums.specs.Limits.{IsRange};

use crate::periods::periods_by;
use fw_calendar::{Period, Step};
use fw_query::{Query, QueryFault};
use fw_shards::{DirectReport, direct_alone};
use fw_snapshot::Snapshot;
use std::alloc::Global;

/// A period of a range, and its direct report.
#[derive(Debug)]
pub struct DirectPart {
    /// The hours of the period.
    pub period: Period,
    /// The direct report of these hours.
    pub report: DirectReport,
}

impl Drop for DirectPart {
    fn drop(self) {
        let Self {
            period: _,
            report: _,
        } = self;
    }
}

impl DirectPart {
    // The direct report, to keep.
    pub(crate) fn into_report(self) -> DirectReport
        ensures { result ≡ self.report }
    {
        let Self { period: _, report } = self;
        report
    }
}

/// The direct report of each period of a query's range: where there is a step, the range is cut where a new hour, day or month begins; else it is one
/// period.
///
/// # Errors
/// `Range` where the range has no hour or more than 26,304; `NoMemory` where memory ran out.
pub fn direct_parts(
    alloc: Global,
    snapshot: &Snapshot,
    query: &Query<'_>,
    step: Option<Step>,
) -> Result<Vec<DirectPart>, QueryFault>
    ensures parts { IfOk result (λ parts. AreDirectParts snapshot.now.entries query.now.key.now
        query.now.from_hour query.now.to_hour step parts.items) }
    ensures range { IfOk result (λ _. IsRange query.now.from_hour query.now.to_hour) }
{
    if !query.is_range() {
        return Err(QueryFault::Range);
    }
    parts_of(alloc, snapshot, query, step)
}

// The direct report of each period of a range that has hours, but not too many.
fn parts_of(
    alloc: Global,
    snapshot: &Snapshot,
    query: &Query<'_>,
    step: Option<Step>,
) -> Result<Vec<DirectPart>, QueryFault>
    requires { IsRange query.now.from_hour query.now.to_hour }
    ensures parts { IfOk result (λ parts. AreDirectParts snapshot.now.entries query.now.key.now
        query.now.from_hour query.now.to_hour step parts.items) }
{
    let periods = periods_by(alloc, step, query.from_hour, query.to_hour)?;
    let mut parts = Vec::new(alloc);
    for period in &periods {
        match direct_part(alloc, snapshot, query.key, *period) {
            Ok(part) => parts.push(part)?,
            Err(fault) => return Err(fault),
        }
    }
    Ok(parts)
}

// A period with its direct report.
fn direct_part(
    alloc: Global,
    snapshot: &Snapshot,
    key: &str,
    period: Period,
) -> Result<DirectPart, QueryFault>
    ensures period { IfOk result (λ part. part.period ≡ period) }
    ensures report { IfOk result (IsDirectPart snapshot.now.entries key.now) }
{
    let query = Query {
        key,
        from_hour: period.from,
        to_hour: period.to,
    };
    let report = direct_alone(alloc, snapshot, &query)?;
    Ok(DirectPart { period, report })
}
