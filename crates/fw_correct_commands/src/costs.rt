//! What a correction changes.
use crate::choice::Hours;
use crate::texts::change_text;
use fw_console::Fault;
use fw_query::{MOST_HOURS, Query, Report, report_alone};
use fw_snapshot::Snapshot;
use std::alloc::{AllocError, Global};

/// The costs of all lines of some hours, in nanos.
#[derive(Clone, Copy, Drop)]
struct Costs {
    billed: i128,
    effective: i128,
}

/// By how much the costs of the lines of some hours differ between two snapshots, as `billed -73.80; effective -1.12`; `None` where there are
/// more hours than a report can have.
pub(crate) fn change_between(
    alloc: Global,
    before: &Snapshot,
    after: &Snapshot,
    hours: Hours,
) -> Result<Option<String>, Fault> {
    if hours.to.saturating_sub(hours.from) > MOST_HOURS {
        return Ok(None);
    }
    let before = costs_of(alloc, before, hours)?;
    let after = costs_of(alloc, after, hours)?;
    Ok(Some(difference_text(alloc, before, after)?))
}

// The difference between two costs, in words.
fn difference_text(alloc: Global, before: Costs, after: Costs) -> Result<String, AllocError> {
    let billed = change_text(alloc, after.billed.saturating_sub(before.billed))?;
    let effective = change_text(alloc, after.effective.saturating_sub(before.effective))?;
    format!(in alloc; "billed {billed}; effective {effective}")
}

// The costs of all lines of some hours.
fn costs_of(alloc: Global, snapshot: &Snapshot, hours: Hours) -> Result<Costs, Fault> {
    let query = Query {
        key: "",
        from_hour: hours.from,
        to_hour: hours.to,
    };
    let report = report_alone(alloc, snapshot, &query)?;
    Ok(total_of(&report))
}

// The costs of all groups of a report.
fn total_of(report: &Report) -> Costs {
    let mut costs = Costs {
        billed: 0,
        effective: 0,
    };
    for entry in report.entries() {
        costs.billed = costs.billed.saturating_add(entry.billed());
        costs.effective = costs.effective.saturating_add(entry.direct());
    }
    costs
}
