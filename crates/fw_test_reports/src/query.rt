//! The group at which direct costs are too large, which no answer names.
use crate::ended::check;
use crate::warehouse::{empty, posted};
use fw_query::{Query, QueryFault, report_alone};
use fw_snapshot::Snapshot;
use std::alloc::{AllocError, Global};

/// A tax of 100,000,000 dollars in the first hour of 2024.
const MOST: &str = "100000000,100000000,USD,Tax,,2024-01-01T00:00Z,2024-01-01T00:00Z,,,,,,,,\n";

/// A tax of a nano in that hour, for the team `b`.
const NANO: &str = r#"0,1e-9,USD,Tax,,2024-01-01T00:00Z,2024-01-01T00:00Z,,,,,,,,"{""team"":""b""}"
"#;

/// That hour, by teams.
const QUERY: Query<'static> = Query {
    key: "team",
    from_hour: 473_352,
    to_hour: 473_353,
};

/// A hundred of the greatest taxes, which come to the greatest total, and one more record.
fn records(alloc: Global, more: &str) -> Result<String, AllocError> {
    let mut records = String::new(alloc);
    for _ in 0..100 {
        records.push_str(MOST)?;
    }
    records.push_str(more)?;
    Ok(records)
}

/// Whether the direct costs of a warehouse are too large at this group.
fn is_past_at(alloc: Global, snapshot: &Snapshot, group: &str) -> Result<bool, AllocError> {
    match report_alone(alloc, snapshot, &QUERY) {
        Err(QueryFault::TotalTooLarge { group: found }) => Ok(found.as_str() == group),
        Err(QueryFault::NoMemory) => Err(AllocError),
        _ => Ok(false),
    }
}

/// Whether they are after a post of these records.
fn pass_at(alloc: Global, records: &str, group: &str) -> Result<bool, AllocError> {
    let snapshot = posted(alloc, &empty(alloc)?, "a", 1, records)?;
    is_past_at(alloc, &snapshot, group)
}

/// Whether one more record makes them so.
fn passes_at(alloc: Global, more: &str, group: &str) -> Result<bool, AllocError> {
    let records = records(alloc, more)?;
    pass_at(alloc, &records, group)
}

/// Whether one more of the greatest taxes does, and a nano of another group.
fn pass(alloc: Global) -> Result<bool, AllocError> {
    Ok(passes_at(alloc, MOST, "")? && passes_at(alloc, NANO, "b")?)
}

#[test]
fn the_group_that_passes_the_greatest_total(rt: HostRuntime) {
    check(&rt, pass(rt.alloc()));
}
