//! A report by one worker and by several, which is one.
ghost use Rattle.std.specs.Prelude.{◌≤◌};

use crate::ended::check;
use crate::warehouse::{committed, empty, posted, ruled};
use fw_query::{Query, report, report_alone, report_csv};
use fw_snapshot::Snapshot;
use std::alloc::{AllocError, Global};
use std::thread::Threads;

/// The records of five posts, each of one row, of the teams `a` and `b`.
const POSTS: [&str; 5] = [
    "1,2,USD,Usage,,2024-01-01T00:00Z,2024-01-01T01:00Z,,,,,,,,\"{\"\"team\"\":\"\"a\"\"}\"\n",
    "2,4,USD,Usage,,2024-01-01T01:00Z,2024-01-01T02:00Z,,,,,,,,\"{\"\"team\"\":\"\"a\"\"}\"\n",
    "4,8,USD,Usage,,2024-01-01T00:00Z,2024-01-01T01:00Z,,,,,,,,\"{\"\"team\"\":\"\"b\"\"}\"\n",
    "8,16,USD,Usage,,2024-01-01T00:00Z,2024-01-01T01:00Z,,,,,,,,\"{\"\"team\"\":\"\"a\"\"}\"\n",
    "16,32,USD,Usage,,2024-01-01T01:00Z,2024-01-01T02:00Z,,,,,,,,\"{\"\"team\"\":\"\"b\"\"}\"\n",
];

/// Their two hours, by teams.
const QUERY: Query<'static> = Query {
    key: "team",
    from_hour: 473_352,
    to_hour: 473_354,
};

/// The report: what these hours cost.
const TEXT: &str = "Group,BilledCost,EffectiveCost,ChargedCost
a,11.000000000,22.000000000,22.000000000
b,20.000000000,40.000000000,40.000000000
";

/// A commitment to two hours of quantity an hour, for three hours, of which one is used.
const COMMITMENT: &str = r#"id = "cd-1"
category = "Usage"
start = "2024-01-01T00:00Z"
hours = 3
capacity = "2"
unit = "Hours"
skus = ["vm"]
[tags]
team = "platform"
[[purchase]]
at = "2024-01-01T00:00Z"
billed = "0.00000001"
"#;

/// Two rows that it covers whole.
const COVERED: &str =
    r#"0.1,0.1,USD,Usage,,2024-01-01T00:00Z,2024-01-01T01:00Z,,,,1,Hours,vm,,"{""team"":""web""}"
0.05,0.05,USD,Usage,,2024-01-01T00:00Z,2024-01-01T01:00Z,,,,0.5,Hours,vm,,"{""team"":""data""}"
"#;

/// What is left to the platform goes to the teams.
const POLICY: &str = r#"key = "team"
[[rule]]
from = "platform"
to = { web = 3, data = 1 }
"#;

/// The hours of the commitment's term, by teams.
const TERM: Query<'static> = Query {
    key: "team",
    from_hour: 473_352,
    to_hour: 473_355,
};

/// The report: the hours carry 3, 3 and 4 nanos, of the first of which the rows use two.
const SHARED: &str = "Group,BilledCost,EffectiveCost,ChargedCost
data,0.000000000,0.000000001,0.000000003
platform,0.000000010,0.000000008,0.000000000
web,0.000000000,0.000000001,0.000000007
";

/// The warehouse after the five posts.
fn warehouse(alloc: Global) -> Result<Snapshot, AllocError> {
    let mut snapshot = empty(alloc)?;
    for (place, records) in POSTS.iter().enumerate() {
        snapshot = posted(alloc, &snapshot, "a", place as u64 + 1, records)?;
    }
    Ok(snapshot)
}

/// The warehouse with the commitment, the rows and the policy.
fn under_commitment(alloc: Global) -> Result<Snapshot, AllocError> {
    let snapshot = committed(alloc, &empty(alloc)?, "a", 1, COMMITMENT)?;
    let snapshot = posted(alloc, &snapshot, "a", 2, COVERED)?;
    ruled(alloc, &snapshot, "a", 3, POLICY)
}

/// Whether so many workers make the report with this text.
fn is_made_by(
    rt: &(impl Threads + Sync),
    alloc: Global,
    snapshot: &Snapshot,
    query: &Query<'_>,
    text: &str,
    workers: u32,
) -> Result<bool, AllocError>
    requires some_workers { 1 ≤ workers }
    requires few_workers { workers ≤ 64 }
{
    match report(rt, alloc, snapshot, query, workers) {
        Ok(report) => Ok(report_csv(alloc, &report)?.as_slice() == text.as_bytes()),
        Err(_) => Err(AllocError),
    }
}

/// Whether it is made without threads.
fn is_made_alone(
    alloc: Global,
    snapshot: &Snapshot,
    query: &Query<'_>,
    text: &str,
) -> Result<bool, AllocError> {
    match report_alone(alloc, snapshot, query) {
        Ok(report) => Ok(report_csv(alloc, &report)?.as_slice() == text.as_bytes()),
        Err(_) => Err(AllocError),
    }
}

/// Whether fewer workers than segments or hours, as many and more make it.
fn is_made(
    rt: &(impl Threads + Sync),
    alloc: Global,
    snapshot: &Snapshot,
    query: &Query<'_>,
    text: &str,
) -> Result<bool, AllocError> {
    Ok(
        is_made_alone(alloc, snapshot, query, text)?
            && is_made_by(rt, alloc, snapshot, query, text, 1)?
            && is_made_by(rt, alloc, snapshot, query, text, 2)?
            && is_made_by(rt, alloc, snapshot, query, text, 3)?
            && is_made_by(rt, alloc, snapshot, query, text, 5)?
            && is_made_by(rt, alloc, snapshot, query, text, 64)?,
    )
}

/// Whether the report of the five posts is made.
fn of_posts(rt: &(impl Threads + Sync), alloc: Global) -> Result<bool, AllocError> {
    is_made(rt, alloc, &warehouse(alloc)?, &QUERY, TEXT)
}

/// Whether that under the commitment is.
fn of_commitment(rt: &(impl Threads + Sync), alloc: Global) -> Result<bool, AllocError> {
    is_made(rt, alloc, &under_commitment(alloc)?, &TERM, SHARED)
}

#[test]
fn a_report_by_several_workers(rt: HostRuntime) {
    check(&rt, of_posts(&rt, rt.alloc()));
}

#[test]
fn a_report_under_a_commitment_by_several_workers(rt: HostRuntime) {
    check(&rt, of_commitment(&rt, rt.alloc()));
}
