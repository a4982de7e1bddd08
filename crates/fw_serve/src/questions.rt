//! Questions, which are answered from the state of a warehouse and change nothing.
ghost use Rattle.std.specs.Prelude.{◌≡◌, ◌≤◌};
ghost use Rattle.fw_sums.specs.ReportCache.{AreKept};
ghost use Rattle.fw_snapshot.specs.History.{commitments_of, rows_of};
ghost use Rattle.fw_serve.specs.Questions.{IsReportText, ReportAnswer, LinesAnswer};
ghost use Rattle.fw_serve.specs.Replies.{state_line};
ghost use Rattle.fw_serve.specs.ReplyText.{reply_text};
ghost use Rattle.fw_serve.specs.Served.{most_workers};

use crate::refusals::query_reply;
use crate::reply::Reply;
use fw_query::{Query, QueryFault, ReportCache, lines_csv, report_csv, report_keeping};
use fw_snapshot::Snapshot;
use std::alloc::Global;
use std::thread::Threads;

/// The counts of a warehouse.
pub fn answer_state(snapshot: &Snapshot) -> Reply
    ensures { reply_text result ≡ state_line snapshot.now }
{
    let state = snapshot.state();
    Reply::State {
        entries: state.entries() as u64,
        rows: state.rows() as u64,
        commitments: state.commitments() as u64,
        has_policy: state.policy().is_some(),
    }
}

/// The report under a key over the hours from `from` up to, and not including, `to`, by what reports before it kept.
pub(crate) fn answer_report(
    rt: &(impl Threads + Sync),
    alloc: Global,
    snapshot: &Snapshot,
    cache: &mut ReportCache,
    key: &str,
    from: u64,
    to: u64,
    workers: u32,
) -> Reply
    requires some_workers { 1 ≤ workers }
    requires few_workers { workers ≤ most_workers }
    requires kept { AreKept (commitments_of snapshot.now.entries) (rows_of snapshot.now.entries)
        cache.old }
    ensures kept { AreKept (commitments_of snapshot.now.entries) (rows_of snapshot.now.entries)
        cache.new }
    ensures answer { ReportAnswer snapshot.now key.now from to (reply_text result) }
{
    match report_text(rt, alloc, snapshot, cache, key, from, to, workers) {
        Ok(text) => Reply::Text(text),
        Err(fault) => query_reply(&fault),
    }
}

// The text of the report.
fn report_text(
    rt: &(impl Threads + Sync),
    alloc: Global,
    snapshot: &Snapshot,
    cache: &mut ReportCache,
    key: &str,
    from: u64,
    to: u64,
    workers: u32,
) -> Result<Vec<u8>, QueryFault>
    requires some_workers { 1 ≤ workers }
    requires few_workers { workers ≤ most_workers }
    requires kept { AreKept (commitments_of snapshot.now.entries) (rows_of snapshot.now.entries)
        cache.old }
    ensures kept { AreKept (commitments_of snapshot.now.entries) (rows_of snapshot.now.entries)
        cache.new }
    ensures text { IsReportText snapshot.now key.now from to result }
{
    let query = Query {
        key,
        from_hour: from,
        to_hour: to,
    };
    let report = report_keeping(rt, alloc, snapshot, cache, &query, workers)?;
    Ok(report_csv(alloc, &report)?)
}

/// The lines of the hours from `from` up to, and not including, `to`.
pub(crate) fn answer_lines(alloc: Global, snapshot: &Snapshot, from: u64, to: u64) -> Reply
    ensures { LinesAnswer snapshot.now from to (reply_text result) }
{
    match lines_csv(alloc, snapshot, from, to) {
        Ok(text) => Reply::Text(text),
        Err(fault) => query_reply(&fault),
    }
}
