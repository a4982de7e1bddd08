//! Reports as text.
ghost use Rattle.std.specs.Prelude.{◌≡◌, None, IfErr, IfOk};
ghost use Rattle.fw_series.specs.Report.{IsReportCsv};
ghost use Rattle.fw_series.specs.Series.{IsSeriesRefused};
ghost use Rattle.fw_series.specs.declared.view.Format.TheVariants.{Csv};

use crate::series::series_of;
use crate::view::{Format, View, written};
use fw_calendar::Step;
use fw_query::{Query, QueryFault};
use fw_snapshot::Snapshot;
use std::alloc::Global;
use std::thread::Threads;

/// What a report is cut by, which of its groups are shown, and how it is written.
#[derive(Clone, Copy, Debug, Drop)]
pub struct ReportOptions {
    /// What the range is cut by, where it is.
    pub step: Option<Step>,
    /// How many groups have a line of their own; where there is none, all have.
    pub top: Option<usize>,
    /// How it is written.
    pub format: Format,
    /// How many workers share the rows, each in a thread of its own: 1 to 64; any other number counts as the nearest of these. It changes nothing in the
    /// report.
    pub workers: u32,
}

/// The report that a query and options ask for, as text, in units of the currency. Nothing changes.
///
/// # Errors
/// `Range` where the range has no hour or more than 26,304; `TotalTooLarge` where the costs of the
/// range or, where it is cut, of a period pass 10^19 nanos; `NoMemory` where memory ran out.
pub fn report_text(
    rt: &(impl Threads + Sync),
    alloc: Global,
    snapshot: &Snapshot,
    query: &Query<'_>,
    options: &ReportOptions,
) -> Result<Vec<u8>, QueryFault>
    ensures csv { options.now.step ≡ None → options.now.top ≡ None → options.now.format ≡ Csv
        → IfOk result (λ text. IsReportCsv snapshot.now.entries query.now.key.now
        query.now.from_hour query.now.to_hour text.items) }
    ensures fault { IfErr result (IsSeriesRefused snapshot.now.entries query.now.key.now
        query.now.from_hour query.now.to_hour options.now.step) }
{
    let workers = options.workers.clamp(1, 64);
    let series = series_of(rt, alloc, snapshot, query, options.step, workers)?;
    let currency = snapshot.state().currency();
    let view = View {
        tag: query.key,
        currency: str::from_utf8(currency.code()).unwrap_or(""),
        from: query.from_hour,
        to: query.to_hour,
        step: options.step,
        top: options.top,
    };
    Ok(written(alloc, &series, &view, options.format)?)
}
