//! Reports as CSV.
ghost use Rattle.std.specs.Prelude.{◌≡◌, None, IfOk};
ghost use Rattle.fw_query.specs.Texts.{report_text};

use crate::lines::{Line, lines_of};
use crate::names::{chosen, group_of, kind_of};
use crate::series::Series;
use crate::view::View;
use csv::{Writer, WriterBuilder};
use fw_calendar::{Period, hour_text};
use fw_query::{Report, report_csv};
use std::alloc::{AllocError, Global};

/// The names of the columns.
const HEADER: [&[u8]; 7] = [
    b"From",
    b"To",
    b"Kind",
    b"Group",
    b"BilledCost",
    b"EffectiveCost",
    b"ChargedCost",
];

/// A series as CSV. Without periods and with all groups it is the CSV of the report; else each record has the hours that it is of in front, and
/// whether it is of one group or of all others.
pub(crate) fn csv_text(
    alloc: Global,
    series: &Series,
    view: &View<'_>,
) -> Result<Vec<u8>, AllocError>
    ensures { view.now.step ≡ None → view.now.top ≡ None
        → IfOk result (λ text. text.items ≡ report_text series.now.whole) }
{
    if view.step.is_none() && view.top.is_none() {
        report_csv(alloc, &series.whole)
    } else {
        records_text(alloc, series, view)
    }
}

// The records of periods or of some groups, below the names of the columns.
fn records_text(alloc: Global, series: &Series, view: &View<'_>) -> Result<Vec<u8>, AllocError> {
    let names = chosen(alloc, series, view)?;
    let names = names.as_ref().map(|names| names.as_slice());
    let mut writer = WriterBuilder::new().from_writer(Vec::new(alloc));
    write_record(&mut writer, &HEADER)?;
    match view.step {
        Some(_) => {
            for part in &series.parts {
                write_report(alloc, &mut writer, part.period, &part.report, names)?;
            }
        }
        None => {
            let period = Period {
                from: view.from,
                to: view.to,
            };
            write_report(alloc, &mut writer, period, &series.whole, names)?;
        }
    }
    match writer.into_inner() {
        Ok(text) => Ok(text),
        Err(_) => Err(AllocError),
    }
}

// Writes the records of a period.
fn write_report(
    alloc: Global,
    writer: &mut Writer<Vec<u8>>,
    period: Period,
    report: &Report,
    names: Option<&[String]>,
) -> Result<(), AllocError> {
    let from = hour_text(alloc, period.from)?;
    let to = hour_text(alloc, period.to)?;
    let lines = lines_of(alloc, report, names)?;
    for line in &lines {
        write_line(alloc, writer, from.as_str(), to.as_str(), line)?;
    }
    Ok(())
}

// Writes the record of a line.
fn write_line<'f>(
    alloc: Global,
    writer: &mut Writer<Vec<u8>>,
    from: &'f str,
    to: &'f str,
    line: &Line<'f>,
) -> Result<(), AllocError> {
    let kind: &'f str = kind_of(line);
    let group: &'f str = group_of(line);
    let billed = fw_money::text(alloc, line.costs.billed)?;
    let direct = fw_money::text(alloc, line.costs.direct)?;
    let charged = fw_money::text(alloc, line.costs.charged)?;
    let fields: [&[u8]; 7] = [
        from.as_bytes(),
        to.as_bytes(),
        kind.as_bytes(),
        group.as_bytes(),
        billed.as_bytes(),
        direct.as_bytes(),
        charged.as_bytes(),
    ];
    write_record(writer, &fields)
}

// Writes a record.
fn write_record(writer: &mut Writer<Vec<u8>>, fields: &[&[u8]]) -> Result<(), AllocError> {
    let Ok(()) = writer.write_fields(fields) else {
        return Err(AllocError);
    };
    Ok(())
}
