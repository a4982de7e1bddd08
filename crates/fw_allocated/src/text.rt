//! The text of exported lines.
ghost use Rattle.std.specs.Prelude.{◌≡◌, ◌+◌, ◌<◌, ◌^◌, IfOk, List, map};
ghost use Rattle.fw_charge.specs.Charge.{Charge};
ghost use Rattle.fw_snapshot.specs.History.{commitments_of, rows_of};
ghost use Rattle.fw_allocated.specs.LineRows.{AreExportsAt};
ghost use Rattle.fw_allocated.specs.Texts.{AreRowTexts, head_text};
ghost use Rattle.fw_allocated.specs.TrueRows.{AreOfTrueRowsAt};

use crate::csv_text::{csv_head, csv_rows};
use crate::format::ExportFormat;
use crate::hour::exports_at;
use crate::json_text::json_rows;
use crate::row::ExportedRow;
use fw_query::Shown;
use std::alloc::{AllocError, Global};

/// What stands in front of all rows: the names of the columns in a CSV, and nothing before JSON lines. The one error is that memory ran out.
pub fn head_text(alloc: Global, format: ExportFormat) -> Result<Vec<u8>, AllocError>
    ensures { IfOk result (λ text. text.items ≡ head_text format) }
{
    match format {
        ExportFormat::Csv => csv_head(alloc),
        ExportFormat::JsonLines => Ok(Vec::new(alloc)),
    }
}

/// The rows that the lines of an hour are exported as, counted from 1970, under the commitments and over the rows that count of a state. Costs
/// are in the currency, which is its code, with nine digits behind the point; instants are those of UTC. The one error is that memory ran out.
///
/// Each row that is written is of the row of the hour of which its line is a part: its tags, period, SKU, sub-account, unit and class are that row's.
pub fn hour_text(
    alloc: Global,
    shown: &Shown,
    currency: &str,
    format: ExportFormat,
    hour: u64,
) -> Result<Vec<u8>, AllocError>
    requires { hour + 1 < 2 ^ 64 }
    ensures text { IfOk result (λ text. (exports : List Charge)
        × AreExportsAt (commitments_of shown.now.entries) (rows_of shown.now.entries) hour exports
        × AreRowTexts format currency.now exports text.items) }
    ensures rows { IfOk result (λ text. (exports : List Charge)
        × AreOfTrueRowsAt (commitments_of shown.now.entries)
        (rows_of shown.now.entries) hour exports
        × AreRowTexts format currency.now exports text.items) }
{
    let segments = shown.segments(alloc)?;
    let commitments = shown.state().commitment_list();
    let rows = exports_at(alloc, segments.as_slice(), commitments, hour)?;
    rows_text(alloc, currency, format, rows.as_slice())
}

// The text of rows.
fn rows_text(
    alloc: Global,
    currency: &str,
    format: ExportFormat,
    rows: &[ExportedRow<'_>],
) -> Result<Vec<u8>, AllocError>
    ensures { IfOk result (λ text. AreRowTexts format currency.now rows.now text.items) }
{
    match format {
        ExportFormat::Csv => csv_rows(alloc, currency, rows),
        ExportFormat::JsonLines => json_rows(alloc, currency, rows),
    }
}
