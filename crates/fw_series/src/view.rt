//! How reports are written.
ghost use Rattle.std.specs.Prelude.{◌≡◌, None, IfOk};
ghost use Rattle.fw_query.specs.Texts.{report_text};
ghost use Rattle.fw_series.specs.declared.view.Format.TheVariants.{Csv};

use crate::csv_text::csv_text;
use crate::json::json_text;
use crate::page::{Face, page_text};
use crate::series::Series;
use crate::table::table_of;
use fw_calendar::Step;
use std::alloc::{AllocError, Global};

/// How a report is written.
#[derive(Clone, Copy, Debug, Drop, PartialEq, Eq)]
pub enum Format {
    /// Columns that line up, in cents.
    Table,
    /// Records, exact to the nano.
    Csv,
    /// One object, exact to the nano.
    Json,
    /// A page with a chart, in cents.
    Html,
}

/// What was asked, as it is written beside the answer.
#[derive(Clone, Copy, Debug)]
pub struct View<'v> {
    /// The tag whose values are the groups.
    pub tag: &'v str,
    /// The currency of all costs.
    pub currency: &'v str,
    /// The first hour of the range, counted from 1970.
    pub from: u64,
    /// The hour after the last.
    pub to: u64,
    /// What the range is cut by, where it is.
    pub step: Option<Step>,
    /// How many groups have a line of their own; where there is none, all have.
    pub top: Option<usize>,
}

/// A series in a format. Without periods and with all groups its CSV is that of the report. The one error is that memory ran out, or that a
/// sum of groups passes 128 bits.
pub fn written(
    alloc: Global,
    series: &Series,
    view: &View<'_>,
    format: Format,
) -> Result<Vec<u8>, AllocError>
    ensures csv { format ≡ Csv → view.now.step ≡ None → view.now.top ≡ None
        → IfOk result (λ text. text.items ≡ report_text series.now.whole) }
{
    match format {
        Format::Table => Ok(table_of(alloc, series, view)?.into_bytes()),
        Format::Csv => csv_text(alloc, series, view),
        Format::Json => Ok(json_text(alloc, series, view)?.into_bytes()),
        Format::Html => {
            let face = Face {
                cost: Face::CHARGED,
                about: "",
            };
            page_text(alloc, series, view, &face)
        }
    }
}
