//! How the figures of commitments are written.
use crate::csv_text::csv_text;
use crate::json::json_text;
use crate::page::page_text;
use crate::parts::Commitments;
use crate::table::table_of;
use fw_calendar::{Period, Step};
use std::alloc::{AllocError, Global};

/// How the figures are written.
#[derive(Clone, Copy, Debug, Drop, PartialEq, Eq)]
pub enum SheetFormat {
    /// Columns that line up, in cents and percent.
    Table,
    /// Records, exact to the nano.
    Csv,
    /// One object, exact to the nano.
    Json,
    /// A page with a chart, in cents and percent.
    Html,
}

/// What was asked, as it is written beside the answer.
#[derive(Clone, Copy, Debug)]
pub struct Sheet<'s, 'n, 'c> {
    /// The names of the keys; none where the figures are by commitment.
    pub keys: &'s [&'n str],
    /// The tag that has the prices of what providers' commitments cover, where one has.
    pub price_tag: Option<&'n str>,
    /// The currency of all costs.
    pub currency: &'c str,
    /// The hours of the range.
    pub hours: Period,
    /// What the range is cut by, where it is.
    pub step: Option<Step>,
}

/// The figures in a format. The one error is that memory ran out, or that a sum passes 128 bits.
pub fn written(
    alloc: Global,
    commitments: &Commitments<'_>,
    sheet: &Sheet<'_, '_, '_>,
    format: SheetFormat,
) -> Result<Vec<u8>, AllocError> {
    match format {
        SheetFormat::Table => Ok(table_of(alloc, commitments, sheet)?.into_bytes()),
        SheetFormat::Csv => csv_text(alloc, commitments, sheet),
        SheetFormat::Json => Ok(json_text(alloc, commitments, sheet)?.into_bytes()),
        SheetFormat::Html => page_text(alloc, commitments, sheet),
    }
}
