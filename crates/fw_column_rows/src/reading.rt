//! How a CSV text reads as columns.
ghost use Rattle.fw_rows.specs.Rows.{RowsRead};

use crate::filling::Filling;
use crate::known::KnownTexts;
use fw_charge::Currency;
use fw_columns::Columns;
use fw_rows::{RowFault, read_into};
use std::alloc::Global;
use std::mem::replace;

/// Reads the rows of a CSV text into columns: those that [`fw_rows::read_rows`] answers, in the same order, or the same fault. Costs are in
/// `currency`. `NoMemory` comes where memory runs out, at any place.
pub fn read_columns(alloc: Global, text: &[u8], currency: Currency) -> Result<Columns, RowFault>
    ensures { RowsRead currency text.now result }
{
    read_columns_after(alloc, text, currency, &mut KnownTexts::new(alloc))
}

/// Reads the rows of a CSV text into columns, as [`read_columns`] does. A text of tags that was read for the rows of an earlier text isn't read
/// again where its tags are known. What is known afterwards has no effect on what a later text reads as.
pub fn read_columns_after(
    alloc: Global,
    text: &[u8],
    currency: Currency,
    known: &mut KnownTexts,
) -> Result<Columns, RowFault>
    ensures { RowsRead currency text.now result }
{
    let before = replace(known, KnownTexts::new(alloc));
    let mut filling = Filling::new(alloc, before)?;
    let read = read_into(alloc, text, currency, &mut filling);
    let (builder, after) = filling.into_parts();
    *known = after;
    read?;
    let columns = builder.finish()?;
    Ok(columns)
}
