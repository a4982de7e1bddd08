//! How a CSV text reads as columns where columns are kept as tags.
ghost use Rattle.std.specs.Prelude.{◌≡◌};
ghost use Rattle.fw_rows.specs.Kept.{RowsKept};

use crate::filling::Filling;
use crate::known::KnownTexts;
use fw_charge::Currency;
use fw_columns::Columns;
use fw_rows::{Keeper, RowFault, read_into_keeping};
use std::alloc::Global;
use std::mem::replace;

/// Reads the rows of a CSV text into columns, as [`crate::read_columns_after`] does, with columns kept as tags: the text
/// of a record in such a column is a tag of its row, unless it is empty.
///
/// A further fault of a record is `TagTwice`, where its tags have the key of one of these already.
pub fn read_columns_keeping(
    alloc: Global,
    text: &[u8],
    currency: Currency,
    known: &mut KnownTexts,
    keeper: &mut Keeper,
) -> Result<Columns, RowFault>
    ensures rows { RowsKept currency keeper.old.keeps text.now result }
    ensures same { keeper.new.keeps ≡ keeper.old.keeps }
{
    let before = replace(known, KnownTexts::new(alloc));
    let mut filling = Filling::new(alloc, before)?;
    let read = read_into_keeping(alloc, text, currency, keeper, &mut filling);
    let (builder, after) = filling.into_parts();
    *known = after;
    read?;
    let columns = builder.finish()?;
    Ok(columns)
}
