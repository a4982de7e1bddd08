//! The rows of columns that were read.
ghost use Rattle.std.specs.Prelude.{◌≡◌, ◌≤◌, ◌==◌, map, pos, string_bytes, All, IfNone, IfOk, IfSome};
ghost use Rattle.fw_bytes.specs.Reading.{Gives};
ghost use Rattle.fw_charge.specs.Charge.{last_second};
ghost use Rattle.fw_row_table.specs.Names.{AreNames};
ghost use Rattle.fw_column_bytes.specs.Fits.{FitParts};
ghost use Rattle.fw_column_bytes.specs.PartsView.{parts_view};
ghost use Rattle.fw_column_bytes.specs.Reading.{columns_at};
ghost use Rattle.fw_column_bytes.specs.Rows.{AreColumnsOf, AreReadIn, HaveNoRows, IsRewritten};

use crate::reading::{PartsRead, parts_of};
use fw_bytes::ReadError;
use fw_columns::{Columns, Names};
use fw_row_table::Table;
use std::alloc::{AllocError, Global};

/// Flags of a byte each: whether it is 1.
fn flags_of(alloc: Global, column: &[u8]) -> Result<Vec<bool>, AllocError>
    ensures { IfOk result (λ flags. flags.items ≡ map (λ byte. byte == 1) column.now) }
{
    let mut flags = Vec::with_capacity(alloc, column.len())?;
    for byte in column {
        flags.push(*byte == 1)?;
    }
    Ok(flags)
}

/// Seconds as numbers with a sign.
fn signed_of(alloc: Global, column: &[u64]) -> Result<Vec<i64>, AllocError>
    requires { All (λ second. second ≤ last_second) column.now }
    ensures { IfOk result (λ signed. signed.items ≡ map pos column.now) }
{
    let mut signed = Vec::with_capacity(alloc, column.len())?;
    for second in column {
        signed.push(*second as i64)?;
    }
    Ok(signed)
}

/// What rows keep in another way than the bytes.
#[derive(Drop)]
pub struct Rewritten {
    pub names: Names,
    pub starts: Vec<i64>,
    pub has_quantity: Vec<bool>,
}

/// Names, first seconds and flags as rows keep them. `None` where a name is there twice, or there are too many.
fn rewrite(alloc: Global, parts: &PartsRead) -> Result<Option<Rewritten>, AllocError>
    requires { FitParts (parts_view parts.now) }
    ensures some { IfOk result (λ made. IfSome made (λ kept. IsRewritten parts.now kept)) }
    ensures none { IfOk result (λ made.
        IfNone made (¬ AreNames (map string_bytes parts.now.front.names.items))) }
{
    let Some(names) = Names::of_texts(alloc, parts.front.names.as_slice())? else {
        return Ok(None);
    };
    let starts = signed_of(alloc, parts.body.periods.starts.as_slice())?;
    let has_quantity = flags_of(alloc, parts.body.quantities.are_there.as_slice())?;
    Ok(Some(Rewritten {
        names,
        starts,
        has_quantity,
    }))
}

/// The table of the columns that were read, and of what rows keep in another way.
fn table_with(parts: PartsRead, kept: Rewritten) -> Table
    requires { IsRewritten parts kept }
    ensures { AreReadIn result parts }
{
    let body = parts.body;
    let amounts = body.amounts;
    let periods = body.periods;
    let discounts = body.discounts;
    let quantities = body.quantities;
    let texts = body.texts;
    let (lists, tags) = body.tags.split();
    Table {
        names: kept.names,
        lists,
        billed: amounts.billed,
        effective: amounts.effective,
        categories: amounts.categories,
        classes: amounts.classes,
        starts: kept.starts,
        ends: periods.ends,
        discounts: discounts.ids,
        kinds: discounts.kinds,
        statuses: discounts.statuses,
        quantities: quantities.counts,
        has_quantity: kept.has_quantity,
        units: texts.units,
        skus: texts.skus,
        sub_accounts: texts.sub_accounts,
        tags,
    }
}

/// The columns of the rows that were read. `None` where no rows have these.
fn columns_with(alloc: Global, parts: PartsRead) -> Result<Option<Columns>, AllocError>
    requires { FitParts (parts_view parts) }
    ensures some { IfOk result (λ made.
        IfSome made (λ rows. AreColumnsOf (parts_view parts) rows)) }
    ensures none { IfOk result (λ made. IfNone made (HaveNoRows (parts_view parts))) }
{
    let Some(kept) = rewrite(alloc, &parts)? else {
        return Ok(None);
    };
    let columns = Columns::checked(alloc, table_with(parts, kept))?;
    Ok(columns)
}

/// Rows by column, from their layout on, and the bytes after them. What is returned is spelled by the bytes that it was read from.
///
/// # Errors
/// [`ReadError::Corrupt`] at the first field that is cut off or out of its range: another layout than 2, a number of rows that is 0 or above
/// 65,536, a name that isn't UTF-8 or has more than 1,024 bytes, an amount, a second or a code out of its range, the code of a name that isn't
/// there, that of an id, a unit, a SKU or a sub-account whose name hasn't 1 to 256 bytes, more than 256 tags. Where there is none, at the layout where the
/// period of a row ends before it starts, where the parts of a discount don't agree (`fw_fields::discount_agrees`), where the keys of the tags don't rise,
/// where a null quantity has another amount than 0, or where the names aren't each text of the rows once, in the order in which it first occurs.
/// [`ReadError::NoMemory`] where there is no memory for the rows, reported where it runs out: a later fault isn't looked for.
#[inline(never)]
pub fn columns_of(alloc: Global, bytes: &[u8]) -> Result<(Columns, &[u8]), ReadError>
    ensures { Gives (λ x. (x.0, x.1.now)) result (columns_at bytes.now) }
{
    let (parts, rest) = parts_of(alloc, bytes)?;
    match columns_with(alloc, parts)? {
        Some(rows) => Ok((rows, rest)),
        None => Err(ReadError::Corrupt(bytes.len())),
    }
}
