//! Rows as CSV.
ghost use Rattle.std.specs.Prelude.{◌≡◌, ◌++◌, ◌∷◌, [], IfOk, List, OnOk, codes, map, option_copied, ℕ};
ghost use Rattle.fw_query.specs.Texts.{record_line};
ghost use Rattle.fw_query.specs.Writers.{HasWritten};
ghost use Rattle.fw_allocated.specs.Texts.{AreRowTexts, csv_row, field_of, head_text};
ghost use Rattle.fw_allocated.specs.Writing.{WritesRow, WritesRows};
ghost use Rattle.fw_allocated.specs.declared.format.ExportFormat.TheVariants.{Csv};

use crate::cells::{cells, own_texts};
use crate::row::ExportedRow;
use csv::{Writer, WriterBuilder};
use std::alloc::{AllocError, Global};

/// The record of the names of the columns.
pub(crate) fn csv_head(alloc: Global) -> Result<Vec<u8>, AllocError>
    ensures { IfOk result (λ text. text.items ≡ head_text Csv) }
{
    let mut writer = WriterBuilder::new().from_writer(Vec::new(alloc));
    write_names(&mut writer)?;
    match writer.into_inner() {
        Ok(text) => Ok(text),
        Err(_) => Err(AllocError),
    }
}

// Writes the names of the columns.
#[tactic(auto, unfolding(crate::specs::Texts::head_text, crate::specs::Cells::column_names))]
fn write_names(writer: &mut Writer<Vec<u8>>) -> Result<(), AllocError>
    ensures { OnOk result ((text : List ℕ) → HasWritten writer.old text
        → HasWritten writer.new (text ++ head_text Csv)) }
{
    let names: [&[u8]; 15] = [
        b"BilledCost",
        b"EffectiveCost",
        b"BillingCurrency",
        b"ChargeCategory",
        b"ChargePeriodStart",
        b"ChargePeriodEnd",
        b"ChargeClass",
        b"CommitmentDiscountId",
        b"CommitmentDiscountCategory",
        b"CommitmentDiscountStatus",
        b"ConsumedQuantity",
        b"ConsumedUnit",
        b"SkuId",
        b"SubAccountId",
        b"Tags",
    ];
    write_record(writer, &names)
}

/// The records of rows, whose costs are in this currency.
pub(crate) fn csv_rows(
    alloc: Global,
    currency: &str,
    rows: &[ExportedRow<'_>],
) -> Result<Vec<u8>, AllocError>
    ensures { IfOk result (λ text. AreRowTexts Csv currency.now rows.now text.items) }
{
    let mut writer = WriterBuilder::new().from_writer(Vec::new(alloc));
    write_rows(alloc, &mut writer, currency, rows)?;
    match writer.into_inner() {
        Ok(text) => Ok(text),
        Err(_) => Err(AllocError),
    }
}

// Writes the records of rows.
fn write_rows(
    alloc: Global,
    writer: &mut Writer<Vec<u8>>,
    currency: &str,
    rows: &[ExportedRow<'_>],
) -> Result<(), AllocError>
    ensures { OnOk result (HasWritten writer.old []
        → WritesRows writer.new currency.now rows.now) }
{
    for row in rows {
        write_row(alloc, writer, currency, row)?;
    }
    Ok(())
}

// Writes the record of a row.
fn write_row(
    alloc: Global,
    writer: &mut Writer<Vec<u8>>,
    currency: &str,
    row: &ExportedRow<'_>,
) -> Result<(), AllocError>
    ensures { OnOk result ((text : List ℕ) → HasWritten writer.old text
        → WritesRow writer.new text currency.now row.now) }
{
    let own = own_texts(alloc, row.fields())?;
    let cells = cells(currency, row.fields(), &own);
    write_cells(alloc, writer, &cells, own.tags.as_str())
}

// Writes the record of cells, and of tags behind them.
fn write_cells<'t>(
    alloc: Global,
    writer: &mut Writer<Vec<u8>>,
    cells: &[Option<&'t str>],
    tags: &'t str,
) -> Result<(), AllocError>
    ensures { OnOk result ((text : List ℕ) → HasWritten writer.old text
        → HasWritten writer.new (text
        ++ record_line (map field_of (map option_copied cells.now) ++ tags.now ∷ []))) }
{
    let mut fields = fields_of(alloc, cells)?;
    fields.push(tags.as_bytes())?;
    write_record(writer, fields.as_slice())
}

// The bytes of cells.
fn fields_of<'t>(alloc: Global, cells: &[Option<&'t str>]) -> Result<Vec<&'t [u8]>, AllocError>
    ensures { IfOk result (λ fields. map (λ f. f.now) fields.items ≡ map field_of (map
        option_copied cells.now)) }
{
    let mut fields = Vec::with_capacity(alloc, 15)?;
    for cell in cells {
        fields.push(bytes_of(*cell))?;
    }
    Ok(fields)
}

// The bytes of a cell: none where it is null.
fn bytes_of(cell: Option<&str>) -> &[u8]
    ensures { result.now ≡ field_of (option_copied cell.entry) }
{
    match cell {
        Some(text) => text.as_bytes(),
        None => b"",
    }
}

// Writes a record.
fn write_record(writer: &mut Writer<Vec<u8>>, fields: &[&[u8]]) -> Result<(), AllocError>
    ensures { OnOk result ((text : List ℕ) → HasWritten writer.old text
        → HasWritten writer.new (text ++ record_line (map (λ field. field.now) fields.now))) }
{
    let Ok(()) = writer.write_fields(fields) else {
        return Err(AllocError);
    };
    Ok(())
}
