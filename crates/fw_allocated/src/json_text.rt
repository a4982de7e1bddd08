//! Rows as JSON lines.
ghost use Rattle.std.specs.Prelude.{◌≡◌, ◌++◌, IfOk, List, OnOk, map, string_bytes, ℕ};
ghost use Rattle.fw_allocated.specs.Cells.{column_names};
ghost use Rattle.fw_allocated.specs.Objects.{quoted_text};
ghost use Rattle.fw_allocated.specs.Texts.{AreRowTexts, IsRowText};
ghost use Rattle.fw_allocated.specs.declared.format.ExportFormat.TheVariants.{JsonLines};

use crate::cells::{cells, own_texts};
use crate::json_object::{push_object, quoted_all};
use crate::row::ExportedRow;
use std::alloc::{AllocError, Global};

/// The names of the columns, without the one of the tags.
const NAMES: [&str; 14] = [
    "BilledCost",
    "EffectiveCost",
    "BillingCurrency",
    "ChargeCategory",
    "ChargePeriodStart",
    "ChargePeriodEnd",
    "ChargeClass",
    "CommitmentDiscountId",
    "CommitmentDiscountCategory",
    "CommitmentDiscountStatus",
    "ConsumedQuantity",
    "ConsumedUnit",
    "SkuId",
    "SubAccountId",
];

/// The lines of rows, whose costs are in this currency.
pub(crate) fn json_rows(
    alloc: Global,
    currency: &str,
    rows: &[ExportedRow<'_>],
) -> Result<Vec<u8>, AllocError>
    ensures { IfOk result (λ text. AreRowTexts JsonLines currency.now rows.now text.items) }
{
    let mut text = String::new(alloc);
    let names = quoted_all(alloc, &NAMES)?;
    for row in rows {
        push_row(alloc, &mut text, names.as_slice(), currency, row)?;
    }
    Ok(text.into_bytes())
}

// Adds the line of a row, where these are the names of its columns as strings of JSON.
fn push_row(
    alloc: Global,
    text: &mut String,
    names: &[String],
    currency: &str,
    row: &ExportedRow<'_>,
) -> Result<(), AllocError>
    requires names { map (λ s. string_bytes s) names.now ≡ map quoted_text column_names }
    ensures { OnOk result ((line : List ℕ)
        × IsRowText JsonLines currency.now row.now line
        × (string_bytes text.new ≡ string_bytes text.old ++ line)) }
{
    let own = own_texts(alloc, row.fields())?;
    let cells = cells(currency, row.fields(), &own);
    push_object(alloc, text, names, &cells, own.tags.as_str())
}
