//! The texts of a row, column by column.
ghost use Rattle.std.specs.Prelude.{◌≡◌, ◌∷◌, [], IfOk, ℕ, List, codes, map, option_and_then, option_copied, option_map, string_bytes};
ghost use Rattle.fw_charge.specs.Codes.{kind_word, status_word};
ghost use Rattle.fw_money.specs.Writing.{text_of};
ghost use Rattle.fw_amortise.specs.LineView.{discount_of};
ghost use Rattle.fw_allocated.specs.Cells.{cells_of, class_cell};
ghost use Rattle.fw_allocated.specs.OwnTexts.{AreOwnTexts};
ghost use Rattle.fw_allocated.specs.RowView.{charge_of};

use crate::instants::second_text;
use crate::row::ExportedFields;
use crate::tags::tags_text;
use fw_amortise::LineDiscount;
use fw_money::Nanos;
use std::alloc::{AllocError, Global};

/// The texts of a row that are made for it: those of its amounts, of its period and of its tags.
#[derive(Drop)]
pub(crate) struct OwnTexts {
    pub(crate) billed: String,
    pub(crate) effective: String,
    pub(crate) quantity: Option<String>,
    pub(crate) start: String,
    pub(crate) end: String,
    pub(crate) tags: String,
}

/// The texts that are made for a row.
pub(crate) fn own_texts(alloc: Global, row: &ExportedFields<'_>) -> Result<OwnTexts, AllocError>
    ensures { IfOk result (AreOwnTexts (charge_of row.now)) }
{
    Ok(OwnTexts {
        billed: amount_text(alloc, row.billed)?,
        effective: amount_text(alloc, row.effective)?,
        quantity: quantity_text(alloc, row.quantity)?,
        start: second_text(alloc, row.start)?,
        end: second_text(alloc, row.end)?,
        tags: tags_text(alloc, row.tags)?,
    })
}

/// The texts of a row in each column but the one of its tags, where costs are in this currency. What is null has none.
#[tactic(auto, unfolding(crate::specs::Cells::cells_of))]
pub(crate) fn cells<'t>(
    currency: &'t str,
    row: &ExportedFields<'t>,
    own: &'t OwnTexts,
) -> [Option<&'t str>; 14]
    requires { AreOwnTexts (charge_of row.now) own.now }
    ensures { map option_copied result ≡ cells_of currency.now (charge_of row.now) (string_bytes
        own.now.start) (string_bytes own.now.end) }
{
    [
        Some(own.billed.as_str()),
        Some(own.effective.as_str()),
        Some(currency),
        Some(row.category.word()),
        Some(own.start.as_str()),
        Some(own.end.as_str()),
        class_cell(row.is_correction),
        id_of(row.discount),
        kind_of(row.discount),
        status_of(row.discount),
        lent_text(&own.quantity),
        row.unit,
        row.sku,
        row.sub_account,
    ]
}

// The text of an amount.
fn amount_text(alloc: Global, amount: Nanos) -> Result<String, AllocError>
    ensures { IfOk result (λ text. string_bytes text ≡ text_of amount) }
{
    fw_money::text(alloc, i128::from(amount.count()))
}

// The text of a quantity, or none where it is null.
fn quantity_text(alloc: Global, quantity: Option<Nanos>) -> Result<Option<String>, AllocError>
    ensures { IfOk result (λ text. option_map (λ s. string_bytes s) text ≡ option_map text_of
        quantity) }
{
    match quantity {
        Some(amount) => Ok(Some(amount_text(alloc, amount)?)),
        None => Ok(None),
    }
}

// A text that may be null, lent.
fn lent_text(text: &Option<String>) -> Option<&str>
    ensures { option_copied result ≡ option_map (λ s. string_bytes s) text.now }
{
    match text {
        Some(text) => Some(text.as_str()),
        None => None,
    }
}

// The class of a correction, or none.
#[tactic(auto, unfolding(crate::specs::Cells::class_cell))]
fn class_cell(is_correction: bool) -> Option<&'static str>
    ensures { option_copied result ≡ class_cell is_correction }
{
    if is_correction {
        Some("Correction")
    } else {
        None
    }
}

// The id of a discount, where there is one.
fn id_of(discount: Option<LineDiscount<'_>>) -> Option<&str>
    ensures { option_copied result ≡ option_map (λ d. d.id) (option_map discount_of
        discount.entry) }
{
    match discount {
        Some(discount) => Some(discount.id),
        None => None,
    }
}

// The kind of a discount, where there is one.
fn kind_of(discount: Option<LineDiscount<'_>>) -> Option<&'static str>
    ensures { option_copied result ≡ option_map (λ d. kind_word d.kind) (option_map discount_of
        discount.entry) }
{
    match discount {
        Some(discount) => Some(discount.kind.word()),
        None => None,
    }
}

// The status of a discount, where there is one.
fn status_of(discount: Option<LineDiscount<'_>>) -> Option<&'static str>
    ensures { option_copied result ≡ option_and_then (λ d. option_map status_word d.status)
        (option_map discount_of discount.entry) }
{
    match discount {
        Some(
            LineDiscount {
                status: Some(status),
                ..
            },
        ) => Some(status.word()),
        _ => None,
    }
}
