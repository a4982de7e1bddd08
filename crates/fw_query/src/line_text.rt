//! The record of a line.
ghost use Rattle.std.specs.Prelude.{◌≡◌, ◌++◌, List, ℕ, map, option_copied, option_map, IfOk, OnOk, string_bytes};
ghost use Rattle.std.specs.List.{concat};
ghost use Rattle.fw_money.specs.Writing.{text_of};
ghost use Rattle.fw_amortise.specs.LineView.{discount_of};
ghost use Rattle.fw_query.specs.Texts.{id_text, kind_text, line_fields, line_header, or_empty, record_line, status_text};
ghost use Rattle.fw_query.specs.LineTexts.{AreChargeTexts, AreMeasureTexts, texts_of};
ghost use Rattle.fw_query.specs.Writers.{HasWritten};

use crate::text::write_record;
use csv::Writer;
use fw_amortise::{Line, LineDiscount};
use fw_money::Nanos;
use std::alloc::{AllocError, Global};

// Writes the names of the columns.
#[tactic(auto, unfolding(crate::specs::Texts::line_header))]
pub(crate) fn write_names(writer: &mut Writer<Vec<u8>>) -> Result<(), AllocError>
    ensures { OnOk result ((text : List ℕ) → HasWritten writer.old text
        → HasWritten writer.new (text ++ record_line line_header)) }
{
    let names: [&[u8]; 10] = [
        b"Hour",
        b"ChargeCategory",
        b"CommitmentDiscountId",
        b"CommitmentDiscountCategory",
        b"CommitmentDiscountStatus",
        b"BilledCost",
        b"EffectiveCost",
        b"ConsumedQuantity",
        b"SkuId",
        b"SubAccountId",
    ];
    write_record(writer, &names)
}

// Writes the records of lines.
pub(crate) fn write_lines(
    alloc: Global,
    writer: &mut Writer<Vec<u8>>,
    lines: &[Line<'_>],
) -> Result<(), AllocError>
    ensures { OnOk result ((text : List ℕ) → HasWritten writer.old text
        → HasWritten writer.new (text ++ concat (map record_line (map line_fields lines.now)))) }
{
    for line in lines {
        write_line(alloc, writer, line)?;
    }
    Ok(())
}

// Writes the record of a line.
fn write_line(
    alloc: Global,
    writer: &mut Writer<Vec<u8>>,
    line: &Line<'_>,
) -> Result<(), AllocError>
    ensures { OnOk result ((text : List ℕ) → HasWritten writer.old text
        → HasWritten writer.new (text ++ record_line (line_fields line.now))) }
{
    let mut digits = itoa::Buffer::new();
    let commitment = line.commitment();
    let billed = amount_text(alloc, line.billed())?;
    let effective = amount_text(alloc, line.effective())?;
    let quantity = quantity_text(alloc, line.quantity())?;
    let charge = ChargeTexts::of(
        digits.format(line.hour()),
        line.category().word(),
        id_of(commitment),
        kind_of(commitment),
        status_of(commitment),
    );
    let measure = MeasureTexts::of(
        billed.as_str(),
        effective.as_str(),
        quantity.as_str(),
        or_empty(line.sku()),
        or_empty(line.sub_account()),
    );
    write_texts(writer, charge, measure)
}

// Writes a record of these texts.
fn write_texts<'t>(
    writer: &mut Writer<Vec<u8>>,
    charge: ChargeTexts<'t>,
    measure: MeasureTexts<'t>,
) -> Result<(), AllocError>
    ensures { OnOk result ((text : List ℕ) → HasWritten writer.old text
        → HasWritten writer.new (text ++ record_line (texts_of charge.entry measure.entry))) }
{
    let fields: [&'t [u8]; 10] = [
        charge.hour.as_bytes(),
        charge.category.as_bytes(),
        charge.id.as_bytes(),
        charge.kind.as_bytes(),
        charge.status.as_bytes(),
        measure.billed.as_bytes(),
        measure.effective.as_bytes(),
        measure.quantity.as_bytes(),
        measure.sku.as_bytes(),
        measure.sub_account.as_bytes(),
    ];
    write_record(writer, &fields)
}

// The first five fields of a record: what was charged.
#[derive(Clone, Copy, Drop)]
struct ChargeTexts<'t> {
    hour: &'t str,
    category: &'t str,
    id: &'t str,
    kind: &'t str,
    status: &'t str,
}

impl<'t> ChargeTexts<'t> {
    fn of(
        hour: &'t str,
        category: &'t str,
        id: &'t str,
        kind: &'t str,
        status: &'t str,
    ) -> ChargeTexts<'t>
        ensures { AreChargeTexts result hour.now category.now id.now kind.now status.now }
    {
        ChargeTexts {
            hour,
            category,
            id,
            kind,
            status,
        }
    }
}

// The last five fields of a record: what it cost, and for what.
#[derive(Clone, Copy, Drop)]
struct MeasureTexts<'t> {
    billed: &'t str,
    effective: &'t str,
    quantity: &'t str,
    sku: &'t str,
    sub_account: &'t str,
}

impl<'t> MeasureTexts<'t> {
    fn of(
        billed: &'t str,
        effective: &'t str,
        quantity: &'t str,
        sku: &'t str,
        sub_account: &'t str,
    ) -> MeasureTexts<'t>
        ensures { AreMeasureTexts result billed.now effective.now quantity.now sku.now
            sub_account.now }
    {
        MeasureTexts {
            billed,
            effective,
            quantity,
            sku,
            sub_account,
        }
    }
}

// The text of an amount.
fn amount_text(alloc: Global, amount: Nanos) -> Result<String, AllocError>
    ensures { IfOk result (λ text. string_bytes text ≡ text_of amount) }
{
    fw_money::text(alloc, i128::from(amount.count()))
}

// The text of a quantity, which is empty where it is null.
fn quantity_text(alloc: Global, quantity: Option<Nanos>) -> Result<String, AllocError>
    ensures { IfOk result (λ text. string_bytes text ≡ or_empty text_of quantity) }
{
    match quantity {
        Some(amount) => amount_text(alloc, amount),
        None => Ok(String::new(alloc)),
    }
}

// A text, which is empty where it is null.
fn or_empty(text: Option<&str>) -> &str
    ensures { result.now ≡ or_empty (λ t. t) (option_copied text.entry) }
{
    match text {
        Some(text) => text,
        None => "",
    }
}

/// The id of a discount, as the text of a line has it: empty where there is none.
pub fn id_of(discount: Option<LineDiscount<'_>>) -> &str
    ensures { result.now ≡ id_text (option_map discount_of discount.entry) }
{
    match discount {
        Some(discount) => discount.id,
        None => "",
    }
}

// The kind of a discount, which is empty where there is none.
fn kind_of(discount: Option<LineDiscount<'_>>) -> &'static str
    ensures { result.now ≡ kind_text (option_map discount_of discount.entry) }
{
    match discount {
        Some(discount) => discount.kind.word(),
        None => "",
    }
}

/// The status of a discount, as the text of a line has it: empty where there is none.
pub fn status_of(discount: Option<LineDiscount<'_>>) -> &'static str
    ensures { result.now ≡ status_text (option_map discount_of discount.entry) }
{
    match discount {
        Some(
            LineDiscount {
                status: Some(status),
                ..
            },
        ) => status.word(),
        _ => "",
    }
}
