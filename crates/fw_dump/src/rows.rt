//! The rows of a post, as CSV.
use crate::instants::Instants;
use crate::spelled::SpelledTags;
use crate::values::{QUOTE, QUOTE_IN_FIELD, push_amount, push_byte, push_comma, push_text};
use fw_charge::Currency;
use fw_columns::{Columns, LentDiscount, LentRow};
use fw_entries::{Run, Runs};
use fw_money::Nanos;
use fw_rows::Column;
use std::alloc::{AllocError, Global};

/// The CSV of rows: a header with each column that is read, and a record for each row, whose costs are in this currency.
pub(crate) fn rows_csv(
    alloc: Global,
    currency: Currency,
    rows: &Columns,
) -> Result<Vec<u8>, AllocError> {
    let mut tags = SpelledTags::new(alloc);
    let mut out = Vec::new(alloc);
    push_header(&mut out)?;
    push_rows(&mut out, currency, rows, 0, rows.len(), &mut tags)?;
    Ok(out)
}

/// The CSV of rows that stand in segments, whose tags are spelled as far as they were met.
pub(crate) fn runs_csv(
    alloc: Global,
    currency: Currency,
    runs: Runs<'_>,
    tags: &mut SpelledTags,
) -> Result<Vec<u8>, AllocError> {
    let mut runs = runs;
    let mut out = Vec::new(alloc);
    push_header(&mut out)?;
    while let Some(run) = runs.next() {
        tags.of_segment(run.segment);
        push_rows(&mut out, currency, run.columns, run.first, run.end, tags)?;
    }
    Ok(out)
}

// Appends the records of rows of columns: from one on, and before another one.
fn push_rows(
    out: &mut Vec<u8>,
    currency: Currency,
    columns: &Columns,
    first: usize,
    end: usize,
    tags: &mut SpelledTags,
) -> Result<(), AllocError> {
    let mut periods = Periods::new(*out.allocator());
    for place in first..end.min(columns.len()) {
        let row = columns.lent(place);
        let spelled = tags.text_of(columns.tag_list_code(place), row.tags())?;
        push_record(out, currency, &row, spelled, &mut periods)?;
    }
    Ok(())
}

// The instants that periods start and end at: rows of one hour mostly have the same.
struct Periods {
    starts: Instants,
    ends: Instants,
}

impl Drop for Periods {
    fn drop(self) {
        let Self { starts: _, ends: _ } = self;
    }
}

impl Periods {
    fn new(alloc: Global) -> Periods {
        Periods {
            starts: Instants::new(alloc),
            ends: Instants::new(alloc),
        }
    }
}

// Appends the names of the columns.
fn push_header(out: &mut Vec<u8>) -> Result<(), AllocError> {
    let mut is_first = true;
    for column in Column::ALL {
        push_comma(out, is_first)?;
        is_first = false;
        push_text(out, column.name())?;
    }
    push_byte(out, b'\n')
}

// Appends the record of a row, whose tags are written as this.
fn push_record(
    out: &mut Vec<u8>,
    currency: Currency,
    row: &LentRow<'_>,
    tags: &[u8],
    periods: &mut Periods,
) -> Result<(), AllocError> {
    let mut is_first = true;
    for column in Column::ALL {
        push_comma(out, is_first)?;
        is_first = false;
        match column {
            Column::Tags => out.extend_from_slice(tags)?,
            Column::ChargePeriodStart => periods.starts.push(out, row.start())?,
            Column::ChargePeriodEnd => periods.ends.push(out, row.end())?,
            _ => push_cell(out, currency, row, column)?,
        }
    }
    push_byte(out, b'\n')
}

// Appends what a row has in a column, tags and period aside; nothing where it is null.
fn push_cell(
    out: &mut Vec<u8>,
    currency: Currency,
    row: &LentRow<'_>,
    column: Column,
) -> Result<(), AllocError> {
    match column {
        Column::BilledCost => push_amount(out, row.billed()),
        Column::EffectiveCost => push_amount(out, row.effective()),
        Column::BillingCurrency => out.extend_from_slice(currency.code()),
        Column::ChargeCategory => push_text(out, row.category().word()),
        Column::ChargeClass => push_text(out, class_word(row.is_correction())),
        Column::CommitmentDiscountId => push_field(out, id_of(row.discount())),
        Column::CommitmentDiscountCategory => push_text(out, kind_of(row.discount())),
        Column::CommitmentDiscountStatus => push_text(out, status_of(row.discount())),
        Column::ConsumedQuantity => push_quantity(out, row.quantity()),
        Column::ConsumedUnit => push_field(out, row.unit().unwrap_or("")),
        Column::SkuId => push_field(out, row.sku().unwrap_or("")),
        Column::SubAccountId => push_field(out, row.sub_account().unwrap_or("")),
        // They are spelled once for all rows that have them.
        Column::ChargePeriodStart | Column::ChargePeriodEnd | Column::Tags => Ok(()),
    }
}

// Appends a text as a field: in quotes where it has a byte that parts fields or records.
fn push_field(out: &mut Vec<u8>, text: &str) -> Result<(), AllocError> {
    if !text.as_bytes().iter().any(|byte| parts_fields(*byte)) {
        return push_text(out, text);
    }
    push_text(out, QUOTE)?;
    for byte in text.as_bytes() {
        if *byte == b'"' {
            push_text(out, QUOTE_IN_FIELD)?;
        } else {
            push_byte(out, *byte)?;
        }
    }
    push_text(out, QUOTE)
}

// Whether a byte outside of quotes parts fields or records, or begins quotes.
fn parts_fields(byte: u8) -> bool {
    matches!(byte, b',' | b'"' | b'\n' | b'\r')
}

// The word of a class.
fn class_word(is_correction: bool) -> &'static str {
    if is_correction { "Correction" } else { "" }
}

// The id of a discount, which is empty where there is none.
fn id_of(discount: Option<LentDiscount<'_>>) -> &str {
    match discount {
        Some(discount) => discount.id,
        None => "",
    }
}

// The word of a discount's kind, which is empty where there is none.
fn kind_of(discount: Option<LentDiscount<'_>>) -> &'static str {
    match discount {
        Some(discount) => discount.kind.word(),
        None => "",
    }
}

// The word of a discount's status, which is empty where there is none.
fn status_of(discount: Option<LentDiscount<'_>>) -> &'static str {
    let Some(discount) = discount else {
        return "";
    };
    match discount.status {
        Some(status) => status.word(),
        None => "",
    }
}

// Appends a quantity; nothing where it is null.
fn push_quantity(out: &mut Vec<u8>, quantity: Option<Nanos>) -> Result<(), AllocError> {
    match quantity {
        Some(amount) => push_amount(out, amount),
        None => Ok(()),
    }
}
