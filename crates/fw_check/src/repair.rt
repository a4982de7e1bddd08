//! A record with one field made harmless, so that the next fault shows.
use crate::fields::{bytes_in, text_in};
use csv::ByteRecord;
use fw_rows::{Column, Currency};
use std::alloc::{AllocError, Global};

/// Whether the record has a commitment's id.
fn has_id(header: &ByteRecord, record: &ByteRecord) -> bool {
    !bytes_in(header, record, Column::CommitmentDiscountId).is_empty()
}

/// A value of a column that breaks no rule beside the other values of the record.
fn harmless<'r>(
    header: &ByteRecord,
    record: &'r ByteRecord,
    column: Column,
    currency: &'r Currency,
) -> &'r [u8] {
    match column {
        Column::BilledCost | Column::EffectiveCost => b"0",
        Column::BillingCurrency => currency.code(),
        Column::ChargeCategory => b"Tax",
        Column::ChargePeriodStart => b"1970-01-01T00:00:00Z",
        Column::ChargePeriodEnd => text_in(header, record, Column::ChargePeriodStart).as_bytes(),
        Column::CommitmentDiscountId if has_id(header, record) => b"x",
        Column::CommitmentDiscountCategory if has_id(header, record) => b"Usage",
        Column::CommitmentDiscountStatus if has_id(header, record) => b"Used",
        _ => b"",
    }
}

/// A text of the header and the record, with a harmless value in one column.
pub(crate) fn repaired(
    alloc: Global,
    header: &ByteRecord,
    record: &ByteRecord,
    column: Column,
    currency: &Currency,
) -> Result<Vec<u8>, AllocError> {
    let value = harmless(header, record, column, currency);
    with_value(alloc, record, column.place_in(header), value)
}

/// A text of the record, with an empty field at a place.
pub(crate) fn emptied(
    alloc: Global,
    record: &ByteRecord,
    place: usize,
) -> Result<Vec<u8>, AllocError> {
    with_value(alloc, record, Some(place), b"")
}

// A text of a record, with another value at a place.
fn with_value(
    alloc: Global,
    record: &ByteRecord,
    place: Option<usize>,
    value: &[u8],
) -> Result<Vec<u8>, AllocError> {
    let mut text = Vec::new(alloc);
    for at in 0..record.len() {
        let field = if Some(at) == place {
            value
        } else {
            record.get(at).unwrap_or(b"")
        };
        put_field(&mut text, at, field)?;
    }
    text.push(b'\n')?;
    Ok(text)
}

// Writes a field in quotes, behind a comma where it isn't the first.
fn put_field(text: &mut Vec<u8>, at: usize, value: &[u8]) -> Result<(), AllocError> {
    if at > 0 {
        text.push(b',')?;
    }
    text.push(b'"')?;
    for byte in value {
        if *byte == b'"' {
            text.push(b'"')?;
        }
        text.push(*byte)?;
    }
    text.push(b'"')?;
    Ok(())
}
