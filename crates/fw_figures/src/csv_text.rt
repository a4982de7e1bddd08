//! The figures of commitments as CSV.
use crate::book::Keeper;
use crate::parts::{Commitments, Part};
use crate::record::{
    Record, UnitRecord, Units, amounts_of, records_of, units_by_name, units_of_all, unpriced_of,
};
use crate::sheet::Sheet;
use crate::table::name_columns;
use csv::{Writer, WriterBuilder};
use fw_calendar::hour_text;
use std::alloc::{AllocError, Global};

/// The names of the costs, in the order of their columns.
const COSTS: [&str; 8] = [
    "UsedCost",
    "UnusedCost",
    "AmortizedCost",
    "PurchaseCost",
    "CoveredCost",
    "UncoveredCost",
    "EligibleCost",
    "Savings",
];

/// The figures as CSV: a line of names, and a record for each commitment or group and for all together, exact to the nano; behind them come records
/// of quantities, for each group and unit, and for each unit. By period each record has the hours that it is of in front. Where a tag has prices, it
/// ends with how many rows have none.
pub(crate) fn csv_text(
    alloc: Global,
    commitments: &Commitments<'_>,
    sheet: &Sheet<'_, '_, '_>,
) -> Result<Vec<u8>, AllocError> {
    let mut writer = WriterBuilder::new().from_writer(Vec::new(alloc));
    write_header(alloc, &mut writer, sheet)?;
    if sheet.step.is_none() {
        write_part(alloc, &mut writer, &commitments.whole, sheet)?;
    }
    for part in &commitments.parts {
        write_part(alloc, &mut writer, part, sheet)?;
    }
    match writer.into_inner() {
        Ok(text) => Ok(text),
        Err(_) => Err(AllocError),
    }
}

// Writes the names of the columns.
fn write_header(
    alloc: Global,
    writer: &mut Writer<Vec<u8>>,
    sheet: &Sheet<'_, '_, '_>,
) -> Result<(), AllocError> {
    let mut names: Vec<&[u8]> = Vec::new(alloc);
    if sheet.step.is_some() {
        names.push(b"From")?;
        names.push(b"To")?;
    }
    names.push(b"Kind")?;
    names.push(b"Keeper")?;
    push_names(&mut names, sheet.keys)?;
    for name in COSTS {
        names.push(name.as_bytes())?;
    }
    if sheet.price_tag.is_some() {
        names.push(b"UnpricedRows")?;
    }
    write_record(writer, names.as_slice())
}

// Adds the names of the keys, or that of the id, and of what is known in units.
fn push_names<'n>(names: &mut Vec<&'n [u8]>, keys: &[&'n str]) -> Result<(), AllocError> {
    if keys.is_empty() {
        names.push(b"CommitmentDiscountId")?;
    }
    for key in keys {
        names.push(key.as_bytes())?;
    }
    names.push(b"Unit")?;
    names.push(b"Capacity")?;
    names.push(b"UsedCapacity")?;
    names.push(b"EligibleCapacity")?;
    Ok(())
}

// Writes the records of some hours.
fn write_part(
    alloc: Global,
    writer: &mut Writer<Vec<u8>>,
    part: &Part<'_>,
    sheet: &Sheet<'_, '_, '_>,
) -> Result<(), AllocError> {
    let records = records_of(alloc, part)?;
    for record in &records {
        let cells = cells_of(alloc, part, sheet, record)?;
        write_cells(alloc, writer, cells.as_slice())?;
    }
    if !sheet.keys.is_empty() {
        let by_name = units_by_name(alloc, part)?;
        write_units(alloc, writer, part, sheet, by_name.as_slice())?;
    }
    let of_all = units_of_all(alloc, part)?;
    write_units(alloc, writer, part, sheet, of_all.as_slice())
}

// Writes the records of quantities of some hours.
fn write_units(
    alloc: Global,
    writer: &mut Writer<Vec<u8>>,
    part: &Part<'_>,
    sheet: &Sheet<'_, '_, '_>,
    records: &[UnitRecord<'_>],
) -> Result<(), AllocError> {
    for record in records {
        let cells = unit_cells(alloc, part, sheet, record)?;
        write_cells(alloc, writer, cells.as_slice())?;
    }
    Ok(())
}

// Writes the record with these texts.
fn write_cells(
    alloc: Global,
    writer: &mut Writer<Vec<u8>>,
    cells: &[String],
) -> Result<(), AllocError> {
    let mut fields: Vec<&[u8]> = Vec::new(alloc);
    for cell in cells {
        fields.push(cell.as_bytes())?;
    }
    write_record(writer, fields.as_slice())
}

// Adds the hours of a part, where records have them.
fn push_hours(
    alloc: Global,
    cells: &mut Vec<String>,
    part: &Part<'_>,
    sheet: &Sheet<'_, '_, '_>,
) -> Result<(), AllocError> {
    if sheet.step.is_some() {
        cells.push(hour_text(alloc, part.period.from)?)?;
        cells.push(hour_text(alloc, part.period.to)?)?;
    }
    Ok(())
}

// The texts of a record.
fn cells_of(
    alloc: Global,
    part: &Part<'_>,
    sheet: &Sheet<'_, '_, '_>,
    record: &Record<'_>,
) -> Result<Vec<String>, AllocError> {
    let mut cells = Vec::new(alloc);
    push_hours(alloc, &mut cells, part, sheet)?;
    cells.push(String::from_str(alloc, record.kind(sheet.keys.len()))?)?;
    cells.push(String::from_str(alloc, record.keeper.word())?)?;
    for place in 0..name_columns(sheet) {
        cells.push(String::from_str(alloc, record.text_at(place))?)?;
    }
    push_units(alloc, &mut cells, record.units)?;
    for amount in amounts_of(record)? {
        cells.push(amount_text(alloc, amount)?)?;
    }
    if sheet.price_tag.is_some() {
        cells.push(count_text(alloc, unpriced_of(record))?)?;
    }
    Ok(cells)
}

// The texts of a record of quantities.
fn unit_cells(
    alloc: Global,
    part: &Part<'_>,
    sheet: &Sheet<'_, '_, '_>,
    record: &UnitRecord<'_>,
) -> Result<Vec<String>, AllocError> {
    let mut cells = Vec::new(alloc);
    push_hours(alloc, &mut cells, part, sheet)?;
    cells.push(String::from_str(alloc, record.kind())?)?;
    cells.push(String::from_str(alloc, Keeper::Own.word())?)?;
    for place in 0..name_columns(sheet) {
        cells.push(String::from_str(alloc, record.text_at(place))?)?;
    }
    cells.push(String::from_str(alloc, record.unit)?)?;
    cells.push(amount_text(alloc, record.capacity)?)?;
    cells.push(fw_money::text(alloc, record.used)?)?;
    cells.push(fw_money::text(alloc, record.usable)?)?;
    for _cost in COSTS {
        cells.push(String::new(alloc))?;
    }
    if sheet.price_tag.is_some() {
        cells.push(String::new(alloc))?;
    }
    Ok(cells)
}

// Adds what is known in units.
fn push_units(
    alloc: Global,
    cells: &mut Vec<String>,
    units: Option<Units<'_>>,
) -> Result<(), AllocError> {
    let Some(units) = units else {
        for _cell in 0..4 {
            cells.push(String::new(alloc))?;
        }
        return Ok(());
    };
    cells.push(String::from_str(alloc, units.unit)?)?;
    cells.push(quantity_text(alloc, units.capacity)?)?;
    cells.push(quantity_text(alloc, units.used)?)?;
    cells.push(fw_money::text(alloc, units.usable)?)?;
    Ok(())
}

/// A quantity with nine digits after the point. One past 2^127 takes more hours than a range has, and is answered as out of memory.
pub(crate) fn quantity_text(alloc: Global, quantity: u128) -> Result<String, AllocError> {
    match i128::try_from(quantity) {
        Ok(quantity) => fw_money::text(alloc, quantity),
        Err(_) => Err(AllocError),
    }
}

// An amount with nine digits after the point; empty where it isn't known.
fn amount_text(alloc: Global, amount: Option<i128>) -> Result<String, AllocError> {
    match amount {
        Some(nanos) => fw_money::text(alloc, nanos),
        None => Ok(String::new(alloc)),
    }
}

// A count; empty where it isn't known.
fn count_text(alloc: Global, count: Option<i128>) -> Result<String, AllocError> {
    match count {
        Some(count) => format!(in alloc; "{count}"),
        None => Ok(String::new(alloc)),
    }
}

// Writes a record.
fn write_record(writer: &mut Writer<Vec<u8>>, fields: &[&[u8]]) -> Result<(), AllocError> {
    let Ok(()) = writer.write_fields(fields) else {
        return Err(AllocError);
    };
    Ok(())
}
