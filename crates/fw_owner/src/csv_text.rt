//! What a group cost, as CSV.
use crate::owned::{Owned, Stretch};
use crate::view::View;
use csv::{Writer, WriterBuilder};
use fw_calendar::{Period, hour_text};
use fw_compare::Costs;
use std::alloc::{AllocError, Global};

/// The names of the columns.
const HEADER: [&str; 14] = [
    "From",
    "To",
    "Group",
    "BilledCost",
    "EffectiveCost",
    "ChargedCost",
    "FromBefore",
    "ToBefore",
    "BilledCostBefore",
    "EffectiveCostBefore",
    "ChargedCostBefore",
    "BilledCostDifference",
    "EffectiveCostDifference",
    "ChargedCostDifference",
];

/// How many columns say what a group cost before.
const COLUMNS_BEFORE: usize = 8;

/// What a group cost as CSV: a line of names, and a record of the range or, where it is cut, one of each period, exact to the nano. What there is no
/// hour for, before 1970, is empty.
pub(crate) fn csv_text(
    alloc: Global,
    owned: &Owned,
    view: &View<'_>,
) -> Result<Vec<u8>, AllocError> {
    let mut writer = WriterBuilder::new().from_writer(Vec::new(alloc));
    let mut names: Vec<&[u8]> = Vec::new(alloc);
    for name in HEADER.iter() {
        names.push(name.as_bytes())?;
    }
    write_record(&mut writer, names.as_slice())?;
    if view.step.is_none() {
        write_stretch(alloc, &mut writer, &owned.whole, view)?;
    }
    for part in &owned.parts {
        write_stretch(alloc, &mut writer, part, view)?;
    }
    match writer.into_inner() {
        Ok(text) => Ok(text),
        Err(_) => Err(AllocError),
    }
}

// Writes the record of some hours.
fn write_stretch(
    alloc: Global,
    writer: &mut Writer<Vec<u8>>,
    stretch: &Stretch,
    view: &View<'_>,
) -> Result<(), AllocError> {
    let cells = cells_of(alloc, stretch, view)?;
    let mut fields: Vec<&[u8]> = Vec::new(alloc);
    for cell in &cells {
        fields.push(cell.as_bytes())?;
    }
    write_record(writer, fields.as_slice())
}

// The texts of a record.
fn cells_of(alloc: Global, stretch: &Stretch, view: &View<'_>) -> Result<Vec<String>, AllocError> {
    let mut cells = Vec::new(alloc);
    push_hours(alloc, &mut cells, stretch.hours)?;
    cells.push(String::from_str(alloc, view.group)?)?;
    push_costs(alloc, &mut cells, stretch.costs)?;
    match stretch.before {
        Some(before) => {
            push_hours(alloc, &mut cells, before.hours)?;
            push_costs(alloc, &mut cells, before.costs)?;
            push_costs(alloc, &mut cells, before.change)?;
        }
        None => {
            for _column in 0..COLUMNS_BEFORE {
                cells.push(String::new(alloc))?;
            }
        }
    }
    Ok(cells)
}

// Adds the ends of some hours.
fn push_hours(alloc: Global, cells: &mut Vec<String>, hours: Period) -> Result<(), AllocError> {
    cells.push(hour_text(alloc, hours.from)?)?;
    cells.push(hour_text(alloc, hours.to)?)?;
    Ok(())
}

// Adds costs.
fn push_costs(alloc: Global, cells: &mut Vec<String>, costs: Costs) -> Result<(), AllocError> {
    cells.push(fw_money::text(alloc, costs.billed)?)?;
    cells.push(fw_money::text(alloc, costs.effective)?)?;
    cells.push(fw_money::text(alloc, costs.charged)?)?;
    Ok(())
}

// Writes a record.
fn write_record(writer: &mut Writer<Vec<u8>>, fields: &[&[u8]]) -> Result<(), AllocError> {
    let Ok(()) = writer.write_fields(fields) else {
        return Err(AllocError);
    };
    Ok(())
}
