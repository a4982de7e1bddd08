//! The figures of commitments as tables.
use crate::book::Keeper;
use crate::parts::{Commitments, Part};
use crate::record::{
    Record, UnitRecord, amounts_of, records_of, savings_whole, units_by_name, units_of_all,
};
use crate::sheet::Sheet;
use fw_table::{Align, Line, cents_text, share_text, shown_text, table_text};
use std::alloc::{AllocError, Global};

/// The names of the columns behind the texts.
const NAMES: [&str; 8] = [
    "Utilization",
    "UnusedCost",
    "AmortizedCost",
    "CoveredCost",
    "EligibleCost",
    "Coverage",
    "Savings",
    "SavingsRate",
];

/// The names of the columns behind the texts, of the table of quantities.
pub(crate) const UNIT_NAMES: [&str; 5] = [
    "Capacity",
    "UsedCapacity",
    "Utilization",
    "EligibleCapacity",
    "Coverage",
];

/// The figures as a table: a line for each commitment or group, of each period where there are periods, and lines with the figures of all. Where the
/// warehouse has commitments of its own, a table of their quantities is below.
pub(crate) fn table_of(
    alloc: Global,
    commitments: &Commitments<'_>,
    sheet: &Sheet<'_, '_, '_>,
) -> Result<String, AllocError> {
    let mut table = Vec::new(alloc);
    table.push(names_line(alloc, sheet, "Keeper", NAMES.as_slice())?)?;
    table.push(Line::Rule)?;
    if sheet.step.is_none() {
        push_lines(alloc, &mut table, sheet, &commitments.whole, false)?;
    }
    for part in &commitments.parts {
        push_lines(alloc, &mut table, sheet, part, false)?;
    }
    table.push(Line::Rule)?;
    push_lines(alloc, &mut table, sheet, &commitments.whole, true)?;
    let aligns = aligns_of(alloc, sheet, NAMES.len())?;
    let mut text = table_text(alloc, aligns.as_slice(), table.as_slice())?;
    if !commitments.whole.units.is_empty() {
        push_units(alloc, &mut text, commitments, sheet)?;
    }
    if let Some(tag) = sheet.price_tag {
        push_note(alloc, &mut text, &commitments.whole, tag)?;
    }
    Ok(text)
}

// Adds the table of quantities.
fn push_units(
    alloc: Global,
    text: &mut String,
    commitments: &Commitments<'_>,
    sheet: &Sheet<'_, '_, '_>,
) -> Result<(), AllocError> {
    let mut table = Vec::new(alloc);
    table.push(names_line(alloc, sheet, "Unit", UNIT_NAMES.as_slice())?)?;
    table.push(Line::Rule)?;
    if sheet.step.is_none() {
        push_unit_lines(alloc, &mut table, sheet, &commitments.whole)?;
    }
    for part in &commitments.parts {
        push_unit_lines(alloc, &mut table, sheet, part)?;
    }
    table.push(Line::Rule)?;
    for record in &units_of_all(alloc, &commitments.whole)? {
        table.push(unit_line(alloc, sheet, &commitments.whole, record)?)?;
    }
    let aligns = aligns_of(alloc, sheet, UNIT_NAMES.len())?;
    let units = table_text(alloc, aligns.as_slice(), table.as_slice())?;
    text.push('\n')?;
    text.push_str(units.as_str())
}

// Adds the lines of the quantities of the names of some hours.
fn push_unit_lines(
    alloc: Global,
    table: &mut Vec<Line>,
    sheet: &Sheet<'_, '_, '_>,
    part: &Part<'_>,
) -> Result<(), AllocError> {
    for record in &units_by_name(alloc, part)? {
        table.push(unit_line(alloc, sheet, part, record)?)?;
    }
    Ok(())
}

// The line of quantities of a name, or of all.
fn unit_line(
    alloc: Global,
    sheet: &Sheet<'_, '_, '_>,
    part: &Part<'_>,
    record: &UnitRecord<'_>,
) -> Result<Line, AllocError> {
    let mut cells = Vec::new(alloc);
    push_period(alloc, &mut cells, sheet, part, record.texts.is_none())?;
    for place in 0..name_columns(sheet) {
        let text = shown_text_of(sheet, record.texts, record.text_at(place), place);
        cells.push(String::from_str(alloc, text)?)?;
    }
    cells.push(String::from_str(alloc, unit_shown(sheet, record))?)?;
    for cell in unit_cells(alloc, record)? {
        cells.push(cell)?;
    }
    Ok(Line::Cells(cells))
}

/// What people see of the unit of a record.
pub(crate) fn unit_shown<'b>(sheet: &Sheet<'_, '_, 'b>, record: &UnitRecord<'b>) -> &'b str {
    if record.unit.is_empty() {
        sheet.currency
    } else {
        record.unit
    }
}

/// The texts of the quantities of a record, in the order of their columns: in hundredths of the unit, and rates as those of costs.
pub(crate) fn unit_cells(
    alloc: Global,
    record: &UnitRecord<'_>,
) -> Result<Vec<String>, AllocError> {
    let used = Some(record.used);
    let usable = Some(record.usable);
    let mut cells = Vec::new(alloc);
    cells.push(cost_text(alloc, record.capacity)?)?;
    cells.push(cost_text(alloc, used)?)?;
    cells.push(rate_text(alloc, used, record.capacity)?)?;
    cells.push(cost_text(alloc, usable)?)?;
    cells.push(rate_text(alloc, used, usable)?)?;
    Ok(cells)
}

// Adds a line that says how many rows have no price, where some have none.
fn push_note(
    alloc: Global,
    text: &mut String,
    whole: &Part<'_>,
    tag: &str,
) -> Result<(), AllocError> {
    let Some(note) = unpriced_note(alloc, whole, tag)? else {
        return Ok(());
    };
    write!(text, "\n{note}\n")
}

/// What is said where rows that providers' commitments cover have no price: how many, and what that does to the figures.
pub(crate) fn unpriced_note(
    alloc: Global,
    whole: &Part<'_>,
    tag: &str,
) -> Result<Option<String>, AllocError> {
    let count = whole.book.total(Keeper::Provider).unpriced;
    if count == 0 {
        return Ok(None);
    }
    let rows = if count == 1 {
        "row that is"
    } else {
        "rows that are"
    };
    let have = if count == 1 { "has" } else { "have" };
    let tag = shown_text(alloc, tag)?;
    Ok(Some(format!(in alloc;
        "{count} {rows} covered by providers' commitments {have} no amount in the tag {tag}: CoveredCost and Savings are too low by what it would be."
    )?))
}

// How many columns have texts: the period, the name, and who keeps the commitments, or the unit.
fn text_columns(sheet: &Sheet<'_, '_, '_>) -> usize {
    let periods = if sheet.step.is_some() {
        1_usize
    } else {
        0_usize
    };
    periods
        .saturating_add(name_columns(sheet))
        .saturating_add(1)
}

/// How many columns a name has.
pub(crate) fn name_columns(sheet: &Sheet<'_, '_, '_>) -> usize {
    sheet.keys.len().max(1)
}

// How the columns line up, of which so many have amounts.
fn aligns_of(
    alloc: Global,
    sheet: &Sheet<'_, '_, '_>,
    amounts: usize,
) -> Result<Vec<Align>, AllocError> {
    let mut aligns = vec![in alloc; Align::Left; text_columns(sheet)]?;
    for _amount in 0..amounts {
        aligns.push(Align::Right)?;
    }
    Ok(aligns)
}

// The line of the names of the columns: of the texts, the last of which is given, and of the amounts.
fn names_line(
    alloc: Global,
    sheet: &Sheet<'_, '_, '_>,
    last: &str,
    amounts: &[&str],
) -> Result<Line, AllocError> {
    let mut cells = Vec::new(alloc);
    if sheet.step.is_some() {
        cells.push(String::from_str(alloc, "Period")?)?;
    }
    if sheet.keys.is_empty() {
        cells.push(String::from_str(alloc, "Commitment")?)?;
    }
    for key in sheet.keys {
        cells.push(String::from_str(alloc, *key)?)?;
    }
    cells.push(String::from_str(alloc, last)?)?;
    for name in amounts {
        cells.push(String::from_str(alloc, *name)?)?;
    }
    Ok(Line::Cells(cells))
}

// Adds the lines of the names of some hours, or those of all.
fn push_lines(
    alloc: Global,
    table: &mut Vec<Line>,
    sheet: &Sheet<'_, '_, '_>,
    part: &Part<'_>,
    of_all: bool,
) -> Result<(), AllocError> {
    let records = records_of(alloc, part)?;
    for record in &records {
        if record.texts.is_none() == of_all {
            table.push(record_line(alloc, sheet, part, record)?)?;
        }
    }
    Ok(())
}

// The line of a record.
fn record_line(
    alloc: Global,
    sheet: &Sheet<'_, '_, '_>,
    part: &Part<'_>,
    record: &Record<'_>,
) -> Result<Line, AllocError> {
    let mut cells = Vec::new(alloc);
    push_period(alloc, &mut cells, sheet, part, record.texts.is_none())?;
    for place in 0..name_columns(sheet) {
        cells.push(String::from_str(alloc, shown_at(sheet, record, place))?)?;
    }
    cells.push(String::from_str(alloc, record.keeper.word())?)?;
    push_amounts(alloc, &mut cells, record)?;
    Ok(Line::Cells(cells))
}

// Adds the period of a line, where lines have one; that of all has none.
fn push_period(
    alloc: Global,
    cells: &mut Vec<String>,
    sheet: &Sheet<'_, '_, '_>,
    part: &Part<'_>,
    is_of_all: bool,
) -> Result<(), AllocError> {
    let Some(step) = sheet.step else {
        return Ok(());
    };
    let period = if is_of_all {
        String::new(alloc)
    } else {
        step.text(alloc, part.period.from)?
    };
    cells.push(period)?;
    Ok(())
}

/// What people see of a name at a place.
pub(crate) fn shown_at<'b>(
    sheet: &Sheet<'_, '_, '_>,
    record: &Record<'b>,
    place: usize,
) -> &'b str {
    shown_text_of(sheet, record.texts, record.text_at(place), place)
}

/// What people see of a text of a name at a place; of all, where there is no name.
pub(crate) fn shown_text_of<'b>(
    sheet: &Sheet<'_, '_, '_>,
    texts: Option<&'b [String]>,
    text: &'b str,
    place: usize,
) -> &'b str {
    if texts.is_none() {
        return if place == 0 { "Total" } else { "" };
    }
    if text.is_empty() && !sheet.keys.is_empty() {
        return "(none)";
    }
    text
}

// Adds the cells of amounts and rates. Rates are in percent with one digit after the point, the nearest such, a tie away from 0.
fn push_amounts(
    alloc: Global,
    cells: &mut Vec<String>,
    record: &Record<'_>,
) -> Result<(), AllocError> {
    let [used, unused, amortized, _, covered, _, eligible, savings] = amounts_of(record)?;
    cells.push(rate_text(alloc, used, amortized)?)?;
    cells.push(cost_text(alloc, unused)?)?;
    cells.push(cost_text(alloc, amortized)?)?;
    cells.push(cost_text(alloc, covered)?)?;
    cells.push(cost_text(alloc, eligible)?)?;
    cells.push(rate_text(alloc, covered, eligible)?)?;
    cells.push(cost_text(alloc, savings)?)?;
    let whole = savings_whole(covered, eligible);
    cells.push(rate_text(alloc, savings, whole)?)?;
    Ok(())
}

/// A cost in cents; empty where it isn't known.
pub(crate) fn cost_text(alloc: Global, cost: Option<i128>) -> Result<String, AllocError> {
    match cost {
        Some(nanos) => cents_text(alloc, nanos),
        None => Ok(String::new(alloc)),
    }
}

/// A rate; empty where it isn't known, or the whole isn't above 0.
pub(crate) fn rate_text(
    alloc: Global,
    part: Option<i128>,
    whole: Option<i128>,
) -> Result<String, AllocError> {
    let (Some(part), Some(whole)) = (part, whole) else {
        return Ok(String::new(alloc));
    };
    if part >= 0 {
        return share_text(alloc, part, whole);
    }
    let Some(loss) = part.checked_neg() else {
        return Ok(String::new(alloc));
    };
    let share = share_text(alloc, loss, whole)?;
    if share.is_empty() {
        return Ok(share);
    }
    format!(in alloc; "-{share}")
}
