//! The figures of commitments as JSON.
use crate::csv_text::quantity_text;
use crate::parts::{Commitments, Part};
use crate::record::{
    Record, UnitRecord, amounts_of, records_of, savings_whole, units_by_name, units_of_all,
    unpriced_of,
};
use crate::sheet::Sheet;
use fw_calendar::{Period, hour_text};
use serde_json::Value;
use std::alloc::{AllocError, Global};

/// The figures as one object of JSON, ended by a line feed. Amounts are strings, exact to the nano, and each rate has its part and its whole.
pub(crate) fn json_text(
    alloc: Global,
    commitments: &Commitments<'_>,
    sheet: &Sheet<'_, '_, '_>,
) -> Result<String, AllocError> {
    let mut text = head_text(alloc, sheet)?;
    push_part(alloc, &mut text, &commitments.whole, sheet)?;
    if let Some(step) = sheet.step {
        let word = step.word();
        write!(text, ",\"by\":\"{word}\",\"periods\":[")?;
        for (place, part) in commitments.parts.as_slice().iter().enumerate() {
            if place > 0 {
                text.push(',')?;
            }
            let hours = hours_text(alloc, part.period)?;
            write!(text, "{{{hours},")?;
            push_part(alloc, &mut text, part, sheet)?;
            text.push('}')?;
        }
        text.push(']')?;
    }
    text.push_str("}\n")?;
    Ok(text)
}

// A text as a string of JSON, quotes and all.
fn json_string(alloc: Global, text: &str) -> Result<String, AllocError> {
    Value::String(String::from_str(alloc, text)?).to_string(alloc)
}

// The members that say what was asked, and the comma behind them.
fn head_text(alloc: Global, sheet: &Sheet<'_, '_, '_>) -> Result<String, AllocError> {
    let mut text = String::from_str(alloc, "{\"keys\":[")?;
    for (place, key) in sheet.keys.iter().enumerate() {
        if place > 0 {
            text.push(',')?;
        }
        let name = json_string(alloc, *key)?;
        text.push_str(name.as_str())?;
    }
    let currency = json_string(alloc, sheet.currency)?;
    let hours = hours_text(alloc, sheet.hours)?;
    write!(text, "],\"currency\":{currency},{hours},")?;
    if let Some(tag) = sheet.price_tag {
        let tag = json_string(alloc, tag)?;
        write!(text, "\"priceTag\":{tag},")?;
    }
    Ok(text)
}

// The members of a range of hours.
fn hours_text(alloc: Global, hours: Period) -> Result<String, AllocError> {
    let from = hour_text(alloc, hours.from)?;
    let to = hour_text(alloc, hours.to)?;
    format!(in alloc; "\"from\":\"{from}\",\"to\":\"{to}\"")
}

// Adds the records of some hours.
fn push_part(
    alloc: Global,
    text: &mut String,
    part: &Part<'_>,
    sheet: &Sheet<'_, '_, '_>,
) -> Result<(), AllocError> {
    let records = records_of(alloc, part)?;
    text.push_str("\"records\":[")?;
    for (place, record) in records.as_slice().iter().enumerate() {
        if place > 0 {
            text.push(',')?;
        }
        push_record(alloc, text, sheet, record)?;
    }
    text.push_str("],\"units\":[")?;
    let by_name = if sheet.keys.is_empty() {
        Vec::new(alloc)
    } else {
        units_by_name(alloc, part)?
    };
    let of_all = units_of_all(alloc, part)?;
    for (place, record) in by_name.iter().chain(of_all.iter()).enumerate() {
        if place > 0 {
            text.push(',')?;
        }
        push_unit_record(alloc, text, sheet, record)?;
    }
    text.push(']')
}

// Adds the object of quantities of a group, or of all, in a unit.
fn push_unit_record(
    alloc: Global,
    text: &mut String,
    sheet: &Sheet<'_, '_, '_>,
    record: &UnitRecord<'_>,
) -> Result<(), AllocError> {
    text.push('{')?;
    match record.texts {
        Some(texts) => {
            text.push_str("\"kind\":\"group\"")?;
            push_keys(alloc, text, sheet, texts)?;
        }
        None => text.push_str("\"kind\":\"total\"")?,
    }
    let unit = json_string(alloc, record.unit)?;
    let used = fw_money::text(alloc, record.used)?;
    let usable = fw_money::text(alloc, record.usable)?;
    write!(
        text,
        ",\"unit\":{unit},\"usedCapacity\":\"{used}\",\"eligibleCapacity\":\"{usable}\""
    )?;
    if let Some(capacity) = record.capacity {
        let capacity = fw_money::text(alloc, capacity)?;
        write!(text, ",\"capacity\":\"{capacity}\"")?;
    }
    text.push('}')
}

// Adds the object of a record.
fn push_record(
    alloc: Global,
    text: &mut String,
    sheet: &Sheet<'_, '_, '_>,
    record: &Record<'_>,
) -> Result<(), AllocError> {
    let kind = record.kind(sheet.keys.len());
    let keeper = record.keeper.word();
    write!(text, "{{\"kind\":\"{kind}\",\"keeper\":\"{keeper}\"")?;
    if let Some(texts) = record.texts {
        push_name(alloc, text, sheet, record, texts)?;
    }
    push_amounts(alloc, text, record)?;
    text.push('}')
}

// Adds the members of a name.
fn push_name(
    alloc: Global,
    text: &mut String,
    sheet: &Sheet<'_, '_, '_>,
    record: &Record<'_>,
    texts: &[String],
) -> Result<(), AllocError> {
    if sheet.keys.is_empty() {
        let id = json_string(alloc, record.text_at(0))?;
        write!(text, ",\"id\":{id}")?;
        return push_units(alloc, text, record);
    }
    push_keys(alloc, text, sheet, texts)
}

// Adds the member that has the values of the keys.
fn push_keys(
    alloc: Global,
    text: &mut String,
    sheet: &Sheet<'_, '_, '_>,
    texts: &[String],
) -> Result<(), AllocError> {
    text.push_str(",\"keys\":{")?;
    for (place, (key, value)) in sheet.keys.iter().zip(texts.iter()).enumerate() {
        if place > 0 {
            text.push(',')?;
        }
        let name = json_string(alloc, *key)?;
        let value = json_string(alloc, value.as_str())?;
        write!(text, "{name}:{value}")?;
    }
    text.push('}')
}

// Adds what is known in units.
fn push_units(alloc: Global, text: &mut String, record: &Record<'_>) -> Result<(), AllocError> {
    let Some(units) = record.units else {
        return Ok(());
    };
    let unit = json_string(alloc, units.unit)?;
    let used = quantity_text(alloc, units.used)?;
    let capacity = quantity_text(alloc, units.capacity)?;
    let usable = fw_money::text(alloc, units.usable)?;
    write!(
        text,
        ",\"unit\":{unit},\"usedCapacity\":\"{used}\",\"capacity\":\"{capacity}\",\"eligibleCapacity\":\"{usable}\""
    )?;
    Ok(())
}

/// The names of the amounts.
const NAMES: [&str; 8] = [
    "usedCost",
    "unusedCost",
    "amortizedCost",
    "purchaseCost",
    "coveredCost",
    "uncoveredCost",
    "eligibleCost",
    "savings",
];

// Adds the amounts that are known, and the rates.
fn push_amounts(alloc: Global, text: &mut String, record: &Record<'_>) -> Result<(), AllocError> {
    let amounts = amounts_of(record)?;
    for (name, amount) in NAMES.iter().zip(amounts.iter()) {
        if let Some(nanos) = amount {
            let amount = fw_money::text(alloc, *nanos)?;
            write!(text, ",\"{name}\":\"{amount}\"")?;
        }
    }
    let [used, _, amortized, _, covered, _, eligible, savings] = amounts;
    push_rate(alloc, text, "utilization", used, amortized)?;
    push_rate(alloc, text, "coverage", covered, eligible)?;
    let whole = savings_whole(covered, eligible);
    push_rate(alloc, text, "effectiveSavingsRate", savings, whole)?;
    push_unpriced(text, record)
}

// Adds how many rows have no price, where a tag has prices.
fn push_unpriced(text: &mut String, record: &Record<'_>) -> Result<(), AllocError> {
    let Some(count) = unpriced_of(record) else {
        return Ok(());
    };
    write!(text, ",\"unpricedRows\":{count}")
}

// Adds the two parts of a rate, where both are known.
fn push_rate(
    alloc: Global,
    text: &mut String,
    name: &str,
    part: Option<i128>,
    whole: Option<i128>,
) -> Result<(), AllocError> {
    let (Some(part), Some(whole)) = (part, whole) else {
        return Ok(());
    };
    let part = fw_money::text(alloc, part)?;
    let whole = fw_money::text(alloc, whole)?;
    write!(
        text,
        ",\"{name}\":{{\"part\":\"{part}\",\"whole\":\"{whole}\"}}"
    )?;
    Ok(())
}
