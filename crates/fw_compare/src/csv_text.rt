//! Comparisons as CSV.
use crate::line::Line;
use crate::shown::shown_lines;
use crate::view::{OTHERS, View};
use csv::{Writer, WriterBuilder};
use std::alloc::{AllocError, Global};

/// Ranked lines as CSV: a line of names, and a record for each group, or for all others, with the texts of the group and its amounts.
pub(crate) fn csv_text(
    alloc: Global,
    lines: &[Line<'_>],
    view: &View<'_, '_, '_>,
) -> Result<Vec<u8>, AllocError> {
    let mut writer = WriterBuilder::new().from_writer(Vec::new(alloc));
    write_header(alloc, &mut writer, view)?;
    let shown = shown_lines(alloc, lines, view.top)?;
    for line in &shown {
        write_line(alloc, &mut writer, line, view)?;
    }
    match writer.into_inner() {
        Ok(text) => Ok(text),
        Err(_) => Err(AllocError),
    }
}

// How many columns of amounts there are.
fn amounts(view: &View<'_, '_, '_>) -> usize {
    if view.has_charges { 9 } else { 6 }
}

// Writes the names of the columns.
fn write_header(
    alloc: Global,
    writer: &mut Writer<Vec<u8>>,
    view: &View<'_, '_, '_>,
) -> Result<(), AllocError> {
    let mut names: Vec<&[u8]> = Vec::new(alloc);
    names.push(b"Kind")?;
    for key in view.keys {
        names.push(key.name.as_bytes())?;
    }
    names.push(b"BilledCostBefore")?;
    names.push(b"BilledCostAfter")?;
    names.push(b"BilledCostDifference")?;
    names.push(b"EffectiveCostBefore")?;
    names.push(b"EffectiveCostAfter")?;
    names.push(b"EffectiveCostDifference")?;
    if view.has_charges {
        names.push(b"ChargedCostBefore")?;
        names.push(b"ChargedCostAfter")?;
        names.push(b"ChargedCostDifference")?;
    }
    write_record(writer, names.as_slice())
}

// Writes the record of a line.
fn write_line(
    alloc: Global,
    writer: &mut Writer<Vec<u8>>,
    line: &Line<'_>,
    view: &View<'_, '_, '_>,
) -> Result<(), AllocError> {
    let texts = amount_texts(alloc, line)?;
    let mut fields: Vec<&[u8]> = Vec::new(alloc);
    fields.push(kind_of(line).as_bytes())?;
    for place in 0..view.keys.len() {
        fields.push(text_at(line, place).as_bytes())?;
    }
    for text in texts.as_slice().iter().take(amounts(view)) {
        fields.push(text.as_bytes())?;
    }
    write_record(writer, fields.as_slice())
}

// The amounts of a line, exact, in the order of their columns.
fn amount_texts(alloc: Global, line: &Line<'_>) -> Result<Vec<String>, AllocError> {
    let (before, after, change) = (line.before, line.after, line.change);
    let mut texts = Vec::new(alloc);
    for nanos in [
        before.billed,
        after.billed,
        change.billed,
        before.effective,
        after.effective,
        change.effective,
        before.charged,
        after.charged,
        change.charged,
    ] {
        texts.push(fw_money::text(alloc, nanos)?)?;
    }
    Ok(texts)
}

/// Whether a line is of a group or of others, for programs.
pub(crate) fn kind_of(line: &Line<'_>) -> &'static str {
    match line.group {
        Some(_) => "group",
        None => "others",
    }
}

/// The text of a line under a key, for programs.
pub(crate) fn text_at<'l>(line: &'l Line<'_>, place: usize) -> &'l str {
    let Some(group) = line.group else {
        return OTHERS;
    };
    match group.texts().get(place) {
        Some(text) => text.as_str(),
        None => "",
    }
}

// Writes a record.
fn write_record(writer: &mut Writer<Vec<u8>>, fields: &[&[u8]]) -> Result<(), AllocError> {
    let Ok(()) = writer.write_fields(fields) else {
        return Err(AllocError);
    };
    Ok(())
}
