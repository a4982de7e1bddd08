//! Comparisons as JSON.
use crate::costs::Costs;
use crate::csv_text::{kind_of, text_at};
use crate::line::Line;
use crate::shown::{shown_lines, total_line};
use crate::view::View;
use fw_calendar::{Period, hour_text};
use serde_json::Value;
use std::alloc::{AllocError, Global};

/// Ranked lines as one object of JSON, ended by a line feed. Amounts are strings, exact to the nano.
pub(crate) fn json_text(
    alloc: Global,
    lines: &[Line<'_>],
    view: &View<'_, '_, '_>,
) -> Result<String, AllocError> {
    let total = total_line(lines)?;
    let shown = shown_lines(alloc, lines, view.top)?;
    let mut text = head_text(alloc, view)?;
    for (place, line) in shown.as_slice().iter().enumerate() {
        if place > 0 {
            text.push(',')?;
        }
        push_line(alloc, &mut text, line, view)?;
    }
    let sums = sides_text(alloc, &total, view)?;
    write!(text, "],\"total\":{{{sums}}}}}\n")?;
    Ok(text)
}

// The members that say what was asked, and the front of those of the groups.
fn head_text(alloc: Global, view: &View<'_, '_, '_>) -> Result<String, AllocError> {
    let mut text = String::from_str(alloc, "{\"keys\":[")?;
    for (place, key) in view.keys.iter().enumerate() {
        if place > 0 {
            text.push(',')?;
        }
        let name = json_string(alloc, key.name)?;
        text.push_str(name.as_str())?;
    }
    let currency = json_string(alloc, view.currency)?;
    let before = hours_text(alloc, view.before)?;
    let after = hours_text(alloc, view.after)?;
    write!(
        text,
        "],\"currency\":{currency},\"before\":{before},\"after\":{after},\"groups\":["
    )?;
    Ok(text)
}

// A text as a string of JSON, quotes and all.
fn json_string(alloc: Global, text: &str) -> Result<String, AllocError> {
    Value::String(String::from_str(alloc, text)?).to_string(alloc)
}

// The object of a range of hours.
fn hours_text(alloc: Global, hours: Period) -> Result<String, AllocError> {
    let from = hour_text(alloc, hours.from)?;
    let to = hour_text(alloc, hours.to)?;
    format!(in alloc; "{{\"from\":\"{from}\",\"to\":\"{to}\"}}")
}

// Adds the object of a line.
fn push_line(
    alloc: Global,
    text: &mut String,
    line: &Line<'_>,
    view: &View<'_, '_, '_>,
) -> Result<(), AllocError> {
    text.push_str("{\"keys\":{")?;
    for (place, key) in view.keys.iter().enumerate() {
        if place > 0 {
            text.push(',')?;
        }
        let name = json_string(alloc, key.name)?;
        let value = json_string(alloc, text_at(line, place))?;
        write!(text, "{name}:{value}")?;
    }
    let kind = kind_of(line);
    let sides = sides_text(alloc, line, view)?;
    write!(text, "}},\"kind\":\"{kind}\",{sides}}}")?;
    Ok(())
}

// The members of a line: its costs before and after, and the differences.
fn sides_text(
    alloc: Global,
    line: &Line<'_>,
    view: &View<'_, '_, '_>,
) -> Result<String, AllocError> {
    let before = costs_text(alloc, line.before, view)?;
    let after = costs_text(alloc, line.after, view)?;
    let change = costs_text(alloc, line.change, view)?;
    format!(in alloc; "\"before\":{before},\"after\":{after},\"difference\":{change}")
}

// The object of costs.
fn costs_text(alloc: Global, costs: Costs, view: &View<'_, '_, '_>) -> Result<String, AllocError> {
    let billed = fw_money::text(alloc, costs.billed)?;
    let effective = fw_money::text(alloc, costs.effective)?;
    if !view.has_charges {
        return format!(in alloc; "{{\"billed\":\"{billed}\",\"effective\":\"{effective}\"}}");
    }
    let charged = fw_money::text(alloc, costs.charged)?;
    format!(in alloc;
        "{{\"billed\":\"{billed}\",\"effective\":\"{effective}\",\"charged\":\"{charged}\"}}"
    )
}
