//! What a group cost, as JSON.
use crate::owned::{Owned, Stretch};
use crate::view::View;
use fw_calendar::{Period, hour_text};
use fw_compare::Costs;
use serde_json::Value;
use std::alloc::{AllocError, Global};

/// What a group cost as one object of JSON, ended by a line feed. Amounts are strings, exact to the nano.
pub(crate) fn json_text(
    alloc: Global,
    owned: &Owned,
    view: &View<'_>,
) -> Result<String, AllocError> {
    let tag = json_string(alloc, view.tag)?;
    let group = json_string(alloc, view.group)?;
    let currency = json_string(alloc, view.currency)?;
    let mut text = format!(in alloc; "{{\"tag\":{tag},\"group\":{group},\"currency\":{currency},")?;
    push_stretch(alloc, &mut text, &owned.whole)?;
    if let Some(step) = view.step {
        let word = step.word();
        write!(text, ",\"by\":\"{word}\",\"periods\":[")?;
        push_parts(alloc, &mut text, owned.parts.as_slice())?;
        text.push(']')?;
    }
    text.push_str("}\n")?;
    Ok(text)
}

// A text as a string of JSON, quotes and all.
fn json_string(alloc: Global, text: &str) -> Result<String, AllocError> {
    Value::String(String::from_str(alloc, text)?).to_string(alloc)
}

// Adds the objects of periods.
fn push_parts(alloc: Global, text: &mut String, parts: &[Stretch]) -> Result<(), AllocError> {
    for (place, part) in parts.iter().enumerate() {
        if place > 0 {
            text.push(',')?;
        }
        text.push('{')?;
        push_stretch(alloc, text, part)?;
        text.push('}')?;
    }
    Ok(())
}

// Adds the members of some hours: what the group cost, what it cost before, and the difference.
fn push_stretch(alloc: Global, text: &mut String, stretch: &Stretch) -> Result<(), AllocError> {
    push_hours(alloc, text, stretch.hours)?;
    text.push(',')?;
    push_costs(alloc, text, stretch.costs)?;
    if let Some(before) = stretch.before {
        text.push_str(",\"before\":{")?;
        push_hours(alloc, text, before.hours)?;
        text.push(',')?;
        push_costs(alloc, text, before.costs)?;
        text.push_str("},\"difference\":{")?;
        push_costs(alloc, text, before.change)?;
        text.push('}')?;
    }
    Ok(())
}

// Adds the members of a range of hours.
fn push_hours(alloc: Global, text: &mut String, hours: Period) -> Result<(), AllocError> {
    let from = hour_text(alloc, hours.from)?;
    let to = hour_text(alloc, hours.to)?;
    write!(text, "\"from\":\"{from}\",\"to\":\"{to}\"")?;
    Ok(())
}

// Adds the members of costs.
fn push_costs(alloc: Global, text: &mut String, costs: Costs) -> Result<(), AllocError> {
    let billed = fw_money::text(alloc, costs.billed)?;
    let effective = fw_money::text(alloc, costs.effective)?;
    let charged = fw_money::text(alloc, costs.charged)?;
    write!(
        text,
        "\"billed\":\"{billed}\",\"effective\":\"{effective}\",\"charged\":\"{charged}\""
    )?;
    Ok(())
}
