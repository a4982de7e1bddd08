//! Direct reports as JSON.
use crate::part::{DirectPart, direct_parts};
use fw_calendar::{Step, hour_text};
use fw_query::{Query, QueryFault};
use fw_shards::Direct;
use fw_snapshot::{Snapshot, State};
use serde_json::Value;
use std::alloc::{AllocError, Global};

/// The direct reports of the periods of a query's range as one object of JSON on a line of its own, ended by a line feed. Costs are texts of whole
/// nanos. How many entries, commitments and rows that count the warehouse has is there too. Nothing changes.
///
/// # Errors
/// Those of [`direct_parts`].
pub fn direct_text(
    alloc: Global,
    snapshot: &Snapshot,
    query: &Query<'_>,
    step: Option<Step>,
) -> Result<Vec<u8>, QueryFault> {
    let parts = direct_parts(alloc, snapshot, query, step)?;
    let text = document_text(alloc, snapshot.state(), query, step, parts.as_slice())?;
    Ok(text.into_bytes())
}

// The text of parts.
fn document_text(
    alloc: Global,
    state: &State,
    query: &Query<'_>,
    step: Option<Step>,
    parts: &[DirectPart],
) -> Result<String, AllocError> {
    let mut text = head_text(alloc, state, query, step)?;
    for (place, part) in parts.iter().enumerate() {
        if place > 0 {
            text.push(',')?;
        }
        push_part(alloc, &mut text, part)?;
    }
    text.push_str("]}\n")?;
    Ok(text)
}

// The members before the periods.
fn head_text(
    alloc: Global,
    state: &State,
    query: &Query<'_>,
    step: Option<Step>,
) -> Result<String, AllocError> {
    let tag = json_string(alloc, query.key)?;
    let currency = state.currency();
    let currency = json_string(alloc, str::from_utf8(currency.code()).unwrap_or(""))?;
    let hours = hours_text(alloc, query.from_hour, query.to_hour)?;
    let by = step_text(alloc, step)?;
    let (entries, commitments, rows) = (state.entries(), state.commitments(), state.rows());
    format!(in alloc;
        "{{\"direct\":1,\"tag\":{tag},\"currency\":{currency},{hours},\"by\":{by},\"entries\":{entries},\"commitments\":{commitments},\"rows\":{rows},\"periods\":["
    )
}

// The word of a step as JSON, or null.
fn step_text(alloc: Global, step: Option<Step>) -> Result<String, AllocError> {
    match step {
        Some(step) => json_string(alloc, step.word()),
        None => String::from_str(alloc, "null"),
    }
}

// The members of a range of hours.
fn hours_text(alloc: Global, from: u64, to: u64) -> Result<String, AllocError> {
    let from = hour_text(alloc, from)?;
    let to = hour_text(alloc, to)?;
    format!(in alloc; "\"from\":\"{from}\",\"to\":\"{to}\"")
}

// Adds the object of a period.
fn push_part(alloc: Global, text: &mut String, part: &DirectPart) -> Result<(), AllocError> {
    let hours = hours_text(alloc, part.period.from, part.period.to)?;
    write!(text, "{{{hours},\"groups\":[")?;
    for (place, direct) in part.report.entries().iter().enumerate() {
        if place > 0 {
            text.push(',')?;
        }
        push_group(alloc, text, direct)?;
    }
    text.push_str("]}")
}

// Adds the object of a group.
fn push_group(alloc: Global, text: &mut String, direct: &Direct) -> Result<(), AllocError> {
    let group = json_string(alloc, direct.group())?;
    let (billed, cost) = (direct.billed(), direct.direct());
    write!(
        text,
        "{{\"group\":{group},\"billed\":\"{billed}\",\"direct\":\"{cost}\"}}"
    )?;
    Ok(())
}

// A text as a string of JSON, quotes and all.
fn json_string(alloc: Global, text: &str) -> Result<String, AllocError> {
    Value::String(String::from_str(alloc, text)?).to_string(alloc)
}
