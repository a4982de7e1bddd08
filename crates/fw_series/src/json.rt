//! Reports as JSON.
use crate::escapes::json_string;
use crate::lines::{Line, lines_of};
use crate::names::{chosen, group_of, kind_of};
use crate::series::{Part, Series};
use crate::sums::{Sums, sums_in};
use crate::view::View;
use fw_calendar::hour_text;
use fw_query::Report;
use std::alloc::{AllocError, Global};

/// A series as one object of JSON, ended by a line feed. Amounts are strings, exact to the nano.
pub(crate) fn json_text(
    alloc: Global,
    series: &Series,
    view: &View<'_>,
) -> Result<String, AllocError> {
    let names = chosen(alloc, series, view)?;
    let names = names.as_ref().map(|names| names.as_slice());
    let mut text = head_text(alloc, view)?;
    push_report(alloc, &mut text, &series.whole, names)?;
    if let Some(step) = view.step {
        let word = step.word();
        write!(text, ",\"by\":\"{word}\",\"periods\":[")?;
        push_parts(alloc, &mut text, series.parts.as_slice(), names)?;
        text.push(']')?;
    }
    text.push_str("}\n")?;
    Ok(text)
}

// The members that say what was asked, and the comma behind them.
fn head_text(alloc: Global, view: &View<'_>) -> Result<String, AllocError> {
    let tag = json_string(alloc, view.tag)?;
    let currency = json_string(alloc, view.currency)?;
    let hours = hours_text(alloc, view.from, view.to)?;
    format!(in alloc; "{{\"tag\":{tag},\"currency\":{currency},{hours},")
}

// The members of a range of hours.
fn hours_text(alloc: Global, from: u64, to: u64) -> Result<String, AllocError> {
    let from = hour_text(alloc, from)?;
    let to = hour_text(alloc, to)?;
    format!(in alloc; "\"from\":\"{from}\",\"to\":\"{to}\"")
}

// Adds the objects of periods.
fn push_parts(
    alloc: Global,
    text: &mut String,
    parts: &[Part],
    names: Option<&[String]>,
) -> Result<(), AllocError> {
    for (place, part) in parts.iter().enumerate() {
        if place > 0 {
            text.push(',')?;
        }
        let hours = hours_text(alloc, part.period.from, part.period.to)?;
        write!(text, "{{{hours},")?;
        push_report(alloc, text, &part.report, names)?;
        text.push('}')?;
    }
    Ok(())
}

// Adds the members of a report: its groups, and their sums.
fn push_report(
    alloc: Global,
    text: &mut String,
    report: &Report,
    names: Option<&[String]>,
) -> Result<(), AllocError> {
    let sums = sums_in(report)?;
    let lines = lines_of(alloc, report, names)?;
    text.push_str("\"groups\":[")?;
    for (place, line) in lines.as_slice().iter().enumerate() {
        if place > 0 {
            text.push(',')?;
        }
        push_line(alloc, text, line)?;
    }
    let costs = costs_text(alloc, &sums)?;
    write!(text, "],\"total\":{{{costs}}}")?;
    Ok(())
}

// Adds the object of a line.
fn push_line(alloc: Global, text: &mut String, line: &Line<'_>) -> Result<(), AllocError> {
    let group = json_string(alloc, group_of(line))?;
    let kind = kind_of(line);
    let costs = costs_text(alloc, &line.costs)?;
    write!(text, "{{\"group\":{group},\"kind\":\"{kind}\",{costs}}}")?;
    Ok(())
}

// The members of costs.
fn costs_text(alloc: Global, costs: &Sums) -> Result<String, AllocError> {
    let billed = fw_money::text(alloc, costs.billed)?;
    let direct = fw_money::text(alloc, costs.direct)?;
    let charged = fw_money::text(alloc, costs.charged)?;
    format!(in alloc;
        "\"billed\":\"{billed}\",\"effective\":\"{direct}\",\"charged\":\"{charged}\""
    )
}
