//! Reports as tables.
ghost use Rattle.std.specs.Prelude.{◌≤◌};

use crate::lines::{Line as ReportLine, lines_of};
use crate::names::{chosen, name_of};
use crate::series::Series;
use crate::sums::{Sums, sums_in};
use crate::view::View;
use fw_calendar::Step;
use fw_query::Report;
use fw_table::{Align, Line, cents_text, share_text, table_text};
use std::alloc::{AllocError, Global};

/// The columns: a period, a group, three costs, and a share.
const ALIGNS: [Align; 6] = [
    Align::Left,
    Align::Left,
    Align::Right,
    Align::Right,
    Align::Right,
    Align::Right,
];

/// The names of the columns.
const NAMES: [&str; 6] = [
    "Period",
    "Group",
    "BilledCost",
    "EffectiveCost",
    "ChargedCost",
    "Share",
];

/// A series as a table: a line for each group, of each period where there are periods, with its share of what is charged in the period, and
/// a line with the sums of the whole range.
pub(crate) fn table_of(
    alloc: Global,
    series: &Series,
    view: &View<'_>,
) -> Result<String, AllocError> {
    let names = chosen(alloc, series, view)?;
    let names = names.as_ref().map(|names| names.as_slice());
    let first = first_column(view);
    let mut table = Vec::new(alloc);
    table.push(head_line(alloc, first)?)?;
    table.push(Line::Rule)?;
    match view.step {
        Some(step) => push_parts(alloc, &mut table, series, step, names)?,
        None => push_lines(alloc, &mut table, None, &series.whole, names)?,
    }
    table.push(Line::Rule)?;
    table.push(total_line(alloc, first, &series.whole)?)?;
    table_text(alloc, ALIGNS.split_at(first).1, table.as_slice())
}

// The first column that is shown: without periods there is no column for them.
fn first_column(view: &View<'_>) -> usize
    ensures { result ≤ 1 }
{
    match view.step {
        Some(_) => 0,
        None => 1,
    }
}

// The line of the names of the columns.
fn head_line(alloc: Global, first: usize) -> Result<Line, AllocError> {
    let mut cells = Vec::new(alloc);
    for name in NAMES.iter().skip(first) {
        cells.push(String::from_str(alloc, *name)?)?;
    }
    Ok(Line::Cells(cells))
}

// Adds the lines of each period.
fn push_parts(
    alloc: Global,
    table: &mut Vec<Line>,
    series: &Series,
    step: Step,
    names: Option<&[String]>,
) -> Result<(), AllocError> {
    for part in &series.parts {
        let period = step.text(alloc, part.period.from)?;
        push_lines(alloc, table, Some(period.as_str()), &part.report, names)?;
    }
    Ok(())
}

// Adds the lines of a report.
fn push_lines(
    alloc: Global,
    table: &mut Vec<Line>,
    period: Option<&str>,
    report: &Report,
    names: Option<&[String]>,
) -> Result<(), AllocError> {
    let sums = sums_in(report)?;
    let lines = lines_of(alloc, report, names)?;
    for line in &lines {
        table.push(group_line(alloc, period, line, &sums)?)?;
    }
    Ok(())
}

// The line of a group, or of all others.
fn group_line(
    alloc: Global,
    period: Option<&str>,
    line: &ReportLine<'_>,
    all: &Sums,
) -> Result<Line, AllocError> {
    let mut cells = Vec::new(alloc);
    if let Some(period) = period {
        cells.push(String::from_str(alloc, period)?)?;
    }
    cells.push(String::from_str(alloc, name_of(line))?)?;
    push_costs(alloc, &mut cells, &line.costs, all)?;
    Ok(Line::Cells(cells))
}

// The line of the sums.
fn total_line(alloc: Global, first: usize, report: &Report) -> Result<Line, AllocError> {
    let sums = sums_in(report)?;
    let mut cells = Vec::new(alloc);
    cells.push(String::from_str(alloc, "Total")?)?;
    if first == 0 {
        cells.push(String::new(alloc))?;
    }
    push_costs(alloc, &mut cells, &sums, &sums)?;
    Ok(Line::Cells(cells))
}

// Adds the texts of costs, and of their share of what all groups are charged.
fn push_costs(
    alloc: Global,
    cells: &mut Vec<String>,
    costs: &Sums,
    all: &Sums,
) -> Result<(), AllocError> {
    cells.push(cents_text(alloc, costs.billed)?)?;
    cells.push(cents_text(alloc, costs.direct)?)?;
    cells.push(cents_text(alloc, costs.charged)?)?;
    cells.push(share_text(alloc, costs.charged, all.charged)?)?;
    Ok(())
}
