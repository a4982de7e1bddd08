//! Comparisons as tables.
ghost use Rattle.std.specs.Prelude.{◌≤◌};

use crate::costs::Costs;
use crate::line::Line;
use crate::share::difference_share;
use crate::shown::{shown_lines, total_line};
use crate::view::{OTHERS, View};
use fw_table::{Align, Line as TableLine, cents_text, table_text};
use std::alloc::{AllocError, Global};

/// The columns: the group, what it cost before and after, the difference, its share, and the differences of other costs.
const ALIGNS: [Align; 7] = [
    Align::Left,
    Align::Right,
    Align::Right,
    Align::Right,
    Align::Right,
    Align::Right,
    Align::Right,
];

/// Ranked lines as a table: a line for each group, with what it cost before and after, the difference and its share of the whole difference, and the
/// differences of the other costs; and a line with the sums.
pub(crate) fn table_of(
    alloc: Global,
    lines: &[Line<'_>],
    view: &View<'_, '_, '_>,
) -> Result<String, AllocError> {
    let total = total_line(lines)?;
    let shown = shown_lines(alloc, lines, view.top)?;
    let mut table = Vec::new(alloc);
    table.push(head_line(alloc, view)?)?;
    table.push(TableLine::Rule)?;
    for line in &shown {
        table.push(line_of(alloc, line, name_of(line), &total, view)?)?;
    }
    table.push(TableLine::Rule)?;
    table.push(line_of(alloc, &total, "Total", &total, view)?)?;
    table_text(alloc, ALIGNS.split_at(columns(view)).0, table.as_slice())
}

// How many columns there are: one less where nothing is charged.
fn columns(view: &View<'_, '_, '_>) -> usize
    ensures { result ≤ 7 }
{
    if view.has_charges { 7 } else { 6 }
}

// The name of a line, for people.
fn name_of<'l>(line: &'l Line<'_>) -> &'l str {
    match line.group {
        Some(group) => group.name(),
        None => OTHERS,
    }
}

// The line of the names of the columns.
fn head_line(alloc: Global, view: &View<'_, '_, '_>) -> Result<TableLine, AllocError> {
    let cost = view.cost();
    let mut cells = Vec::new(alloc);
    cells.push(String::from_str(alloc, "Group")?)?;
    cells.push(format!(in alloc; "{cost} before")?)?;
    cells.push(String::from_str(alloc, "after")?)?;
    cells.push(String::from_str(alloc, "Difference")?)?;
    cells.push(String::from_str(alloc, "Share")?)?;
    if view.has_charges {
        cells.push(String::from_str(alloc, "of EffectiveCost")?)?;
    }
    cells.push(String::from_str(alloc, "of BilledCost")?)?;
    Ok(TableLine::Cells(cells))
}

// The line of a group, of all others, or of the sums.
fn line_of(
    alloc: Global,
    line: &Line<'_>,
    name: &str,
    total: &Line<'_>,
    view: &View<'_, '_, '_>,
) -> Result<TableLine, AllocError> {
    let Costs {
        billed,
        effective,
        charged,
    } = line.change;
    let mut cells = Vec::new(alloc);
    cells.push(String::from_str(alloc, name)?)?;
    cells.push(cents_text(alloc, line.before.charged)?)?;
    cells.push(cents_text(alloc, line.after.charged)?)?;
    cells.push(cents_text(alloc, charged)?)?;
    cells.push(difference_share(alloc, charged, total.change.charged)?)?;
    if view.has_charges {
        cells.push(cents_text(alloc, effective)?)?;
    }
    cells.push(cents_text(alloc, billed)?)?;
    Ok(TableLine::Cells(cells))
}
