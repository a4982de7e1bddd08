//! What a group cost, as a table.
use crate::owned::{Owned, Stretch};
use crate::view::View;
use fw_compare::difference_share;
use fw_table::{Align, Line, cents_text, table_text};
use std::alloc::{AllocError, Global};

/// The columns: the period or the group, three costs, what was charged before, the difference, and its part of what was charged before.
const ALIGNS: [Align; 7] = [
    Align::Left,
    Align::Right,
    Align::Right,
    Align::Right,
    Align::Right,
    Align::Right,
    Align::Right,
];

/// The names of the columns behind the first.
pub(crate) const NAMES: [&str; 6] = [
    "BilledCost",
    "EffectiveCost",
    "ChargedCost",
    "ChargedCost before",
    "Difference",
    "Change",
];

/// What a group cost as a table: a line for each period where the range is cut, and one for the whole range.
pub(crate) fn table_of(
    alloc: Global,
    owned: &Owned,
    view: &View<'_>,
) -> Result<String, AllocError> {
    let mut table = Vec::new(alloc);
    table.push(head_line(alloc, view)?)?;
    table.push(Line::Rule)?;
    if let Some(step) = view.step {
        for part in &owned.parts {
            let period = step.text(alloc, part.hours.from)?;
            table.push(line_of(alloc, period.as_str(), part)?)?;
        }
        table.push(Line::Rule)?;
    }
    table.push(line_of(alloc, whole_name(view), &owned.whole)?)?;
    table_text(alloc, &ALIGNS, table.as_slice())
}

/// What the line of the whole range is called: by the group, or as the sum of the periods above it.
pub(crate) fn whole_name<'v>(view: &View<'v>) -> &'v str {
    match view.step {
        Some(_) => "Total",
        None => view.shown_group(),
    }
}

/// The name of the first column.
pub(crate) fn first_name(view: &View<'_>) -> &'static str {
    match view.step {
        Some(_) => "Period",
        None => "Group",
    }
}

// The line of the names of the columns.
fn head_line(alloc: Global, view: &View<'_>) -> Result<Line, AllocError> {
    let mut cells = Vec::new(alloc);
    cells.push(String::from_str(alloc, first_name(view))?)?;
    for name in NAMES.iter() {
        cells.push(String::from_str(alloc, *name)?)?;
    }
    Ok(Line::Cells(cells))
}

// The line of some hours.
fn line_of(alloc: Global, name: &str, stretch: &Stretch) -> Result<Line, AllocError> {
    let mut cells = Vec::new(alloc);
    cells.push(String::from_str(alloc, name)?)?;
    for cell in amounts_of(alloc, stretch)? {
        cells.push(cell)?;
    }
    Ok(Line::Cells(cells))
}

/// The texts of the amounts of some hours, in the order of the names of their columns; those of the hours before are empty where there are none.
pub(crate) fn amounts_of(alloc: Global, stretch: &Stretch) -> Result<Vec<String>, AllocError> {
    let mut cells = Vec::new(alloc);
    cells.push(cents_text(alloc, stretch.costs.billed)?)?;
    cells.push(cents_text(alloc, stretch.costs.effective)?)?;
    cells.push(cents_text(alloc, stretch.costs.charged)?)?;
    match stretch.before {
        Some(before) => {
            let (old, change) = (before.costs.charged, before.change.charged);
            cells.push(cents_text(alloc, old)?)?;
            cells.push(cents_text(alloc, change)?)?;
            cells.push(difference_share(alloc, change, old)?)?;
        }
        None => {
            for _column in 0..3 {
                cells.push(String::new(alloc))?;
            }
        }
    }
    Ok(cells)
}
