//! Reports by several keys, under filters and maps, as pages.
ghost use Rattle.std.specs.Prelude.{◌≤◌};

use fw_calendar::Period;
use fw_console::Fault;
use fw_direct::{DirectPart, Sheet as DirectSheet};
use fw_select::Selection;
use fw_selections::{KeyName, Selections, Sheet, shown_group};
use fw_series::{Series, View, page_without_charges};
use fw_shards::{AddFault, Direct, DirectReport};
use std::alloc::{AllocError, Global};

/// The page of selections, which says this of them.
pub(crate) fn selected_page(
    alloc: Global,
    selections: &Selections,
    sheet: &Sheet<'_, '_, '_>,
    about: &str,
) -> Result<Vec<u8>, Fault> {
    let series = series_of(alloc, selections, sheet)?;
    let title = title_of(alloc, sheet)?;
    let view = View {
        tag: title.as_str(),
        currency: sheet.currency,
        from: sheet.hours.from,
        to: sheet.hours.to,
        step: sheet.step,
        top: sheet.top,
    };
    Ok(page_without_charges(alloc, &series, &view, about)?)
}

// What the costs are by, as a title has it: the names of the keys; where there are none, the period.
fn title_of(alloc: Global, sheet: &Sheet<'_, '_, '_>) -> Result<String, AllocError> {
    let mut title = String::new(alloc);
    for key in sheet.keys {
        if !title.is_empty() {
            title.push_str(" and ")?;
        }
        title.push_str(key.name)?;
    }
    if title.is_empty() {
        title.push_str(if sheet.step.is_some() {
            "period"
        } else {
            "range"
        })?;
    }
    Ok(title)
}

// Selections as reports, whose groups have one name each.
fn series_of(
    alloc: Global,
    selections: &Selections,
    sheet: &Sheet<'_, '_, '_>,
) -> Result<Series, Fault> {
    let Period { from, to } = sheet.hours;
    if from > to {
        return Err(Fault::Range);
    }
    let mut direct = DirectSheet::new(alloc, sheet.step, from, to)?;
    if sheet.step.is_none() {
        put(alloc, &mut direct, sheet, sheet.hours, &selections.whole)?;
    }
    for part in &selections.parts {
        put(alloc, &mut direct, sheet, part.period, &part.selection)?;
    }
    match direct.series(alloc, "", None) {
        Ok(series) => Ok(series),
        Err(fault) => Err(fault_of(&fault)),
    }
}

// Why groups under one name each have no report.
fn fault_of(fault: &AddFault) -> Fault {
    match fault {
        AddFault::NoMemory => Fault::NoMemory,
        AddFault::OutOfRange | AddFault::TotalTooLarge { group: _ } => Fault::TotalTooLarge,
    }
}

// Puts the groups of a selection to its period.
fn put(
    alloc: Global,
    direct: &mut DirectSheet,
    sheet: &Sheet<'_, '_, '_>,
    period: Period,
    selection: &Selection,
) -> Result<(), AllocError> {
    let report = report_of(alloc, sheet.keys, selection)?;
    direct.put(DirectPart { period, report })?;
    Ok(())
}

// The groups of a selection, each under one name.
fn report_of(
    alloc: Global,
    keys: &[KeyName<'_>],
    selection: &Selection,
) -> Result<DirectReport, AllocError> {
    let mut entries = Vec::new(alloc);
    for group in selection.groups() {
        let name = match keys {
            [] => String::from_str(alloc, "(all)")?,
            _ => shown_group(alloc, keys, group.texts())?,
        };
        entries.push(Direct::of_fields(name, group.billed(), group.effective()))?;
    }
    Ok(DirectReport::of_entries(entries))
}
