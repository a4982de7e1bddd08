//! The figures of commitments as a page of HTML.
use crate::book::Keeper;
use crate::figures::Amount;
use crate::parts::{Commitments, Part};
use crate::record::{
    Record, UnitRecord, amounts_of, records_of, savings_whole, units_by_name, units_of_all,
};
use crate::sheet::Sheet;
use crate::table::{
    UNIT_NAMES, cost_text, name_columns, rate_text, shown_at, shown_text_of, unit_cells,
    unit_shown, unpriced_note,
};
use fw_calendar::{Step, hour_text};
use fw_query::{Entry, Report};
use fw_series::{
    Part as SeriesPart, Series, begin_page, end_page, push_markup, push_shown, push_stacks,
};
use std::alloc::{AllocError, Global};

/// The names of the figures, in the order of their columns.
const NAMES: [&str; 11] = [
    "UsedCost",
    "UnusedCost",
    "AmortizedCost",
    "Utilization",
    "PurchaseCost",
    "CoveredCost",
    "UncoveredCost",
    "EligibleCost",
    "Coverage",
    "Savings",
    "SavingsRate",
];

/// What is drawn of each period, in the order of the colours.
const DRAWN: [&str; 2] = ["UsedCost", "UnusedCost"];

/// The figures as a page: with periods a chart of what commitments cost, used and unused, and a table of each period; and a table of the whole range.
/// Where the warehouse has commitments of its own, tables of their quantities are below.
pub(crate) fn page_text(
    alloc: Global,
    commitments: &Commitments<'_>,
    sheet: &Sheet<'_, '_, '_>,
) -> Result<Vec<u8>, AllocError> {
    let mut page = Vec::new(alloc);
    begin_page(alloc, &mut page, "Commitments", "")?;
    push_about(alloc, &mut page, sheet)?;
    if let Some(step) = sheet.step {
        push_chart(alloc, &mut page, commitments, step)?;
        push_periods(alloc, &mut page, commitments, sheet, step)?;
    }
    push_whole(alloc, &mut page, commitments, sheet)?;
    if !commitments.whole.units.is_empty() {
        push_units(alloc, &mut page, commitments, sheet)?;
    }
    if let Some(tag) = sheet.price_tag {
        push_note(alloc, &mut page, &commitments.whole, tag)?;
    }
    end_page(&mut page)?;
    Ok(page)
}

// Adds how many rows have no price, where some have none.
fn push_note(
    alloc: Global,
    page: &mut Vec<u8>,
    whole: &Part<'_>,
    tag: &str,
) -> Result<(), AllocError> {
    let Some(note) = unpriced_note(alloc, whole, tag)? else {
        return Ok(());
    };
    push_markup(page, "<p class=\"quiet\">")?;
    push_shown(alloc, page, note.as_str())?;
    push_markup(page, "</p>\n")
}

// Adds what the page is of.
fn push_about(
    alloc: Global,
    page: &mut Vec<u8>,
    sheet: &Sheet<'_, '_, '_>,
) -> Result<(), AllocError> {
    let from = hour_text(alloc, sheet.hours.from)?;
    let to = hour_text(alloc, sheet.hours.to)?;
    let range = format!(in alloc; "<p class=\"quiet\">{from} to {to}, in ")?;
    push_markup(page, range.as_str())?;
    push_shown(alloc, page, sheet.currency)?;
    if sheet.step.is_some() {
        push_markup(page, "; the chart shows AmortizedCost")?;
    }
    if let Some(tag) = sheet.price_tag {
        push_markup(page, "; prices of what providers' commitments cover: ")?;
        push_shown(alloc, page, tag)?;
    }
    push_markup(page, "</p>\n")
}

// Adds the names of the colours, and a chart of what commitments cost in each period, used and unused.
fn push_chart(
    alloc: Global,
    page: &mut Vec<u8>,
    commitments: &Commitments<'_>,
    step: Step,
) -> Result<(), AllocError> {
    let mut names = Vec::new(alloc);
    push_markup(page, "<ul class=\"legend\">")?;
    for (place, name) in DRAWN.iter().enumerate() {
        let item = format!(in alloc; "<li><i class=\"c{place}\"></i>")?;
        push_markup(page, item.as_str())?;
        push_markup(page, *name)?;
        push_markup(page, "</li>")?;
        names.push(String::from_str(alloc, *name)?)?;
    }
    push_markup(page, "</ul>\n")?;
    let series = series_of(alloc, commitments)?;
    push_stacks(
        alloc,
        page,
        &series,
        step,
        names.as_slice(),
        "AmortizedCost",
    )
}

// What commitments cost, used and unused, as a series of reports with these two groups.
fn series_of(alloc: Global, commitments: &Commitments<'_>) -> Result<Series, AllocError> {
    let whole = report_of(alloc, &commitments.whole)?;
    let mut parts = Vec::new(alloc);
    for part in &commitments.parts {
        let report = report_of(alloc, part)?;
        parts.push(SeriesPart {
            period: part.period,
            report,
        })?;
    }
    Ok(Series { whole, parts })
}

// What all commitments cost in some hours, unused and used: the names are in the order of a report.
fn report_of(alloc: Global, part: &Part<'_>) -> Result<Report, AllocError> {
    let provider = part.book.total(Keeper::Provider);
    let all = part
        .book
        .total(Keeper::Own)
        .with(Amount::Used, provider.used)?
        .with(Amount::Unused, provider.unused)?;
    let mut entries = Vec::new(alloc);
    for (name, cost) in [("UnusedCost", all.unused), ("UsedCost", all.used)] {
        let name = String::from_str(alloc, name)?;
        entries.push(Entry::of_charge(name, 0, cost, cost))?;
    }
    Ok(Report::of_entries(entries))
}

// Adds the table of the periods: of each the figures of each name, and those of all.
fn push_periods(
    alloc: Global,
    page: &mut Vec<u8>,
    commitments: &Commitments<'_>,
    sheet: &Sheet<'_, '_, '_>,
    step: Step,
) -> Result<(), AllocError> {
    push_columns(
        alloc,
        page,
        sheet,
        "Figures by period",
        true,
        "Keeper",
        NAMES.as_slice(),
    )?;
    for part in &commitments.parts {
        let period = step.text(alloc, part.period.from)?;
        let period = Some(period.as_str());
        push_rows(alloc, page, sheet, part, period, false)?;
        push_rows(alloc, page, sheet, part, period, true)?;
    }
    push_markup(page, "</tbody>\n</table></div>\n")
}

// Adds the table of the whole range.
fn push_whole(
    alloc: Global,
    page: &mut Vec<u8>,
    commitments: &Commitments<'_>,
    sheet: &Sheet<'_, '_, '_>,
) -> Result<(), AllocError> {
    push_columns(
        alloc,
        page,
        sheet,
        "Figures of the whole range",
        false,
        "Keeper",
        NAMES.as_slice(),
    )?;
    push_rows(alloc, page, sheet, &commitments.whole, None, false)?;
    push_markup(page, "</tbody>\n<tfoot>\n")?;
    push_rows(alloc, page, sheet, &commitments.whole, None, true)?;
    push_markup(page, "</tfoot>\n</table></div>\n")
}

// Adds the tables of quantities: with periods one of each period, and one of the whole range.
fn push_units(
    alloc: Global,
    page: &mut Vec<u8>,
    commitments: &Commitments<'_>,
    sheet: &Sheet<'_, '_, '_>,
) -> Result<(), AllocError> {
    let names = UNIT_NAMES.as_slice();
    if let Some(step) = sheet.step {
        push_columns(
            alloc,
            page,
            sheet,
            "Quantities by period",
            true,
            "Unit",
            names,
        )?;
        for part in &commitments.parts {
            let period = step.text(alloc, part.period.from)?;
            let period = Some(period.as_str());
            push_unit_rows(alloc, page, sheet, &units_by_name(alloc, part)?, period)?;
            push_unit_rows(alloc, page, sheet, &units_of_all(alloc, part)?, period)?;
        }
        push_markup(page, "</tbody>\n</table></div>\n")?;
    }
    let whole = &commitments.whole;
    push_columns(
        alloc,
        page,
        sheet,
        "Quantities of the whole range",
        false,
        "Unit",
        names,
    )?;
    push_unit_rows(alloc, page, sheet, &units_by_name(alloc, whole)?, None)?;
    push_markup(page, "</tbody>\n<tfoot>\n")?;
    push_unit_rows(alloc, page, sheet, &units_of_all(alloc, whole)?, None)?;
    push_markup(page, "</tfoot>\n</table></div>\n")
}

// Adds rows of quantities.
fn push_unit_rows(
    alloc: Global,
    page: &mut Vec<u8>,
    sheet: &Sheet<'_, '_, '_>,
    records: &[UnitRecord<'_>],
    period: Option<&str>,
) -> Result<(), AllocError> {
    for record in records {
        push_unit_row(alloc, page, sheet, record, period)?;
    }
    Ok(())
}

// Adds the row of quantities of a name, or of all, whose first cell is its heading.
fn push_unit_row(
    alloc: Global,
    page: &mut Vec<u8>,
    sheet: &Sheet<'_, '_, '_>,
    record: &UnitRecord<'_>,
    period: Option<&str>,
) -> Result<(), AllocError> {
    push_markup(page, "<tr>")?;
    if let Some(period) = period {
        push_text(alloc, page, period, true)?;
    }
    for place in 0..name_columns(sheet) {
        let text = shown_text_of(sheet, record.texts, record.text_at(place), place);
        push_text(alloc, page, text, period.is_none() && place == 0)?;
    }
    push_text(alloc, page, unit_shown(sheet, record), false)?;
    push_amounts(page, &unit_cells(alloc, record)?)?;
    push_markup(page, "</tr>\n")
}

// Adds cells of amounts.
fn push_amounts(page: &mut Vec<u8>, amounts: &[String]) -> Result<(), AllocError> {
    for amount in amounts {
        push_markup(page, "<td>")?;
        push_markup(page, amount.as_str())?;
        push_markup(page, "</td>")?;
    }
    Ok(())
}

// Adds a heading, and the front of a table up to its rows: the names of the columns of texts, the last of which is given, and those of amounts.
fn push_columns(
    alloc: Global,
    page: &mut Vec<u8>,
    sheet: &Sheet<'_, '_, '_>,
    heading: &str,
    has_periods: bool,
    last: &str,
    amounts: &[&str],
) -> Result<(), AllocError> {
    let front = format!(in alloc;
        "<h2>{heading}</h2>\n<div class=\"wide\" tabindex=\"0\"><table aria-label=\"{heading}\">\n<thead><tr>"
    )?;
    push_markup(page, front.as_str())?;
    if has_periods {
        push_column(alloc, page, "Period", true)?;
    }
    if sheet.keys.is_empty() {
        push_column(alloc, page, "Commitment", true)?;
    }
    for key in sheet.keys {
        push_column(alloc, page, *key, true)?;
    }
    push_column(alloc, page, last, true)?;
    for name in amounts {
        push_column(alloc, page, *name, false)?;
    }
    push_markup(page, "</tr></thead>\n<tbody>\n")
}

// Adds the name of a column, of texts or of amounts.
fn push_column(
    alloc: Global,
    page: &mut Vec<u8>,
    name: &str,
    has_texts: bool,
) -> Result<(), AllocError> {
    push_markup(page, "<th scope=\"col\"")?;
    if has_texts {
        push_markup(page, " class=\"text\"")?;
    }
    push_markup(page, ">")?;
    push_shown(alloc, page, name)?;
    push_markup(page, "</th>")
}

// Adds the rows of the names of some hours, or those of all.
fn push_rows(
    alloc: Global,
    page: &mut Vec<u8>,
    sheet: &Sheet<'_, '_, '_>,
    part: &Part<'_>,
    period: Option<&str>,
    of_all: bool,
) -> Result<(), AllocError> {
    let records = records_of(alloc, part)?;
    for record in &records {
        if record.texts.is_none() == of_all {
            push_row(alloc, page, sheet, record, period)?;
        }
    }
    Ok(())
}

// Adds the row of a record, whose first cell is its heading.
fn push_row(
    alloc: Global,
    page: &mut Vec<u8>,
    sheet: &Sheet<'_, '_, '_>,
    record: &Record<'_>,
    period: Option<&str>,
) -> Result<(), AllocError> {
    push_markup(page, "<tr>")?;
    if let Some(period) = period {
        push_text(alloc, page, period, true)?;
    }
    for place in 0..name_columns(sheet) {
        let is_first = period.is_none() && place == 0;
        push_text(alloc, page, shown_at(sheet, record, place), is_first)?;
    }
    push_text(alloc, page, record.keeper.word(), false)?;
    push_amounts(page, &figures_of(alloc, record)?)?;
    push_markup(page, "</tr>\n")
}

// Adds a cell with a text, which is the heading of its row or not.
fn push_text(
    alloc: Global,
    page: &mut Vec<u8>,
    text: &str,
    is_heading: bool,
) -> Result<(), AllocError> {
    if is_heading {
        push_markup(page, "<th scope=\"row\" class=\"text\">")?;
        push_shown(alloc, page, text)?;
        return push_markup(page, "</th>");
    }
    push_markup(page, "<td class=\"text\">")?;
    push_shown(alloc, page, text)?;
    push_markup(page, "</td>")
}

// The texts of the figures of a record, in the order of their columns.
fn figures_of(alloc: Global, record: &Record<'_>) -> Result<Vec<String>, AllocError> {
    let [
        used,
        unused,
        amortized,
        paid,
        covered,
        uncovered,
        eligible,
        savings,
    ] = amounts_of(record)?;
    let mut cells = Vec::new(alloc);
    cells.push(cost_text(alloc, used)?)?;
    cells.push(cost_text(alloc, unused)?)?;
    cells.push(cost_text(alloc, amortized)?)?;
    cells.push(rate_text(alloc, used, amortized)?)?;
    cells.push(cost_text(alloc, paid)?)?;
    cells.push(cost_text(alloc, covered)?)?;
    cells.push(cost_text(alloc, uncovered)?)?;
    cells.push(cost_text(alloc, eligible)?)?;
    cells.push(rate_text(alloc, covered, eligible)?)?;
    cells.push(cost_text(alloc, savings)?)?;
    let whole = savings_whole(covered, eligible);
    cells.push(rate_text(alloc, savings, whole)?)?;
    Ok(cells)
}
