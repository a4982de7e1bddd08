//! What a group cost, as a page of HTML.
use crate::owned::{Owned, Stretch};
use crate::table::{NAMES, amounts_of, first_name, whole_name};
use crate::view::View;
use fw_calendar::{Period, Step, hour_text};
use fw_query::{Entry, Report};
use fw_series::{Part, Series, begin_page, end_page, push_markup, push_shown, push_stacks};
use std::alloc::{AllocError, Global};

/// The cost that is drawn.
const COST: &str = "ChargedCost";

/// What a group cost as a page: with periods a chart of what it is charged in each; and a table of its costs, and of what it was charged in the
/// hours before.
pub(crate) fn page_text(
    alloc: Global,
    owned: &Owned,
    view: &View<'_>,
) -> Result<Vec<u8>, AllocError> {
    let mut page = Vec::new(alloc);
    begin_page(alloc, &mut page, "Costs of ", view.shown_group())?;
    push_about(alloc, &mut page, owned.whole, view)?;
    if let Some(step) = view.step {
        push_chart(alloc, &mut page, owned, view, step)?;
    }
    push_table(alloc, &mut page, owned, view)?;
    end_page(&mut page)?;
    Ok(page)
}

// Adds what the page is of.
fn push_about(
    alloc: Global,
    page: &mut Vec<u8>,
    whole: Stretch,
    view: &View<'_>,
) -> Result<(), AllocError> {
    push_markup(page, "<p class=\"quiet\">By the tag ")?;
    push_shown(alloc, page, view.tag)?;
    let range = hours_text(alloc, whole.hours)?;
    push_markup(page, ", ")?;
    push_markup(page, range.as_str())?;
    push_markup(page, ", in ")?;
    push_shown(alloc, page, view.currency)?;
    push_markup(page, "</p>\n")?;
    if let Some(before) = whole.before {
        let range = hours_text(alloc, before.hours)?;
        push_markup(page, "<p class=\"quiet\">The hours before are ")?;
        push_markup(page, range.as_str())?;
        push_markup(page, "</p>\n")?;
    }
    Ok(())
}

// A range of hours, as a page names it.
fn hours_text(alloc: Global, hours: Period) -> Result<String, AllocError> {
    let from = hour_text(alloc, hours.from)?;
    let to = hour_text(alloc, hours.to)?;
    format!(in alloc; "{from} to {to}")
}

// Adds a chart of what the group is charged in each period.
fn push_chart(
    alloc: Global,
    page: &mut Vec<u8>,
    owned: &Owned,
    view: &View<'_>,
    step: Step,
) -> Result<(), AllocError> {
    let series = series_of(alloc, owned, view)?;
    let names = vec![in alloc; String::from_str(alloc, view.group)?]?;
    push_stacks(alloc, page, &series, step, names.as_slice(), COST)
}

// What a group cost as a series of reports that have no other group.
fn series_of(alloc: Global, owned: &Owned, view: &View<'_>) -> Result<Series, AllocError> {
    let whole = report_of(alloc, &owned.whole, view)?;
    let mut parts = Vec::new(alloc);
    for stretch in &owned.parts {
        let report = report_of(alloc, stretch, view)?;
        parts.push(Part {
            period: stretch.hours,
            report,
        })?;
    }
    Ok(Series { whole, parts })
}

// The report of some hours that has no other group.
fn report_of(alloc: Global, stretch: &Stretch, view: &View<'_>) -> Result<Report, AllocError> {
    let costs = stretch.costs;
    let group = String::from_str(alloc, view.group)?;
    let entry = Entry::of_charge(group, costs.billed, costs.effective, costs.charged);
    Ok(Report::of_entries(vec![in alloc; entry]?))
}

// Adds the table of the periods, where there are some, and of the whole range.
fn push_table(
    alloc: Global,
    page: &mut Vec<u8>,
    owned: &Owned,
    view: &View<'_>,
) -> Result<(), AllocError> {
    push_markup(page, "<h2>Costs beside the hours before</h2>\n")?;
    push_markup(
        page,
        "<div class=\"wide\" tabindex=\"0\"><table aria-label=\"Costs\">\n<thead><tr><th scope=\"col\">",
    )?;
    push_markup(page, first_name(view))?;
    push_markup(page, "</th>")?;
    for name in NAMES.iter() {
        push_markup(page, "<th scope=\"col\">")?;
        push_markup(page, *name)?;
        push_markup(page, "</th>")?;
    }
    push_markup(page, "</tr></thead>\n<tbody>\n")?;
    if let Some(step) = view.step {
        for part in &owned.parts {
            let period = step.text(alloc, part.hours.from)?;
            push_row(alloc, page, period.as_str(), part)?;
        }
        push_markup(page, "</tbody>\n<tfoot>\n")?;
        push_row(alloc, page, whole_name(view), &owned.whole)?;
        return push_markup(page, "</tfoot>\n</table></div>\n");
    }
    push_row(alloc, page, whole_name(view), &owned.whole)?;
    push_markup(page, "</tbody>\n</table></div>\n")
}

// Adds the row of some hours.
fn push_row(
    alloc: Global,
    page: &mut Vec<u8>,
    name: &str,
    stretch: &Stretch,
) -> Result<(), AllocError> {
    push_markup(page, "<tr><th scope=\"row\">")?;
    push_shown(alloc, page, name)?;
    push_markup(page, "</th>")?;
    for amount in &amounts_of(alloc, stretch)? {
        push_markup(page, "<td>")?;
        push_markup(page, amount.as_str())?;
        push_markup(page, "</td>")?;
    }
    push_markup(page, "</tr>\n")
}
