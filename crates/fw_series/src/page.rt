//! Reports as a page of HTML: one file that needs nothing else.
use crate::chart::{COLOURS, class_of, push_bars, push_stacks};
use crate::escapes::push_shown;
use crate::frame::{begin_page, end_page, push_markup};
use crate::lines::{Line, lines_of};
use crate::names::{chosen, name_of};
use crate::series::{Part, Series};
use crate::sums::{Sums, sums_in};
use crate::top::most_charged;
use crate::view::View;
use fw_calendar::{Step, hour_text};
use fw_query::Report;
use fw_table::{cents_text, share_text};
use std::alloc::{AllocError, Global};

/// What a page is of.
#[derive(Clone, Copy, Debug)]
pub(crate) struct Face<'f> {
    /// The cost that is drawn.
    pub(crate) cost: &'static str,
    /// A line below the title; empty for none.
    pub(crate) about: &'f str,
}

impl<'f> Face<'f> {
    /// The cost of a report.
    pub(crate) const CHARGED: &'static str = "ChargedCost";
    /// The cost of a report that has no charges.
    pub(crate) const EFFECTIVE: &'static str = "EffectiveCost";

    // Whether the groups are charged.
    fn has_charges(&self) -> bool {
        self.cost == Face::CHARGED
    }
}

/// A series as a page without ChargedCost, which shows EffectiveCost in its place: of a report to which no policy applies. A line below the title
/// says more of it. The one error is that memory ran out, or that a sum of groups passes 128 bits.
pub fn page_without_charges(
    alloc: Global,
    series: &Series,
    view: &View<'_>,
    about: &str,
) -> Result<Vec<u8>, AllocError> {
    let face = Face {
        cost: Face::EFFECTIVE,
        about,
    };
    page_text(alloc, series, view, &face)
}

/// A series as a page: a chart of what the groups are charged, what each is charged in each period, and a table of all costs of the range.
pub(crate) fn page_text(
    alloc: Global,
    series: &Series,
    view: &View<'_>,
    face: &Face<'_>,
) -> Result<Vec<u8>, AllocError> {
    let coloured = view.top.unwrap_or(COLOURS).min(COLOURS);
    let colours = most_charged(alloc, &series.whole, coloured)?;
    let colours = colours.as_slice();
    let names = chosen(alloc, series, view)?;
    let names = names.as_ref().map(|names| names.as_slice());
    let mut page = Vec::new(alloc);
    push_head(alloc, &mut page, view, face)?;
    let drawn = lines_of(alloc, &series.whole, Some(colours))?;
    match view.step {
        Some(step) => {
            push_legend(alloc, &mut page, drawn.as_slice(), colours)?;
            push_stacks(alloc, &mut page, series, step, colours, face.cost)?;
            push_periods(
                alloc,
                &mut page,
                series,
                step,
                drawn.as_slice(),
                colours,
                face.cost,
            )?;
        }
        None => push_bars(alloc, &mut page, drawn.as_slice(), colours)?,
    }
    push_groups(alloc, &mut page, &series.whole, names, face)?;
    end_page(&mut page)?;
    Ok(page)
}

// Adds the head of the page, and what it is of.
fn push_head(
    alloc: Global,
    page: &mut Vec<u8>,
    view: &View<'_>,
    face: &Face<'_>,
) -> Result<(), AllocError> {
    let from = hour_text(alloc, view.from)?;
    let to = hour_text(alloc, view.to)?;
    begin_page(alloc, page, "Costs by ", view.tag)?;
    push_markup(page, "<p class=\"quiet\">")?;
    let range = format!(in alloc; "{from} to {to}, in ")?;
    push_markup(page, range.as_str())?;
    push_shown(alloc, page, view.currency)?;
    push_markup(page, "; the chart shows ")?;
    push_markup(page, face.cost)?;
    push_markup(page, "</p>\n")?;
    if !face.about.is_empty() {
        push_markup(page, "<p class=\"quiet\">")?;
        push_shown(alloc, page, face.about)?;
        push_markup(page, "</p>\n")?;
    }
    Ok(())
}

// Adds the names of the colours.
fn push_legend(
    alloc: Global,
    page: &mut Vec<u8>,
    drawn: &[Line<'_>],
    colours: &[String],
) -> Result<(), AllocError> {
    push_markup(page, "<ul class=\"legend\">")?;
    for line in drawn {
        let class = class_of(alloc, line, colours)?;
        let item = format!(in alloc; "<li><i class=\"{class}\"></i>")?;
        push_markup(page, item.as_str())?;
        push_shown(alloc, page, name_of(line))?;
        push_markup(page, "</li>")?;
    }
    push_markup(page, "</ul>\n")
}

// Adds the table of the periods: a column for each colour.
fn push_periods(
    alloc: Global,
    page: &mut Vec<u8>,
    series: &Series,
    step: Step,
    drawn: &[Line<'_>],
    colours: &[String],
    cost: &str,
) -> Result<(), AllocError> {
    push_markup(page, "<h2>")?;
    push_markup(page, cost)?;
    push_markup(
        page,
        " by period</h2>\n<div class=\"wide\" tabindex=\"0\"><table aria-label=\"Costs by period\">\n<thead><tr><th scope=\"col\">Period</th>",
    )?;
    for line in drawn {
        push_markup(page, "<th scope=\"col\">")?;
        push_shown(alloc, page, name_of(line))?;
        push_markup(page, "</th>")?;
    }
    push_markup(page, "<th scope=\"col\">Total</th></tr></thead>\n<tbody>\n")?;
    for part in &series.parts {
        push_period(alloc, page, part, step, drawn, colours)?;
    }
    push_markup(page, "</tbody>\n</table></div>\n")
}

// Adds the row of a period.
fn push_period(
    alloc: Global,
    page: &mut Vec<u8>,
    part: &Part,
    step: Step,
    drawn: &[Line<'_>],
    colours: &[String],
) -> Result<(), AllocError> {
    let own = lines_of(alloc, &part.report, Some(colours))?;
    let period = step.text(alloc, part.period.from)?;
    push_markup(page, "<tr><th scope=\"row\">")?;
    push_markup(page, period.as_str())?;
    push_markup(page, "</th>")?;
    for line in drawn {
        match same_line(own.as_slice(), line) {
            Some(charged) => push_amount(alloc, page, charged)?,
            None => push_markup(page, "<td></td>")?,
        }
    }
    push_amount(alloc, page, sums_in(&part.report)?.charged)?;
    push_markup(page, "</tr>\n")
}

// What a period's line of the same group is charged, where the period has one.
fn same_line(own: &[Line<'_>], line: &Line<'_>) -> Option<i128> {
    for other in own {
        if other.is_others == line.is_others && other.group == line.group {
            return Some(other.costs.charged);
        }
    }
    None
}

// Adds a cell with an amount.
fn push_amount(alloc: Global, page: &mut Vec<u8>, nanos: i128) -> Result<(), AllocError> {
    let text = cents_text(alloc, nanos)?;
    push_markup(page, "<td>")?;
    push_markup(page, text.as_str())?;
    push_markup(page, "</td>")
}

// Adds the table of the groups over the whole range.
fn push_groups(
    alloc: Global,
    page: &mut Vec<u8>,
    report: &Report,
    names: Option<&[String]>,
    face: &Face<'_>,
) -> Result<(), AllocError> {
    let sums = sums_in(report)?;
    push_markup(
        page,
        "<h2>Costs of the whole range</h2>\n<div class=\"wide\" tabindex=\"0\"><table aria-label=\"Costs of the whole range\">\n",
    )?;
    push_markup(page, "<thead><tr><th scope=\"col\">Group</th>")?;
    push_markup(page, "<th scope=\"col\">BilledCost</th>")?;
    push_markup(page, "<th scope=\"col\">EffectiveCost</th>")?;
    if face.has_charges() {
        push_markup(page, "<th scope=\"col\">ChargedCost</th>")?;
    }
    push_markup(page, "<th scope=\"col\">Share</th></tr></thead>\n<tbody>\n")?;
    let lines = lines_of(alloc, report, names)?;
    for line in &lines {
        push_markup(page, "<tr><th scope=\"row\">")?;
        push_shown(alloc, page, name_of(line))?;
        push_markup(page, "</th>")?;
        push_costs(alloc, page, face, &line.costs, &sums)?;
    }
    push_markup(page, "</tbody>\n<tfoot><tr><th scope=\"row\">Total</th>")?;
    push_costs(alloc, page, face, &sums, &sums)?;
    push_markup(page, "</tfoot>\n</table></div>\n")
}

// Adds the cells of costs, and the end of their row.
fn push_costs(
    alloc: Global,
    page: &mut Vec<u8>,
    face: &Face<'_>,
    costs: &Sums,
    all: &Sums,
) -> Result<(), AllocError> {
    push_amount(alloc, page, costs.billed)?;
    push_amount(alloc, page, costs.direct)?;
    if face.has_charges() {
        push_amount(alloc, page, costs.charged)?;
    }
    let share = share_text(alloc, costs.charged, all.charged)?;
    push_markup(page, "<td>")?;
    push_markup(page, share.as_str())?;
    push_markup(page, "</td></tr>\n")
}
