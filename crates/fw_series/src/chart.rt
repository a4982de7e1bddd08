//! Charts of a page: a stack for each period, or a bar for each group.
use crate::escapes::push_shown;
use crate::frame::push_markup;
use crate::lines::{Line, lines_of};
use crate::names::name_of;
use crate::series::{Part, Series};
use fw_calendar::Step;
use fw_table::cents_text;
use std::alloc::{AllocError, Global};

/// How many groups have a colour; all others are grey.
pub(crate) const COLOURS: usize = 8;

/// How high a chart is, and how wide the room for bars, in the units of the drawing.
const HEIGHT: u128 = 1_000;

/// How wide a period is, and its stack, and where the stack begins.
const PERIOD_WIDTH: usize = 100;

const STACK_WIDTH: usize = 80;

const STACK_START: usize = 10;

/// How much a stack rises above zero, and how far it falls below: of the charges in nanos, those above zero and those below.
#[derive(Clone, Copy, Debug)]
struct Reach {
    above: u128,
    below: u128,
}

impl Reach {
    // Nothing yet.
    const NONE: Reach = Reach { above: 0, below: 0 };

    // With one more charge.
    fn with(self, charged: i128) -> Reach {
        let size = charged.unsigned_abs();
        if charged < 0 {
            Reach {
                above: self.above,
                below: self.below.saturating_add(size),
            }
        } else {
            Reach {
                above: self.above.saturating_add(size),
                below: self.below,
            }
        }
    }

    // As far as the farther one on either side.
    fn max(self, other: Reach) -> Reach {
        Reach {
            above: self.above.max(other.above),
            below: self.below.max(other.below),
        }
    }

    // Where an amount above zero ends, and one below, counted from the top of the drawing; all of it spans this reach.
    fn height_above(self, above: u128) -> u128 {
        self.scaled(self.above.saturating_sub(above))
    }

    fn height_below(self, below: u128) -> u128 {
        self.scaled(self.above.saturating_add(below))
    }

    // The bar of a charge within this reach: it begins where zero is, or ends there where the charge is below zero.
    fn bar(self, charged: i128) -> Bar {
        let length = self.scaled(charged.unsigned_abs());
        let zero = self.scaled(self.below);
        let start = if charged < 0 {
            zero.saturating_sub(length)
        } else {
            zero
        };
        Bar { start, length }
    }

    // An amount in the units of the drawing.
    fn scaled(self, amount: u128) -> u128 {
        let whole = self.above.saturating_add(self.below);
        amount
            .saturating_mul(HEIGHT)
            .checked_div(whole)
            .unwrap_or(0)
    }
}

/// A bar across a drawing that is as wide as it is high: where it begins, counted from the left, and how long it is.
#[derive(Clone, Copy, Debug)]
struct Bar {
    start: u128,
    length: u128,
}

/// The class of a line's colour: its place among the names, or the one of all others.
pub(crate) fn class_of(
    alloc: Global,
    line: &Line<'_>,
    names: &[String],
) -> Result<String, AllocError> {
    match place_of(line, names) {
        Some(place) => format!(in alloc; "c{place}"),
        None => String::from_str(alloc, "cx"),
    }
}

// The place of a line's group among the names.
fn place_of(line: &Line<'_>, names: &[String]) -> Option<usize> {
    if line.is_others {
        return None;
    }
    names.iter().position(|name| name.as_str() == line.group)
}

/// Adds the drawing of a series, whose cost has this name: a stack of the groups' charges for each period, charges below zero under the line.
pub fn push_stacks(
    alloc: Global,
    page: &mut Vec<u8>,
    series: &Series,
    step: Step,
    names: &[String],
    cost: &str,
) -> Result<(), AllocError> {
    let parts = series.parts.as_slice();
    let reach = reach_of(alloc, parts, names)?;
    push_most(alloc, page, reach)?;
    let width = parts.len().saturating_mul(PERIOD_WIDTH);
    let head = format!(in alloc;
        "<svg viewBox=\"0 0 {width} {HEIGHT}\" preserveAspectRatio=\"none\" role=\"img\" aria-label=\"{cost} by period\">"
    )?;
    push_markup(page, head.as_str())?;
    for (place, part) in parts.iter().enumerate() {
        let left = place
            .saturating_mul(PERIOD_WIDTH)
            .saturating_add(STACK_START);
        let period = step.text(alloc, part.period.from)?;
        push_stack(alloc, page, part, left, reach, period.as_str(), names)?;
    }
    let zero = reach.height_below(0);
    let line = format!(in alloc; "<path class=\"zero\" d=\"M0 {zero}H{width}\"/></svg>")?;
    push_markup(page, line.as_str())?;
    push_ends(alloc, page, parts, step)
}

// How far the stacks reach.
fn reach_of(alloc: Global, parts: &[Part], names: &[String]) -> Result<Reach, AllocError> {
    let mut reach = Reach::NONE;
    for part in parts {
        let mut own = Reach::NONE;
        let lines = lines_of(alloc, &part.report, Some(names))?;
        for line in &lines {
            own = own.with(line.costs.charged);
        }
        reach = reach.max(own);
    }
    Ok(reach)
}

// Adds the amount at the top of the drawing.
fn push_most(alloc: Global, page: &mut Vec<u8>, reach: Reach) -> Result<(), AllocError> {
    let most = i128::try_from(reach.above).unwrap_or(i128::MAX);
    let text = cents_text(alloc, most)?;
    push_markup(page, "<p class=\"axis\">")?;
    push_markup(page, text.as_str())?;
    push_markup(page, "</p>")
}

// Adds the stack of a period.
fn push_stack(
    alloc: Global,
    page: &mut Vec<u8>,
    part: &Part,
    left: usize,
    reach: Reach,
    period: &str,
    names: &[String],
) -> Result<(), AllocError> {
    let lines = lines_of(alloc, &part.report, Some(names))?;
    let mut own = Reach::NONE;
    for line in &lines {
        let next = own.with(line.costs.charged);
        let (top, bottom) = if line.costs.charged < 0 {
            (
                reach.height_below(own.below),
                reach.height_below(next.below),
            )
        } else {
            (
                reach.height_above(next.above),
                reach.height_above(own.above),
            )
        };
        let class = class_of(alloc, line, names)?;
        let height = bottom.saturating_sub(top);
        let shape = format!(in alloc;
            "<rect class=\"{class}\" x=\"{left}\" y=\"{top}\" width=\"{STACK_WIDTH}\" height=\"{height}\"><title>{period}, "
        )?;
        push_markup(page, shape.as_str())?;
        push_shown(alloc, page, name_of(line))?;
        let cost = cents_text(alloc, line.costs.charged)?;
        push_markup(page, ": ")?;
        push_markup(page, cost.as_str())?;
        push_markup(page, "</title></rect>")?;
        own = next;
    }
    Ok(())
}

// Adds the first and the last period, under the drawing.
fn push_ends(
    alloc: Global,
    page: &mut Vec<u8>,
    parts: &[Part],
    step: Step,
) -> Result<(), AllocError> {
    push_markup(page, "<p class=\"ends\"><span>")?;
    if let Some(first) = parts.first() {
        let text = step.text(alloc, first.period.from)?;
        push_markup(page, text.as_str())?;
    }
    push_markup(page, "</span><span>")?;
    if let Some(last) = parts.last() {
        let text = step.text(alloc, last.period.from)?;
        push_markup(page, text.as_str())?;
    }
    push_markup(page, "</span></p>")
}

/// Adds a bar for each line, as long as its part of all that the bars reach over: to the right of zero, or to the left where the charge is below
/// zero.
pub(crate) fn push_bars(
    alloc: Global,
    page: &mut Vec<u8>,
    lines: &[Line<'_>],
    names: &[String],
) -> Result<(), AllocError> {
    let mut reach = Reach::NONE;
    for line in lines {
        reach = reach.max(Reach::NONE.with(line.costs.charged));
    }
    push_markup(page, "<div class=\"bars\">")?;
    for line in lines {
        push_bar(alloc, page, line, reach, names)?;
    }
    push_markup(page, "</div>")
}

// Adds the bar of a line.
fn push_bar(
    alloc: Global,
    page: &mut Vec<u8>,
    line: &Line<'_>,
    reach: Reach,
    names: &[String],
) -> Result<(), AllocError> {
    let bar = reach.bar(line.costs.charged);
    let start = percent_text(alloc, bar.start)?;
    let length = percent_text(alloc, bar.length)?;
    let class = class_of(alloc, line, names)?;
    let cost = cents_text(alloc, line.costs.charged)?;
    push_markup(page, "<span>")?;
    push_shown(alloc, page, name_of(line))?;
    let bar = format!(in alloc;
        "</span><span class=\"bar\"><i class=\"{class}\" style=\"margin-left:{start};width:{length}\"></i></span><span class=\"number\">{cost}</span>"
    )?;
    push_markup(page, bar.as_str())
}

// A length in thousandths of the drawing, as percent.
fn percent_text(alloc: Global, thousandths: u128) -> Result<String, AllocError> {
    format!(in alloc; "{}.{}%", thousandths / 10, thousandths % 10)
}
