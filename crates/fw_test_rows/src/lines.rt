//! What a value says, in one line of text: a test compares the line, and not field after field.
use fw_commitment::{Commitment, Terms};
use fw_rows::{Row, Tags};
use fw_terms::{Give, Policy};
use std::alloc::{AllocError, Global};

/// Each tag, as `key=value;`.
fn push_tags(line: &mut String, tags: &Tags) -> Result<(), AllocError> {
    for tag in tags.as_slice() {
        line.push_str(tag.key())?;
        line.push_str("=")?;
        line.push_str(tag.value())?;
        line.push_str(";")?;
    }
    Ok(())
}

/// A text, or `-` where there is none, behind a blank.
fn push_text(line: &mut String, text: Option<&str>) -> Result<(), AllocError> {
    line.push_str(" ")?;
    line.push_str(text.unwrap_or("-"))
}

/// A discount's id, kind and status, or `-` where there is none.
fn push_discount(line: &mut String, row: &Row) -> Result<(), AllocError> {
    match row.discount() {
        None => line.push_str(" -"),
        Some(discount) => {
            push_text(line, Some(discount.id()))?;
            write!(line, " {:?} {:?}", discount.kind(), discount.status())
        }
    }
}

/// A quantity in nanos, or `-` where there is none.
fn push_quantity(line: &mut String, row: &Row) -> Result<(), AllocError> {
    match row.quantity() {
        None => line.push_str(" -"),
        Some(quantity) => write!(line, " {}", quantity.count()),
    }
}

/// A row's costs in nanos, its category and period in seconds.
fn charged(alloc: Global, row: &Row) -> Result<String, AllocError> {
    let (billed, effective) = (row.billed().count(), row.effective().count());
    let (start, end) = (row.start(), row.end());
    format!(in alloc; "{billed} {effective} {:?} {start} {end}", row.category())
}

/// All that a row says: costs, category, period, class, hour, discount, quantity, unit, SKU, account and tags.
pub(crate) fn row_line(alloc: Global, row: &Row) -> Result<String, AllocError> {
    let mut line = charged(alloc, row)?;
    write!(line, " {} {}", row.is_correction(), row.hour())?;
    push_discount(&mut line, row)?;
    push_quantity(&mut line, row)?;
    push_text(&mut line, row.unit())?;
    push_text(&mut line, row.sku())?;
    push_text(&mut line, row.sub_account())?;
    line.push_str(" ")?;
    push_tags(&mut line, row.tags())?;
    Ok(line)
}

/// A unit and SKUs, or rates.
fn push_terms(line: &mut String, terms: &Terms) -> Result<(), AllocError> {
    match terms {
        Terms::Usage { unit, skus } => {
            push_text(line, Some(unit))?;
            for sku in skus {
                push_text(line, Some(sku))?;
            }
            Ok(())
        }
        Terms::Spend { rates } => {
            for rate in rates {
                push_text(line, Some(rate.sku()))?;
            }
            Ok(())
        }
    }
}

/// A commitment's id, first hour, hours, capacity and cost in nanos, terms, account and tags.
pub(crate) fn commitment_line(alloc: Global, one: &Commitment) -> Result<String, AllocError> {
    let (capacity, cost) = (one.capacity().count(), one.cost().count());
    let (start, hours) = (one.start(), one.hours());
    let mut line = format!(in alloc; "{} {start} {hours} {capacity} {cost}", one.id())?;
    push_terms(&mut line, one.terms())?;
    push_text(&mut line, one.sub_account())?;
    line.push_str(" ")?;
    push_tags(&mut line, one.tags())?;
    Ok(line)
}

/// To whom a rule gives, each with its weight, or `in proportion`.
fn push_give(line: &mut String, give: &Give) -> Result<(), AllocError> {
    match give {
        Give::Fixed(targets) => {
            for target in targets {
                push_text(line, Some(target.group()))?;
                write!(line, "*{}", target.weight())?;
            }
            Ok(())
        }
        Give::Proportional => line.push_str(" in proportion"),
    }
}

/// A policy's key, and each rule: who gives, and to whom.
pub(crate) fn policy_line(alloc: Global, policy: &Policy) -> Result<String, AllocError> {
    let mut line = String::from_str(alloc, policy.key())?;
    for rule in policy.rules() {
        line.push_str("; '")?;
        line.push_str(rule.from())?;
        line.push_str("' to")?;
        push_give(&mut line, rule.give())?;
    }
    Ok(line)
}

/// Tags alone.
pub(crate) fn tags_line(alloc: Global, tags: &Tags) -> Result<String, AllocError> {
    let mut line = String::new(alloc);
    push_tags(&mut line, tags)?;
    Ok(line)
}
