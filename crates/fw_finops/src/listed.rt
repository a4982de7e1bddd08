//! What rows cost at an amount that a tag of each has: those that providers' commitments cover at a price, and all rows at an amount.
ghost use Rattle.std.specs.Prelude.{◌≡◌, ◌∷◌, [], IfOk, OnOk, Some, map, option_copied};
ghost use Rattle.fw_amortise.specs.Lines.{given_line};
ghost use Rattle.fw_finops.specs.Listed.{AddsListed, AreAmountLines, IsAmount, IsPriceBy, amount_line, is_covered, is_used, known, listed_line, missing};

use crate::open::discount_of_row;
use fw_amortise::{Line, LineFields, LineKind};
use fw_charge::DiscountStatus;
use fw_money::{Nanos, parse};
use fw_row_table::LentRow;
use std::alloc::{AllocError, Global};

// Whether a status says that something was used.
fn is_used(status: Option<DiscountStatus>) -> bool
    ensures { result ≡ is_used status }
{
    match status {
        Some(DiscountStatus::Used) => true,
        Some(DiscountStatus::Unused) => false,
        None => false,
    }
}

// Whether a row says that a provider's commitment covers it.
#[tactic(auto, unfolding(crate::specs::Listed::is_covered))]
fn is_covered(row: &LentRow<'_>) -> bool
    ensures { result ≡ is_covered row.now }
{
    match row.discount() {
        Some(discount) => is_used(discount.status),
        None => false,
    }
}

// The amount that a text reads as; none where it is none.
fn amount_of(text: &str) -> Option<Nanos>
    ensures { IsAmount text.now result }
{
    match parse(text.as_bytes()) {
        Ok(amount) => Some(amount),
        Err(_) => None,
    }
}

// The price of a row by a tag; none where the row has no such tag, or its text is no amount.
#[tactic(auto, unfolding(crate::specs::Listed::IsPriceBy))]
fn price_by(row: &LentRow<'_>, tag: &str) -> Option<Nanos>
    ensures { IsPriceBy tag.now row.now result }
{
    amount_of(row.tags().group(tag))
}

// That a price is missing: one nano, where it is.
fn missing(price: &Option<Nanos>) -> Nanos
    ensures { result ≡ missing price.now }
{
    match price {
        Some(_) => Nanos::of_fields(0),
        None => Nanos::of_fields(1),
    }
}

// What is known of a price: nothing where it is missing.
fn known(price: &Option<Nanos>) -> Nanos
    ensures { result ≡ known price.now }
{
    match price {
        Some(price) => *price,
        None => Nanos::of_fields(0),
    }
}

// A row that is covered, at its price.
#[tactic(auto, unfolding(crate::specs::Listed::listed_line))]
fn listed_line<'a>(row: &LentRow<'a>, price: &Option<Nanos>, hour: u32) -> Line<'a>
    ensures { result ≡ listed_line hour row.now price.now }
{
    line_at(row, LineKind::Used, price, hour)
}

// A row by itself, at its amount.
#[tactic(auto, unfolding(crate::specs::Listed::amount_line, fw_amortise::specs::Lines::given_line))]
fn amount_line<'a>(row: &LentRow<'a>, amount: &Option<Nanos>, hour: u32) -> Line<'a>
    ensures { result ≡ amount_line hour row.now amount.now }
{
    line_at(row, LineKind::Given, amount, hour)
}

// A row as a line of a kind, at a price.
#[tactic(auto, unfolding(fw_amortise::specs::Lines::given_line))]
fn line_at<'a>(row: &LentRow<'a>, kind: LineKind, price: &Option<Nanos>, hour: u32) -> Line<'a>
    ensures { result ≡ record (given_line hour row.now) {
      kind = kind;
      billed = missing price.now;
      effective = known price.now;
    } }
{
    Line::of_fields(LineFields {
        hour,
        kind,
        category: row.category(),
        commitment: discount_of_row(row),
        billed: missing(price),
        effective: known(price),
        quantity: row.quantity(),
        sku: row.sku(),
        sub_account: row.sub_account(),
        tags: row.tags(),
    })
}

// Adds the line of a row, where it is covered.
fn push_row<'a>(
    lines: &mut Vec<Line<'a>>,
    row: &LentRow<'a>,
    tag: &str,
    hour: u32,
) -> Result<(), AllocError>
    ensures { OnOk result (AddsListed (Some tag.now) hour (row.now ∷ []) lines.old.items
        lines.new.items) }
{
    if !is_covered(row) {
        return Ok(());
    }
    let price = price_by(row, tag);
    lines.push(listed_line(row, &price, hour))?;
    Ok(())
}

// Adds the lines of the rows that are covered, at their prices by a tag.
fn push_listed<'a>(
    lines: &mut Vec<Line<'a>>,
    rows: &[&LentRow<'a>],
    tag: &str,
    hour: u32,
) -> Result<(), AllocError>
    ensures { OnOk result (AddsListed (Some tag.now) hour (map (λ r. r.now) rows.now)
        lines.old.items lines.new.items) }
{
    for row in rows {
        push_row(lines, row, tag, hour)?;
    }
    Ok(())
}

/// Adds the lines of the rows that providers' commitments cover, at their prices by a tag, where one has prices.
pub(crate) fn push_listed_by<'a>(
    lines: &mut Vec<Line<'a>>,
    rows: &[&LentRow<'a>],
    tag: Option<&str>,
    hour: u32,
) -> Result<(), AllocError>
    ensures { OnOk result (AddsListed (option_copied tag.entry) hour (map (λ r. r.now) rows.now)
        lines.old.items lines.new.items) }
{
    match tag {
        Some(tag) => push_listed(lines, rows, tag, hour),
        None => Ok(()),
    }
}

/// The lines of an hour's rows at their amounts in a tag: one for each row, in their order.
///
/// The amount is what the text of the row's tag reads as, and stands as EffectiveCost. Where the row has no such tag, or its text is no amount,
/// EffectiveCost is 0 and BilledCost is one nano, so that sums of it count such rows; else it is 0. Commitments split no row here. The lines
/// lend the texts and tags of the rows.
///
/// # Errors
/// The one error is that memory ran out.
pub fn lines_at_amounts<'a>(
    alloc: Global,
    rows: &[&LentRow<'a>],
    hour: u32,
    tag: &str,
) -> Result<Vec<Line<'a>>, AllocError>
    ensures { IfOk result (λ lines.
        AreAmountLines tag.now (map (λ r. r.now) rows.now) hour lines.items) }
{
    let mut lines = Vec::with_capacity(alloc, rows.len())?;
    for row in rows {
        let amount = price_by(row, tag);
        lines.push(amount_line(row, &amount, hour))?;
    }
    Ok(lines)
}
