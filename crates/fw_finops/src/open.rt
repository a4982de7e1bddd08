//! What commitments could have taken of an hour's rows.
ghost use Rattle.std.specs.Prelude.{◌≡◌, ◌≤◌, ◌^◌, ◌++◌, ◌∷◌, [], MatchOption, OnOk, filter, map, max, option_copied, option_map};
ghost use Rattle.std.specs.List.{list_any};
ghost use Rattle.fw_amortise.specs.LineView.{discount_of};
ghost use Rattle.fw_amortise.specs.Lines.{given_line};
ghost use Rattle.fw_amortise.specs.declared.line.LineKind.TheVariants as kind;
ghost use Rattle.fw_finops.specs.Lines.{applies, counts, coverable_line, eligible_line, eligible_of};
ghost use Rattle.fw_finops.specs.Lines.{first_or, most_of, open_lines, open_lines_of, unit_line, unit_lines_of};

use crate::applied::applied;
use crate::usable::usable;
use fw_amortise::{Line, LineDiscount, LineFields, LineKind};
use fw_charge::DiscountStatus;
use fw_money::Nanos;
use fw_row_table::LentRow;
use fw_terms::Commitment;
use std::alloc::{AllocError, Global};

// Whether a commitment applies to a row of an hour.
#[tactic(auto, unfolding(crate::specs::Lines::applies))]
fn applies(commitment: &Commitment, row: &LentRow<'_>, hour: u32) -> bool
    ensures { result ≡ applies hour row.now commitment.now }
{
    applied(commitment, row, hour).is_some()
}

// A row beside a commitment that applies to it, with what it could have used of its capacity.
#[tactic(auto, unfolding(crate::specs::Lines::eligible_line, fw_amortise::specs::Lines::given_line))]
fn eligible_line<'a>(commitment: &'a Commitment, row: &LentRow<'a>, hour: u32) -> Line<'a>
    ensures { result ≡ eligible_line hour row.now commitment.now }
{
    let discount = LineDiscount {
        id: commitment.id(),
        kind: commitment.kind(),
        status: None,
    };
    let billed = Nanos::of_fields(usable(commitment, row, hour) as i64);
    row_line(row, Some(discount), billed, hour)
}

// Whether a commitment counts the cost of a row of an hour, or else its quantity; neither where it doesn't apply.
#[tactic(auto, unfolding(crate::specs::Lines::counts))]
fn counts(commitment: &Commitment, row: &LentRow<'_>, hour: u32, is_cost: bool) -> bool
    ensures { result ≡ counts hour row.now is_cost commitment.now }
{
    match applied(commitment, row, hour) {
        Some(Some(_rate)) => is_cost,
        Some(None) => !is_cost,
        None => false,
    }
}

// A row that a commitment counts, and so much as BilledCost.
#[tactic(auto, unfolding(crate::specs::Lines::unit_line, fw_amortise::specs::Lines::given_line))]
fn unit_line<'a>(commitment: &'a Commitment, row: &LentRow<'a>, most: u64, hour: u32) -> Line<'a>
    requires { most ≤ 10 ^ 17 }
    ensures { result ≡ unit_line hour row.now commitment.now most }
{
    let discount = LineDiscount {
        id: commitment.id(),
        kind: commitment.kind(),
        status: Some(DiscountStatus::Unused),
    };
    row_line(row, Some(discount), Nanos::of_fields(most as i64), hour)
}

/// The discount that a row belongs to.
pub(crate) fn discount_of_row<'a>(row: &LentRow<'a>) -> Option<LineDiscount<'a>>
    ensures { option_map discount_of result ≡ row.now.discount }
{
    let discount = row.discount()?;
    Some(LineDiscount {
        id: discount.id,
        kind: discount.kind,
        status: discount.status,
    })
}

// A row by itself.
#[tactic(auto, unfolding(crate::specs::Lines::coverable_line, fw_amortise::specs::Lines::given_line))]
fn coverable_line<'a>(row: &LentRow<'a>, hour: u32) -> Line<'a>
    ensures { result ≡ coverable_line hour row.now }
{
    row_line(row, discount_of_row(row), row.billed(), hour)
}

// A row beside a discount and an amount.
#[tactic(auto, unfolding(fw_amortise::specs::Lines::given_line))]
fn row_line<'a>(
    row: &LentRow<'a>,
    discount: Option<LineDiscount<'a>>,
    billed: Nanos,
    hour: u32,
) -> Line<'a>
    ensures { result ≡ record (given_line hour row.now) {
      kind = kind.Rest;
      commitment = option_map discount_of discount.entry;
      billed = billed;
    } }
{
    Line::of_fields(LineFields {
        hour,
        kind: LineKind::Rest,
        category: row.category(),
        commitment: discount,
        billed,
        effective: row.effective(),
        quantity: row.quantity(),
        sku: row.sku(),
        sub_account: row.sub_account(),
        tags: row.tags(),
    })
}

// Adds a line for each commitment that applies to a row.
#[tactic(auto, unfolding(crate::specs::Lines::eligible_of))]
fn push_eligible<'a>(
    lines: &mut Vec<Line<'a>>,
    commitments: &'a [Commitment],
    row: &LentRow<'a>,
    hour: u32,
) -> Result<(), AllocError>
    ensures { OnOk result (lines.new.items
        ≡ lines.old.items ++ eligible_of commitments.now hour row.now) }
{
    for commitment in commitments {
        if applies(commitment, row, hour) {
            lines.push(eligible_line(commitment, row, hour))?;
        }
    }
    Ok(())
}

// The first commitment, where there is one already; else the next.
fn first_of<'a>(first: Option<&'a Commitment>, next: &'a Commitment) -> Option<&'a Commitment>
    ensures { option_copied result ≡ first_or (option_copied first.entry) next.now }
{
    match first {
        Some(first) => Some(first),
        None => Some(next),
    }
}

// The greater of two numbers.
fn greater_of(a: u64, b: u64) -> u64
    ensures { result ≡ max a b }
{
    if a < b { b } else { a }
}

// A row once, where commitments count its cost, or else its quantity: with the first of them, and the most that it could have used of one.
fn most_of<'a>(
    commitments: &'a [Commitment],
    row: &LentRow<'a>,
    hour: u32,
    is_cost: bool,
) -> Option<Line<'a>>
    ensures { MatchOption result
        (most_of hour row.now (filter (counts hour row.now is_cost) commitments.now) ≡ [])
        (λ line. most_of hour row.now (filter (counts hour row.now is_cost) commitments.now)
        ≡ line ∷ []) }
{
    let mut first = None;
    let mut most = 0_u64;
    for commitment in commitments {
        if counts(commitment, row, hour, is_cost) {
            first = first_of(first, commitment);
            most = greater_of(most, usable(commitment, row, hour));
        }
    }
    Some(unit_line(first?, row, most, hour))
}

// Adds the lines of a row that commitments count, once in its unit and once in the currency.
#[tactic(auto, unfolding(crate::specs::Lines::unit_lines_of))]
fn push_units<'a>(
    lines: &mut Vec<Line<'a>>,
    commitments: &'a [Commitment],
    row: &LentRow<'a>,
    hour: u32,
) -> Result<(), AllocError>
    ensures { OnOk result (lines.new.items
        ≡ lines.old.items ++ unit_lines_of commitments.now hour row.now) }
{
    if let Some(line) = most_of(commitments, row, hour, false) {
        lines.push(line)?;
    }
    if let Some(line) = most_of(commitments, row, hour, true) {
        lines.push(line)?;
    }
    Ok(())
}

// Whether some commitment applies to a row.
fn is_coverable(commitments: &[Commitment], row: &LentRow<'_>, hour: u32) -> bool
    ensures { result ≡ list_any (applies hour row.now) commitments.now }
{
    commitments
        .iter()
        .any(|commitment| applies(commitment, row, hour))
}

// Adds the lines of a row: beside each commitment that applies to it, once in each unit, and by itself where one applies.
fn push_open_of<'a>(
    lines: &mut Vec<Line<'a>>,
    commitments: &'a [Commitment],
    row: &LentRow<'a>,
    hour: u32,
) -> Result<(), AllocError>
    ensures { OnOk result (lines.new.items
        ≡ lines.old.items ++ open_lines_of commitments.now hour row.now) }
{
    if !is_coverable(commitments, row, hour) {
        return Ok(());
    }
    push_eligible(lines, commitments, row, hour)?;
    push_units(lines, commitments, row, hour)?;
    lines.push(coverable_line(row, hour))?;
    Ok(())
}

/// Adds the lines of the rows that commitments could have taken.
#[tactic(auto, unfolding(crate::specs::Lines::open_lines))]
pub(crate) fn push_open<'a>(
    lines: &mut Vec<Line<'a>>,
    commitments: &'a [Commitment],
    rows: &[&LentRow<'a>],
    hour: u32,
) -> Result<(), AllocError>
    ensures { OnOk result (lines.new.items
        ≡ lines.old.items ++ open_lines commitments.now (map (λ r. r.now) rows.now) hour) }
{
    for row in rows {
        push_open_of(lines, commitments, row, hour)?;
    }
    Ok(())
}
