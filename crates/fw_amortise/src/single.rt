//! Single lines.
ghost use Rattle.std.specs.Prelude.{◌≡◌, ◌==◌, ◌<◌, ◌≤◌, ◌^◌, length, map, option_map, pos, unsigned_abs};
ghost use Rattle.fw_charge.specs.Charge.{hour_of};
ghost use Rattle.fw_cover.specs.Hour.{quantity_of};
ghost use Rattle.fw_cover.specs.Part.{in_proportion};
ghost use Rattle.fw_amortise.specs.LineView.{discount_of};
ghost use Rattle.fw_amortise.specs.Lines.{purchase_line, given_line, used_line, unused_line, rest_line};

use crate::line::{Line, LineDiscount, LineFields, LineKind};
use fw_charge::{Category, DiscountStatus, hour_of};
use fw_cover::{Taken, in_proportion};
use fw_money::Nanos;
use fw_row_table::{LentRow, LentTags};
use fw_terms::{Commitment, Purchase};

/// Whether a second is one of an hour.
pub(crate) fn is_in_hour(second: u64, hour: u32) -> bool
    ensures { result ≡ (hour_of second == hour) }
{
    hour_of(second) == u64::from(hour)
}

/// No cost.
fn nothing() -> Nanos
    ensures { result ≡ pos 0 }
{
    Nanos::of_fields(0)
}

/// A purchase of a commitment.
#[tactic(auto, unfolding(crate::specs::Lines::purchase_line))]
pub(crate) fn purchase_line<'a>(
    commitment: &'a Commitment,
    purchase: &Purchase,
    hour: u32,
) -> Line<'a>
    ensures { result ≡ purchase_line hour commitment.now purchase.now }
{
    Line::of_fields(LineFields {
        hour,
        kind: LineKind::Purchase,
        category: Category::Purchase,
        commitment: Some(LineDiscount {
            id: commitment.id(),
            kind: commitment.kind(),
            status: None,
        }),
        billed: purchase.billed(),
        effective: nothing(),
        quantity: None,
        sku: None,
        sub_account: commitment.sub_account(),
        tags: LentTags::of_tags(commitment.tags()),
    })
}

/// The discount that a row belongs to.
fn discount_of_row<'a>(row: &LentRow<'a>) -> Option<LineDiscount<'a>>
    ensures { option_map discount_of result ≡ row.now.discount }
{
    let discount = row.discount()?;
    Some(LineDiscount {
        id: discount.id,
        kind: discount.kind,
        status: discount.status,
    })
}

/// A row as it was given.
#[tactic(auto, unfolding(crate::specs::Lines::given_line))]
pub(crate) fn given_line<'a>(row: &LentRow<'a>, hour: u32) -> Line<'a>
    ensures { result ≡ given_line hour row.now }
{
    Line::of_fields(LineFields {
        hour,
        kind: LineKind::Given,
        category: row.category(),
        commitment: discount_of_row(row),
        billed: row.billed(),
        effective: row.effective(),
        quantity: row.quantity(),
        sku: row.sku(),
        sub_account: row.sub_account(),
        tags: row.tags(),
    })
}

/// What a commitment took of a row, at its share of the hour's amount.
#[tactic(auto, unfolding(crate::specs::Lines::used_line))]
pub(crate) fn used_line<'a>(
    commitment: &'a Commitment,
    rows: &[&LentRow<'a>],
    take: &Taken,
    share: u128,
    hour: u32,
) -> Line<'a>
    requires row { take.now.row < length rows.now }
    requires quantity { take.now.quantity ≤ 10 ^ 17 }
    requires share { share ≤ 10 ^ 17 }
    ensures { result ≡ used_line hour commitment.now (map (λ r. r.now) rows.now) take.now share }
{
    let covered = rows[take.row];
    Line::of_fields(LineFields {
        hour,
        kind: LineKind::Used,
        category: Category::Usage,
        commitment: Some(LineDiscount {
            id: commitment.id(),
            kind: commitment.kind(),
            status: Some(DiscountStatus::Used),
        }),
        billed: nothing(),
        effective: Nanos::of_fields(share as i64),
        quantity: Some(Nanos::of_fields(take.quantity as i64)),
        sku: covered.sku(),
        sub_account: covered.sub_account(),
        tags: covered.tags(),
    })
}

/// What a commitment left unused, at its share of the hour's amount.
#[tactic(auto, unfolding(crate::specs::Lines::unused_line))]
pub(crate) fn unused_line<'a>(commitment: &'a Commitment, share: u128, hour: u32) -> Line<'a>
    requires { share ≤ 10 ^ 17 }
    ensures { result ≡ unused_line hour commitment.now share }
{
    Line::of_fields(LineFields {
        hour,
        kind: LineKind::Unused,
        category: Category::Usage,
        commitment: Some(LineDiscount {
            id: commitment.id(),
            kind: commitment.kind(),
            status: Some(DiscountStatus::Unused),
        }),
        billed: nothing(),
        effective: Nanos::of_fields(share as i64),
        quantity: None,
        sku: None,
        sub_account: commitment.sub_account(),
        tags: LentTags::of_tags(commitment.tags()),
    })
}

/// The quantity of a row, in nanos as its absolute value, or 0 where it has none.
pub fn quantity_of(row: &LentRow<'_>) -> u64
    ensures value { result ≡ quantity_of row.now }
    ensures bound { result ≤ 10 ^ 17 }
{
    match row.quantity() {
        Some(quantity) => quantity.count().unsigned_abs(),
        None => 0,
    }
}

/// The part of a cost that falls to what is left of a quantity, rounded down.
fn part_of(cost: Nanos, left: u64, quantity: u64) -> Nanos
    requires some { 0 < quantity }
    requires left { left ≤ quantity }
    ensures { result ≡ pos (in_proportion (unsigned_abs cost) quantity left) }
{
    let cost = cost.count().unsigned_abs();
    Nanos::of_fields(in_proportion(cost, quantity, left) as i64)
}

/// What of a cost of a row falls to what is left of its quantity, rounded down: all of it where all is left.
pub fn cost_left(row: &LentRow<'_>, cost: Nanos, left: u64) -> Nanos
    requires some { 0 < quantity_of row.now }
    requires left { left ≤ quantity_of row.now }
    ensures { result ≡ pos (in_proportion (unsigned_abs cost) (quantity_of row.now) left) }
{
    part_of(cost, left, quantity_of(row))
}

/// What is left of a row.
#[tactic(auto, unfolding(crate::specs::Lines::rest_line))]
pub(crate) fn rest_line<'a>(row: &LentRow<'a>, left: u64, hour: u32) -> Line<'a>
    requires some { 0 < left }
    requires left { left ≤ quantity_of row.now }
    ensures { result ≡ rest_line hour row.now left }
{
    let quantity = quantity_of(row);
    Line::of_fields(LineFields {
        hour,
        kind: LineKind::Rest,
        category: row.category(),
        commitment: discount_of_row(row),
        billed: part_of(row.billed(), left, quantity),
        effective: part_of(row.effective(), left, quantity),
        quantity: Some(Nanos::of_fields(left as i64)),
        sku: row.sku(),
        sub_account: row.sub_account(),
        tags: row.tags(),
    })
}
