//! What commitments took of an hour's rows, at the rows' own prices.
ghost use Rattle.std.specs.Prelude.{◌≡◌, ◌≤◌, ◌<◌, ◌^◌, ◌+◌, ◌-◌, ◌++◌, [], ℕ, All, IfOk, OnOk, length, map, slice_get, slice_index, vec_len};
ghost use Rattle.fw_cover.specs.Cover.{IsTakeWithin};
ghost use Rattle.fw_cover.specs.Hour.{quantities_of, quantity_of};
ghost use Rattle.fw_finops.specs.Lines.{covered_after, covered_line};

use crate::price::taken_cost;
use fw_amortise::{Line, LineDiscount, LineFields, LineKind, quantity_of};
use fw_charge::{Category, DiscountStatus};
use fw_cover::Taken;
use fw_money::Nanos;
use fw_row_table::LentRow;
use fw_terms::Commitment;
use std::alloc::{AllocError, Global};

// What a commitment took of a row of which so much was left before. What that used of its capacity stands as BilledCost.
#[tactic(auto, unfolding(crate::specs::Lines::covered_line))]
fn covered_line<'a>(
    commitment: &'a Commitment,
    row: &LentRow<'a>,
    take: &Taken,
    before: u64,
    hour: u32,
) -> Line<'a>
    requires quantity { take.now.quantity ≤ 10 ^ 17 }
    requires weight { take.now.weight ≤ 10 ^ 17 }
    requires before { before ≤ quantity_of row.now }
    ensures { result ≡ covered_line hour commitment.now row.now take.now before }
{
    let after = before.saturating_sub(take.quantity);
    Line::of_fields(LineFields {
        hour,
        kind: LineKind::Used,
        category: Category::Usage,
        commitment: Some(LineDiscount {
            id: commitment.id(),
            kind: commitment.kind(),
            status: Some(DiscountStatus::Used),
        }),
        billed: Nanos::of_fields(take.weight as i64),
        effective: taken_cost(row, row.effective(), before, after),
        quantity: Some(Nanos::of_fields(take.quantity as i64)),
        sku: row.sku(),
        sub_account: row.sub_account(),
        tags: row.tags(),
    })
}

// The quantity of each row.
fn quantities(alloc: Global, rows: &[&LentRow<'_>]) -> Result<Vec<u64>, AllocError>
    ensures { IfOk result (λ v. v.items ≡ quantities_of (map (λ r. r.now) rows.now)) }
{
    let mut quantities = Vec::with_capacity(alloc, rows.len())?;
    for row in rows {
        quantities.push(quantity_of(row))?;
    }
    Ok(quantities)
}

/// Adds the lines of what the commitments took of the rows, in the order in which they took it.
pub(crate) fn push_covered<'a>(
    alloc: Global,
    lines: &mut Vec<Line<'a>>,
    commitments: &'a [Commitment],
    rows: &[&LentRow<'a>],
    taken: &[Taken],
    hour: u32,
) -> Result<(), AllocError>
    requires { All (IsTakeWithin (length commitments.now) (length rows.now)) taken.now }
    ensures { OnOk result (lines.new.items ≡ lines.old.items
        ++ covered_after commitments.now (map (λ r. r.now) rows.now) hour [] taken.now) }
{
    let mut left = quantities(alloc, rows)?;
    for take in taken {
        let before = left[take.row];
        let commitment = &commitments[take.commitment];
        lines.push(covered_line(commitment, rows[take.row], take, before, hour))?;
        left[take.row] = before.saturating_sub(take.quantity);
    }
    Ok(())
}
