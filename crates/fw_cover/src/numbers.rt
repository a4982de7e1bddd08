//! The numbers of rows and commitments that coverage works on.
ghost use Rattle.std.specs.Prelude.{◌≡◌, ◌≤◌, ◌^◌, map, All, IfOk, IfSome, length};
ghost use Rattle.std.specs.Prelude.{unsigned_abs};
ghost use Rattle.fw_terms.specs.Commitment.{IsCommitment};
ghost use Rattle.fw_cover.specs.Hour.{quantity_of, billed_of, quantities_of, capacities_of};

use fw_row_table::LentRow;
use fw_terms::Commitment;
use std::alloc::{AllocError, Global};

/// The quantity of a row, in nanos, as its absolute value; 0 where it has none.
fn quantity(row: &LentRow<'_>) -> u64
    ensures value { result ≡ quantity_of row.now }
    ensures most { result ≤ 10 ^ 17 }
{
    row.quantity()
        .map_or(0, |quantity| quantity.count().unsigned_abs())
}

/// The billed cost of a row, in nanos, as its absolute value.
fn billed(row: &LentRow<'_>) -> u64
    ensures value { result ≡ unsigned_abs row.now.billed }
    ensures most { result ≤ 10 ^ 17 }
{
    row.billed().count().unsigned_abs()
}

/// The capacity of a commitment in each hour of its term, in nanos.
fn capacity(commitment: &Commitment) -> u64
    ensures value { result ≡ commitment.now.capacity }
    ensures in_limits { IsCommitment commitment.now }
{
    commitment.capacity().count() as u64
}

/// The quantities of the rows.
pub(crate) fn quantities(alloc: Global, rows: &[&LentRow<'_>]) -> Result<Vec<u64>, AllocError>
    ensures values { IfOk result (λ v. v.items ≡ quantities_of (map (λ r. r.now) rows.now)) }
    ensures most { IfOk result (λ v. All (λ q. q ≤ 10 ^ 17) v.items) }
{
    let mut quantities = Vec::with_capacity(alloc, rows.len())?;
    for row in rows {
        quantities.push(quantity(row))?;
    }
    Ok(quantities)
}

/// The billed costs of the rows.
pub(crate) fn billed_costs(alloc: Global, rows: &[&LentRow<'_>]) -> Result<Vec<u64>, AllocError>
    ensures values { IfOk result (λ v. v.items ≡ billed_of (map (λ r. r.now) rows.now)) }
    ensures most { IfOk result (λ v. All (λ b. b ≤ 10 ^ 17) v.items) }
{
    let mut costs = Vec::with_capacity(alloc, rows.len())?;
    for row in rows {
        costs.push(billed(row))?;
    }
    Ok(costs)
}

/// The capacities of the commitments.
pub(crate) fn capacities(alloc: Global, commitments: &[Commitment]) -> Result<Vec<u64>, AllocError>
    ensures values { IfOk result (λ v. v.items ≡ capacities_of commitments.now) }
    ensures in_limits { IfOk result (λ v. All IsCommitment commitments.now) }
{
    let mut capacities = Vec::with_capacity(alloc, commitments.len())?;
    for commitment in commitments {
        capacities.push(capacity(commitment))?;
    }
    Ok(capacities)
}
