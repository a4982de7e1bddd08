//! The purchases of a commitment.
ghost use Rattle.std.specs.Prelude.{◌≡◌, ◌≤◌, ℕ, ℤ, List, map, All, IfOk, IfSome, MatchOption};
ghost use Rattle.std.specs.List.{AllZip};
ghost use Rattle.fw_charge.specs.Charge.{last_second};
ghost use Rattle.fw_terms.specs.Commitment.{ArePurchases};
ghost use Rattle.fw_toml.specs.Tree.{stated};
ghost use Rattle.fw_commitment.specs.Fields.{HasPurchases, IsPayment};
ghost use Rattle.fw_commitment.specs.Rules.{purchase_rules, purchases_stated, ArePurchasesStated};
ghost use Rattle.fw_commitment.specs.Finding.{Finds};

use crate::fault::{CommitmentFault, CommitmentField};
use crate::fields::{amount, second};
use fw_money::Nanos;
use fw_terms::{Commitment, Purchase, total_cost};
use fw_toml::{Table, has_only, member, tables};
use std::alloc::{AllocError, Global};

/// The second and the nanos of a purchase's table.
fn payment(table: &Table) -> Option<(u64, Nanos)>
    ensures value { MatchOption result ((p : ℕ × ℤ) → ¬ IsPayment (stated table.now) p)
        (λ p. IsPayment (stated table.now) p) }
    ensures in_range { IfSome result (λ p. p.0 ≤ last_second) }
{
    if !has_only(table, &["at", "billed"]) {
        return None;
    }
    let at = second(table, "at")?;
    let billed = amount(table, "billed")?;
    Some((at, billed))
}

/// The payments of tables; `None` where one of them is not a purchase's.
fn payments(alloc: Global, tables: &[&Table]) -> Result<Option<Vec<(u64, Nanos)>>, AllocError>
    ensures { let found = map (λ t. stated t.now) tables.now
        in IfOk result (λ payments. MatchOption payments
        ((ps : List (ℕ × ℤ)) → ¬ AllZip IsPayment found ps)
        (λ v. AllZip IsPayment found v.items × All (λ p. p.0 ≤ last_second) v.items)) }
{
    let mut payments = Vec::new(alloc);
    for table in tables {
        let Some(payment) = payment(table) else {
            return Ok(None);
        };
        payments.push(payment)?;
    }
    Ok(Some(payments))
}

/// The purchases of payments; `None` where one is below 0, where they cost too much together, or where there are none or too many.
fn purchases_of(
    alloc: Global,
    payments: &[(u64, Nanos)],
) -> Result<Option<Vec<Purchase>>, AllocError>
    requires { All (λ p. p.0 ≤ last_second) payments.now }
    ensures { IfOk result (λ purchases. MatchOption purchases (¬ ArePurchasesStated payments.now)
        (λ v. (payments.now ≡ purchases_stated v.items) × ArePurchases v.items)) }
{
    if payments.is_empty() || payments.len() > Commitment::MOST_PURCHASES {
        return Ok(None);
    }
    let mut purchases = Vec::with_capacity(alloc, payments.len())?;
    for payment in payments {
        if payment.1.count() < 0 {
            return Ok(None);
        }
        purchases.push(Purchase::of_fields(payment.0, payment.1))?;
    }
    if total_cost(&purchases) > Nanos::MOST as u64 {
        return Ok(None);
    }
    Ok(Some(purchases))
}

/// The purchases of a table.
pub(crate) fn purchases(alloc: Global, table: &Table) -> Result<Vec<Purchase>, CommitmentFault>
    ensures { let ms = stated table.now in Finds (purchase_rules ms)
        (λ v. HasPurchases ms (purchases_stated v.items) × ArePurchases v.items) result }
{
    let Some(value) = member(table, CommitmentField::Purchase.name()) else {
        return Err(CommitmentFault::Field(CommitmentField::Purchase));
    };
    let Some(tables) = tables(alloc, value)? else {
        return Err(CommitmentFault::Field(CommitmentField::Purchase));
    };
    let Some(payments) = payments(alloc, &tables)? else {
        return Err(CommitmentFault::Field(CommitmentField::Purchase));
    };
    match purchases_of(alloc, &payments)? {
        Some(purchases) => Ok(purchases),
        None => Err(CommitmentFault::Limit(CommitmentField::Purchase)),
    }
}
