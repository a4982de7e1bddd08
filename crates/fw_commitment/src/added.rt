//! How a TOML text reads as a purchase that is added to a commitment.
ghost use Rattle.std.specs.Prelude.{◌≡◌, ◌≤◌, ◌≤ℤ◌, pos, codes};
ghost use Rattle.fw_charge.specs.Charge.{last_second};
ghost use Rattle.fw_toml.specs.Tree.{stated};
ghost use Rattle.fw_commitment.specs.Fields.{HasAmount, HasSecond};
ghost use Rattle.fw_commitment.specs.Finding.{Finds};
ghost use Rattle.fw_commitment.specs.Added.{at_rules, billed_rules, added_rules, AddedStands, PurchaseReads};

use crate::fault::{CommitmentFault, CommitmentField};
use crate::fields::{amount, second, short_text};
use fw_money::Nanos;
use fw_terms::{AddedPurchase, Purchase};
use fw_toml::{Table, TableFault, has_only, table_of};
use std::alloc::Global;

/// The second at which was paid.
fn at(table: &Table) -> Result<u64, CommitmentFault>
    ensures { let ms = stated table.now in
        Finds (at_rules ms) (λ s. HasSecond ms (codes "at") s × (s ≤ last_second)) result }
{
    match second(table, CommitmentField::At.name()) {
        Some(second) => Ok(second),
        None => Err(CommitmentFault::Field(CommitmentField::At)),
    }
}

/// How much was paid, in nanos.
fn billed(table: &Table) -> Result<Nanos, CommitmentFault>
    ensures { let ms = stated table.now in
        Finds (billed_rules ms) (λ n. HasAmount ms (codes "billed") n × (pos 0 ≤ℤ n)) result }
{
    let Some(billed) = amount(table, CommitmentField::Billed.name()) else {
        return Err(CommitmentFault::Field(CommitmentField::Billed));
    };
    if billed.count() < 0 {
        return Err(CommitmentFault::Limit(CommitmentField::Billed));
    }
    Ok(billed)
}

/// The purchase of a table.
fn added_of(alloc: Global, table: &Table) -> Result<AddedPurchase, CommitmentFault>
    ensures { Finds (added_rules (stated table.now)) (AddedStands (stated table.now)) result }
{
    let id = short_text(table, CommitmentField::Id)?;
    let at = at(table)?;
    let billed = billed(table)?;
    if !has_only(table, &["id", "at", "billed"]) {
        return Err(CommitmentFault::Field(CommitmentField::Unknown));
    }
    let id = String::from_str(alloc, id)?;
    let purchase = Purchase::of_fields(at, billed);
    Ok(AddedPurchase::of_fields(id, purchase))
}

/// Reads a purchase that is added to a commitment from a TOML text with the fields `id`, `at` and `billed`.
///
/// `id` is the commitment's, `at` the time of the purchase, and `billed` how much was paid, in units of the currency, as in the purchases of
/// a commitment's own text.
///
/// # Errors
/// The first fault: [`CommitmentFault::Syntax`] where the text is not UTF-8 or no TOML document; then, field by field in this order,
/// [`CommitmentFault::Field`] where the field is missing, of the wrong kind or can't be read, as an amount past 10^17 nanos, and
/// [`CommitmentFault::Limit`] where `id` doesn't have 1 to 256 bytes, or `billed` is below 0; last, `Field` of
/// [`CommitmentField::Unknown`] where another name stands there. [`CommitmentFault::NoMemory`] comes where memory runs out, at any place.
pub fn read_purchase(alloc: Global, text: &[u8]) -> Result<AddedPurchase, CommitmentFault>
    ensures { PurchaseReads text.now result }
{
    match table_of(alloc, text) {
        Ok(table) => added_of(alloc, &table),
        Err(TableFault::Syntax) => Err(CommitmentFault::Syntax),
        Err(TableFault::NoMemory) => Err(CommitmentFault::NoMemory),
    }
}
