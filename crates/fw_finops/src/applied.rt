//! Which rows a commitment applies to, and at which rate.
ghost use Rattle.std.specs.Prelude.{◌≡◌, None, Some, find, if◌then◌else◌, option_and_then, option_copied, option_map, string_bytes};
ghost use Rattle.std.specs.List.{list_any};
ghost use Rattle.std.specs.Str.{bytes_eq};
ghost use Rattle.fw_terms.specs.Commitment.{IsCommitment};
ghost use Rattle.fw_terms.specs.TermsView.{terms_view};
ghost use Rattle.fw_cover.specs.Applies.{allows, applied, fits, has_unit, is_open, is_text, rate_for};

use fw_cover::{is_eligible, is_in_term};
use fw_row_table::LentRow;
use fw_terms::{Commitment, Rate, Terms};

// Whether a commitment takes rows of this row's sub-account.
fn allows(commitment: &Commitment, row: &LentRow<'_>) -> bool
    ensures { result ≡ allows commitment.now.sub_account row.now.sub_account }
{
    match commitment.sub_account() {
        Some(own) => row.sub_account().is_some_and(|account| account == own),
        None => true,
    }
}

// Whether terms are for rows in this row's unit.
fn has_unit(terms: &Terms, row: &LentRow<'_>) -> bool
    ensures { result ≡ has_unit (terms_view terms.now) row.now.unit }
{
    match terms {
        Terms::Usage { unit, .. } => is_in_unit(row, unit),
        Terms::Spend { .. } => true,
    }
}

// Whether a row's quantity is in a unit.
fn is_in_unit(row: &LentRow<'_>, unit: &str) -> bool
    ensures { result ≡ is_text unit.now row.now.unit }
{
    row.unit().is_some_and(|own| own == unit)
}

// Whether a commitment runs in an hour and takes rows of this one's sub-account and unit.
#[tactic(auto, unfolding(fw_cover::specs::Applies::fits))]
fn fits(commitment: &Commitment, hour: u32, row: &LentRow<'_>) -> bool
    ensures { result ≡ fits commitment.now hour row.now }
{
    is_in_term(commitment, hour) && allows(commitment, row) && has_unit(commitment.terms(), row)
}

// Whether a SKU is one of some.
fn has_sku(skus: &[String], sku: &str) -> bool
    ensures { result ≡ list_any (λ s. bytes_eq (string_bytes s) sku.now) skus.now }
{
    skus.iter().any(|listed| listed.as_str() == sku)
}

// The first of some rates that is that of a SKU.
fn rate_of<'a>(rates: &'a [Rate], sku: &str) -> Option<&'a Rate>
    ensures { option_copied result ≡ find (λ r. bytes_eq r.sku sku.now) rates.now }
{
    rates.iter().find(|rate| rate.sku() == sku)
}

// Whether terms list a SKU, and at which rate, where they are to a cost.
fn rate_for(terms: &Terms, sku: &str) -> Option<Option<u32>>
    ensures { result ≡ rate_for (terms_view terms.now) sku.now }
{
    match terms {
        Terms::Usage { skus, .. } => rate_by_quantity(skus, sku),
        Terms::Spend { rates } => rate_by_cost(rates, sku),
    }
}

// The same of terms to a quantity, which have no rates.
fn rate_by_quantity(skus: &[String], sku: &str) -> Option<Option<u32>>
    ensures { result ≡ (if list_any (λ s. bytes_eq (string_bytes s) sku.now) skus.now then
        Some None else None) }
{
    if has_sku(skus, sku) { Some(None) } else { None }
}

// The same of terms to a cost.
fn rate_by_cost(rates: &[Rate], sku: &str) -> Option<Option<u32>>
    ensures { result ≡ option_map (λ r. Some r.ppm)
        (find (λ r. bytes_eq r.sku sku.now) rates.now) }
{
    let rate = rate_of(rates, sku)?;
    Some(Some(rate.ppm()))
}

// The same of the SKU of a row.
fn rate_of_row(terms: &Terms, row: &LentRow<'_>) -> Option<Option<u32>>
    ensures { result ≡ option_and_then (rate_for (terms_view terms.now)) row.now.sku }
{
    let sku = row.sku()?;
    rate_for(terms, sku)
}

// Whether commitments may cover a row in an hour.
#[tactic(auto, unfolding(fw_cover::specs::Eligible::is_of_hour))]
fn is_open(row: &LentRow<'_>, hour: u32) -> bool
    ensures { result ≡ is_open hour row.now }
{
    is_eligible(row) && row.hour() == hour
}

/// How a commitment applies to a row of an hour: not at all, to its quantity, or to its cost at a rate.
#[tactic(auto, unfolding(fw_cover::specs::Applies::applied))]
pub(crate) fn applied(commitment: &Commitment, row: &LentRow<'_>, hour: u32) -> Option<Option<u32>>
    ensures value { result ≡ applied commitment.now hour row.now }
    ensures in_limits { IsCommitment commitment.now }
{
    let terms = commitment.terms();
    if is_open(row, hour) && fits(commitment, hour, row) {
        rate_of_row(terms, row)
    } else {
        None
    }
}
