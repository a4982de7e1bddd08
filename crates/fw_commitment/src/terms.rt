//! The fields that commitments of one kind alone have.
ghost use Rattle.std.specs.Prelude.{◌≡◌, ◌++◌, ◌≤◌, ℤ, List, length, map, string_bytes, All, IfOk, IsTrue, ◌↔◌, MatchOption};
ghost use Rattle.std.specs.Ordering.{nat_cmp};
ghost use Rattle.std.specs.List.Sorted.{IsStrictlySortedBy};
ghost use Rattle.std.specs.Cmp.Lexicographic.{slice_cmp};
ghost use Rattle.fw_charge.specs.Charge.{IsShortText};
ghost use Rattle.fw_terms.specs.Commitment.{AreSkus, IsRate, AreRates, IsTerms, kind_of};
ghost use Rattle.fw_terms.specs.TermsView.{terms_view};
ghost use Rattle.fw_terms.specs.Texts.{HasTwice, IsRising};
ghost use Rattle.fw_toml.specs.Tree.{stated};
ghost use Rattle.fw_commitment.specs.Fields.{HasKind, HasSkus, HasRates, in_byte_order};
ghost use Rattle.fw_commitment.specs.Rules.{terms_rules, skus_rules, rates_rules, rate_stated, rates_stated, IsRateStated, AreRatesStated};
ghost use Rattle.fw_commitment.specs.Reading.{TermsStand};
ghost use Rattle.fw_commitment.specs.Finding.{Finds};

use crate::fault::{CommitmentFault, CommitmentField};
use crate::fields::short_text;
use fw_charge::{DiscountKind, is_short_text};
use fw_terms::{Rate, Terms};
use fw_toml::{Table, integers, member, texts};
use std::alloc::{AllocError, Global};
use std::collections::BTreeSet;

/// The texts in rising order of their bytes; `None` where one stands twice.
fn in_order<'a>(alloc: Global, texts: &[&'a str]) -> Result<Option<Vec<&'a str>>, AllocError>
    ensures { let found = map (λ t. t.now) texts.now
        in IfOk result (λ ordered. MatchOption ordered (HasTwice found)
        (λ v. (¬ HasTwice found) × (map (λ t. t.now) v.items ≡ in_byte_order found)
        × IsRising (map (λ t. t.now) v.items))) }
{
    let mut set = BTreeSet::new(alloc);
    for text in texts {
        if !set.insert(*text)? {
            return Ok(None);
        }
    }
    let mut ordered = Vec::with_capacity(alloc, set.len())?;
    for text in set.iter() {
        ordered.push(*text)?;
    }
    Ok(Some(ordered))
}

/// Copies of texts that are to be SKUs; `None` where there are none or too many, or where one is empty or too long.
fn skus_of(alloc: Global, texts: &[&str]) -> Result<Option<Vec<String>>, AllocError>
    requires { IsRising (map (λ t. t.now) texts.now) }
    ensures { let found = map (λ t. t.now) texts.now
        in IfOk result (λ skus. MatchOption skus (¬ AreSkus found)
        (λ v. (map string_bytes v.items ≡ found) × AreSkus found)) }
{
    if texts.is_empty() || texts.len() > Terms::MOST_SKUS {
        return Ok(None);
    }
    let mut skus = Vec::with_capacity(alloc, texts.len())?;
    for text in texts {
        if !is_short_text(text) {
            return Ok(None);
        }
        skus.push(String::from_str(alloc, text)?)?;
    }
    Ok(Some(skus))
}

fn skus(alloc: Global, table: &Table) -> Result<Vec<String>, CommitmentFault>
    ensures { let ms = stated table.now in Finds (skus_rules ms)
        (λ v. HasSkus ms (map string_bytes v.items) × AreSkus (map string_bytes v.items)) result }
{
    let Some(value) = member(table, CommitmentField::Skus.name()) else {
        return Err(CommitmentFault::Field(CommitmentField::Skus));
    };
    let Some(found) = texts(alloc, value)? else {
        return Err(CommitmentFault::Field(CommitmentField::Skus));
    };
    let Some(ordered) = in_order(alloc, &found)? else {
        return Err(CommitmentFault::Field(CommitmentField::Skus));
    };
    match skus_of(alloc, &ordered)? {
        Some(skus) => Ok(skus),
        None => Err(CommitmentFault::Limit(CommitmentField::Skus)),
    }
}

/// The rate of a SKU with its integer; `None` where one of the two is out of its limits.
fn rate_of(alloc: Global, sku: &str, ppm: i64) -> Result<Option<Rate>, AllocError>
    ensures { IfOk result (λ rate. MatchOption rate (¬ IsRateStated (sku.now, ppm))
        (λ r. (rate_stated r ≡ (sku.now, ppm)) × IsRate r)) }
{
    if !is_short_text(sku) || ppm < 1 || ppm > Rate::MOST_PPM as i64 {
        return Ok(None);
    }
    let sku = String::from_str(alloc, sku)?;
    Ok(Some(Rate::of_fields(sku, ppm as u32)))
}

/// The rates of SKUs with their integers; `None` where one of them is out of its limits, or where there are none or too many.
fn rates_of(alloc: Global, stated: &[(&str, i64)]) -> Result<Option<Vec<Rate>>, AllocError>
    requires { IsRising (map (λ e. e.0.now) stated.now) }
    ensures { let found = map (λ e. (e.0.now, e.1)) stated.now
        in IfOk result (λ rates. MatchOption rates (¬ AreRatesStated found)
        (λ v. (found ≡ rates_stated v.items) × AreRates v.items)) }
{
    if stated.is_empty() || stated.len() > Terms::MOST_SKUS {
        return Ok(None);
    }
    let mut rates = Vec::with_capacity(alloc, stated.len())?;
    for entry in stated {
        match rate_of(alloc, entry.0, entry.1)? {
            Some(rate) => rates.push(rate)?,
            None => return Ok(None),
        }
    }
    Ok(Some(rates))
}

fn rates(alloc: Global, table: &Table) -> Result<Vec<Rate>, CommitmentFault>
    ensures { let ms = stated table.now in
        Finds (rates_rules ms) (λ v. HasRates ms (rates_stated v.items) × AreRates v.items) result }
{
    let Some(value) = member(table, CommitmentField::Rates.name()) else {
        return Err(CommitmentFault::Field(CommitmentField::Rates));
    };
    let Some(stated) = integers(alloc, value)? else {
        return Err(CommitmentFault::Field(CommitmentField::Rates));
    };
    match rates_of(alloc, &stated)? {
        Some(rates) => Ok(rates),
        None => Err(CommitmentFault::Limit(CommitmentField::Rates)),
    }
}

/// What a commitment of the kind commits to.
pub(crate) fn terms(
    alloc: Global,
    table: &Table,
    kind: DiscountKind,
) -> Result<Terms, CommitmentFault>
    requires { HasKind (stated table.now) kind }
    ensures { Finds (terms_rules (stated table.now))
        (λ t. TermsStand (stated table.now) (terms_view t) × IsTerms (terms_view t)
        × (kind_of (terms_view t) ≡ kind)) result }
{
    match kind {
        DiscountKind::Usage => {
            let unit = short_text(table, CommitmentField::Unit)?;
            let skus = skus(alloc, table)?;
            let unit = String::from_str(alloc, unit)?;
            Ok(Terms::Usage { unit, skus })
        }
        DiscountKind::Spend => {
            let rates = rates(alloc, table)?;
            Ok(Terms::Spend { rates })
        }
    }
}
