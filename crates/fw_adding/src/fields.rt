//! In which fields two commitments agree.
ghost use Rattle.std.specs.Prelude.{◌≡◌, ◌↔◌, IsTrue, map, string_bytes};
ghost use Rattle.fw_terms.specs.TermsView.{terms_view};
ghost use Rattle.fw_adding.specs.Fields.{Agree, AgreeInRates, AgreeInSkus, AgreeInUnit};

use fw_charge::{Tag, Tags};
use fw_commitment::CommitmentField;
use fw_terms::{Commitment, Purchase, Rate, Terms};

/// Whether two commitments agree in a field. Of the fields that commitments of one category alone have, only those are
/// compared that both have.
#[tactic(auto, unfolding(crate::specs::Fields::Agree))]
pub fn agree_in(one: &Commitment, other: &Commitment, field: CommitmentField) -> bool
    ensures { IsTrue result ↔ Agree field one.now other.now }
{
    match field {
        CommitmentField::Id => one.id() == other.id(),
        CommitmentField::Category => one.kind() == other.kind(),
        CommitmentField::Start => one.start() == other.start(),
        CommitmentField::Hours => one.hours() == other.hours(),
        CommitmentField::Capacity => agree_in_capacity(one, other),
        CommitmentField::Unit => agree_in_unit(one.terms(), other.terms()),
        CommitmentField::Skus => agree_in_skus(one.terms(), other.terms()),
        CommitmentField::Rates => agree_in_rates(one.terms(), other.terms()),
        CommitmentField::SubAccount => agree_in_account(one, other),
        CommitmentField::Tags => are_same_tags(one.tags(), other.tags()),
        CommitmentField::Purchase => are_same_purchases(one.purchases(), other.purchases()),
        CommitmentField::At | CommitmentField::Billed | CommitmentField::Unknown => true,
    }
}

// Whether two commitments have one capacity.
fn agree_in_capacity(one: &Commitment, other: &Commitment) -> bool
    ensures { IsTrue result ↔ (one.now.capacity ≡ other.now.capacity) }
{
    one.capacity().count() == other.capacity().count()
}

// Whether two commitments are for one sub-account, or both for each.
fn agree_in_account(one: &Commitment, other: &Commitment) -> bool
    ensures { IsTrue result ↔ (one.now.sub_account ≡ other.now.sub_account) }
{
    match (one.sub_account(), other.sub_account()) {
        (Some(first), Some(second)) => first == second,
        (None, None) => true,
        (Some(_), None) | (None, Some(_)) => false,
    }
}

// Whether terms agree in their unit.
fn agree_in_unit(one: &Terms, other: &Terms) -> bool
    ensures { IsTrue result ↔ AgreeInUnit (terms_view one.now) (terms_view other.now) }
{
    match (one, other) {
        (Terms::Usage { unit, .. }, Terms::Usage { unit: second, .. }) => {
            unit.as_str() == second.as_str()
        }
        (Terms::Usage { .. }, Terms::Spend { .. }) => true,
        (Terms::Spend { .. }, _) => true,
    }
}

// Whether terms agree in their SKUs.
fn agree_in_skus(one: &Terms, other: &Terms) -> bool
    ensures { IsTrue result ↔ AgreeInSkus (terms_view one.now) (terms_view other.now) }
{
    match (one, other) {
        (Terms::Usage { skus, .. }, Terms::Usage { skus: others, .. }) => {
            are_same_texts(skus, others)
        }
        (Terms::Usage { .. }, Terms::Spend { .. }) => true,
        (Terms::Spend { .. }, _) => true,
    }
}

// Whether terms agree in their rates.
fn agree_in_rates(one: &Terms, other: &Terms) -> bool
    ensures { IsTrue result ↔ AgreeInRates (terms_view one.now) (terms_view other.now) }
{
    match (one, other) {
        (Terms::Spend { rates }, Terms::Spend { rates: others }) => are_same_rates(rates, others),
        (Terms::Spend { .. }, Terms::Usage { .. }) => true,
        (Terms::Usage { .. }, _) => true,
    }
}

// Whether two lists have the same texts.
fn are_same_texts(one: &[String], other: &[String]) -> bool
    ensures { IsTrue result ↔ (map string_bytes one.now ≡ map string_bytes other.now) }
{
    if one.len() != other.len() {
        return false;
    }
    for place in 0..one.len() {
        if one[place].as_str() != other[place].as_str() {
            return false;
        }
    }
    true
}

// Whether two rates are equal.
fn is_same_rate(one: &Rate, other: &Rate) -> bool
    ensures { IsTrue result ↔ (one.now ≡ other.now) }
{
    one.sku() == other.sku() && one.ppm() == other.ppm()
}

// Whether two lists have the same rates.
fn are_same_rates(one: &[Rate], other: &[Rate]) -> bool
    ensures { IsTrue result ↔ (one.now ≡ other.now) }
{
    if one.len() != other.len() {
        return false;
    }
    for place in 0..one.len() {
        if !is_same_rate(&one[place], &other[place]) {
            return false;
        }
    }
    true
}

// Whether two tags are equal.
fn is_same_tag(one: &Tag, other: &Tag) -> bool
    ensures { IsTrue result ↔ (one.now ≡ other.now) }
{
    one.key() == other.key() && one.value() == other.value()
}

// Whether two lists have the same tags.
fn are_same_tags(one: &Tags, other: &Tags) -> bool
    ensures { IsTrue result ↔ (one.now ≡ other.now) }
{
    let one = one.as_slice();
    let other = other.as_slice();
    if one.len() != other.len() {
        return false;
    }
    for place in 0..one.len() {
        if !is_same_tag(&one[place], &other[place]) {
            return false;
        }
    }
    true
}

/// Whether two purchases are equal.
pub(crate) fn is_same_purchase(one: &Purchase, other: &Purchase) -> bool
    ensures { IsTrue result ↔ (one.now ≡ other.now) }
{
    one.at() == other.at() && one.billed().count() == other.billed().count()
}

// Whether two lists have the same purchases.
fn are_same_purchases(one: &[Purchase], other: &[Purchase]) -> bool
    ensures { IsTrue result ↔ (one.now ≡ other.now) }
{
    if one.len() != other.len() {
        return false;
    }
    for place in 0..one.len() {
        if !is_same_purchase(&one[place], &other[place]) {
            return false;
        }
    }
    true
}
