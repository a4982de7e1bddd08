//! The readers of a commitment and of a purchase.
ghost use Rattle.std.specs.Prelude.{◌≡◌, ◌≤◌, ◌<ℤ◌, ◌≤ℤ◌, pos, nat_abs, map, length, string_bytes, IfOk};
ghost use Rattle.fw_money.specs.Amount.{most_nanos};
ghost use Rattle.fw_bytes.specs.Reading.{Gives, code_at, times};
ghost use Rattle.fw_fields.specs.Reading.{short_text_at};
ghost use Rattle.fw_charge.specs.Codes.{kind_of};
ghost use Rattle.fw_charge.specs.Spelling.{FitsTags};
ghost use Rattle.fw_terms.specs.Commitment.{IsCommitment, most_purchases};
ghost use Rattle.fw_terms.specs.TermsView.{terms_view};
ghost use Rattle.fw_terms_bytes.specs.Reading.{start_at, hours_at, capacity_at, cost_at, ppm_at, names_at, term_at, skus_at, rate_at, rates_at, committed_at, purchase_at, purchases_at, fields_at, commitment_from, skus_rise, commitment_rules, commitment_at};
ghost use Rattle.fw_terms_bytes.specs.FieldView.{names_view, term_view, fields_view};

use crate::lists::{Item, list_of};
use crate::order::names_rise;
use fw_bytes::{ReadError, u32_at};
use fw_charge::{DiscountKind, LAST_HOUR, Tag, Tags};
use fw_fields::{keys_rise, nanos_of, optional_text_of, second_of, short_text_of, tags_of};
use fw_money::Nanos;
use fw_terms::{Commitment, CommitmentFields, Purchase, Rate, Terms, total_cost};
use std::alloc::{AllocError, Global};
use std::sync::Arc;

/// Id, kind, account and tags.
#[derive(Drop)]
struct NameFields {
    id: String,
    kind: DiscountKind,
    sub_account: Option<String>,
    tags: Vec<Tag>,
}

/// The first hour, the number of hours, and what each of them holds in nanos.
#[derive(Drop)]
struct TermFields {
    start: u32,
    hours: u32,
    capacity: i64,
}

/// The fields of a commitment, each in its range; they may break the rules over several of them.
#[derive(Drop)]
struct ReadFields {
    names: NameFields,
    term: TermFields,
    terms: Terms,
    purchases: Vec<Purchase>,
}

/// The kind of a commitment.
#[tactic(auto, unfolding(fw_bytes::specs::Reading::code_at))]
fn kind_of(bytes: &[u8]) -> Result<(DiscountKind, &[u8]), ReadError>
    ensures { Gives (λ x. (x.0, x.1.now)) result (code_at kind_of bytes.now) }
{
    match bytes {
        [] => Err(ReadError::Corrupt(0)),
        [code, rest @ ..] => match DiscountKind::from_code(*code) {
            Some(kind) => Ok((kind, rest)),
            None => Err(ReadError::Corrupt(bytes.len())),
        },
    }
}

/// The first hour of the term.
#[tactic(auto, unfolding(crate::specs::Reading::start_at, fw_bytes::specs::Reading::checked))]
fn start_of(bytes: &[u8]) -> Result<(u32, &[u8]), ReadError>
    ensures { Gives (λ x. (x.0, x.1.now)) result (start_at bytes.now) }
{
    let (start, rest) = u32_at(bytes)?;
    if start > LAST_HOUR {
        return Err(ReadError::Corrupt(bytes.len()));
    }
    Ok((start, rest))
}

/// How many hours the term has.
#[tactic(auto, unfolding(crate::specs::Reading::hours_at, fw_bytes::specs::Reading::checked))]
fn hours_of(bytes: &[u8]) -> Result<(u32, &[u8]), ReadError>
    ensures { Gives (λ x. (x.0, x.1.now)) result (hours_at bytes.now) }
{
    let (hours, rest) = u32_at(bytes)?;
    if hours == 0 || hours > Commitment::MOST_HOURS {
        return Err(ReadError::Corrupt(bytes.len()));
    }
    Ok((hours, rest))
}

/// What each hour of the term holds: above 0 nanos.
#[tactic(auto, unfolding(crate::specs::Reading::capacity_at, fw_bytes::specs::Reading::checked, fw_bytes::specs::Reading::seen))]
fn capacity_of(bytes: &[u8]) -> Result<(i64, &[u8]), ReadError>
    ensures read { Gives (λ x. (nat_abs x.0, x.1.now)) result (capacity_at bytes.now) }
    ensures some { IfOk result (λ x. pos 0 <ℤ x.0) }
{
    let (capacity, rest) = nanos_of(bytes)?;
    if capacity <= 0 {
        return Err(ReadError::Corrupt(bytes.len()));
    }
    Ok((capacity, rest))
}

/// What was paid: at least 0 nanos.
#[tactic(auto, unfolding(crate::specs::Reading::cost_at, fw_bytes::specs::Reading::checked, fw_bytes::specs::Reading::seen))]
fn cost_of(bytes: &[u8]) -> Result<(i64, &[u8]), ReadError>
    ensures read { Gives (λ x. (nat_abs x.0, x.1.now)) result (cost_at bytes.now) }
    ensures in_range { IfOk result (λ x. (pos 0 ≤ℤ x.0) × (nat_abs x.0 ≤ most_nanos)) }
{
    let (cost, rest) = nanos_of(bytes)?;
    if cost < 0 {
        return Err(ReadError::Corrupt(bytes.len()));
    }
    Ok((cost, rest))
}

/// How much of a cost counts, in parts per million.
#[tactic(auto, unfolding(crate::specs::Reading::ppm_at, fw_bytes::specs::Reading::checked))]
fn ppm_of(bytes: &[u8]) -> Result<(u32, &[u8]), ReadError>
    ensures { Gives (λ x. (x.0, x.1.now)) result (ppm_at bytes.now) }
{
    let (ppm, rest) = u32_at(bytes)?;
    if ppm == 0 || ppm > Rate::MOST_PPM {
        return Err(ReadError::Corrupt(bytes.len()));
    }
    Ok((ppm, rest))
}

#[tactic(auto, unfolding(crate::specs::Reading::names_at, fw_bytes::specs::Reading::both))]
fn names_of(alloc: Global, bytes: &[u8]) -> Result<(NameFields, &[u8]), ReadError>
    ensures { Gives (λ x. (names_view x.0, x.1.now)) result (names_at bytes.now) }
{
    let (id, rest) = short_text_of(alloc, bytes)?;
    let (kind, rest) = kind_of(rest)?;
    let (sub_account, rest) = optional_text_of(alloc, rest)?;
    let (tags, rest) = tags_of(alloc, rest)?;
    let names = NameFields {
        id,
        kind,
        sub_account,
        tags,
    };
    Ok((names, rest))
}

#[tactic(auto, unfolding(crate::specs::Reading::term_at, fw_bytes::specs::Reading::both))]
fn term_of(bytes: &[u8]) -> Result<(TermFields, &[u8]), ReadError>
    ensures read { Gives (λ x. (term_view x.0, x.1.now)) result (term_at bytes.now) }
    ensures some_capacity { IfOk result (λ x. pos 0 <ℤ x.0.capacity) }
{
    let (start, rest) = start_of(bytes)?;
    let (hours, rest) = hours_of(rest)?;
    let (capacity, rest) = capacity_of(rest)?;
    let term = TermFields {
        start,
        hours,
        capacity,
    };
    Ok((term, rest))
}

/// So many SKUs.
fn skus_after(alloc: Global, count: u32, bytes: &[u8]) -> Result<(Vec<String>, &[u8]), ReadError>
    ensures { Gives (λ x. (map string_bytes x.0.items, x.1.now)) result
        (times short_text_at count bytes.now) }
{
    let mut skus = Vec::new(alloc);
    let mut rest = bytes;
    for _ in 0..count {
        let (sku, after) = short_text_of(alloc, rest)?;
        skus.push(sku)?;
        rest = after;
    }
    Ok((skus, rest))
}

/// The SKUs of a commitment to usage.
#[tactic(auto, unfolding(crate::specs::Reading::skus_at, fw_bytes::specs::Reading::list_at))]
fn skus_of(alloc: Global, bytes: &[u8]) -> Result<(Vec<String>, &[u8]), ReadError>
    ensures { Gives (λ x. (map string_bytes x.0.items, x.1.now)) result (skus_at bytes.now) }
{
    let (count, rest) = u32_at(bytes)?;
    if count == 0 || count > Terms::MOST_SKUS as u32 {
        return Err(ReadError::Corrupt(bytes.len()));
    }
    skus_after(alloc, count, rest)
}

impl Item for Rate {
    ghost item_at = { rate_at };

    #[tactic(auto, unfolding(crate::specs::Reading::rate_at, fw_bytes::specs::Reading::both, fw_bytes::specs::Reading::seen))]
    fn read(alloc: Global, bytes: &[u8]) -> Result<(Rate, &[u8]), ReadError> {
        let (sku, rest) = short_text_of(alloc, bytes)?;
        let (ppm, rest) = ppm_of(rest)?;
        Ok((Rate::of_fields(sku, ppm), rest))
    }
}

/// What is committed to, where the commitment is of the kind.
#[tactic(auto, unfolding(crate::specs::Reading::committed_at, crate::specs::Reading::rates_at, fw_bytes::specs::Reading::both, fw_bytes::specs::Reading::seen))]
fn terms_of(alloc: Global, kind: DiscountKind, bytes: &[u8]) -> Result<(Terms, &[u8]), ReadError>
    ensures { Gives (λ x. (terms_view x.0, x.1.now)) result (committed_at kind bytes.now) }
{
    match kind {
        DiscountKind::Usage => {
            let (unit, rest) = short_text_of(alloc, bytes)?;
            let (skus, rest) = skus_of(alloc, rest)?;
            Ok((Terms::Usage { unit, skus }, rest))
        }
        DiscountKind::Spend => {
            let (rates, rest) = list_of(alloc, 1, Terms::MOST_SKUS as u32, bytes)?;
            Ok((Terms::Spend { rates }, rest))
        }
    }
}

/// A purchase, and the bytes after it. Takes no memory.
///
/// # Errors
/// [`ReadError::Corrupt`] at the first of its two fields that is cut off or out of its range: the second, which is at most the last of the
/// year 9999, and the amount, which is 0 to 10^17 nanos.
#[tactic(auto, unfolding(crate::specs::Reading::purchase_at, fw_bytes::specs::Reading::both, fw_bytes::specs::Reading::seen))]
pub fn purchase_of(bytes: &[u8]) -> Result<(Purchase, &[u8]), ReadError>
    ensures { Gives (λ x. (x.0, x.1.now)) result (purchase_at bytes.now) }
{
    let (at, rest) = second_of(bytes)?;
    let (cost, rest) = cost_of(rest)?;
    Ok((Purchase::of_fields(at, Nanos::of_fields(cost)), rest))
}

impl Item for Purchase {
    ghost item_at = { purchase_at };

    fn read(_alloc: Global, bytes: &[u8]) -> Result<(Purchase, &[u8]), ReadError> {
        purchase_of(bytes)
    }
}

/// The fields of a commitment, in turn.
#[tactic(auto, unfolding(crate::specs::Reading::fields_at, crate::specs::Reading::head_at, crate::specs::Reading::purchases_at, crate::specs::Reading::then_by, fw_bytes::specs::Reading::both))]
fn fields_of(alloc: Global, bytes: &[u8]) -> Result<(ReadFields, &[u8]), ReadError>
    ensures read { Gives (λ x. (fields_view x.0, x.1.now)) result (fields_at bytes.now) }
    ensures some_capacity { IfOk result (λ x. pos 0 <ℤ x.0.term.capacity) }
{
    let (names, rest) = names_of(alloc, bytes)?;
    let (term, rest) = term_of(rest)?;
    let (terms, rest) = terms_of(alloc, names.kind, rest)?;
    match list_of(alloc, 1, Commitment::MOST_PURCHASES as u32, rest) {
        Ok((purchases, rest)) => {
            let fields = ReadFields {
                names,
                term,
                terms,
                purchases,
            };
            Ok((fields, rest))
        }
        Err(e) => Err(e),
    }
}

/// Whether the SKUs stand in rising order.
fn skus_rise(terms: &Terms) -> bool
    ensures { result ≡ skus_rise (terms_view terms.now) }
{
    match terms {
        Terms::Usage { skus, .. } => names_rise(skus),
        Terms::Spend { rates } => names_rise(rates),
    }
}

impl ReadFields {
    /// Whether the rules over several fields hold.
    #[tactic(auto, unfolding(crate::specs::Reading::commitment_rules))]
    fn agree(&self) -> bool
        requires { length self.now.purchases.items ≤ most_purchases }
        ensures { result ≡ commitment_rules (commitment_from (fields_view self.now)) }
    {
        keys_rise(self.names.tags.as_slice())
            && skus_rise(&self.terms)
            && total_cost(&self.purchases) <= Nanos::MOST as u64
    }

    /// The commitment of fields that agree.
    fn into_commitment(self, alloc: Global) -> Result<Commitment, AllocError>
        requires in_limits { IsCommitment (commitment_from (fields_view self)) }
        requires some_capacity { pos 0 <ℤ self.term.capacity }
        ensures { IfOk result (λ c. c ≡ commitment_from (fields_view self)) }
    {
        let ReadFields {
            names,
            term,
            terms,
            purchases,
        } = self;
        let fields = CommitmentFields {
            id: names.id,
            terms,
            sub_account: names.sub_account,
            tags: Tags::of_fields(names.tags),
            start: term.start,
            hours: term.hours,
            capacity: Nanos::of_fields(term.capacity),
            purchases,
        };
        Ok(Commitment::of_fields(Arc::new(alloc, fields)?))
    }
}

/// A commitment, and the bytes after it.
///
/// # Errors
/// [`ReadError::Corrupt`] at the first field that is cut off or out of its range, a list's count among them; where there is none, at the
/// commitment's first byte where the keys of the tags or the SKUs don't stand in rising order of their bytes, or where the purchases
/// together cost more than 10^17 nanos. [`ReadError::NoMemory`] where there is no memory for the commitment, reported where it runs out: a
/// fault of a later field isn't looked for.
pub fn commitment_of(alloc: Global, bytes: &[u8]) -> Result<(Commitment, &[u8]), ReadError>
    ensures { Gives (λ x. (x.0, x.1.now)) result (commitment_at bytes.now) }
{
    match fields_of(alloc, bytes) {
        Ok((fields, rest)) => {
            if !fields.agree() {
                return Err(ReadError::Corrupt(bytes.len()));
            }
            let commitment = fields.into_commitment(alloc)?;
            Ok((commitment, rest))
        }
        Err(e) => Err(e),
    }
}
