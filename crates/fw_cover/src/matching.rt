//! The pairs of an hour: which commitments apply to which rows, and in which order.
ghost use Rattle.std.specs.Prelude.{◌≡◌, ◌<◌, ◌++◌, ◌∷◌, [], List, All, OnOk, IfOk, length, map, unwrap_or, vec_len};
ghost use Rattle.std.specs.List.{cons_option, filter_map, flat_map, enumerate_from};
ghost use Rattle.std.specs.Ordering.{nat_cmp};
ghost use Rattle.fw_terms.specs.TermsView.{terms_view};
ghost use Rattle.fw_cover.specs.Applies.{allows, has_unit, is_text, fits, is_open};
ghost use Rattle.fw_cover.specs.Offers.{OfferValue, offer_of, pair_by, pairs_with, row_offers, sku_offers};
ghost use Rattle.fw_cover.specs.Order.{has_lower_rate, in_order};
ghost use Rattle.fw_cover.specs.Ranked.{RankedPair, by_rank, ranked_before};

use crate::eligible::is_eligible;
use crate::offers::{Offer, SkuOffers};
use crate::order::is_in_term;
use crate::pair::Pair;
use fw_row_table::LentRow;
use fw_terms::{Commitment, Terms};
use std::alloc::{AllocError, Global};
use std::cmp::Ordering;

/// Whether a commitment takes rows of this row's sub-account.
fn allows(commitment: &Commitment, row: &LentRow<'_>) -> bool
    ensures { result ≡ allows commitment.now.sub_account row.now.sub_account }
{
    match commitment.sub_account() {
        Some(own) => row.sub_account().is_some_and(|account| account == own),
        None => true,
    }
}

/// Whether terms are for rows in this row's unit.
fn has_unit(terms: &Terms, row: &LentRow<'_>) -> bool
    ensures { result ≡ has_unit (terms_view terms.now) row.now.unit }
{
    match terms {
        Terms::Usage { unit, .. } => is_in_unit(row, unit),
        Terms::Spend { .. } => true,
    }
}

/// Whether a row's quantity is in a unit.
fn is_in_unit(row: &LentRow<'_>, unit: &str) -> bool
    ensures { result ≡ is_text unit.now row.now.unit }
{
    row.unit().is_some_and(|own| own == unit)
}

/// Whether a commitment runs in an hour and takes rows of this one's sub-account and unit.
#[tactic(auto, unfolding(crate::specs::Applies::fits))]
fn fits(commitment: &Commitment, hour: u32, row: &LentRow<'_>) -> bool
    ensures { result ≡ fits commitment.now hour row.now }
{
    is_in_term(commitment, hour) && allows(commitment, row) && has_unit(commitment.terms(), row)
}

/// A list for each commitment of an order, with nothing in it.
fn no_pairs(alloc: Global, ranks: usize) -> Result<Vec<Vec<Pair>>, AllocError>
    ensures empty { IfOk result (λ v. map (λ l. l.items) v.items ≡ by_rank ranks []) }
    ensures many { IfOk result (λ v. vec_len v ≡ ranks) }
{
    let mut lists = Vec::with_capacity(alloc, ranks)?;
    for _rank in 0..ranks {
        lists.push(Vec::new(alloc))?;
    }
    Ok(lists)
}

/// A list of pairs begins with room for so many, in about the memory of 15 rows.
const FIRST_PAIRS: usize = 128;

/// Adds a pair to a list.
fn push_pair(list: &mut Vec<Pair>, pair: Pair) -> Result<(), AllocError>
    ensures { OnOk result (list.new.items ≡ list.old.items ++ pair ∷ []) }
{
    if list.is_empty() {
        list.reserve(FIRST_PAIRS)?;
    }
    list.push(pair)?;
    Ok(())
}

/// Adds a pair to the list of its commitment.
fn push_at(lists: &mut Vec<Vec<Pair>>, rank: usize, pair: Pair) -> Result<(), AllocError>
    requires { rank < vec_len lists.old }
    ensures pairs { OnOk result ((all : List RankedPair)
        → map (λ l. l.items) lists.old.items ≡ by_rank (vec_len lists.old) all
        → map (λ l. l.items) lists.new.items
        ≡ by_rank (vec_len lists.old) (all ++ record { rank = rank; pair = pair } ∷ [])) }
    ensures many { vec_len lists.new ≡ vec_len lists.old }
{
    push_pair(&mut lists[rank], pair)?;
    Ok(())
}

/// Adds the pair that an offer makes with a row of its SKU, where the commitment takes the row.
fn add_pair(
    lists: &mut Vec<Vec<Pair>>,
    offer: &Offer,
    hour: u32,
    at: usize,
    row: &LentRow<'_>,
) -> Result<(), AllocError>
    requires { offer.now.rank < vec_len lists.old }
    ensures pairs { OnOk result ((all : List RankedPair)
        → map (λ l. l.items) lists.old.items ≡ by_rank (vec_len lists.old) all
        → map (λ l. l.items) lists.new.items
        ≡ by_rank (vec_len lists.old)
        (all ++ cons_option (pair_by hour (at, row.now) (offer_of offer.now)) [])) }
    ensures many { vec_len lists.new ≡ vec_len lists.old }
{
    if fits(offer.placed.commitment, hour, row) {
        let pair = Pair {
            commitment: offer.placed.place,
            row: at,
            rate: offer.rate,
        };
        push_at(lists, offer.rank, pair)?;
    }
    Ok(())
}

/// Whether commitments may cover a row in an hour.
#[tactic(auto, unfolding(crate::specs::Eligible::is_of_hour))]
fn is_open(row: &LentRow<'_>, hour: u32) -> bool
    ensures { result ≡ is_open hour row.now }
{
    is_eligible(row) && row.hour() == hour
}

/// Adds the pairs that offers make with a row of their SKU.
fn add_pairs(
    lists: &mut Vec<Vec<Pair>>,
    offers: &[Offer],
    hour: u32,
    at: usize,
    row: &LentRow<'_>,
) -> Result<(), AllocError>
    requires { All (λ o. o.standing.0 < vec_len lists.old) (map offer_of offers.now) }
    ensures pairs { OnOk result ((all : List RankedPair)
        → map (λ l. l.items) lists.old.items ≡ by_rank (vec_len lists.old) all
        → map (λ l. l.items) lists.new.items
        ≡ by_rank (vec_len lists.old)
        (all ++ filter_map (pair_by hour (at, row.now)) (map offer_of offers.now))) }
    ensures many { vec_len lists.new ≡ vec_len lists.old }
{
    for offer in offers {
        add_pair(lists, offer, hour, at, row)?;
    }
    Ok(())
}

/// Adds the pairs of a row, given the offers of its SKU.
fn add_row(
    lists: &mut Vec<Vec<Pair>>,
    offers: &SkuOffers<'_, '_>,
    hour: u32,
    at: usize,
    row: &LentRow<'_>,
) -> Result<(), AllocError>
    requires { All (λ o. o.standing.0 < vec_len lists.old) (sku_offers offers.now) }
    ensures pairs { OnOk result ((table : List (List OfferValue))
        → sku_offers offers.now ≡ row_offers table row.now → (all : List RankedPair)
        → map (λ l. l.items) lists.old.items ≡ by_rank (vec_len lists.old) all
        → map (λ l. l.items) lists.new.items
        ≡ by_rank (vec_len lists.old) (all ++ pairs_with hour table (at, row.now))) }
    ensures many { vec_len lists.new ≡ vec_len lists.old }
{
    if !is_open(row, hour) {
        return Ok(());
    }
    add_pairs(lists, offers.offers, hour, at, row)?;
    Ok(())
}

/// The pairs of the rows, those of each commitment of the order in a list of their own, in the order of the rows. The offers are those of each row's SKU.
fn pairs_by_rank(
    alloc: Global,
    ranks: usize,
    rows: &[&LentRow<'_>],
    offers: &[SkuOffers<'_, '_>],
    hour: u32,
) -> Result<Vec<Vec<Pair>>, AllocError>
    requires one_each { length offers.now ≡ length rows.now }
    requires ranks { All (All (λ o. o.standing.0 < ranks)) (map sku_offers offers.now) }
    ensures { IfOk result (λ v. (table : List (List OfferValue))
        → map sku_offers offers.now ≡ map (row_offers table) (map (λ r. r.now) rows.now)
        → map (λ l. l.items) v.items
        ≡ by_rank ranks (flat_map (pairs_with hour table)
        (enumerate_from 0 (map (λ r. r.now) rows.now)))) }
{
    let mut lists = no_pairs(alloc, ranks)?;
    for (at, row) in rows.iter().enumerate() {
        add_row(&mut lists, &offers[at], hour, at, row)?;
    }
    Ok(lists)
}

impl Pair {
    /// How two pairs of one commitment stand in the order: by rate.
    fn compare(&self, other: &Pair) -> Ordering
        ensures { result ≡ nat_cmp (unwrap_or self.now.rate 0) (unwrap_or other.now.rate 0) }
    {
        self.rate.unwrap_or(0).cmp(&other.rate.unwrap_or(0))
    }
}

/// The pairs of a commitment in the order of their rates; pairs at one rate keep their order.
fn by_rate(alloc: Global, pairs: &[Pair]) -> Result<Vec<Pair>, AllocError>
    ensures { IfOk result (λ v. v.items ≡ in_order has_lower_rate pairs.now) }
{
    let mut pairs = pairs.to_vec(alloc)?;
    pairs.sort_by(|p, q| p.compare(q))?;
    Ok(pairs)
}

/// The pairs of each commitment in turn, each commitment's in the order of their rates; `expected` is about how many there are.
fn joined(alloc: Global, lists: &[Vec<Pair>], expected: usize) -> Result<Vec<Pair>, AllocError>
    ensures { IfOk result (λ v. v.items ≡ flat_map (in_order has_lower_rate)
        (map (λ l. l.items) lists.now)) }
{
    let mut pairs = Vec::with_capacity(alloc, expected)?;
    for list in lists {
        let ordered = by_rate(alloc, list)?;
        pairs.extend_from_slice(&ordered)?;
    }
    Ok(pairs)
}

/// The pairs of an hour in their order, given the offers of each row's SKU. None of them is compared with one of another commitment: each finds the list of
/// its own.
pub(crate) fn pairs_in_order(
    alloc: Global,
    ranks: usize,
    rows: &[&LentRow<'_>],
    offers: &[SkuOffers<'_, '_>],
    hour: u32,
) -> Result<Vec<Pair>, AllocError>
    requires one_each { length offers.now ≡ length rows.now }
    requires ranks { All (All (λ o. o.standing.0 < ranks)) (map sku_offers offers.now) }
    ensures { IfOk result (λ v. (table : List (List OfferValue))
        → map sku_offers offers.now ≡ map (row_offers table) (map (λ r. r.now) rows.now)
        → All (All (λ o. o.standing.0 < ranks)) table
        → v.items ≡ map (λ q. q.pair)
        (in_order ranked_before (flat_map (pairs_with hour table)
        (enumerate_from 0 (map (λ r. r.now) rows.now))))) }
{
    let lists = pairs_by_rank(alloc, ranks, rows, offers, hour)?;
    let pairs = joined(alloc, &lists, rows.len())?;
    Ok(pairs)
}
