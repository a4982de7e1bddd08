//! The SKUs that commitments list, in a table in which a row finds the commitments that list its own.
ghost use Rattle.std.specs.Prelude.{◌≡◌, ◌==◌, ◌++◌, ◌∷◌, [], ◌≤◌, ◌<◌, List, All, length, map, string_bytes, vec_len, OnOk, IfOk};
ghost use Rattle.std.specs.Ordering.{nat_cmp};
ghost use Rattle.std.specs.Cmp.Lexicographic.{slice_cmp};
ghost use Rattle.std.specs.List.{prefix_len};
ghost use Rattle.std.specs.List.Sorted.{IsSortedBy};
ghost use Rattle.std.specs.Str.{bytes_eq};
ghost use Rattle.fw_terms.specs.TermsView.{terms_view};
ghost use Rattle.fw_cover.specs.Applies.{listings};
ghost use Rattle.fw_cover.specs.Offers.{OfferValue, offer_of, offer_for, offers_by, offers_of, offer_before, index_of, list_for, offered, offered_in, sku_offers, table_of, table_view, text_number};
ghost use Rattle.fw_cover.specs.PlacedView.{placed_of};

use crate::order::Placed;
use fw_terms::{Rate, Terms};
use std::alloc::{AllocError, Global};

/// A SKU that a commitment lists, and its rate, where the commitment is one to a cost.
#[derive(Clone, Copy, Debug)]
pub(crate) struct Offer<'a> {
    pub(crate) sku: &'a str,
    pub(crate) rate: Option<u32>,
    pub(crate) rank: usize,
    pub(crate) placed: Placed<'a>,
}

/// What the commitments of a roster list of a SKU, found once for many rows ([`Roster::offers`](crate::Roster::offers)).
#[derive(Clone, Copy, Debug)]
pub struct SkuOffers<'r, 'a> {
    pub(crate) offers: &'r [Offer<'a>],
}

impl<'r, 'a> SkuOffers<'r, 'a> {
    /// Nothing: what they list where a row has no SKU.
    pub fn none() -> SkuOffers<'r, 'a>
        ensures { sku_offers result ≡ [] }
    {
        SkuOffers { offers: &[] }
    }

    /// Whether they don't list the SKU.
    pub fn is_empty(&self) -> bool
        ensures { result ≡ (length (sku_offers self.now) == 0) }
    {
        self.offers.is_empty()
    }
}

/// Adds the SKUs of a commitment to a quantity.
fn add_skus<'a>(
    offers: &mut Vec<Offer<'a>>,
    rank: usize,
    placed: Placed<'a>,
    skus: &'a [String],
) -> Result<(), AllocError>
    ensures { OnOk result (map offer_of offers.new.items
        ≡ map offer_of offers.old.items
        ++ map (λ s. offer_for (rank, placed_of placed.entry)
        (record { sku = string_bytes s; rate = None })) skus.now) }
{
    for sku in skus {
        offers.push(Offer {
            sku,
            rate: None,
            rank,
            placed,
        })?;
    }
    Ok(())
}

/// Adds the SKUs of a commitment to a cost, with their rates.
fn add_rates<'a>(
    offers: &mut Vec<Offer<'a>>,
    rank: usize,
    placed: Placed<'a>,
    rates: &'a [Rate],
) -> Result<(), AllocError>
    ensures { OnOk result (map offer_of offers.new.items
        ≡ map offer_of offers.old.items
        ++ map (λ r. offer_for (rank, placed_of placed.entry)
        (record { sku = r.sku; rate = Some r.ppm })) rates.now) }
{
    for rate in rates {
        offers.push(Offer {
            sku: rate.sku(),
            rate: Some(rate.ppm()),
            rank,
            placed,
        })?;
    }
    Ok(())
}

/// Adds what a commitment lists.
fn add_offers<'a>(
    offers: &mut Vec<Offer<'a>>,
    rank: usize,
    placed: Placed<'a>,
) -> Result<(), AllocError>
    ensures { OnOk result (map offer_of offers.new.items
        ≡ map offer_of offers.old.items ++ offers_by (rank, placed_of placed.entry)) }
{
    match placed.commitment.terms() {
        Terms::Usage { skus, .. } => add_skus(offers, rank, placed, skus),
        Terms::Spend { rates } => add_rates(offers, rank, placed, rates),
    }
}

/// What the commitments of an order list, in turn.
fn all_offers<'a>(alloc: Global, ordered: &[Placed<'a>]) -> Result<Vec<Offer<'a>>, AllocError>
    ensures { IfOk result (λ v. map offer_of v.items ≡ offers_of (map placed_of ordered.now)) }
{
    let mut offers = Vec::new(alloc);
    for (rank, placed) in ordered.iter().enumerate() {
        add_offers(&mut offers, rank, *placed)?;
    }
    Ok(offers)
}

/// What the commitments of an order list, by the bytes of the SKUs; offers of one SKU stand in the order of their commitments.
fn index<'a>(alloc: Global, ordered: &[Placed<'a>]) -> Result<Vec<Offer<'a>>, AllocError>
    ensures value { IfOk result (λ v. map offer_of v.items ≡ index_of (map placed_of ordered.now)) }
    ensures sorted { IfOk result (λ v. IsSortedBy
        (λ a b. offer_before (offer_of a) (offer_of b)) v.items) }
{
    let mut offers = all_offers(alloc, ordered)?;
    offers.sort_by(|a, b| a.sku.cmp(b.sku))?;
    Ok(offers)
}

/// A number of a text, below 2^32. Texts that are equal have the same number, and most others have other ones.
#[tactic(auto, unfolding(crate::specs::Offers::text_number))]
fn text_number(text: &str) -> u64
    ensures { result ≡ text_number text.now }
{
    let mut number = 0;
    for byte in text.as_bytes() {
        number = (number * 31 + u64::from(*byte)) % (1 << 32);
    }
    number
}

/// So many lists of offers, with nothing in them.
fn no_offers<'a>(alloc: Global, lists: usize) -> Result<Vec<Vec<Offer<'a>>>, AllocError>
    ensures empty { IfOk result (λ v. table_view v.items ≡ table_of lists []) }
    ensures many { IfOk result (λ v. vec_len v ≡ lists) }
{
    let mut table = Vec::with_capacity(alloc, lists)?;
    for _list in 0..lists {
        table.push(Vec::new(alloc))?;
    }
    Ok(table)
}

/// Adds an offer to the list of its SKU.
fn push_offer<'a>(table: &mut Vec<Vec<Offer<'a>>>, offer: Offer<'a>) -> Result<(), AllocError>
    requires { 0 < vec_len table.old }
    ensures value { OnOk result ((index : List OfferValue)
        → table_view table.old.items ≡ table_of (vec_len table.old) index
        → table_view table.new.items
        ≡ table_of (vec_len table.old) (index ++ offer_of offer.entry ∷ [])) }
    ensures many { vec_len table.new ≡ vec_len table.old }
{
    let list = list_for(offer.sku, table.len());
    table[list].push(offer)?;
    Ok(())
}

/// Which of so many lists has the offers of a SKU.
fn list_for(sku: &str, lists: usize) -> usize
    requires { 0 < lists }
    ensures value { result ≡ list_for lists sku.now }
    ensures within { result < lists }
{
    (text_number(sku) % lists as u64) as usize
}

/// What the commitments of an order list, in one list more than there are offers. The offers of a SKU are in the list that its number
/// names, so most lists are short. Each is in the order of `index`, so that a long one can be searched.
pub(crate) fn table<'a>(
    alloc: Global,
    ordered: &[Placed<'a>],
) -> Result<Vec<Vec<Offer<'a>>>, AllocError>
    ensures value { IfOk result (λ v. table_view v.items
        ≡ table_of (length v.items) (index_of (map placed_of ordered.now))) }
    ensures sorted { IfOk result (λ v. All (IsSortedBy offer_before) (table_view v.items)) }
    ensures some { IfOk result (λ v. 0 < length v.items) }
{
    let index = index(alloc, ordered)?;
    let mut table = no_offers(alloc, index.len() + 1)?;
    for offer in &index {
        push_offer(&mut table, *offer)?;
    }
    Ok(table)
}

/// How many offers from the first on are of a SKU.
fn run_of(offers: &[Offer], sku: &str) -> usize
    ensures run { result ≡ prefix_len (λ o. bytes_eq o.sku.now sku.now) offers.now }
    ensures within { result ≤ length offers.now }
{
    offers.iter().take_while(|offer| offer.sku == sku).count()
}

/// The offers of a SKU in a sorted list: found by a search for the first, and then by going on as long as the SKU is the same.
fn run_in<'i, 'a>(list: &'i [Offer<'a>], sku: &str) -> &'i [Offer<'a>]
    requires { IsSortedBy (λ a b. offer_before (offer_of a) (offer_of b)) list.now }
    ensures { map offer_of result.now ≡ offered sku.now (map offer_of list.now) }
{
    let from = list.partition_point(|offer| offer.sku.cmp(sku).is_lt());
    let (_, later) = list.split_at(from);
    let (run, _) = later.split_at(run_of(later, sku));
    run
}

/// The offers of a SKU in a table. Most lists have one SKU alone: where the first and the last offer are of this one, the whole list is.
pub(crate) fn offered<'i, 'a>(table: &'i [Vec<Offer<'a>>], sku: &str) -> &'i [Offer<'a>]
    requires some { 0 < length table.now }
    requires sorted { All (IsSortedBy offer_before) (table_view table.now) }
    ensures { map offer_of result.now ≡ offered_in sku.now (table_view table.now) }
{
    let list = table[list_for(sku, table.len())].as_slice();
    match (list.first(), list.last()) {
        (Some(first), Some(last)) if first.sku == sku && last.sku == sku => list,
        _ => run_in(list, sku),
    }
}
