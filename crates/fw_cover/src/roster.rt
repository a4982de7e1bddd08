//! Commitments made ready to cover hour after hour.
ghost use Rattle.std.specs.Prelude.{◌≡◌, map, IfOk};
ghost use Rattle.fw_cover.specs.HourCovers.{IsHourCover};
ghost use Rattle.fw_cover.specs.Offers.{sku_offers};
ghost use Rattle.fw_cover.specs.PlacedView.{placed_of};
ghost use Rattle.fw_cover.specs.RosterView.{HasHour, lists_sku, offers_in, offers_of_row, roster_order, runs_between};

use crate::covering::cover_pairs;
use crate::hour::HourCover;
use crate::matching::pairs_in_order;
use crate::numbers::{billed_costs, capacities, quantities};
use crate::offers::{Offer, SkuOffers, offered, table};
use crate::order::{Placed, ordered, places};
use fw_row_table::LentRow;
use fw_terms::Commitment;
use std::alloc::{AllocError, Global};
use std::marker::Model;

/// Commitments made ready to cover a range of hours. Those that run in the range are put in order, and what they list into a table by SKU; the others
/// take nothing in it. A roster is made once, for a report, and then covers the rows of one hour after another. Contracts see the list of
/// all the commitments, and the range.
#[derive(Debug)]
pub struct Roster<'a> {
    commitments: &'a [Commitment],
    from: u64,
    to: u64,
    order: Vec<usize>,
    capacities: Vec<u64>,
    table: Vec<Vec<Offer<'a>>>,
}

impl Drop for Roster<'_> {
    fn drop(self) {
        let Self {
            commitments: _,
            from: _,
            to: _,
            order: _,
            capacities: _,
            table: _,
        } = self;
    }
}

impl<'a> Model for Roster<'a> {
    ghost use Rattle.fw_cover.specs.RosterView.{IsRoster, RosterValue};

    ghost Value = { RosterValue };

    ghost view = { λ r. record { commitments = r.commitments.now; from = r.from; to = r.to } };

    ghost invariant = { λ r. IsRoster (record { commitments = r.commitments.now; from = r.from; to = r.to }) r.order.items r.capacities.items r.table.items };
}

/// Whether a commitment runs in one of the hours from `from` up to, and not including, `to`.
#[tactic(auto, unfolding(crate::specs::RosterView::runs_between))]
fn runs_between(commitment: &Commitment, from: u64, to: u64) -> bool
    ensures { result ≡ runs_between from to commitment.now }
{
    let start = u64::from(commitment.start());
    start < to && from < start + u64::from(commitment.hours())
}

/// The commitments that run in one of these hours, in their order, each beside its place in the list of all.
fn running<'a>(
    alloc: Global,
    commitments: &'a [Commitment],
    from: u64,
    to: u64,
) -> Result<Vec<Placed<'a>>, AllocError>
    ensures { IfOk result (λ v. map placed_of v.items
        ≡ roster_order (record { commitments = commitments.now; from = from; to = to })) }
{
    let mut placed = ordered(alloc, commitments)?;
    placed.retain(|placed| runs_between(placed.commitment, from, to));
    Ok(placed)
}

impl<'a> Roster<'a> {
    /// The roster of these commitments for the hours from `from` up to, and not including, `to`, counted from 1970. The one error is that
    /// memory ran out.
    pub fn new(
        alloc: Global,
        commitments: &'a [Commitment],
        from: u64,
        to: u64,
    ) -> Result<Roster<'a>, AllocError>
        ensures { IfOk result (λ roster. roster
            ≡ record { commitments = commitments.now; from = from; to = to }) }
    {
        let running = running(alloc, commitments, from, to)?;
        let order = places(alloc, &running)?;
        let table = table(alloc, &running)?;
        let capacities = capacities(alloc, commitments)?;
        Ok(Roster {
            commitments,
            from,
            to,
            order,
            capacities,
            table,
        })
    }

    /// The commitments, as they were given.
    pub fn commitments(&self) -> &'a [Commitment]
        ensures { result.now ≡ self.now.commitments }
    {
        self.commitments
    }

    /// The places of the commitments that run in one of the roster's hours, in the order in which they meet an hour's rows: what
    /// [`in_order`](crate::in_order) returns, without the places of the others.
    pub fn order(&self) -> &[usize]
        ensures { result.now ≡ map (λ c. c.0) (roster_order self.now) }
    {
        &self.order
    }

    /// Whether some commitment that runs in one of the roster's hours lists a SKU. Where none does, no commitment applies to a row of this SKU in any of
    /// the hours ([`unlisted_rows_are_untouched`](crate::unlisted_rows_are_untouched)).
    pub fn lists_sku(&self, sku: &str) -> bool
        ensures { result ≡ lists_sku self.now sku.now }
    {
        let offers = self.offers(sku);
        !offers.is_empty()
    }

    /// What the commitments that run in one of the roster's hours list of a SKU: looked up once, for [`Roster::cover_offered`] of many rows.
    pub fn offers(&self, sku: &str) -> SkuOffers<'_, 'a>
        ensures { sku_offers result ≡ offers_in self.now sku.now }
    {
        SkuOffers {
            offers: offered(&self.table, sku),
        }
    }

    /// What they list of a row's SKU; nothing where it has none.
    pub fn offers_of_row(&self, row: &LentRow<'_>) -> SkuOffers<'_, 'a>
        ensures { sku_offers result ≡ offers_of_row self.now row.now }
    {
        match row.sku() {
            Some(sku) => self.offers(sku),
            None => SkuOffers::none(),
        }
    }

    /// What they list of each row's SKU.
    fn offers_of_rows(
        &self,
        alloc: Global,
        rows: &[&LentRow<'_>],
    ) -> Result<Vec<SkuOffers<'_, 'a>>, AllocError>
        ensures { IfOk result (λ v. map sku_offers v.items
            ≡ map (offers_of_row self.now) (map (λ r. r.now) rows.now)) }
    {
        let mut offers = Vec::with_capacity(alloc, rows.len())?;
        for row in rows {
            offers.push(self.offers_of_row(row))?;
        }
        Ok(offers)
    }

    /// What the commitments cover of the rows of one of the roster's hours; rows of other hours are passed over. The places are those in the
    /// list of the commitments and in the slice of the rows.
    pub fn cover(
        &self,
        alloc: Global,
        rows: &[&LentRow<'_>],
        hour: u32,
    ) -> Result<HourCover, AllocError>
        requires { HasHour self.now hour }
        ensures { IfOk result (IsHourCover self.now.commitments (map (λ r. r.now) rows.now) hour) }
    {
        let offers = self.offers_of_rows(alloc, rows)?;
        self.cover_offered(alloc, rows, &offers, hour)
    }

    /// The same, given what the commitments list of each row's SKU.
    pub fn cover_offered(
        &self,
        alloc: Global,
        rows: &[&LentRow<'_>],
        offers: &[SkuOffers<'_, '_>],
        hour: u32,
    ) -> Result<HourCover, AllocError>
        requires hour { HasHour self.now hour }
        requires offers { map sku_offers offers.now
            ≡ map (offers_of_row self.now) (map (λ r. r.now) rows.now) }
        ensures { IfOk result (IsHourCover self.now.commitments (map (λ r. r.now) rows.now) hour) }
    {
        let pairs = pairs_in_order(alloc, self.order.len(), rows, offers, hour)?;
        let billed = billed_costs(alloc, rows)?;
        let quantities = quantities(alloc, rows)?;
        cover_pairs(alloc, &pairs, &billed, &quantities, &self.capacities)
    }
}
