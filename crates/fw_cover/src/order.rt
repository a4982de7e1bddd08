//! The order of commitments.
ghost use Rattle.std.specs.Prelude.{◌≡◌, ◌<◌, map, IfOk};
ghost use Rattle.std.specs.List.{enumerate_from};
ghost use Rattle.fw_cover.specs.Applies.{is_in_term};
ghost use Rattle.fw_cover.specs.Order.{kind_rank, compare_commitments, commitments_in_order};
ghost use Rattle.fw_terms.specs.TermsView.{terms_view};
ghost use Rattle.fw_cover.specs.PlacedView.{placed_of};

use fw_terms::{Commitment, Terms};
use std::alloc::{AllocError, Global};
use std::cmp::Ordering;

/// Whether an hour, counted from 1970, is one of a commitment's term.
#[tactic(auto, unfolding(crate::specs::Applies::is_in_term))]
pub fn is_in_term(commitment: &Commitment, hour: u32) -> bool
    ensures { result ≡ is_in_term commitment.now hour }
{
    let start = commitment.start();
    start <= hour && hour < start + commitment.hours()
}

/// A commitment beside its place in the list.
#[derive(Clone, Copy, Debug)]
pub(crate) struct Placed<'a> {
    pub(crate) place: usize,
    pub(crate) commitment: &'a Commitment,
}

impl<'a> Placed<'a> {
    /// How two commitments stand in the order.
    #[tactic(auto, unfolding(crate::specs::Order::compare_commitments))]
    fn compare(&self, other: &Placed<'a>) -> Ordering
        ensures { result ≡ compare_commitments (placed_of self.now) (placed_of other.now) }
    {
        let (a, b) = (self.commitment, other.commitment);
        kind_rank(a.terms())
            .cmp(&kind_rank(b.terms()))
            .then(a.start().cmp(&b.start()))
            .then(a.id().cmp(b.id()))
    }
}

/// Commitments to a quantity go before those to a cost.
fn kind_rank(terms: &Terms) -> u8
    ensures { result ≡ kind_rank (terms_view terms.now) }
{
    match terms {
        Terms::Usage { .. } => 0,
        Terms::Spend { .. } => 1,
    }
}

/// The commitments of a list, each beside its place.
fn in_list<'a>(alloc: Global, commitments: &'a [Commitment]) -> Result<Vec<Placed<'a>>, AllocError>
    ensures { IfOk result (λ v. map placed_of v.items ≡ enumerate_from 0 commitments.now) }
{
    let mut all = Vec::with_capacity(alloc, commitments.len())?;
    for (place, commitment) in commitments.iter().enumerate() {
        all.push(Placed { place, commitment })?;
    }
    Ok(all)
}

/// The commitments in their order, each beside its place.
pub(crate) fn ordered<'a>(
    alloc: Global,
    commitments: &'a [Commitment],
) -> Result<Vec<Placed<'a>>, AllocError>
    ensures { IfOk result (λ v. map placed_of v.items ≡ commitments_in_order commitments.now) }
{
    let mut placed = in_list(alloc, commitments)?;
    placed.sort_by(|a, b| a.compare(b))?;
    Ok(placed)
}

/// The places of the commitments in the order in which they meet an hour's rows: those to a quantity before those to a cost, then by the
/// first hour, then by the bytes of the id, and where these are the same as in the list.
pub fn in_order(alloc: Global, commitments: &[Commitment]) -> Result<Vec<usize>, AllocError>
    ensures { IfOk result (λ v. v.items ≡ map (λ c. c.0) (commitments_in_order commitments.now)) }
{
    let ordered = ordered(alloc, commitments)?;
    places(alloc, &ordered)
}

/// The places of placed commitments, in turn.
pub(crate) fn places(alloc: Global, placed: &[Placed]) -> Result<Vec<usize>, AllocError>
    ensures { IfOk result (λ v. v.items ≡ map (λ p. p.place) placed.now) }
{
    placed.iter().map(|placed| placed.place).collect(alloc)
}
