//! What each pair takes.
ghost use Rattle.std.specs.Prelude.{◌≡◌, ◌^◌, ◌<◌, ◌≤◌, length, All, IfOk, IfSome, OnOk, [], ◌∷◌, ◌++◌, filter};
ghost use Rattle.fw_cover.specs.Cover.{IsPairWithin, cover_of, takes_something};
ghost use Rattle.fw_cover.specs.HourCovers.{IsCover};
ghost use Rattle.fw_cover.specs.Part.{part_of};

use crate::hour::HourCover;
use crate::pair::Pair;
use crate::part::{Part, spend_part, usage_part};
use crate::taken::Taken;
use std::alloc::{AllocError, Global};

impl Pair {
    /// What the pair takes of a row with this billed cost and quantity, where so much is left of the row and of the commitment.
    fn part(&self, billed: u64, quantity: u64, row_left: u64, capacity_left: u64) -> Part
        requires billed { billed ≤ 10 ^ 17 }
        requires quantity { 0 < quantity }
        requires left { row_left ≤ quantity }
        requires rate { IfSome self.now.rate (λ rate. rate ≤ 1000000) }
        ensures part { result ≡ part_of self.now.rate billed quantity row_left capacity_left }
        ensures within_row { result.quantity ≤ row_left }
        ensures within_capacity { result.weight ≤ capacity_left }
        ensures nothing { result.quantity ≡ 0 → result.weight ≡ 0 }
    {
        match self.rate {
            None => usage_part(row_left, capacity_left),
            Some(rate) => spend_part(billed, quantity, rate, row_left, capacity_left),
        }
    }
}

/// Keeps what was taken, where it is anything.
fn keep(all: &mut Vec<Taken>, taken: Taken) -> Result<(), AllocError>
    ensures { OnOk result (all.new.items ≡ all.old.items ++ filter takes_something (taken ∷ [])) }
{
    if taken.quantity > 0 {
        all.push(taken)?;
    }
    Ok(())
}

/// What each pair takes, one after another, and what is left; `billed` and `quantities` are of the rows, `capacities` of the commitments.
pub(crate) fn cover_pairs(
    alloc: Global,
    pairs: &[Pair],
    billed: &[u64],
    quantities: &[u64],
    capacities: &[u64],
) -> Result<HourCover, AllocError>
    requires one_each { length billed.now ≡ length quantities.now }
    requires pairs { All (IsPairWithin billed.now quantities.now capacities.now) pairs.now }
    ensures { IfOk result (IsCover (cover_of billed.now quantities.now capacities.now pairs.now)
        quantities.now capacities.now) }
{
    let mut row_left = quantities.to_vec(alloc)?;
    let mut capacity_left = capacities.to_vec(alloc)?;
    let mut taken = Vec::with_capacity(alloc, pairs.len())?;
    for pair in pairs {
        let part = pair.part(
            billed[pair.row],
            quantities[pair.row],
            row_left[pair.row],
            capacity_left[pair.commitment],
        );
        row_left[pair.row] -= part.quantity;
        capacity_left[pair.commitment] -= part.weight;
        keep(
            &mut taken,
            Taken {
                commitment: pair.commitment,
                row: pair.row,
                quantity: part.quantity,
                weight: part.weight,
            },
        )?;
    }
    Ok(HourCover {
        taken,
        row_left,
        unused: capacity_left,
    })
}
