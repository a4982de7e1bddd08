//! Which SKUs stay together: those that one commitment lists, and so those that commitments join.
use fw_terms::{Commitment, Terms};
use std::alloc::{AllocError, Global};

/// A SKU, and the first commitment that lists it.
struct Listed {
    sku: String,
    /// The place of the commitment.
    by: usize,
}

impl Drop for Listed {
    fn drop(self) {
        let Self { sku: _, by: _ } = self;
    }
}

/// The piles to which commitments and their SKUs are dealt.
pub(crate) struct Piles {
    // the SKUs that commitments list, in rising byte order, each once
    skus: Vec<Listed>,
    // of each commitment the set that it is in; those with a SKU in common are in one
    sets: Vec<usize>,
    count: usize,
}

impl Drop for Piles {
    fn drop(self) {
        let Self {
            skus: _,
            sets: _,
            count: _,
        } = self;
    }
}

impl Piles {
    /// So many piles, at least one, without commitments.
    pub(crate) fn new(alloc: Global, count: usize) -> Piles {
        Piles {
            skus: Vec::new(alloc),
            sets: Vec::new(alloc),
            count,
        }
    }

    /// How many piles there are.
    pub(crate) fn count(&self) -> usize {
        self.count
    }

    /// Joins the SKUs of one more commitment.
    pub(crate) fn add(&mut self, alloc: Global, commitment: &Commitment) -> Result<(), AllocError> {
        let own = self.sets.len();
        self.sets.push(own)?;
        match commitment.terms() {
            Terms::Usage { unit: _, skus } => {
                for sku in skus {
                    self.add_sku(alloc, own, sku.as_str())?;
                }
            }
            Terms::Spend { rates } => {
                for rate in rates {
                    self.add_sku(alloc, own, rate.sku())?;
                }
            }
        }
        Ok(())
    }

    // A commitment lists a SKU too: with an earlier one that does it is in one set.
    fn add_sku(&mut self, alloc: Global, own: usize, sku: &str) -> Result<(), AllocError> {
        match place_of(self.skus.as_slice(), sku) {
            Ok(place) => {
                if let Some(by) = listed_by(self.skus.as_slice(), place) {
                    join(self.sets.as_mut_slice(), by, own);
                }
                Ok(())
            }
            Err(place) => {
                let sku = String::from_str(alloc, sku)?;
                let place = place.min(self.skus.len());
                self.skus.insert(place, Listed { sku, by: own })?;
                Ok(())
            }
        }
    }

    /// The pile of a commitment, counted from 0, by its place.
    pub(crate) fn of_commitment(&self, place: usize) -> usize {
        match self.sets.get(place) {
            Some(set) => number_of(self.sets.as_slice(), *set)
                .checked_rem(self.count)
                .unwrap_or(0),
            None => 0,
        }
    }

    /// The pile of a SKU, counted from 0; none where no commitment lists it.
    pub(crate) fn of_sku(&self, sku: &str) -> Option<usize> {
        match place_of(self.skus.as_slice(), sku) {
            Ok(place) => {
                let by = listed_by(self.skus.as_slice(), place)?;
                Some(self.of_commitment(by))
            }
            Err(_) => None,
        }
    }
}

// Where a SKU stands, or where it would.
fn place_of(skus: &[Listed], sku: &str) -> Result<usize, usize> {
    skus.binary_search_by(|listed| listed.sku.as_str().cmp(sku))
}

// The commitment that lists the SKU at a place.
fn listed_by(skus: &[Listed], place: usize) -> Option<usize> {
    match skus.get(place) {
        Some(listed) => Some(listed.by),
        None => None,
    }
}

// Joins the sets of two commitments. A set is named by the least place of its commitments.
fn join(sets: &mut [usize], first: usize, second: usize) {
    let (Some(one), Some(other)) = (sets.get(first).copied(), sets.get(second).copied()) else {
        return;
    };
    let (kept, joined) = (one.min(other), one.max(other));
    for set in sets {
        if *set == joined {
            *set = kept;
        }
    }
}

// How many other sets come before a set.
fn number_of(sets: &[usize], set: usize) -> usize {
    let mut number = 0usize;
    for (place, other) in sets.iter().enumerate() {
        if *other == set {
            return number;
        }
        if *other == place {
            number = number.saturating_add(1);
        }
    }
    number
}
