//! How well a commitment was used, as a value.
ghost use Rattle.std.specs.Prelude.{◌≡◌};
ghost use Rattle.fw_coverage.specs.Tallies.{coverage_from};

use crate::tally::Tally;
use fw_terms::Commitment;
use std::marker::Model;

/// How well a commitment was used in the hours of a range. Capacities are in nanos of the commitment's unit, or of the currency where it is one
/// to a cost; costs are in nanos.
#[derive(Debug, Drop)]
pub struct Coverage<'a> {
    commitment: &'a Commitment,
    capacity: u128,
    used: u128,
    unused: u128,
    used_cost: i128,
    unused_cost: i128,
    paid: i128,
}

impl<'a> Model for Coverage<'a> {
    ghost use Rattle.fw_coverage.specs.Coverage.{CoverageValue};

    ghost Value = { CoverageValue };

    ghost view = { λ c. record { commitment = c.commitment.now; capacity = c.capacity; used = c.used; unused = c.unused; used_cost = c.used_cost; unused_cost = c.unused_cost; paid = c.paid } };
}

impl<'a> Coverage<'a> {
    // What a tally comes to. What is unused is at most the capacity.
    pub(crate) fn of_tally(tally: &Tally<'a>) -> Coverage<'a>
        ensures { result ≡ coverage_from tally.now }
    {
        Coverage {
            commitment: tally.commitment,
            capacity: tally.capacity,
            used: tally.capacity.saturating_sub(tally.unused),
            unused: tally.unused,
            used_cost: tally.sums.used,
            unused_cost: tally.sums.unused,
            paid: tally.sums.paid,
        }
    }

    /// The commitment, with all its purchases.
    pub fn commitment(&self) -> &'a Commitment
        ensures { result.now ≡ self.now.commitment }
    {
        self.commitment
    }

    /// Its capacity of all the hours of the range that lie in its term.
    pub fn capacity(&self) -> u128
        ensures { result ≡ self.now.capacity }
    {
        self.capacity
    }

    /// What rows used of the capacity.
    pub fn used(&self) -> u128
        ensures { result ≡ self.now.used }
    {
        self.used
    }

    /// What nothing used of the capacity.
    pub fn unused(&self) -> u128
        ensures { result ≡ self.now.unused }
    {
        self.unused
    }

    /// The sum of EffectiveCost over its Used lines.
    pub fn used_cost(&self) -> i128
        ensures { result ≡ self.now.used_cost }
    {
        self.used_cost
    }

    /// The sum of EffectiveCost over its Unused lines.
    pub fn unused_cost(&self) -> i128
        ensures { result ≡ self.now.unused_cost }
    {
        self.unused_cost
    }

    /// The sum of BilledCost over the lines of its purchases, also of those that were added to it later.
    pub fn paid(&self) -> i128
        ensures { result ≡ self.now.paid }
    {
        self.paid
    }
}
