//! What is summed of commitments.
ghost use Rattle.std.specs.Prelude.{◌≡◌, ◌+ℤ◌, ◌-ℤ◌, IfOk, pos};
ghost use Rattle.fw_figures.specs.Sums.{amortised, savings, uncovered, with_amount};

use std::alloc::AllocError;

/// What an amount is of.
#[derive(Clone, Copy, Debug, Drop, PartialEq, Eq)]
pub enum Amount {
    /// EffectiveCost of what was used of a commitment.
    Used,
    /// EffectiveCost of what was left unused.
    Unused,
    /// BilledCost of its purchases.
    Paid,
    /// What was covered, at the prices of the rows.
    Covered,
    /// What could have been covered, at the rows' own prices.
    Eligible,
    /// What of the capacity rows could have used, in nanos of the commitment's unit.
    Usable,
    /// How many rows that were covered have no price.
    Unpriced,
}

/// What is summed of commitments, in nanos of the currency; what of the capacity of one commitment rows could have used, in nanos of its unit; and a
/// count of rows.
#[derive(Clone, Copy, Debug, Drop, PartialEq, Eq)]
pub struct Figures {
    /// EffectiveCost of what was used.
    pub used: i128,
    /// EffectiveCost of what was left unused.
    pub unused: i128,
    /// BilledCost of the purchases.
    pub paid: i128,
    /// What was covered: of own commitments at the rows' own prices, of those of providers at the prices that rows have.
    pub covered: i128,
    /// What could have been covered, at the rows' own prices.
    pub eligible: i128,
    /// What of the capacity rows could have used. It is summed beside a commitment alone, since commitments have units of their own.
    pub usable: i128,
    /// How many rows that were covered have no price. Nothing of them is in what was covered.
    pub unpriced: i128,
}

impl Figures {
    /// Of nothing.
    pub fn none() -> Figures
        ensures { result ≡ record {
          used = pos 0;
          unused = pos 0;
          paid = pos 0;
          covered = pos 0;
          eligible = pos 0;
          usable = pos 0;
          unpriced = pos 0;
        } }
    {
        Figures {
            used: 0,
            unused: 0,
            paid: 0,
            covered: 0,
            eligible: 0,
            usable: 0,
            unpriced: 0,
        }
    }

    /// With an amount more. A sum past 2^127 takes more lines than any memory holds, and is answered as out of memory.
    pub fn with(self, what: Amount, nanos: i128) -> Result<Figures, AllocError>
        ensures { IfOk result (λ figures. figures ≡ with_amount self what nanos) }
    {
        let mut figures = self;
        match what {
            Amount::Used => figures.used = sum(self.used, nanos)?,
            Amount::Unused => figures.unused = sum(self.unused, nanos)?,
            Amount::Paid => figures.paid = sum(self.paid, nanos)?,
            Amount::Covered => figures.covered = sum(self.covered, nanos)?,
            Amount::Eligible => figures.eligible = sum(self.eligible, nanos)?,
            Amount::Usable => figures.usable = sum(self.usable, nanos)?,
            Amount::Unpriced => figures.unpriced = sum(self.unpriced, nanos)?,
        }
        Ok(figures)
    }

    /// The amortized cost: of what was used and of what was left unused.
    pub fn amortised(&self) -> Result<i128, AllocError>
        ensures { IfOk result (λ cost. cost ≡ amortised self.now) }
    {
        sum(self.used, self.unused)
    }

    /// What could have been covered and wasn't, at the rows' own prices.
    pub fn uncovered(&self) -> Result<i128, AllocError>
        ensures { IfOk result (λ cost. cost ≡ uncovered self.now) }
    {
        difference(self.eligible, self.covered)
    }

    /// What was covered would have cost more by this than it did; below 0 where it cost more.
    pub fn savings(&self) -> Result<i128, AllocError>
        ensures { IfOk result (λ cost. cost ≡ savings self.now) }
    {
        let amortised = self.amortised()?;
        difference(self.covered, amortised)
    }
}

// The sum of two amounts.
fn sum(a: i128, b: i128) -> Result<i128, AllocError>
    ensures { IfOk result (λ s. s ≡ a +ℤ b) }
{
    match a.checked_add(b) {
        Some(sum) => Ok(sum),
        None => Err(AllocError),
    }
}

// The difference of two amounts.
fn difference(a: i128, b: i128) -> Result<i128, AllocError>
    ensures { IfOk result (λ d. d ≡ a -ℤ b) }
{
    match a.checked_sub(b) {
        Some(difference) => Ok(difference),
        None => Err(AllocError),
    }
}
