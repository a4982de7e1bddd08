//! Costs, and what they come to together.
ghost use Rattle.std.specs.Prelude.{◌≡◌, IfSome};
ghost use Rattle.fw_compare.specs.Costs.{less, with};

/// Costs in nanos.
#[derive(Clone, Copy, Debug, Drop, PartialEq, Eq)]
pub struct Costs {
    /// BilledCost.
    pub billed: i128,
    /// EffectiveCost, before any policy.
    pub effective: i128,
    /// What is charged; EffectiveCost where no policy applies.
    pub charged: i128,
}

impl Costs {
    /// No costs.
    pub const NONE: Costs = Costs {
        billed: 0,
        effective: 0,
        charged: 0,
    };

    /// These costs and others; `None` where a sum passes 128 bits.
    pub fn with(self, other: Costs) -> Option<Costs>
        ensures { IfSome result (λ c. c ≡ with self other) }
    {
        Some(Costs {
            billed: self.billed.checked_add(other.billed)?,
            effective: self.effective.checked_add(other.effective)?,
            charged: self.charged.checked_add(other.charged)?,
        })
    }

    /// These costs less others; `None` where a difference passes 128 bits.
    pub fn less(self, other: Costs) -> Option<Costs>
        ensures { IfSome result (λ c. c ≡ less self other) }
    {
        Some(Costs {
            billed: self.billed.checked_sub(other.billed)?,
            effective: self.effective.checked_sub(other.effective)?,
            charged: self.charged.checked_sub(other.charged)?,
        })
    }
}
