//! What holds of all charges: two laws, each the contract of a function that does nothing.
ghost use Rattle.std.specs.Prelude.{◌≡◌, List};
ghost use Rattle.fw_allocate.specs.Charges.{AreCharges};
ghost use Rattle.fw_allocate.specs.Costs.{CostValue, groups_in, total_cost};
ghost use Rattle.fw_terms.specs.Policy.{IsPolicy, PolicyValue, RuleValue};
ghost use Rattle.fw_terms.specs.Texts.{IsRising};

/// At most one list is what the groups are charged, so [`charge`](crate::charge) has one answer.
pub fn charges_are_one()
    ensures { (direct : List CostValue) (rules : List RuleValue) (a b : List CostValue)
        → AreCharges direct rules a → AreCharges direct rules b → a ≡ b }
{}

/// A policy moves costs and makes none: what the groups are charged sums to what they cost.
pub fn charges_keep_the_total()
    ensures { (direct : List CostValue) (policy : PolicyValue) (charged : List CostValue)
        → IsRising (groups_in direct) → IsPolicy policy → AreCharges direct policy.rules charged
        → total_cost charged ≡ total_cost direct }
{}
