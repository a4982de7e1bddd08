//! What a purchase that is added does to a commitment: proof-only functions.
ghost use Rattle.std.specs.Prelude.{◌≡◌, ◌+◌, ◌≤◌, IsTrue};
ghost use Rattle.fw_charge.specs.Charge.{last_second};
ghost use Rattle.fw_terms.specs.Commitment.{CommitmentValue, PurchaseValue, IsCommitment, cost_of, takes_purchase, with_purchase};

/// A commitment with one purchase more, which it takes, keeps the limits, and costs as much more as was paid.
pub fn a_purchase_adds_its_cost()
    ensures limits { (c : CommitmentValue) (p : PurchaseValue) → IsCommitment c
        → IsTrue (takes_purchase c p) → p.at ≤ last_second → IsCommitment (with_purchase c p) }
    ensures cost { (c : CommitmentValue) (p : PurchaseValue)
        → cost_of (with_purchase c p).purchases ≡ cost_of c.purchases + p.billed }
{}
