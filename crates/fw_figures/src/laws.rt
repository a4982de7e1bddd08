//! What holds of the figures of commitments: a law, the contract of a function that does nothing.
ghost use Rattle.std.specs.Prelude.{◌≡◌, ◌≤◌, ℕ, List, Some, slice_get};
ghost use Rattle.fw_amortise.specs.LineValue.{LineValue};
ghost use Rattle.fw_charge.specs.Charge.{Charge};
ghost use Rattle.fw_coverage.specs.Coverage.{coverage_of};
ghost use Rattle.fw_figures.specs.Units.{usable_between};
ghost use Rattle.fw_terms.specs.Commitment.{CommitmentValue};

/// What rows used of the capacity of a commitment in a range of hours they could have used.
pub fn used_capacity_is_eligible()
    ensures { (cs : List CommitmentValue) (rows : List Charge) (lines : List LineValue)
        (from to place : ℕ) (c : CommitmentValue) → slice_get cs place ≡ Some c
        → (coverage_of cs rows lines from to (place, c)).used ≤ usable_between rows from to c }
{}
