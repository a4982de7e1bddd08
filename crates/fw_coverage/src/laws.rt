//! What holds of every coverage: laws, each the contract of a function that does nothing.
ghost use Rattle.std.specs.Prelude.{◌≡◌, ◌≤◌, ◌+◌, ◌+ℤ◌, All, List, Some, pos, slice_get, ℕ};
ghost use Rattle.fw_amortise.specs.LineValue.{LineValue};
ghost use Rattle.fw_charge.specs.Charge.{Charge};
ghost use Rattle.fw_entry.specs.Entry as entry;
ghost use Rattle.fw_entry.specs.Spelling.{IsEntry};
ghost use Rattle.fw_query.specs.Carried.{amount_between, cost_between};
ghost use Rattle.fw_coverage.specs.Coverage.{CoverageValue, IsCoverage, coverage_of, paid_cost, unused_cost, used_cost};
ghost use Rattle.fw_query.specs.OfHistory.{AreLinesOf};
ghost use Rattle.fw_snapshot.specs.History.{commitments_of, rows_of};
ghost use Rattle.fw_snapshot.specs.Judging.{IsLegal};
ghost use Rattle.fw_terms.specs.Commitment.{CommitmentValue, cost_of};

/// Of the capacity of each commitment rows used what nothing left unused. What its Used and its Unused lines of a range cost together are the amounts
/// of the hours there, and over its term what its purchases cost, to the last nano. What was paid for it is what its purchases in the hours of
/// the range cost. Purchases that were added to it later are among its purchases: they are spread over every hour of the term, and so
/// change the amounts of past hours too. And the accepted entries and the hours determine the coverage.
pub fn coverage_adds_up()
    ensures capacity { (cs : List CommitmentValue) (rows : List Charge) (lines : List LineValue)
        (from to place : ℕ) (c : CommitmentValue) → slice_get cs place ≡ Some c
        → (coverage_of cs rows lines from to (place, c)).used
        + (coverage_of cs rows lines from to (place, c)).unused
        ≡ (coverage_of cs rows lines from to (place, c)).capacity }
    ensures hours { (history : List entry.EntryValue) (from to : ℕ) (lines : List LineValue)
        (place : ℕ) (c : CommitmentValue) → IsLegal history → AreLinesOf history from to lines
        → slice_get (commitments_of history) place ≡ Some c
        → used_cost c.id lines +ℤ unused_cost c.id lines ≡ pos (amount_between c from to) }
    ensures term { (history : List entry.EntryValue) (from to : ℕ) (lines : List LineValue)
        (place : ℕ) (c : CommitmentValue) → IsLegal history → All IsEntry history
        → AreLinesOf history from to lines → slice_get (commitments_of history) place ≡ Some c
        → from ≤ c.start → c.start + c.hours ≤ to
        → used_cost c.id lines +ℤ unused_cost c.id lines ≡ pos (cost_of c.purchases) }
    ensures paid { (history : List entry.EntryValue) (from to : ℕ) (lines : List LineValue)
        (place : ℕ) (c : CommitmentValue) → IsLegal history → All IsEntry history → from ≤ to
        → AreLinesOf history from to lines → slice_get (commitments_of history) place ≡ Some c
        → paid_cost c.id lines ≡ pos (cost_between c from to) }
    ensures one { (history : List entry.EntryValue) (from to : ℕ) (a b : List CoverageValue)
        → IsCoverage (commitments_of history) (rows_of history) from to a
        → IsCoverage (commitments_of history) (rows_of history) from to b → a ≡ b }
{}
