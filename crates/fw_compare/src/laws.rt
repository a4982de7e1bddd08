//! What holds of all comparisons: laws, each the contract of a function that does nothing.
ghost use Rattle.std.specs.Prelude.{◌≡◌, ℕ, List, Option};
ghost use Rattle.fw_compare.specs.Comparison.{LineValue, afters, befores, changes, compared};
ghost use Rattle.fw_compare.specs.Groups.{GroupValue, costs_of};
ghost use Rattle.fw_compare.specs.Costs.{less, sums_of};
ghost use Rattle.fw_compare.specs.Shown.{AreShown};

/// The lines of a comparison cost before what the groups of the first report cost (`before`), and after what those of the second cost (`after`).
/// Their differences sum to the difference of these sums (`change`): of each of the three costs, to the nano.
pub fn differences_keep_the_total()
    ensures before { (first second : List GroupValue)
        → sums_of (befores (compared first second)) ≡ sums_of (costs_of first) }
    ensures after { (first second : List GroupValue)
        → sums_of (afters (compared first second)) ≡ sums_of (costs_of second) }
    ensures change { (first second : List GroupValue)
        → sums_of (changes (compared first second))
        ≡ less (sums_of (costs_of second)) (sums_of (costs_of first)) }
{}

/// What is shown costs before and after what all lines cost, whichever have a line of their own.
pub fn shown_lines_keep_the_sums()
    ensures before { (top : Option ℕ) (lines shown : List LineValue) → AreShown top lines shown
        → sums_of (befores shown) ≡ sums_of (befores lines) }
    ensures after { (top : Option ℕ) (lines shown : List LineValue) → AreShown top lines shown
        → sums_of (afters shown) ≡ sums_of (afters lines) }
{}
