//! What holds of the lines at the rows' own prices: laws, each the contract of a function that does nothing.
ghost use Rattle.std.specs.Prelude.{◌≡◌, ◌≤◌, ◌+ℤ◌, ◌-ℤ◌, ◌≤ℤ◌, ℕ, false, true, List, [], Some, filter, if◌then◌else◌, pos, slice_get, sum_by};
ghost use Rattle.std.specs.List.{AllZip, flat_map, list_any};
ghost use Rattle.std.specs.Str.{bytes_eq};
ghost use Rattle.fw_amortise.specs.Carrying.{cost_of_all};
ghost use Rattle.fw_amortise.specs.LineValue.{LineValue};
ghost use Rattle.fw_amortise.specs.Lines.{AreLines, rest_lines, rows_in};
ghost use Rattle.fw_charge.specs.Charge.{Charge};
ghost use Rattle.fw_cover.specs.Cover.{used_of};
ghost use Rattle.fw_cover.specs.Hour.{hour_cover, quantity_of};
ghost use Rattle.fw_finops.specs.Costs.{coverable_in, covered_in, is_amortised, uncovered_in, whole_lines};
ghost use Rattle.fw_finops.specs.Lines.{counts, covered_lines, is_beside, most_of, price_lines};
ghost use Rattle.fw_finops.specs.Listed.{AreAmountLines, AreAmounts, AreListed, ArePrices, billed_of_all};
ghost use Rattle.fw_finops.specs.Usable.{usable, usable_of};
ghost use Rattle.fw_terms.specs.Commitment.{CommitmentValue};

/// What commitments took of the rows of an hour, at the rows' own prices, and what is left of the rows that commitments may cover, cost together what
/// these rows do, to the last nano.
pub fn covered_and_uncovered_cost_what_the_rows_do()
    ensures { (cs : List CommitmentValue) (rows : List Charge) (hour : ℕ)
        → cost_of_all (covered_lines cs rows hour)
        +ℤ cost_of_all (rest_lines rows (hour_cover cs rows hour) hour)
        ≡ cost_of_all (whole_lines rows hour) }
{}

/// The parts of coverage, in any hours: what commitments took of the rows, at the rows' own prices, and what is left of the rows that they could have
/// taken, cost together what these rows do, to the last nano.
pub fn covered_and_uncovered_cost_what_is_eligible()
    ensures { (cs : List CommitmentValue) (rows : List Charge) (hours : List ℕ)
        → cost_of_all (covered_in cs rows hours) +ℤ cost_of_all (uncovered_in cs rows hours)
        ≡ cost_of_all (coverable_in cs rows hours) }
{}

/// Savings, in any hours: what commitments took of the rows, at the rows' own prices, less what the commitments cost, used and unused, is what the
/// lines of these hours would cost without commitments, less what they do, to the last nano.
pub fn savings_are_what_lines_cost_less()
    ensures { (cs : List CommitmentValue) (rows : List Charge) (hours : List ℕ)
        (lines plain : List (List LineValue)) → AllZip (AreLines cs rows) hours lines
        → AllZip (AreLines [] rows) hours plain
        → cost_of_all (covered_in cs rows hours)
        -ℤ cost_of_all (filter is_amortised (flat_map (λ of. of) lines))
        ≡ cost_of_all (flat_map (λ of. of) plain) -ℤ cost_of_all (flat_map (λ of. of) lines) }
{}

/// The lines of rows that providers' commitments cover, at their prices by a tag, cost together what these prices do, to the last nano, and count the
/// prices that are missing.
pub fn listed_lines_cost_what_their_prices_do()
    ensures { (tag : List ℕ) (hour : ℕ) (rows : List Charge) (lines : List LineValue)
        → AreListed tag hour rows lines → ArePrices tag rows lines }
{}

/// Rows have one list of such lines at most.
pub fn listed_lines_are_one()
    ensures { (tag : List ℕ) (hour : ℕ) (rows : List Charge) (xs ys : List LineValue)
        → AreListed tag hour rows xs → AreListed tag hour rows ys → xs ≡ ys }
{}

/// The lines of rows at their amounts in a tag cost together what these amounts do, to the last nano, and count the amounts that are missing.
pub fn lines_at_amounts_cost_what_their_amounts_do()
    ensures { (tag : List ℕ) (hour : ℕ) (rows : List Charge) (lines : List LineValue)
        → AreAmountLines tag rows hour lines → AreAmounts tag rows lines }
{}

/// Rows have one list of such lines at most.
pub fn lines_at_amounts_are_one()
    ensures { (tag : List ℕ) (hour : ℕ) (rows : List Charge) (xs ys : List LineValue)
        → AreAmountLines tag rows hour xs → AreAmountLines tag rows hour ys → xs ≡ ys }
{}

/// The lines beside a commitment say together, as BilledCost, what the rows of an hour could have used of it: of the commitments with an id, of which
/// a warehouse has one.
pub fn lines_beside_a_commitment_say_what_rows_could_have_used()
    ensures { (cs : List CommitmentValue) (rows : List Charge) (hour : ℕ) (id : List ℕ)
        → billed_of_all (filter (is_beside id) (price_lines cs rows hour))
        ≡ pos (sum_by (usable_of hour rows) (filter (λ c. bytes_eq c.id id) cs)) }
{}

/// However many commitments to a quantity apply to a row, the line of the row in its unit says its quantity, as BilledCost, once; and of those that
/// count its cost, none could have had more of it than the line of the row in the currency says.
pub fn a_row_counts_once_in_a_unit()
    ensures quantity { (cs : List CommitmentValue) (row : Charge) (hour : ℕ)
        → billed_of_all (most_of hour row (filter (counts hour row false) cs))
        ≡ pos (if list_any (counts hour row false) cs then quantity_of row else 0) }
    ensures cost { (cs : List CommitmentValue) (row : Charge) (hour place : ℕ)
        (c : CommitmentValue) → slice_get cs place ≡ Some c → counts hour row true c ≡ true
        → pos (usable hour row c)
        ≤ℤ billed_of_all (most_of hour row (filter (counts hour row true) cs)) }
{}

/// What rows use of a commitment they could have used, in an hour and in any hours.
pub fn what_rows_use_they_could_have_used()
    ensures hour { (cs : List CommitmentValue) (rows : List Charge) (hour place : ℕ)
        (c : CommitmentValue) → slice_get cs place ≡ Some c
        → used_of place (hour_cover cs rows hour) ≤ usable_of hour rows c }
    ensures hours { (cs : List CommitmentValue) (rows : List Charge) (place : ℕ)
        (c : CommitmentValue) (hours : List ℕ) → slice_get cs place ≡ Some c
        → sum_by (λ h. used_of place (hour_cover cs (rows_in h rows) h)) hours
        ≤ sum_by (λ h. usable_of h (rows_in h rows) c) hours }
{}
