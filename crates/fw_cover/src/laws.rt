//! What holds of each cover: laws, each the contract of a function that does nothing.
ghost use Rattle.std.specs.Prelude.{◌≡◌, ◌==◌, ◌+◌, ◌<◌, ◌∷◌, ◌++◌, ℕ, [], false, length, map, List, All, Some, slice_index, unsigned_abs};
ghost use Rattle.std.specs.List.{flat_map};
ghost use Rattle.fw_charge.specs.Charge.{Charge};
ghost use Rattle.fw_charge.specs.declared.discount.DiscountKind.TheVariants as kind;
ghost use Rattle.fw_terms.specs.Commitment.{CommitmentValue, kind_of};
ghost use Rattle.fw_cover.specs.Applies.{applied};
ghost use Rattle.fw_cover.specs.Cover.{taken_of_row, used_of};
ghost use Rattle.fw_cover.specs.Hour.{capacities_of, hour_cover, left_of, quantities_of, quantity_of, takes_of, unused_of};
ghost use Rattle.fw_cover.specs.Meeting.{Meets};
ghost use Rattle.fw_cover.specs.Order.{GoesLast, commitments_in_order, pairs_of};
ghost use Rattle.fw_cover.specs.Part.{IsOutOfReach};
ghost use Rattle.fw_cover.specs.RosterView.{HasHour, RosterValue, lists_row};
ghost use Rattle.fw_cover.specs.Untouched.{IsUntouched, place_past, take_past};

/// What the commitments took stands commitment by commitment, in their order.
pub fn takes_stand_by_commitment()
    ensures { (cs : List CommitmentValue) (rows : List Charge) (hour : ℕ)
        → hour_cover cs rows hour ≡ flat_map (λ c. takes_of c.0 (hour_cover cs rows hour))
        (commitments_in_order cs) }
{}

/// What was taken of a row and what is left of it are its quantity, and what was used of a commitment and what is left unused are its capacity:
/// nothing is taken twice.
pub fn takes_stay_within()
    ensures rows { (cs : List CommitmentValue) (rows : List Charge) (hour row : ℕ)
        → taken_of_row row (hour_cover cs rows hour) + left_of rows (hour_cover cs rows hour) row
        ≡ slice_index (quantities_of rows) row }
    ensures commitments { (cs : List CommitmentValue) (rows : List Charge) (hour place : ℕ)
        → used_of place (hour_cover cs rows hour) + unused_of cs (hour_cover cs rows hour) place
        ≡ slice_index (capacities_of cs) place }
{}

/// Whatever was taken is of a row that a commitment applies to: a row of the hour that commitments may cover, in the commitment's term, of a SKU
/// that it lists, and of its sub-account and unit.
pub fn takes_apply()
    ensures { (cs : List CommitmentValue) (rows : List Charge) (hour : ℕ)
        → All (λ t. Meets cs rows hour t.commitment t.row) (hour_cover cs rows hour) }
{}

/// A commitment takes what it can of the rows that it applies to. Where some of the capacity of a commitment to a quantity is unused, nothing is left
/// of any such row. Where some of the capacity of a commitment to a cost is unused and something of such a row is left, what is left is out of
/// reach: it needs none of the capacity, or one nano of the row's quantity costs more, at the rate, than what is unused.
pub fn commitments_take_what_they_can()
    ensures quantity { (cs : List CommitmentValue) (rows : List Charge) (hour place row : ℕ)
        (meets : Meets cs rows hour place row) → kind_of meets.commitment.terms ≡ kind.Usage
        → 0 < unused_of cs (hour_cover cs rows hour) place
        → left_of rows (hour_cover cs rows hour) row ≡ 0 }
    ensures cost { (cs : List CommitmentValue) (rows : List Charge) (hour place row : ℕ)
        (meets : Meets cs rows hour place row) (rate : ℕ)
        → applied meets.commitment hour meets.charge ≡ Some (Some rate)
        → 0 < unused_of cs (hour_cover cs rows hour) place
        → 0 < left_of rows (hour_cover cs rows hour) row
        → IsOutOfReach (unsigned_abs meets.charge.billed) (quantity_of meets.charge) rate
        (left_of rows (hour_cover cs rows hour) row)
        (unused_of cs (hour_cover cs rows hour) place) }
{}

/// What commitments take doesn't depend on those that come after them: with one more that goes after all of a list, the others take what they take
/// without it, and it takes of what they leave.
pub fn a_commitment_that_goes_last_changes_nothing_before_it()
    ensures { (cs : List CommitmentValue) (c : CommitmentValue) (rows : List Charge) (hour : ℕ)
        → GoesLast cs c → hour_cover (cs ++ c ∷ []) rows hour
        ≡ hour_cover cs rows hour ++ takes_of (length cs) (hour_cover (cs ++ c ∷ []) rows hour) }
{}

/// A row that no commitment applies to changes nothing. It is in no pair, and the whole of its quantity is left. What is taken of the other
/// rows, and in which order, what is left of them, and what is unused are the same with it and without it; but the rows after it have the
/// next place.
pub fn untouched_rows_change_nothing()
    ensures pairs { (cs : List CommitmentValue) (before after : List Charge) (row : Charge)
        (hour : ℕ) → IsUntouched cs hour row
        → All (λ p. (p.row == length before) ≡ false) (pairs_of cs (before ++ row ∷ after) hour) }
    ensures whole { (cs : List CommitmentValue) (before after : List Charge) (row : Charge)
        (hour : ℕ) → IsUntouched cs hour row
        → left_of (before ++ row ∷ after) (hour_cover cs (before ++ row ∷ after) hour)
        (length before) ≡ quantity_of row }
    ensures takes { (cs : List CommitmentValue) (before after : List Charge) (row : Charge)
        (hour : ℕ) → IsUntouched cs hour row
        → hour_cover cs (before ++ row ∷ after) hour
        ≡ map (take_past (length before)) (hour_cover cs (before ++ after) hour) }
    ensures left { (cs : List CommitmentValue) (before after : List Charge) (row : Charge)
        (hour : ℕ) → IsUntouched cs hour row → (place : ℕ)
        → left_of (before ++ row ∷ after) (hour_cover cs (before ++ row ∷ after) hour)
        (place_past (length before) place)
        ≡ left_of (before ++ after) (hour_cover cs (before ++ after) hour) place }
    ensures unused { (cs : List CommitmentValue) (before after : List Charge) (row : Charge)
        (hour : ℕ) → IsUntouched cs hour row → (place : ℕ)
        → unused_of cs (hour_cover cs (before ++ row ∷ after) hour) place
        ≡ unused_of cs (hour_cover cs (before ++ after) hour) place }
{}

/// Where no commitment of a roster that runs in one of its hours lists a row's SKU, or the row has none, no commitment of the roster applies to the row
/// in any of the hours.
pub fn unlisted_rows_are_untouched()
    ensures { (r : RosterValue) (row : Charge) (hour : ℕ) → HasHour r hour → lists_row r row ≡ false
        → IsUntouched r.commitments hour row }
{}
