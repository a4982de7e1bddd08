//! What holds of the lines of every hour: laws, each the contract of a function that does nothing.
ghost use Rattle.std.specs.Prelude.{◌≡◌, ◌+◌, ◌<◌, ◌⊎◌, ℕ, ℤ, pos, ◌+ℤ◌, [], false, filter, fold, map, slice_get, sum, true, unsigned_abs, List, All, Some};
ghost use Rattle.std.specs.List.{range_with_len};
ghost use Rattle.fw_charge.specs.Charge.{Charge};
ghost use Rattle.fw_charge.specs.declared.category.Category.TheVariants as category;
ghost use Rattle.fw_charge.specs.declared.discount.DiscountKind.TheVariants as discount;
ghost use Rattle.fw_terms.specs.Commitment.{CommitmentValue, cost_of, kind_of};
ghost use Rattle.fw_cover.specs.Applies.{applied, is_in_term};
ghost use Rattle.fw_cover.specs.Eligible.{is_eligible};
ghost use Rattle.fw_cover.specs.Hour.{hour_cover, left_of, quantity_of, takes_of, unused_of};
ghost use Rattle.fw_cover.specs.Meeting.{Meets};
ghost use Rattle.fw_cover.specs.Part.{IsOutOfReach};
ghost use Rattle.fw_amortise.specs.LineValue.{LineValue};
ghost use Rattle.fw_amortise.specs.Lines.{AreCommitmentLines, AreHourLines, AreLines, amount_in, given_line, rest_line, weights_of};
ghost use Rattle.fw_amortise.specs.Sources.{AreAccounted, is_rest_of, is_unused_by, lines_from};
ghost use Rattle.fw_amortise.specs.Carrying.{IsOnly, carried, cost_of_all, has_id, is_share, is_share_of, names_share_of};
ghost use Rattle.fw_amortise.specs.declared.line.LineKind.TheVariants as kind;

/// At most one list is the lines of an hour, so [`lines`](crate::lines) has one answer.
pub fn lines_are_one()
    ensures { (cs : List CommitmentValue) (rows : List Charge) (hour : ℕ) (xs ys : List LineValue)
        → AreLines cs rows hour xs → AreLines cs rows hour ys → xs ≡ ys }
{}

/// The purchases of commitments have no effective cost.
pub fn purchases_cost_nothing()
    ensures { (cs : List CommitmentValue) (rows : List Charge) (hour : ℕ) (lines : List LineValue)
        → AreLines cs rows hour lines
        → All (λ line. line.kind ≡ kind.Purchase → line.effective ≡ pos 0) lines }
{}

/// The used and unused lines of a commitment carry its amount of the hour, which is nothing in an hour outside its term.
pub fn lines_carry_the_amount()
    ensures { (cs : List CommitmentValue) (rows : List Charge) (hour : ℕ) (lines : List LineValue)
        (c : CommitmentValue) → AreLines cs rows hour lines → IsOnly cs c
        → carried c.id lines ≡ pos (amount_in c hour) }
{}

/// The used and unused lines of a commitment over the hours of its term carry what its purchases cost, to the last nano.
pub fn lines_carry_the_purchases()
    ensures { (cs : List CommitmentValue) (rows : List Charge) (lines : ℕ → List LineValue)
        (c : CommitmentValue) → 0 < c.hours
        → ((k : ℕ) → k < c.hours → AreLines cs rows (c.start + k) (lines k)) → IsOnly cs c
        → fold ◌+ℤ◌ (pos 0) (map (λ k. carried c.id (lines k)) (range_with_len 0 c.hours))
        ≡ pos (cost_of c.purchases) }
{}

/// The used and unused lines of a commitment in an hour of its term are, in order, those of what it took and that of what it left unused, and they share
/// its amount of the hour by largest remainder: in proportion to what each used of its capacity, and to what is unused. These weights sum to the
/// capacity.
pub fn lines_share_the_amount()
    ensures lines { (cs : List CommitmentValue) (rows : List Charge) (hour : ℕ)
        (lines : List LineValue) (place : ℕ) (c : CommitmentValue) → AreHourLines cs rows hour lines
        → IsOnly cs c → slice_get cs place ≡ Some c → is_in_term c hour ≡ true
        → AreCommitmentLines hour c rows (takes_of place (hour_cover cs rows hour))
        (unused_of cs (hour_cover cs rows hour) place) (filter (is_share_of c.id) lines) }
    ensures weights { (cs : List CommitmentValue) (rows : List Charge) (hour place : ℕ)
        (c : CommitmentValue) → slice_get cs place ≡ Some c
        → sum (weights_of (takes_of place (hour_cover cs rows hour))
        (unused_of cs (hour_cover cs rows hour) place)) ≡ c.capacity }
{}

/// No row of an hour is left out, and none is counted twice: a row that no commitment may cover is one line, as it was given; of another row the
/// quantities of its lines, used and rest, sum to its quantity, and what is left of it is one line, with its part of the row's costs. Each purchase
/// of the hour is one line. Each commitment's amount is shared by its lines. And each line comes from one purchase of the hour, one row, or one
/// commitment.
pub fn rows_are_accounted_for()
    ensures { (cs : List CommitmentValue) (rows : List Charge) (hour : ℕ) (lines : List LineValue)
        → AreHourLines cs rows hour lines → AreAccounted cs rows hour lines }
{}

/// No capacity is left unused beside a row that could have used it. Of a commitment to a quantity and a row that it applies to, one has no line of what is
/// left: the commitment no unused line, or the row no rest line. So it is of a commitment to a cost, unless the rest is out of reach: it needs none
/// of the capacity, or one nano of the row's quantity costs more, at the rate, than what is unused.
pub fn no_rest_stands_beside_unused_capacity()
    ensures quantity { (cs : List CommitmentValue) (rows : List Charge) (hour : ℕ)
        (lines : List LineValue) (account : AreAccounted cs rows hour lines) (place row : ℕ)
        (meets : Meets cs rows hour place row) → kind_of meets.commitment.terms ≡ discount.Usage
        → (lines_from (is_unused_by place) account.sourced ≡ [])
        ⊎ (lines_from (is_rest_of row) account.sourced ≡ []) }
    ensures cost { (cs : List CommitmentValue) (rows : List Charge) (hour : ℕ)
        (lines : List LineValue) (account : AreAccounted cs rows hour lines) (place row : ℕ)
        (meets : Meets cs rows hour place row) (rate : ℕ)
        → applied meets.commitment hour meets.charge ≡ Some (Some rate)
        → (lines_from (is_unused_by place) account.sourced ≡ [])
        ⊎ ((lines_from (is_rest_of row) account.sourced ≡ [])
        ⊎ IsOutOfReach (unsigned_abs meets.charge.billed) (quantity_of meets.charge) rate
        (left_of rows (hour_cover cs rows hour) row)
        (unused_of cs (hour_cover cs rows hour) place)) }
{}

/// A row is billed for what is left of it: the lines of what commitments took, and of what they left unused, are billed nothing, since their purchases
/// are. Where nothing was taken of a row, its rest line has the row's own costs and quantity.
pub fn rows_are_billed_for_what_is_left()
    ensures shares { (cs : List CommitmentValue) (rows : List Charge) (hour : ℕ)
        (lines : List LineValue) → AreLines cs rows hour lines
        → All (λ line. is_share line.kind ≡ true → line.billed ≡ pos 0) lines }
    ensures whole { (hour : ℕ) (row : Charge) → is_eligible row ≡ true
        → rest_line hour row (quantity_of row) ≡ record (given_line hour row) { kind = kind.Rest } }
{}

/// Where no row carries a commitment's id, what the commitment's lines are can be read off their text: those that name it and a status carry its
/// amounts, and those that name it under the category of purchases have no effective cost.
pub fn lines_are_known_by_their_text()
    ensures shares { (id : List ℕ) (cs : List CommitmentValue) (rows : List Charge) (hour : ℕ)
        (lines : List LineValue) → All (λ row. has_id id row.discount ≡ false) rows
        → AreLines cs rows hour lines
        → cost_of_all (filter (names_share_of id) lines) ≡ carried id lines }
    ensures purchases { (id : List ℕ) (cs : List CommitmentValue) (rows : List Charge) (hour : ℕ)
        (lines : List LineValue) → All (λ row. has_id id row.discount ≡ false) rows
        → AreLines cs rows hour lines
        → All (λ line. line.category ≡ category.Purchase → has_id id line.commitment ≡ true
        → line.effective ≡ pos 0) lines }
{}
