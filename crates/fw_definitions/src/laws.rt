//! Laws, each the contract of a function that does nothing.
ghost use Rattle.std.specs.Prelude.{◌≡◌, ◌++◌, Err, List, Ok, ℕ};
ghost use Rattle.std.specs.List.{enumerate_from, filter_map};
ghost use Rattle.fw_charge.specs.Charge.{Charge};
ghost use Rattle.fw_column_bytes.specs.Kept.{AreRows};
ghost use Rattle.fw_column_bytes.specs.Reading.{columns_at};
ghost use Rattle.fw_column_bytes.specs.Spelling.{columns};
ghost use Rattle.fw_cover.specs.Order.{commitment_before, commitments_in_order, has_lower_rate, pair_for, pairs_of_commitment};
ghost use Rattle.fw_entry.specs.Entry.{EntryValue};
ghost use Rattle.fw_posted.specs.Merging.{merged};
ghost use Rattle.fw_segment.specs.States.{replayed};
ghost use Rattle.fw_snapshot.specs.Heads.{HeadValue, entries_of};
ghost use Rattle.fw_terms.specs.Commitment.{CommitmentValue};
ghost use Rattle.fw_definitions.specs.Joining.{AreJoined};
ghost use Rattle.fw_definitions.specs.Orders.{AreBytes, IsOrdered};
ghost use Rattle.fw_definitions.specs.Replaying.{EachGoesBehind, HasBadHead};

/// Commitments in their order, and the pairs of a commitment and its rows in theirs, are the same
/// ones: none goes before an earlier one, and those that tie stand as they stood (`commitments`,
/// `pairs`). One list alone is so (`one_list`, `one_list_of_pairs`).
pub fn an_order_is_sorted_and_stable()
    ensures commitments { (cs : List CommitmentValue)
        → IsOrdered commitment_before (enumerate_from 0 cs) (commitments_in_order cs) }
    ensures pairs { (hour : ℕ) (rows : List Charge) (c : ℕ × CommitmentValue)
        → IsOrdered has_lower_rate (filter_map (pair_for hour c) (enumerate_from 0 rows))
        (pairs_of_commitment hour rows c) }
    ensures one_list { (cs : List CommitmentValue) (found : List (ℕ × CommitmentValue))
        → IsOrdered commitment_before (enumerate_from 0 cs) found
        → found ≡ commitments_in_order cs }
    ensures one_list_of_pairs { (hour : ℕ) (rows : List Charge) (c : ℕ × CommitmentValue)
        (found : List _)
        → IsOrdered has_lower_rate (filter_map (pair_for hour c) (enumerate_from 0 rows)) found
        → found ≡ pairs_of_commitment hour rows c }
{}

/// Segments that are joined are cut into runs of neighbours, each of which becomes one: it fits,
/// and the next segment doesn't fit behind it.
pub fn segments_are_joined_as_far_as_they_fit()
    ensures { (segments : List (List Charge)) → AreJoined segments (merged segments) }
{}

/// Heads that are read with their rows are the entries that they say, each of which goes behind
/// those before it (`read`). Where they can't be read there is a first one whose entry doesn't, and
/// the fault is at it (`fault`).
pub fn heads_are_read_up_to_the_first_bad_one()
    ensures read { (left : ℕ) (first : List EntryValue) (heads : List HeadValue)
        (rows : List Charge) (es : List EntryValue) → replayed left first heads rows ≡ Ok es
        → (es ≡ first ++ entries_of heads rows) × EachGoesBehind first (entries_of heads rows) }
    ensures fault { (left : ℕ) (first : List EntryValue) (heads : List HeadValue)
        (rows : List Charge) (at : ℕ) → replayed left first heads rows ≡ Err at
        → HasBadHead left first heads rows at }
{}

/// What is read of rows by column is spelled so (`read`), and whatever rows are spelled so are read
/// (`spelled`).
pub fn columns_read_as_they_are_spelled()
    ensures read { (bytes : List ℕ) (rows : List Charge) (rest : List ℕ) → AreBytes bytes
        → columns_at bytes ≡ Ok (rows, rest) → (bytes ≡ columns rows ++ rest) × AreRows rows }
    ensures spelled { (rows : List Charge) (rest : List ℕ) → AreRows rows
        → columns_at (columns rows ++ rest) ≡ Ok (rows, rest) }
{}
