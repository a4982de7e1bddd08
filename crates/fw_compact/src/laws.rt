//! What holds of all compacted lists: laws, each the contract of a function that does nothing.
ghost use Rattle.std.specs.Prelude.{◌≡◌, ◌+◌, ℕ, All, List, Some, map, slice_get, take};
ghost use Rattle.fw_entry.specs.Entry.{EntryValue};
ghost use Rattle.fw_entry.specs.Spelling.{IsEntry};
ghost use Rattle.fw_snapshot.specs.History.{rows_of, commitments_of, policy_of, entries_from};
ghost use Rattle.fw_snapshot.specs.Judging.{IsLegal};
ghost use Rattle.fw_compact.specs.Compacted.{IsOneOf, compacted, kept, with_number};

/// What counts stays the same: the rows that count, in their order, the commitments, each with all its purchases, and the policy that
/// holds. So does each report, the text of its lines and the coverage, which are stated over these three alone.
pub fn what_counts_stays_the_same()
    ensures rows { (entries : List EntryValue) → rows_of (compacted entries) ≡ rows_of entries }
    ensures commitments { (entries : List EntryValue)
        → commitments_of (compacted entries) ≡ commitments_of entries }
    ensures policy { (entries : List EntryValue)
        → policy_of (compacted entries) ≡ policy_of entries }
{}

/// But for their numbers, the entries are those that count, in order (`entries`). Each has one more than there are entries of its origin
/// before it: those of each origin have 1, 2, 3 .. (`numbers`). Of entries that were accepted one after the other, none gets a greater
/// number than it had (`no_greater`).
pub fn counting_entries_are_numbered_in_turn()
    ensures entries { (entries : List EntryValue)
        → map (with_number 0) (compacted entries) ≡ map (with_number 0) (kept entries) }
    ensures numbers { (entries : List EntryValue) (place : ℕ) (e : EntryValue)
        → slice_get (compacted entries) place ≡ Some e
        → e.seq ≡ entries_from e.origin (take place (compacted entries)) + 1 }
    ensures no_greater { (entries : List EntryValue)
        → IsLegal entries → All (IsOneOf entries) (compacted entries) }
{}

/// What was compacted is accepted again: of entries that were accepted one after the other, those that count are accepted so under their
/// new numbers (`legal`). Where the old ones keep the limits of an entry, so do these (`each`). So a warehouse can be made of them.
pub fn a_compacted_list_is_accepted()
    ensures legal { (entries : List EntryValue) → IsLegal entries → IsLegal (compacted entries) }
    ensures each { (entries : List EntryValue)
        → IsLegal entries → All IsEntry entries → All IsEntry (compacted entries) }
{}
