//! What holds of all marks and segments: laws, each the contract of a function that does nothing.
ghost use Rattle.std.specs.Prelude.{◌≡◌, ◌≤◌, ◌++◌, [], Bool, List, length, replicate, false, true};
ghost use Rattle.fw_charge.specs.Charge.{Charge};
ghost use Rattle.fw_posted.specs.Marks.{selected};
ghost use Rattle.fw_posted.specs.Merging.{merged};
ghost use Rattle.fw_posted.specs.Rows.{segment_rows};

/// The rows that count are those that count of a first part of the rows, and then those of the others. Where all rows count, they are the rows,
/// and where none does, there are none.
pub fn selection_is_by_part()
    ensures parts { (first second : List Bool) (rows others : List Charge)
        → length first ≡ length rows
        → selected (first ++ second) (rows ++ others)
        ≡ selected first rows ++ selected second others }
    ensures all { (rows : List Charge) → selected (replicate (length rows) true) rows ≡ rows }
    ensures none { (rows : List Charge) → selected (replicate (length rows) false) rows ≡ [] }
{}

/// Segments that are joined have the same rows, and there are no more of them than before.
pub fn merging_keeps_rows()
    ensures rows { (segments : List (List Charge))
        → segment_rows (merged segments) ≡ segment_rows segments }
    ensures count { (segments : List (List Charge)) → length (merged segments) ≤ length segments }
{}
