//! What holds of all posts and parts: laws, each the contract of a function that does nothing.
ghost use Rattle.std.specs.Prelude.{◌≡◌, ◌++◌, All, Bool, Contains, List, ℕ, filter, length, map, not};
ghost use Rattle.std.specs.List.{flat_map};
ghost use Rattle.std.specs.List.Sorted.{IsPermutation};
ghost use Rattle.fw_charge.specs.Charge.{Charge};
ghost use Rattle.fw_entry.specs.Entry.{EntryValue};
ghost use Rattle.fw_entry.specs.Entry.CommandValue.{post};
ghost use Rattle.fw_posted.specs.Marks.{selected};
ghost use Rattle.fw_posted.specs.Rows.{segment_rows};
ghost use Rattle.fw_snapshot.specs.History.{rows_posted};
ghost use Rattle.fw_snapshot.specs.Judging.{IsLegal};
ghost use Rattle.fw_replace.specs.Matching.{AreMatched, AreStaying, NoneHas};
ghost use Rattle.fw_replace.specs.Own.{HasNumbered};
ghost use Rattle.fw_replace.specs.Posts.{own_rows, posts_of, rows_at};
ghost use Rattle.fw_replace.specs.Replacing.{Ask, postings, withdrawals};
ghost use Rattle.fw_replace.specs.declared.posts.Post.{Post};

/// The posts of an origin that count have, in order, the rows of the origin that count.
pub fn posts_have_the_rows_that_count()
    ensures { (origin : List ℕ) (entries : List EntryValue)
        → flat_map (rows_at (rows_posted entries)) (posts_of origin entries)
        ≡ own_rows origin entries }
{}

/// Where a post of an origin has the number and the rows of a part, one of the entries is the part as the post of the origin under this number.
pub fn own_posts_are_entries()
    ensures { (origin : List ℕ) (entries : List EntryValue) (number : ℕ) (part : List Charge)
        → HasNumbered (rows_posted entries) number part (posts_of origin entries)
        → Contains entries (record { origin = origin; seq = number; command = post part }) }
{}

/// The posts that aren't left stay, and have the rows of the parts that are there; none that is left has the rows of another part. So the rows of
/// all posts are those of the parts that are there and of the posts that are left, in some order: once these posts are withdrawn and the other
/// parts are posted, the rows are those of all parts.
pub fn matching_keeps_rows()
    ensures one_each { (rows : List Charge) (posts left : List Post)
        (parts : List (List Charge)) (is_there : List Bool)
        → AreMatched rows posts parts is_there left → length is_there ≡ length parts }
    ensures stay { (rows : List Charge) (posts left : List Post)
        (parts : List (List Charge)) (is_there : List Bool)
        → AreMatched rows posts parts is_there left → AreStaying rows posts left parts is_there }
    ensures others { (rows : List Charge) (posts left : List Post)
        (parts : List (List Charge)) (is_there : List Bool)
        → AreMatched rows posts parts is_there left
        → All (λ part. NoneHas rows part left) (selected (map not is_there) parts) }
    ensures rows { (rows : List Charge) (posts left : List Post)
        (parts : List (List Charge)) (is_there : List Bool)
        → AreMatched rows posts parts is_there left
        → IsPermutation (flat_map (rows_at rows) posts)
        (segment_rows (selected is_there parts) ++ flat_map (rows_at rows) left) }
{}

/// Where an origin replaces posts, its rows become those of the parts, and those of its posts that it didn't choose to replace, in some order. It
/// chooses among its posts that count, by any test, and matches these with the parts. Then it sends the withdrawals of the posts that are left,
/// and the other parts as posts, and each of these entries is accepted.
pub fn replacing_leaves_the_parts()
    ensures { (origin : List ℕ) (entries gone new : List EntryValue) (chosen : Post → Bool)
        (left : List Post) (parts : List (List Charge)) (is_there : List Bool)
        → AreMatched (rows_posted entries) (filter chosen (posts_of origin entries))
        parts is_there left
        → Ask origin gone (withdrawals left)
        → Ask origin new (postings (selected (map not is_there) parts))
        → IsLegal (entries ++ gone ++ new)
        → IsPermutation (own_rows origin (entries ++ gone ++ new))
        (segment_rows parts
        ++ flat_map (rows_at (rows_posted entries))
        (filter (λ p. not (chosen p)) (posts_of origin entries))) }
{}
