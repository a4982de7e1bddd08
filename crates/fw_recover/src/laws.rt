//! What holds of all images: laws, each the contract of a function that does nothing.
ghost use Rattle.std.specs.Prelude.{◌≡◌, ◌⊎◌, ◌^◌, ◌<◌, ◌++◌, ◌∷◌, [], ℕ, List, length, take, drop, get_or, map};
ghost use Rattle.fw_disk.specs.declared.volume.Side.{Side};
ghost use Rattle.fw_disk.specs.declared.volume.Side.TheVariants.{Left, Right};
ghost use Rattle.fw_disk.specs.Volume.{Image, LeavesOnly, Settled, other};
ghost use Rattle.fw_entry.specs.Entry.{EntryValue};
ghost use Rattle.fw_entry_bytes.specs.declared.form.Form.{Form};
ghost use Rattle.fw_journal.specs.Frames.{Tells};
ghost use Rattle.fw_entry_bytes.specs.Forms.{IsOfForm};
ghost use Rattle.fw_segment.specs.Groups.{group, IsGroupOf};
ghost use Rattle.fw_segment.specs.States.{Spells};
ghost use Rattle.fw_snapshot.specs.History.{History};
ghost use Rattle.fw_snapshot.specs.Judging.{IsLegalAfter};
ghost use Rattle.fw_recover.specs.Sides.{made_of, generation_of, log_start_of};
ghost use Rattle.fw_recover.specs.Stands.{StandsFor, StandsForNone, StandsForEither, EachStandsFor};
ghost use Rattle.fw_recover.specs.Corrupt.{CorruptAt, HasMeaning, IsRecovered};
ghost use Rattle.fw_recover.specs.Making.{Making};

use fw_disk::Volume;

/// Two files have one meaning: they stand for one warehouse, or for none, or are corrupt at one place, and never two of
/// these. Two files of bytes always have it. So whoever opens them can answer one thing alone, however the files are read;
/// and where a side is open and no store could have left the files, that is `Corrupt` with the place of the first fault.
pub fn images_have_one_meaning()
    ensures one { (c : Image) (a b : History) → StandsFor a c → StandsFor b c → a ≡ b }
    ensures not_none { (c : Image) (h : History) → StandsFor h c → StandsForNone c → ⊥ }
    ensures not_corrupt { (c : Image) (h : History) (side : Side) (at : ℕ) → StandsFor h c
        → CorruptAt c side at → ⊥ }
    ensures one_place { (c : Image) (s t : Side) (p q : ℕ) → CorruptAt c s p → CorruptAt c t q
        → (s ≡ t) × (p ≡ q) }
    ensures corrupt_is_some { (c : Image) (side : Side) (at : ℕ) → CorruptAt c side at
        → StandsForNone c → ⊥ }
    ensures some { (c : Image) → ((side : Side) (i : ℕ) → get_or (c side) i 0 < 256)
        → HasMeaning c }
{}

/// Where nothing is pending, whatever a crash leaves stands for the warehouse that a reader finds.
pub fn what_is_settled_stands_as_read<V: Volume>(volume: &V)
    ensures { (h : History) → StandsFor h (V.view volume.now).seen
        → ((side : Side) → Settled side (V.view volume.now)) → EachStandsFor h (V.view volume.now) }
{}

/// While a side is made where no warehouse stands, each image stands for none, or for the new one.
pub fn a_first_side_adds_a_warehouse_or_nothing()
    ensures { (h : History) (old : Image) → StandsForNone old → (form : Form) (body : List ℕ)
        → length body < 2 ^ 64 → Spells body h → IsOfForm form h.entries
        → (c : Image) → c Right ≡ old Right → Making (made_of form 1 body ++ 0 ∷ []) (old Left)
        (c Left) → StandsForNone c ⊎ StandsFor h c }
{}

/// While the side that isn't in use is made anew of the same warehouse, with a greater generation and a closed gate behind
/// the body, each image stands for that warehouse: by the side in use until the other one is open, and then by the other.
pub fn making_a_side_keeps_the_warehouse()
    ensures { (h : History) (old : Image) (standing : StandsFor h old) (form : Form)
        (generation : ℕ) (body : List ℕ)
        → generation_of (old standing.side) < generation → generation < 2 ^ 64
        → length body < 2 ^ 64 → Spells body h → IsOfForm form h.entries
        → (c : Image) → c standing.side ≡ old standing.side
        → Making (made_of form generation body ++ 0 ∷ []) (old (other standing.side))
        (c (other standing.side)) → StandsFor h c }
{}

/// While a group is appended to the log of the side in use, each image stands for the warehouse as it was, or for it with
/// all entries of the group, which the form of the side has: whatever else is behind the first gate of the log, and as long as all before it and the other
/// side are as they were.
pub fn an_append_adds_a_group_or_nothing()
    ensures { (h : History) (old : Image) (standing : StandsFor h old) (more : List EntryValue)
        → IsGroupOf standing.tells.form more → IsLegalAfter h.entries more
        → (c : Image) → c (other standing.side) ≡ old (other standing.side)
        → take (log_start_of (old standing.side)) (c standing.side)
        ≡ take (log_start_of (old standing.side)) (old standing.side)
        → Tells (map group standing.tells.groups)
        (drop (log_start_of (old standing.side)) (c standing.side))
        ⊎ Tells (map group (standing.tells.groups ++ more ∷ []))
        (drop (log_start_of (old standing.side)) (c standing.side))
        → StandsForEither h more c }
{}

/// Where each image since some moment stands for a warehouse, or for it with all of some entries, an image that a crash
/// leaves at any moment since is recovered as one of these two, and is neither empty nor corrupt.
pub fn each_moment_is_recovered<V: Volume>(before: &V, after: &V)
    ensures { (h : History) (more : List EntryValue)
        → LeavesOnly (V.view before.now) (V.view after.now) (StandsForEither h more)
        → (c : Image) → (V.view after.now).left_since (V.view before.now).moment c
        → IsRecovered h more c }
{}
