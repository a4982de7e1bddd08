//! What holds of all spellings: two laws, each the contract of a function that does nothing.
ghost use Rattle.std.specs.Prelude.{◌≡◌, ℕ, List};
ghost use Rattle.fw_charge.specs.Charge.{Charge};
ghost use Rattle.fw_entry.specs.Entry.{EntryValue};
ghost use Rattle.fw_entry.specs.Spelling.{entry, IsEntry};
ghost use Rattle.fw_snapshot.specs.History.{History};
ghost use Rattle.fw_segment.specs.Groups.{group, IsGroup};
ghost use Rattle.fw_segment.specs.Segments.{segment, IsSegment};
ghost use Rattle.fw_segment.specs.States.{Spells};
ghost use Rattle.fw_segment.specs.declared.layout.SegmentLayout.{SegmentLayout};

/// Bytes spell one entry, one group and one segment at most, in whichever layout.
pub fn spellings_are_one()
    ensures entries { (a b : EntryValue) → IsEntry a → IsEntry b → entry a ≡ entry b → a ≡ b }
    ensures groups { (a b : List EntryValue) → IsGroup a → IsGroup b → group a ≡ group b → a ≡ b }
    ensures segments { (j k : SegmentLayout) (a b : List Charge) → IsSegment a → IsSegment b
        → segment j a ≡ segment k b → a ≡ b }
{}

/// Bytes spell one state at most, however its rows are cut and laid out.
pub fn states_are_one()
    ensures { (bytes : List ℕ) (a b : History) → Spells bytes a → Spells bytes b → a ≡ b }
{}
