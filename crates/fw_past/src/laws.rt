//! What holds of a warehouse as it was: a law, the contract of a function that does nothing.
ghost use Rattle.std.specs.Prelude.{◌≡◌, ◌≤◌, ℕ, List, length};
ghost use Rattle.fw_entry.specs.Entry.{EntryValue};
ghost use Rattle.fw_past.specs.Past.{as_of};
ghost use Rattle.fw_snapshot.specs.History.{History};
ghost use Rattle.fw_snapshot.specs.Judging.{IsLegal};
ghost use Rattle.fw_snapshot.specs.Verdicts.{with_more};

/// Whatever is accepted later, a warehouse as it was after its first entries stays the same (`stays`). After as many entries as there
/// are it is the warehouse itself (`now`), and so the warehouse as it was when it had `count` entries is the one that `--as-of count` makes again
/// (`then`). Its entries were accepted one after the other (`legal`).
pub fn the_past_stays()
    ensures stays { (count : ℕ) (h : History) (later : List EntryValue) → count ≤ length h.entries
        → as_of count (with_more h later) ≡ as_of count h }
    ensures now { (h : History) → as_of (length h.entries) h ≡ h }
    ensures then { (h : History) (later : List EntryValue)
        → as_of (length h.entries) (with_more h later) ≡ h }
    ensures legal { (count : ℕ) (h : History) → IsLegal h.entries
        → IsLegal (as_of count h).entries }
{}
