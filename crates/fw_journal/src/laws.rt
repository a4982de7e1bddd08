//! What holds of the bytes of every log.
ghost use Rattle.std.specs.Prelude.{◌≡◌, ℕ, List, drop};
ghost use Rattle.fw_journal.specs.Frames.{Tells, BreaksAt};

/// A file is read in one way: from a gate on it has at most one list of payloads, its frames break at one place at
/// most, and never both. So an answer of `replay` or `Log::open` is the only one that its clauses allow.
pub fn one_reading()
    ensures one_list { (bytes : List ℕ) (first second : List (List ℕ)) → Tells first bytes
        → Tells second bytes → first ≡ second }
    ensures one_place { (file : List ℕ) (start first second : ℕ) → BreaksAt start first file
        → BreaksAt start second file → first ≡ second }
    ensures not_both { (file : List ℕ) (start at : ℕ) (payloads : List (List ℕ))
        → Tells payloads (drop start file) → BreaksAt start at file → ⊥ }
{}
