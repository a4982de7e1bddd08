//! How often each text was counted.
ghost use Rattle.std.specs.Prelude.{◌≡◌, ◌+◌, ◌<◌, ℕ, List, [], IfOk, MatchOption, string_bytes, if◌then◌else◌};
ghost use Rattle.std.specs.Str.{bytes_eq};
ghost use Rattle.fw_persistent.specs.Counts.{count_of, counted_once_more};

use crate::branches::Branch;
use std::alloc::{AllocError, Global};
use std::marker::Model;
use std::sync::Arc;

/// How often each text was counted. Counters are never changed: to count a text makes others, which share what stays.
/// The time of `count`, `key` and `raised` grows with the logarithm of the number of texts, and so does the memory that
/// `raised` takes.
pub struct Counters {
    root: Branch<u64>,
}

impl Drop for Counters {
    fn drop(self) {
        let Self { root: _ } = self;
    }
}

impl Model for Counters {
    ghost use Rattle.fw_persistent.specs.Counts.{Counts};

    ghost Value = { Counts };

    ghost use Rattle.fw_persistent.specs.CountersView.{counters_counts, KeepsCounters};

    ghost view = { counters_counts };

    ghost invariant = { KeepsCounters };
}

impl Counters {
    /// The counters of no text. They take no memory.
    pub fn new() -> Counters
        ensures { result ≡ [] }
    {
        Counters {
            root: Branch::Empty,
        }
    }

    /// How often a text was counted, 0 where it wasn't.
    pub fn count(&self, text: &str) -> u64
        ensures { result ≡ count_of text.now self.now }
    {
        match self.root.entry(text) {
            None => 0,
            Some(entry) => entry.value,
        }
    }

    /// The stored text that equals a text, for callers to share: there is one exactly where the text was counted.
    #[tactic(auto, using(crate::proofs::Middle::found_counted))]
    pub fn key(&self, text: &str) -> Option<&Arc<String>>
        ensures { MatchOption result (count_of text.now self.now ≡ 0)
            (λ key. (string_bytes key.now.value ≡ text.now) × (0 < count_of text.now self.now)) }
    {
        match self.root.entry(text) {
            None => None,
            Some(entry) => Some(&entry.text),
        }
    }

    /// The counters with a text counted once more. The text is shared, unless an equal one is there, which then stays.
    /// The error comes where memory ran out, where what is shared has as many owners as can be counted, and where the
    /// text was counted `u64::MAX` times. The old counters stay as they were in any case.
    #[tactic(auto, using(crate::proofs::Middle::count_raised, crate::proofs::Middle::rising_with, crate::proofs::Middle::counted_raised))]
    pub fn raised(&self, alloc: Global, text: &Arc<String>) -> Result<Counters, AllocError>
        ensures exact { IfOk result (λ counters. counters
            ≡ counted_once_more (string_bytes text.now.value) self.now) }
        ensures counts { IfOk result (λ counters. (other : List ℕ)
            → count_of other counters ≡ count_of other self.now
            + (if bytes_eq other (string_bytes text.now.value) then 1 else 0)) }
    {
        let Some(count) = self.count(text.as_str()).checked_add(1) else {
            return Err(AllocError);
        };
        Ok(Counters {
            root: self.root.put(alloc, text, count)?,
        })
    }

    /// The same counters, which share all texts. It takes no memory.
    /// The error comes only where the texts have as many owners as can be counted.
    pub fn copy(&self) -> Result<Counters, AllocError>
        ensures { IfOk result (λ counters. counters ≡ self.now) }
    {
        Ok(Counters {
            root: self.root.copy()?,
        })
    }
}
