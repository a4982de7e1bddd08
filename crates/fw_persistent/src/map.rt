//! Values at texts.
ghost use Rattle.std.specs.Prelude.{◌≡◌, ℕ, List, [], Some, None, IfOk, IsSome, MatchOption, string_bytes, if◌then◌else◌};
ghost use Rattle.std.specs.Str.{bytes_eq};
ghost use Rattle.fw_persistent.specs.Values.{value_at, with_value};

use crate::branches::Branch;
use crate::share::Share;
use std::alloc::{AllocError, Global};
use std::marker::Model;
use std::sync::Arc;

/// Values at texts, one at each text that is there. A map is never changed: to put a value makes another, which shares
/// what stays. The time of `get`, `key` and `put` grows with the logarithm of the number of texts, and so does the memory
/// that `put` takes.
pub struct Map<V> {
    root: Branch<V>,
}

impl<V: Drop> Drop for Map<V> {
    fn drop(self) {
        let Self { root: _ } = self;
    }
}

impl<V> Model for Map<V> {
    ghost use Rattle.fw_persistent.specs.Values.{Values};

    ghost Value = { Values V };

    ghost use Rattle.fw_persistent.specs.MapView.{map_values, KeepsMap};

    ghost view = { map_values };

    ghost invariant = { KeepsMap };
}

impl<V> Map<V> {
    /// The map of no text. It takes no memory.
    pub fn new() -> Map<V>
        ensures { result ≡ [] }
    {
        Map {
            root: Branch::Empty,
        }
    }

    /// The value at a text, if there is one.
    pub fn get(&self, text: &str) -> Option<&V>
        ensures { MatchOption result (value_at text.now self.now ≡ None)
            (λ value. value_at text.now self.now ≡ Some value.now) }
    {
        match self.root.entry(text) {
            None => None,
            Some(entry) => Some(&entry.value),
        }
    }

    /// The stored text that equals a text, for callers to share: there is one exactly where the text has a value.
    pub fn key(&self, text: &str) -> Option<&Arc<String>>
        ensures { MatchOption result (value_at text.now self.now ≡ None)
            (λ key. (string_bytes key.now.value ≡ text.now) × IsSome (value_at text.now self.now)) }
    {
        match self.root.entry(text) {
            None => None,
            Some(entry) => Some(&entry.text),
        }
    }
}

impl<V: Drop> Map<V> {
    /// The same map, which shares all texts and values. It takes no memory.
    /// The error comes only where they have as many owners as can be counted.
    pub fn copy(&self) -> Result<Map<V>, AllocError>
        ensures { IfOk result (λ map. map ≡ self.now) }
    {
        Ok(Map {
            root: self.root.copy()?,
        })
    }
}

impl<V: Share> Map<V> {
    /// The map with this value at a text, in the place of the one that was there. The text is shared, unless an equal one
    /// is there, which then stays. The values on the way to the text are shared by [`Share`], the others are those of the
    /// old map. The error comes where memory ran out, and where what is shared has as many owners as can be counted. Then
    /// the value is dropped. The old map stays as it was in any case.
    #[tactic(auto, using(crate::proofs::Middle::value_with, crate::proofs::Middle::rising_with))]
    pub fn put(&self, alloc: Global, text: &Arc<String>, value: V) -> Result<Map<V>, AllocError>
        ensures exact { IfOk result (λ map. map
            ≡ with_value (string_bytes text.now.value) value self.now) }
        ensures values { IfOk result (λ map. (other : List ℕ)
            → value_at other map ≡ (if bytes_eq other (string_bytes text.now.value) then Some value
            else value_at other self.now)) }
    {
        Ok(Map {
            root: self.root.put(alloc, text, value)?,
        })
    }
}
