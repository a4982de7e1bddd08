//! Instants that are read one after the other.
ghost use Rattle.std.specs.Prelude.{◌≡◌, ◌≤◌, ℕ, take, IsTrue, MatchOption, IfSome};
ghost use Rattle.fw_charge.specs.Charge.{last_second};
ghost use Rattle.fw_instants.specs.Instants.{IsSecond};

use crate::text::second_of;
use std::marker::Model;

/// The most bytes of a text that is kept: the forms that exports have are shorter, `2024-01-01T00:00:00Z` and `2024-01-01T00:00:00.000+00:00` among them.
const MOST_KEPT: usize = 32;

/// A text, and the second that it stands for.
#[derive(Clone, Copy, Debug, Drop)]
struct Known {
    /// The text, with zeros behind it.
    bytes: [u8; MOST_KEPT],
    /// How many bytes the text has.
    len: usize,
    second: u64,
}

impl Known {
    /// A text of at most [`MOST_KEPT`] bytes with its second; `None` for a longer one.
    fn new(text: &str, second: u64) -> Option<Known>
        ensures { IfSome result (λ known. (take known.len known.bytes ≡ text.now)
            × (known.second ≡ second)) }
    {
        let mut bytes = [0; MOST_KEPT];
        let len = text.len();
        if len > MOST_KEPT {
            return None;
        }
        bytes[..len].copy_from_slice(text.as_bytes());
        Some(Known { bytes, len, second })
    }

    /// Whether it is this text.
    fn is(&self, text: &str) -> bool
        ensures { IsTrue result → text.now ≡ take self.now.len self.now.bytes }
    {
        self.len <= MOST_KEPT && text.as_bytes() == &self.bytes[..self.len]
    }
}

/// A reader of instants that knows the last text, unless that has more than 32 bytes. In the rows of an export an instant mostly stands where it stood in the
/// row before, and two texts are compared much faster than one is read.
#[derive(Debug, Drop)]
pub struct InstantReader {
    known: Option<Known>,
}

impl Model for InstantReader {
    ghost use Rattle.std.specs.Prelude.{◌≤◌, take, IfSome};
    ghost use Rattle.fw_charge.specs.Charge.{last_second};
    ghost use Rattle.fw_instants.specs.Instants.{IsSecond};

    ghost Value = { Unit {0} };

    ghost view = { λ _. tt };

    ghost invariant = { λ r. IfSome r.known (λ known. IsSecond (take known.len known.bytes) known.second × (known.second ≤ last_second)) };
}

impl InstantReader {
    /// A reader that knows no text.
    pub fn new() -> InstantReader {
        InstantReader { known: None }
    }

    /// The second since 1970 of an instant's text, as [`second_of`] answers it.
    pub fn second_of(&mut self, text: &str) -> Option<u64>
        ensures value { MatchOption result ((s : ℕ) → ¬ IsSecond text.now s)
            (λ s. IsSecond text.now s) }
        ensures in_range { IfSome result (λ s. s ≤ last_second) }
    {
        if let Some(known) = self.known {
            if known.is(text) {
                return Some(known.second);
            }
        }
        let second = second_of(text)?;
        if let Some(known) = Known::new(text, second) {
            self.known = Some(known);
        }
        Some(second)
    }
}
