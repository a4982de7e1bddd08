//! The words of a line.
ghost use Rattle.std.specs.Prelude.{◌≡◌, ◌≢◌, ◌^◌, ◌<◌, ℕ, List, ◌∷◌, ◌++◌, Contains, MatchOption};
ghost use Rattle.fw_script.specs.Splits.{FirstSplit, LastSplit};
ghost use Rattle.fw_script.specs.Words.{IsDecimal, IsLineCount, IsSequence, space};

use memchr::{memchr, memrchr};

/// The most lines that a command may take from those that follow it.
const MOST_LINES: u32 = 1_000_000;

/// The parts of a text before and after the first `byte`, or `None` where it has none.
pub fn split_at_first<'a>(byte: u8, text: &'a [u8]) -> Option<(&'a [u8], &'a [u8])>
    ensures { MatchOption result (¬ Contains text.now byte)
        (λ parts. FirstSplit byte text.now parts.0.now parts.1.now) }
{
    let place = memchr(byte, text)?;
    Some((&text[..place], &text[place + 1..]))
}

/// The parts of a text before and after the last `byte`, or `None` where it has none.
pub fn split_at_last<'a>(byte: u8, text: &'a [u8]) -> Option<(&'a [u8], &'a [u8])>
    ensures { MatchOption result (¬ Contains text.now byte)
        (λ parts. LastSplit byte text.now parts.0.now parts.1.now) }
{
    let place = memrchr(byte, text)?;
    Some((&text[..place], &text[place + 1..]))
}

/// What follows `word` and a space at the start of a line, or `None` where the line doesn't begin with them.
pub fn arguments_of<'a>(word: &[u8], line: &'a [u8]) -> Option<&'a [u8]>
    ensures { MatchOption result
        ((rest : List ℕ) → line.now ≢ word.now ++ space ∷ rest)
        (λ rest. line.now ≡ word.now ++ space ∷ rest.now) }
{
    line.strip_prefix(word)?.strip_prefix(b" ".as_slice())
}

/// The whole number that a word of decimal digits writes, at most 2^64 - 1, or `None`. Any number of zeros may stand first, and a
/// sign is no digit.
fn decimal(word: &[u8]) -> Option<u64>
    ensures { MatchOption result ((number : ℕ) → number < 2 ^ 64 → ¬ IsDecimal word.now number)
        (IsDecimal word.now) }
{
    if word.first() == Some(&b'+') {
        return None;
    }
    let digits = str::from_utf8(word).ok()?;
    digits.parse::<u64>().ok()
}

/// The number of lines that a word of decimal digits gives, at most a million, or `None`. Zeros may stand first, and a sign is
/// no digit.
pub fn line_count(word: &[u8]) -> Option<u32>
    ensures { MatchOption result ((count : ℕ) → ¬ IsLineCount word.now count)
        (IsLineCount word.now) }
{
    let count = u32::try_from(decimal(word)?).ok()?;
    (count <= MOST_LINES).then_some(count)
}

/// The sequence number that a word writes: a whole number from 1 to 2^64 - 1 in decimal digits, before which any number of zeros
/// may stand. `None` for every other word: an empty one, 0, a larger number, and one that holds anything but digits, such as a sign
/// or a blank.
pub fn sequence_number(word: &[u8]) -> Option<u64>
    ensures { MatchOption result ((number : ℕ) → ¬ IsSequence word.now number)
        (IsSequence word.now) }
{
    let number = decimal(word)?;
    (number > 0).then_some(number)
}
