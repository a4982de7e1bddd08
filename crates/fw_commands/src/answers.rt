//! Answers that refuse an entry, counted while they are written.
ghost use Rattle.std.specs.Prelude.{◌≡◌};
ghost use Rattle.std.specs.List.{fold};
ghost use Rattle.fw_commands.specs.Refusals.{after, is_refusal, start, text_len, with_byte, with_digit, with_line};

use arrayvec::ArrayVec;
use std::marker::Model;

/// The most bytes of a line that are kept. A line that says how long a text is has fewer.
const MOST_KEPT: usize = 32;

/// How many answers refuse an entry, of those that were written so far: the lines `refused`, `gap`, `bad command`, `bad end`, `store` and
/// `no memory`, and of files that are loaded also `unknown` and `closed`. The text behind a line `bytes N`, which has N bytes, is no answer,
/// and a question that is refused is no entry.
pub struct Refusals {
    /// Whether each line starts with a number and a space, behind which its answer stands.
    is_numbered: bool,
    /// Whether the number of the line that has begun, or its space, is still to come.
    in_number: bool,
    /// The first bytes of the answer that the line has.
    line: ArrayVec<u8, MOST_KEPT>,
    /// How many bytes of a text are still to come.
    text_left: u64,
    count: u64,
}

impl Drop for Refusals {
    fn drop(self) {
        let Self {
            is_numbered: _,
            in_number: _,
            line: _,
            text_left: _,
            count: _,
        } = self;
    }
}

impl Model for Refusals {
    ghost use Rattle.fw_commands.specs.RefusalsView.{refusals_view};
    ghost use Rattle.fw_commands.specs.Refusals.{Seen};

    ghost Value = { Seen };

    ghost view = { refusals_view };
}

impl Refusals {
    /// Nothing was written. Whether each line starts with a number, as where files are loaded, is given.
    pub fn new(is_numbered: bool) -> Refusals
        ensures { result ≡ start is_numbered }
    {
        Refusals {
            is_numbered,
            in_number: is_numbered,
            line: ArrayVec::new(),
            text_left: 0,
            count: 0,
        }
    }

    /// These bytes were written.
    pub fn see(&mut self, written: &[u8])
        ensures { self.new ≡ after self.old written.now }
    {
        for byte in written {
            self.see_byte(*byte);
        }
    }

    /// How many answers refuse an entry.
    pub fn count(&self) -> u64
        ensures { result ≡ self.now.count }
    {
        self.count
    }

    // A byte was written.
    #[tactic(auto, unfolding(crate::specs::Refusals::with_byte))]
    fn see_byte(&mut self, byte: u8)
        ensures { self.new ≡ with_byte self.old byte }
    {
        if self.text_left > 0 {
            self.text_left -= 1;
        } else if byte == b'\n' {
            self.end_line();
        } else if self.in_number {
            self.in_number = byte != b' ';
        } else if !self.line.is_full() {
            self.line.push(byte);
        }
    }

    // The line is whole.
    fn end_line(&mut self)
        ensures { self.new ≡ with_line self.old }
    {
        if is_refusal(self.line.as_slice()) {
            self.count = self.count.saturating_add(1);
        }
        self.text_left = text_len(self.line.as_slice());
        self.in_number = self.is_numbered;
        self.line.clear();
    }
}

// Whether an answer refuses an entry. A question is refused by a code that starts with Q.
#[tactic(auto, unfolding(crate::specs::Refusals::is_refusal))]
fn is_refusal(answer: &[u8]) -> bool
    ensures { result ≡ is_refusal answer.now }
{
    if answer.starts_with(b"refused Q") {
        false
    } else {
        answer.starts_with(b"refused ")
            || answer.starts_with(b"gap ")
            || answer.starts_with(b"bad command")
            || answer.starts_with(b"bad end")
            || answer.starts_with(b"store ")
            || answer.starts_with(b"no memory")
            || answer.starts_with(b"unknown")
            || answer.starts_with(b"closed")
    }
}

// How many bytes the text behind an answer's line has.
#[tactic(auto, unfolding(crate::specs::Refusals::text_len))]
fn text_len(answer: &[u8]) -> u64
    ensures { result ≡ text_len answer.now }
{
    if answer.starts_with(b"bytes ") {
        number_of(&answer[6..])
    } else {
        0
    }
}

// The number that digits write, where it is less than 2^64.
fn number_of(digits: &[u8]) -> u64
    ensures { result ≡ fold with_digit 0 digits.now }
{
    let mut number: u64 = 0;
    for digit in digits {
        number = number
            .wrapping_mul(10)
            .wrapping_add(u64::from(digit.saturating_sub(b'0')));
    }
    number
}
