//! A number text, taken apart.
ghost use Rattle.std.specs.Prelude.{◌≡◌, ◌≤◌, ℕ, List, length, MatchOption};
ghost use Rattle.fw_money.specs.Number.{Parts, Spells};
ghost use Rattle.fw_money.specs.Scan.{sign_len, run_len, point_len, mark_len, scan, is_number, is_exponent_whole};
ghost use Rattle.fw_money.specs.Shown.{parts_shown};

/// The parts of a number text, each as its bytes, in the order in which they stand. A part that isn't there is empty.
#[derive(Clone, Copy, Drop)]
pub(crate) struct NumberParts<'a> {
    pub(crate) sign: &'a [u8],
    pub(crate) whole: &'a [u8],
    pub(crate) point: &'a [u8],
    pub(crate) fraction: &'a [u8],
    pub(crate) mark: &'a [u8],
    pub(crate) exponent_sign: &'a [u8],
    pub(crate) exponent: &'a [u8],
}

/// How many bytes of a sign stand at the front.
fn sign_len(text: &[u8]) -> usize
    ensures value { result ≡ sign_len text.now }
    ensures within { result ≤ length text.now }
{
    match text {
        [b'+' | b'-', ..] => 1,
        _ => 0,
    }
}

/// How many digits stand at the front.
fn run_len(text: &[u8]) -> usize
    ensures value { result ≡ run_len text.now }
    ensures within { result ≤ length text.now }
{
    text.iter().take_while(|b| b.is_ascii_digit()).count()
}

/// How many bytes of a point stand at the front.
fn point_len(text: &[u8]) -> usize
    ensures value { result ≡ point_len text.now }
    ensures within { result ≤ length text.now }
{
    match text {
        [b'.', ..] => 1,
        _ => 0,
    }
}

/// How many bytes of the mark of an exponent stand at the front.
fn mark_len(text: &[u8]) -> usize
    ensures value { result ≡ mark_len text.now }
    ensures within { result ≤ length text.now }
{
    match text {
        [b'e' | b'E', ..] => 1,
        _ => 0,
    }
}

impl<'a> NumberParts<'a> {
    /// The parts of a number text, or `None` where the text isn't one.
    pub(crate) fn of_text(text: &'a [u8]) -> Option<Self>
        ensures { MatchOption result ((p : Parts) → ¬ Spells p text.now)
            (λ r. Spells (parts_shown r) text.now) }
    {
        let parts = Self::scan(text);
        if parts.is_number() { Some(parts) } else { None }
    }

    /// Takes each part off the front in turn. What is left at the end counts as the exponent, whatever it is.
    fn scan(text: &'a [u8]) -> Self
        ensures { parts_shown result ≡ scan text.now }
    {
        let (sign, rest) = text.split_at(sign_len(text));
        let (whole, rest) = rest.split_at(run_len(rest));
        let (point, rest) = rest.split_at(point_len(rest));
        let (fraction, rest) = rest.split_at(run_len(rest));
        let (mark, rest) = rest.split_at(mark_len(rest));
        let (exponent_sign, exponent) = rest.split_at(sign_len(rest));
        NumberParts {
            sign,
            whole,
            point,
            fraction,
            mark,
            exponent_sign,
            exponent,
        }
    }

    /// Whether parts that were taken off a text are those of a number.
    fn is_number(&self) -> bool
        ensures { result ≡ is_number (parts_shown self.now) }
    {
        let some_digit = !self.whole.is_empty() || !self.fraction.is_empty();
        some_digit && run_len(self.exponent) == self.exponent.len() && self.is_exponent_whole()
    }

    /// Whether the exponent is there with its digits, or not there at all.
    fn is_exponent_whole(&self) -> bool
        ensures { result ≡ is_exponent_whole (parts_shown self.now) }
    {
        if self.mark.is_empty() {
            self.exponent_sign.is_empty() && self.exponent.is_empty()
        } else {
            !self.exponent.is_empty()
        }
    }
}
