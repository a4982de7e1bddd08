//! A rounding, digit by digit.
ghost use Rattle.std.specs.Prelude.{◌≡◌, ◌+◌, ◌*◌, ◌-◌, ◌^◌, ◌<◌, ◌≤◌, ℕ, ◌++◌, length, MatchOption};
ghost use Rattle.std.specs.Str.Parse.{AllDigits, digits_value, digits_value_after};
ghost use Rattle.fw_money.specs.Rounding.{Holds, rounds_up};
ghost use Rattle.fw_money.specs.Nearest.{IsNearest};
ghost use Rattle.fw_money.specs.Reading.{most_nanos};

use crate::nanos::Nanos;

/// The kept number stops growing here, far above the greatest amount; at or past it, it is no longer exact.
const KEPT_LIMIT: u64 = 1_000_000_000_000_000_000;

/// The greatest amount, in nanos.
const MOST: u64 = Nanos::MOST as u64;

/// The digits that were dropped: the first of them, and whether one after it isn't zero.
#[derive(Clone, Copy, Drop)]
pub(crate) struct Tail {
    first: u8,
    more: bool,
}

/// Digits read so far, of which the first `keep` are kept as a number.
#[derive(Clone, Copy, Drop)]
pub(crate) struct Rounding {
    keep: usize,
    kept: u64,
    tail: Option<Tail>,
}

impl Rounding {
    /// No digit yet, of which `keep` will be kept.
    pub(crate) fn new(keep: usize) -> Rounding
        ensures { Holds keep result 0 0 }
    {
        Rounding {
            keep,
            kept: 0,
            tail: None,
        }
    }

    /// One more digit at the end.
    fn push(self, digit: u8) -> Rounding
        requires { digit < 10 }
        ensures { (keep v t : ℕ) → Holds keep self v t
            → Holds keep result (v * 10 + digit) (t + 1) }
    {
        if self.keep > 0 {
            let kept = if self.kept < KEPT_LIMIT {
                self.kept * 10 + digit as u64
            } else {
                self.kept
            };
            return Rounding {
                keep: self.keep - 1,
                kept,
                tail: self.tail,
            };
        }
        let tail = match self.tail {
            None => Tail {
                first: digit,
                more: false,
            },
            Some(tail) => Tail {
                first: tail.first,
                more: tail.more || digit > 0,
            },
        };
        Rounding {
            keep: 0,
            kept: self.kept,
            tail: Some(tail),
        }
    }

    /// These digits at the end.
    fn push_digits(self, digits: &[u8]) -> Rounding
        requires { AllDigits 10 digits.now }
        ensures { (keep v t : ℕ) → Holds keep self v t
            → Holds keep result (digits_value_after 10 v digits.now) (t + length digits.now) }
    {
        let mut rounding = self;
        for b in digits {
            rounding = rounding.push(*b - b'0');
        }
        rounding
    }

    /// So many zeros at the end.
    fn push_zeros(self, count: usize) -> Rounding
        ensures { (keep v t : ℕ) → Holds keep self v t
            → Holds keep result (v * 10 ^ count) (t + count) }
    {
        let mut rounding = self;
        for _ in 0..count {
            rounding = rounding.push(0);
        }
        rounding
    }

    /// Whether the dropped digits are more than half of the last kept one, or just half of an odd one.
    fn rounds_up(&self) -> bool
        ensures { result ≡ rounds_up self.now.kept self.now.tail }
    {
        match &self.tail {
            None => false,
            Some(tail) => tail.first > 5 || (tail.first == 5 && (tail.more || self.kept % 2 == 1)),
        }
    }

    /// The number that is nearest, unless it is past the greatest amount.
    fn rounded(self) -> Option<u64>
        ensures { (keep v t : ℕ) → Holds keep self v t
            → (m : ℕ) × IsNearest m v (10 ^ (t - keep))
            × MatchOption result (most_nanos < m) (λ r. (r ≡ m) × (m ≤ most_nanos)) }
    {
        if self.kept > MOST {
            return None;
        }
        let nearest = if self.rounds_up() {
            self.kept + 1
        } else {
            self.kept
        };
        if nearest > MOST { None } else { Some(nearest) }
    }
}

/// The whole number nearest to a number with these digits, `up` places to the left and `down` to the right, unless it is past the
/// greatest amount.
pub(crate) fn nearest(whole: &[u8], fraction: &[u8], up: usize, down: usize) -> Option<u64>
    requires whole { AllDigits 10 whole.now }
    requires fraction { AllDigits 10 fraction.now }
    requires sized { length whole.now + length fraction.now ≤ 64 }
    requires up { up ≤ 64 }
    requires down { down ≤ 128 }
    ensures { (m : ℕ) × IsNearest m (digits_value 10 (whole.now ++ fraction.now) * 10 ^ up)
        (10 ^ down) × MatchOption result (most_nanos < m) (λ r. (r ≡ m) × (m ≤ most_nanos)) }
{
    let zeros = up.saturating_sub(down);
    let dropped = down.saturating_sub(up);
    let digits = whole.len() + fraction.len() + zeros;
    if digits < dropped {
        return Some(0);
    }
    Rounding::new(digits - dropped)
        .push_digits(whole)
        .push_digits(fraction)
        .push_zeros(zeros)
        .rounded()
}
