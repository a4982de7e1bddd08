//! How a number text reads.
ghost use Rattle.std.specs.Prelude.{◌≡◌, ◌+◌, ◌≤◌, ℕ, min, nat_abs, if◌then◌else◌};
ghost use Rattle.std.specs.Str.Parse.{AllDigits, digits_value};
ghost use Rattle.fw_money.specs.Number.{is_minus};
ghost use Rattle.fw_money.specs.Amount.{most_nanos};
ghost use Rattle.fw_money.specs.Reading.{Reads, signed, most_exponent};

use crate::nanos::{MoneyFault, Nanos};
use crate::parts::NumberParts;
use crate::rounding::nearest;

/// The greatest number of bytes of a text.
const LONGEST_TEXT: usize = 40;

/// The greatest absolute value of an exponent.
const GREATEST_EXPONENT: usize = 40;

/// Nine digits after the point count nanos.
const NANO_PLACES: usize = 9;

/// The value of an exponent's digits, or one more than `GREATEST_EXPONENT` where it is above that.
fn exponent_value(digits: &[u8]) -> usize
    requires { AllDigits 10 digits.now }
    ensures { result ≡ min (most_exponent + 1) (digits_value 10 digits.now) }
{
    let mut value = 0;
    for b in digits {
        value = (value * 10 + (*b - b'0') as usize).min(GREATEST_EXPONENT + 1);
    }
    value
}

fn is_minus(sign: &[u8]) -> bool
    ensures { result ≡ is_minus sign.now }
{
    matches!(sign, [b'-', ..])
}

/// How many places an exponent moves the point to the right, and how many to the left.
fn places(negative: bool, exponent: usize) -> (usize, usize)
    ensures right { result.0 ≡ (if negative then 0 else exponent) }
    ensures left { result.1 ≡ (if negative then exponent else 0) }
{
    if negative {
        (0, exponent)
    } else {
        (exponent, 0)
    }
}

fn signed(negative: bool, magnitude: u64) -> i64
    requires { magnitude ≤ most_nanos }
    ensures value { result ≡ signed negative magnitude }
    ensures size { nat_abs result ≡ magnitude }
{
    let count = magnitude as i64;
    if negative { -count } else { count }
}

/// Reads a number text as an amount in nanos. Takes no memory.
///
/// The form is an optional sign, digits with an optional point, and an optional exponent, as in `-12.5`, `.5`, `5.` or `1.2E-05`. The
/// exact value of the text in units of the currency is rounded to the nearest nano; a value half way between two goes to the even one.
///
/// # Errors
/// The first of these that holds: [`MoneyFault::Empty`] where the text has no byte; [`MoneyFault::Syntax`] where it isn't of the form;
/// [`MoneyFault::TooLong`] where it has more than 40 bytes or an exponent above 40 in absolute value; [`MoneyFault::Range`] where the
/// rounded amount is above [`Nanos::MOST`] in absolute value.
#[tactic(auto, unfolding(crate::specs::Reading::Reads))]
pub fn parse(text: &[u8]) -> Result<Nanos, MoneyFault>
    ensures { Reads text.now result }
{
    if text.is_empty() {
        return Err(MoneyFault::Empty);
    }
    let Some(parts) = NumberParts::of_text(text) else {
        return Err(MoneyFault::Syntax);
    };
    let exponent = exponent_value(parts.exponent);
    if text.len() > LONGEST_TEXT || exponent > GREATEST_EXPONENT {
        return Err(MoneyFault::TooLong);
    }
    let (right, left) = places(is_minus(parts.exponent_sign), exponent);
    let up = right + NANO_PLACES;
    let down = parts.fraction.len() + left;
    let Some(magnitude) = nearest(parts.whole, parts.fraction, up, down) else {
        return Err(MoneyFault::Range);
    };
    Ok(Nanos::of_fields(signed(is_minus(parts.sign), magnitude)))
}
