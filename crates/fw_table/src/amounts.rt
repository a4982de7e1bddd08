//! Amounts as people read them.
ghost use Rattle.std.specs.Prelude.{◌≡◌, ◌<◌, ◌^◌, ◌-◌, ◌++◌, ◌∷◌, [], IfOk, OnOk, string_bytes, false, nat_abs};
ghost use Rattle.std.specs.Fmt.{decimal, padded_integral, format_spec};
ghost use Rattle.std.specs.Str.{IsAscii};
ghost use Rattle.fw_money.specs.Nearest.{IsNearest};
ghost use Rattle.fw_table.specs.Amounts.{IsCentsText, cent, comma_before, grouped, minus_text, two_digits};

use std::alloc::{AllocError, Global};

/// How many nanos a cent has.
const CENT: u128 = 10_000_000;

/// How many digits stand together.
const GROUP: usize = 3;

/// The text of an amount in nanos as people read it: rounded to the nearest cent, a tie to the even one, with two digits after the point
/// and a comma before each three digits of the whole part, as `-1,234,567.80`. What rounds to no cent has no sign.
pub fn cents_text(alloc: Global, nanos: i128) -> Result<String, AllocError>
    ensures { IfOk result (λ s. IsCentsText nanos (string_bytes s)) }
{
    let cents = nearest_cents(nanos.unsigned_abs());
    let digits = format!(in alloc; "{}", cents / 100)?;
    let whole = grouped(alloc, digits.as_str())?;
    let minus = minus_of(nanos, cents);
    joined(alloc, minus, whole.as_str(), (cents % 100) as u32)
}

/// The text of a count as people read it, with a comma before each three digits, as `1,234,567`.
pub fn count_text(alloc: Global, count: u64) -> Result<String, AllocError>
    ensures { IfOk result (λ s. string_bytes s ≡ grouped (decimal count)) }
{
    let digits = format!(in alloc; "{count}")?;
    grouped(alloc, digits.as_str())
}

// The cents nearest to a count of nanos, of two that are as near the even one.
fn nearest_cents(magnitude: u128) -> u128
    ensures { IsNearest result magnitude cent }
{
    let cents = magnitude / CENT;
    let rest = magnitude % CENT;
    let is_past_half = 2 * rest + cents % 2 > CENT;
    if is_past_half { cents + 1 } else { cents }
}

// The sign of an amount that is shown as so many cents.
#[tactic(auto, unfolding(crate::specs::Amounts::minus_text))]
fn minus_of(nanos: i128, cents: u128) -> &'static str
    ensures { result.now ≡ minus_text nanos cents }
{
    if nanos < 0 && cents > 0 { "-" } else { "" }
}

// Digits, with a comma before each three of them.
fn grouped(alloc: Global, digits: &str) -> Result<String, AllocError>
    requires { IsAscii digits.now }
    ensures { IfOk result (λ s. string_bytes s ≡ grouped digits.now) }
{
    let bytes = digits.as_bytes();
    let mut text = String::new(alloc);
    for place in 0..bytes.len() {
        push_digit(&mut text, bytes[place], bytes.len() - place - 1)?;
    }
    Ok(text)
}

// Adds a digit that so many follow.
#[tactic(auto, unfolding(crate::specs::Amounts::comma_before))]
fn push_digit(text: &mut String, digit: u8, after: usize) -> Result<(), AllocError>
    requires { digit < 128 }
    ensures { OnOk result (string_bytes text.new
        ≡ string_bytes text.old ++ digit ∷ comma_before after) }
{
    text.push(char::from(digit))?;
    if after > 0 && after % GROUP == 0 {
        text.push(',')?;
    }
    Ok(())
}

// The sign, the whole part, a point and two digits.
fn joined(alloc: Global, minus: &str, whole: &str, rest: u32) -> Result<String, AllocError>
    ensures { IfOk result (λ s. string_bytes s
        ≡ minus.now ++ (whole.now ++ (46
        ∷ padded_integral (format_spec 32 0 4 2 (2 ^ 64 - 1)) false [] (decimal rest)))) }
{
    format!(in alloc; "{minus}{whole}.{rest:02}")
}
