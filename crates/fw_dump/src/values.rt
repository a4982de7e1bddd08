//! Values, as they stand in the texts of entries.
use fw_columns::LentTags;
use fw_money::Nanos;
use jiff_core::civil::Date;
use std::alloc::AllocError;

/// How many seconds a minute, an hour and a day have.
const MINUTE: u64 = 60;

const HOUR: u64 = 60 * MINUTE;

const DAY: u64 = 24 * HOUR;

/// How many nanos an amount of 1 has.
const NANOS: u64 = 1_000_000_000;

/// A double quote, and what it is written as within a field of CSV that is in quotes.
pub(crate) const QUOTE: &str = "\"";

pub(crate) const QUOTE_IN_FIELD: &str = "\"\"";

/// The digits of the base 16.
const DIGITS: [u8; 16] = *b"0123456789abcdef";

/// Appends a text as it is.
pub(crate) fn push_text(out: &mut Vec<u8>, text: &str) -> Result<(), AllocError> {
    out.extend_from_slice(text.as_bytes())
}

/// Appends a byte.
pub(crate) fn push_byte(out: &mut Vec<u8>, byte: u8) -> Result<(), AllocError> {
    out.push(byte)?;
    Ok(())
}

/// Appends a whole number.
pub(crate) fn push_number(out: &mut Vec<u8>, number: u64) -> Result<(), AllocError> {
    let mut digits = itoa::Buffer::new();
    push_text(out, digits.format(number))
}

/// Appends an amount, exact, with nine digits after the point.
pub(crate) fn push_amount(out: &mut Vec<u8>, amount: Nanos) -> Result<(), AllocError> {
    let count = amount.count();
    if count < 0 {
        push_byte(out, b'-')?;
    }
    let magnitude = count.unsigned_abs();
    push_number(out, magnitude / NANOS)?;
    push_fraction(out, magnitude % NANOS)
}

// Appends a point, and the last nine digits of a number behind it.
fn push_fraction(out: &mut Vec<u8>, number: u64) -> Result<(), AllocError> {
    let mut digits = [b'0'; 10];
    digits[0] = b'.';
    let mut rest = number;
    for place in 0..9 {
        digits[9 - place] = b'0' + (rest % 10) as u8;
        rest /= 10;
    }
    out.extend_from_slice(&digits)
}

/// Appends the instant of a second since 1970, as `2024-01-31T14:00:00Z`. A second past the year 9999 is its number, which no
/// reader takes for an instant.
pub(crate) fn push_second(out: &mut Vec<u8>, second: u64) -> Result<(), AllocError> {
    match Date::from_unix_epoch_day((second / DAY) as i64) {
        Ok(date) => push_instant(out, date, second % DAY),
        Err(_) => push_number(out, second),
    }
}

// Appends the instant of a second of a day.
fn push_instant(out: &mut Vec<u8>, date: Date, time: u64) -> Result<(), AllocError> {
    let year = u64::from(date.year.unsigned_abs());
    let (century, of_century) = (two_digits(year / 100), two_digits(year));
    let (month, day) = (
        two_digits(u64::from(date.month)),
        two_digits(u64::from(date.day)),
    );
    let (hour, minute) = (two_digits(time / HOUR), two_digits(time % HOUR / MINUTE));
    let second = two_digits(time % MINUTE);
    out.extend_from_slice(&[
        century.0,
        century.1,
        of_century.0,
        of_century.1,
        b'-',
        month.0,
        month.1,
        b'-',
        day.0,
        day.1,
        b'T',
        hour.0,
        hour.1,
        b':',
        minute.0,
        minute.1,
        b':',
        second.0,
        second.1,
        b'Z',
    ])
}

// The last two digits of a number.
fn two_digits(number: u64) -> (u8, u8) {
    (b'0' + (number / 10 % 10) as u8, b'0' + (number % 10) as u8)
}

/// Appends a text in double quotes, with the escapes that JSON and TOML both read. A double quote is written as this text.
pub(crate) fn push_quoted(out: &mut Vec<u8>, text: &str, quote: &str) -> Result<(), AllocError> {
    push_text(out, quote)?;
    if text.as_bytes().iter().any(|byte| is_escaped(*byte)) {
        for byte in text.as_bytes() {
            push_escaped(out, *byte, quote)?;
        }
    } else {
        push_text(out, text)?;
    }
    push_text(out, quote)
}

// Whether a byte of a text in quotes has an escape.
fn is_escaped(byte: u8) -> bool {
    matches!(byte, b'"' | b'\\' | 0..=31 | 127)
}

// Appends a byte of a text in quotes. TOML has an escape for byte 127 too, which JSON takes either way.
fn push_escaped(out: &mut Vec<u8>, byte: u8, quote: &str) -> Result<(), AllocError> {
    match byte {
        b'"' => {
            push_byte(out, b'\\')?;
            push_text(out, quote)
        }
        b'\\' => push_text(out, "\\\\"),
        0..=31 | 127 => {
            let high = DIGITS[(byte / 16) as usize];
            let low = DIGITS[(byte % 16) as usize];
            out.extend_from_slice(&[b'\\', b'u', b'0', b'0', high, low])
        }
        _ => push_byte(out, byte),
    }
}

/// Appends tags in braces, each key and text in quotes with this sign between them: `:` in JSON, `=` in TOML. A double quote is written
/// as this text.
pub(crate) fn push_tags(
    out: &mut Vec<u8>,
    tags: LentTags<'_>,
    sign: u8,
    quote: &str,
) -> Result<(), AllocError> {
    push_byte(out, b'{')?;
    let mut is_first = true;
    let mut rest = tags;
    while let Some((tag, after)) = rest.split_first() {
        push_comma(out, is_first)?;
        is_first = false;
        push_quoted(out, tag.key, quote)?;
        push_byte(out, sign)?;
        push_quoted(out, tag.value, quote)?;
        rest = after;
    }
    push_byte(out, b'}')
}

/// Appends the comma that parts an item of a list from the one before it, if there is one.
pub(crate) fn push_comma(out: &mut Vec<u8>, is_first: bool) -> Result<(), AllocError> {
    if is_first {
        return Ok(());
    }
    push_byte(out, b',')
}
