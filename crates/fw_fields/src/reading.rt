//! Readers of single fields. Each returns the value and the bytes after it.
ghost use Rattle.std.specs.Prelude.{◌≤◌, string_bytes, option_map, nat_abs, IfOk, IfSome};
ghost use Rattle.fw_money.specs.Amount.{most_nanos};
ghost use Rattle.fw_bytes.specs.Reading.{Gives, code_at, optional_at, times};
ghost use Rattle.fw_charge.specs.Spelling.{FitsTags};
ghost use Rattle.fw_charge.specs.Codes.{category_of, class_of, kind_of, status_of};
ghost use Rattle.fw_fields.specs.Reading.{nanos_at, second_at, short_text_at, tag_text_at, tag_at, tags_at, null_or};

use fw_bytes::{ReadError, i64_at, str_at, u32_at, u64_at};
use fw_charge::{
    Category, DiscountKind, DiscountStatus, LAST_SECOND, Tag, Tags, class_from_code, is_short_text,
};
use fw_money::Nanos;
use std::alloc::Global;

/// An amount: how many nanos it has. It is within the range of [`Nanos`]. Takes no memory.
///
/// # Errors
/// [`ReadError::Corrupt`] at the amount where it is cut off, or above 10^17 nanos in absolute value.
#[tactic(auto, unfolding(crate::specs::Reading::nanos_at, fw_bytes::specs::Reading::checked))]
pub fn nanos_of(bytes: &[u8]) -> Result<(i64, &[u8]), ReadError>
    ensures read { Gives (λ x. (x.0, x.1.now)) result (nanos_at bytes.now) }
    ensures in_range { IfOk result (λ x. nat_abs x.0 ≤ most_nanos) }
{
    let (count, rest) = i64_at(bytes)?;
    if count.unsigned_abs() > Nanos::MOST as u64 {
        return Err(ReadError::Corrupt(bytes.len()));
    }
    Ok((count, rest))
}

/// A second, counted from 1970: at most the last one of the year 9999. Takes no memory.
///
/// # Errors
/// [`ReadError::Corrupt`] at the second where it is cut off or later than that.
#[tactic(auto, unfolding(crate::specs::Reading::second_at, fw_bytes::specs::Reading::checked))]
pub fn second_of(bytes: &[u8]) -> Result<(u64, &[u8]), ReadError>
    ensures { Gives (λ x. (x.0, x.1.now)) result (second_at bytes.now) }
{
    let (second, rest) = u64_at(bytes)?;
    if second > LAST_SECOND {
        return Err(ReadError::Corrupt(bytes.len()));
    }
    Ok((second, rest))
}

/// A text of 1 to 256 bytes.
///
/// # Errors
/// [`ReadError::Corrupt`] at the text's length where it is cut off, isn't UTF-8, or has another length; [`ReadError::NoMemory`] where there
/// is no memory for it.
#[tactic(auto, unfolding(crate::specs::Reading::short_text_at, fw_bytes::specs::Reading::checked))]
pub fn short_text_of(alloc: Global, bytes: &[u8]) -> Result<(String, &[u8]), ReadError>
    ensures { Gives (λ x. (string_bytes x.0, x.1.now)) result (short_text_at bytes.now) }
{
    let (text, rest) = str_at(bytes)?;
    if !is_short_text(text) {
        return Err(ReadError::Corrupt(bytes.len()));
    }
    Ok((String::from_str(alloc, text)?, rest))
}

/// A key or a text of a tag: at most 1,024 bytes.
///
/// # Errors
/// [`ReadError::Corrupt`] at the text's length where it is cut off, isn't UTF-8, or is longer; [`ReadError::NoMemory`] where there is no
/// memory for it.
#[tactic(auto, unfolding(crate::specs::Reading::tag_text_at, fw_bytes::specs::Reading::checked))]
pub fn tag_text_of(alloc: Global, bytes: &[u8]) -> Result<(String, &[u8]), ReadError>
    ensures { Gives (λ x. (string_bytes x.0, x.1.now)) result (tag_text_at bytes.now) }
{
    let (text, rest) = str_at(bytes)?;
    if text.len() > Tag::LONGEST {
        return Err(ReadError::Corrupt(bytes.len()));
    }
    Ok((String::from_str(alloc, text)?, rest))
}

/// A text of 1 to 256 bytes, or `None` where it is null: a byte 0, or a byte 1 and the text.
///
/// # Errors
/// [`ReadError::Corrupt`] at the first byte where it is cut off or neither 0 nor 1, and one byte behind that, at the text's length, where
/// the text isn't one of 1 to 256 bytes; [`ReadError::NoMemory`] where there is no memory for it.
#[tactic(auto, unfolding(fw_bytes::specs::Reading::optional_at))]
pub fn optional_text_of(alloc: Global, bytes: &[u8]) -> Result<(Option<String>, &[u8]), ReadError>
    ensures { Gives (λ x. (option_map string_bytes x.0, x.1.now)) result
        (optional_at short_text_at bytes.now) }
{
    match bytes {
        [] => Err(ReadError::Corrupt(0)),
        [0, rest @ ..] => Ok((None, rest)),
        [1, rest @ ..] => {
            let (text, rest) = short_text_of(alloc, rest)?;
            Ok((Some(text), rest))
        }
        [_, ..] => Err(ReadError::Corrupt(bytes.len())),
    }
}

/// An amount, or `None` where it is null: a byte 0, or a byte 1 and the amount. Takes no memory.
///
/// # Errors
/// [`ReadError::Corrupt`] at the first byte where it is cut off or neither 0 nor 1, and one byte behind that where the amount is cut off or
/// above 10^17 nanos in absolute value.
#[tactic(auto, unfolding(fw_bytes::specs::Reading::optional_at))]
pub fn optional_nanos_of(bytes: &[u8]) -> Result<(Option<i64>, &[u8]), ReadError>
    ensures read { Gives (λ x. (x.0, x.1.now)) result (optional_at nanos_at bytes.now) }
    ensures in_range { IfOk result (λ x. IfSome x.0 (λ n. nat_abs n ≤ most_nanos)) }
{
    match bytes {
        [] => Err(ReadError::Corrupt(0)),
        [0, rest @ ..] => Ok((None, rest)),
        [1, rest @ ..] => {
            let (nanos, rest) = nanos_of(rest)?;
            Ok((Some(nanos), rest))
        }
        [_, ..] => Err(ReadError::Corrupt(bytes.len())),
    }
}

/// The category of a charge, from its code of one byte. Takes no memory.
///
/// # Errors
/// [`ReadError::Corrupt`] at the code where it is cut off or no such code.
#[tactic(auto, unfolding(fw_bytes::specs::Reading::code_at))]
pub fn category_of(bytes: &[u8]) -> Result<(Category, &[u8]), ReadError>
    ensures { Gives (λ x. (x.0, x.1.now)) result (code_at category_of bytes.now) }
{
    let (code, rest) = bytes.split_first().ok_or(ReadError::Corrupt(0))?;
    let category = Category::from_code(*code).ok_or(ReadError::Corrupt(bytes.len()))?;
    Ok((category, rest))
}

/// Whether the row is a correction, from its code of one byte. Takes no memory.
///
/// # Errors
/// [`ReadError::Corrupt`] at the code where it is cut off or no such code.
#[tactic(auto, unfolding(fw_bytes::specs::Reading::code_at))]
pub fn class_of(bytes: &[u8]) -> Result<(bool, &[u8]), ReadError>
    ensures { Gives (λ x. (x.0, x.1.now)) result (code_at class_of bytes.now) }
{
    let (code, rest) = bytes.split_first().ok_or(ReadError::Corrupt(0))?;
    let is_correction = class_from_code(*code).ok_or(ReadError::Corrupt(bytes.len()))?;
    Ok((is_correction, rest))
}

/// The kind of a discount, which may be null: from its code of one byte. Takes no memory.
///
/// # Errors
/// [`ReadError::Corrupt`] at the code where it is cut off or no such code.
#[tactic(auto, unfolding(fw_bytes::specs::Reading::code_at))]
pub fn kind_of(bytes: &[u8]) -> Result<(Option<DiscountKind>, &[u8]), ReadError>
    ensures { Gives (λ x. (x.0, x.1.now)) result (code_at (null_or kind_of) bytes.now) }
{
    let (code, rest) = bytes.split_first().ok_or(ReadError::Corrupt(0))?;
    if *code == 0 {
        return Ok((None, rest));
    }
    let kind = DiscountKind::from_code(*code).ok_or(ReadError::Corrupt(bytes.len()))?;
    Ok((Some(kind), rest))
}

/// The status of a discount, which may be null: from its code of one byte. Takes no memory.
///
/// # Errors
/// [`ReadError::Corrupt`] at the code where it is cut off or no such code.
#[tactic(auto, unfolding(fw_bytes::specs::Reading::code_at))]
pub fn status_of(bytes: &[u8]) -> Result<(Option<DiscountStatus>, &[u8]), ReadError>
    ensures { Gives (λ x. (x.0, x.1.now)) result (code_at (null_or status_of) bytes.now) }
{
    let (code, rest) = bytes.split_first().ok_or(ReadError::Corrupt(0))?;
    if *code == 0 {
        return Ok((None, rest));
    }
    let status = DiscountStatus::from_code(*code).ok_or(ReadError::Corrupt(bytes.len()))?;
    Ok((Some(status), rest))
}

/// A tag.
#[tactic(auto, unfolding(crate::specs::Reading::tag_at, fw_bytes::specs::Reading::both, fw_bytes::specs::Reading::seen))]
fn tag_of(alloc: Global, bytes: &[u8]) -> Result<(Tag, &[u8]), ReadError>
    ensures { Gives (λ x. (x.0, x.1.now)) result (tag_at bytes.now) }
{
    let (key, rest) = tag_text_of(alloc, bytes)?;
    let (value, rest) = tag_text_of(alloc, rest)?;
    Ok((Tag::of_fields(key, value), rest))
}

/// So many tags. Memory is taken as each tag is read, not for the count.
fn tags_after(alloc: Global, count: u32, bytes: &[u8]) -> Result<(Vec<Tag>, &[u8]), ReadError>
    ensures { Gives (λ x. (x.0.items, x.1.now)) result (times tag_at count bytes.now) }
{
    let mut tags = Vec::new(alloc);
    let mut rest = bytes;
    for _ in 0..count {
        let (tag, after) = tag_of(alloc, rest)?;
        tags.push(tag)?;
        rest = after;
    }
    Ok((tags, rest))
}

/// Tags, at most 256 and within their limits, in any order: whoever they belong to looks at their order by [`keys_rise`](crate::keys_rise) and then has them
/// as [`Tags`] by [`tags_in_order`](crate::tags_in_order).
///
/// # Errors
/// [`ReadError::Corrupt`] at the count where it is cut off or above 256, and at the length of the first key or text that is cut off, isn't
/// UTF-8 or has more than 1,024 bytes; [`ReadError::NoMemory`] where there is no memory for them.
#[tactic(auto, unfolding(crate::specs::Reading::tags_at, fw_bytes::specs::Reading::list_at))]
pub fn tags_of(alloc: Global, bytes: &[u8]) -> Result<(Vec<Tag>, &[u8]), ReadError>
    ensures read { Gives (λ x. (x.0.items, x.1.now)) result (tags_at bytes.now) }
    ensures within { IfOk result (λ x. FitsTags x.0.items) }
{
    let (count, rest) = u32_at(bytes)?;
    if count > Tags::MOST as u32 {
        return Err(ReadError::Corrupt(bytes.len()));
    }
    let (tags, rest) = tags_after(alloc, count, rest)?;
    Ok((tags, rest))
}
