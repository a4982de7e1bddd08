//! Readers of single fields, from the front of a slice. Each answers the value and the bytes after it.
ghost use Rattle.std.specs.Int.{w32, w64};
ghost use Rattle.fw_bytes.specs.Reading.{Gives, number_at, signed64_at, text_at};

use crate::fault::ReadError;

/// A number of four bytes, the low byte first. Takes no memory.
///
/// # Errors
/// [`ReadError::Corrupt`] at the number where fewer than four bytes are left.
pub fn u32_at(bytes: &[u8]) -> Result<(u32, &[u8]), ReadError>
    ensures { Gives (λ x. (x.0, x.1.now)) result (number_at w32 bytes.now) }
{
    if bytes.len() < 4 {
        return Err(ReadError::Corrupt(bytes.len()));
    }
    let (front, rest) = bytes.split_at(4);
    let number = u32::from_le_bytes([front[0], front[1], front[2], front[3]]);
    Ok((number, rest))
}

/// A number of eight bytes, the low byte first. Takes no memory.
///
/// # Errors
/// [`ReadError::Corrupt`] at the number where fewer than eight bytes are left.
pub fn u64_at(bytes: &[u8]) -> Result<(u64, &[u8]), ReadError>
    ensures { Gives (λ x. (x.0, x.1.now)) result (number_at w64 bytes.now) }
{
    if bytes.len() < 8 {
        return Err(ReadError::Corrupt(bytes.len()));
    }
    let (front, rest) = bytes.split_at(8);
    let number = u64::from_le_bytes([
        front[0], front[1], front[2], front[3], front[4], front[5], front[6], front[7],
    ]);
    Ok((number, rest))
}

/// A signed number of eight bytes in two's complement, the low byte first. Takes no memory.
///
/// # Errors
/// [`ReadError::Corrupt`] at the number where fewer than eight bytes are left.
#[tactic(auto, unfolding(crate::specs::Reading::signed64_at))]
pub fn i64_at(bytes: &[u8]) -> Result<(i64, &[u8]), ReadError>
    ensures { Gives (λ x. (x.0, x.1.now)) result (signed64_at bytes.now) }
{
    let (number, rest) = u64_at(bytes)?;
    Ok((number.cast_signed(), rest))
}

/// A text behind its length of four bytes, lent from the bytes. Takes no memory.
///
/// # Errors
/// [`ReadError::Corrupt`] at the text's length where the length isn't there, where fewer bytes are left than it says, or where the text
/// isn't UTF-8.
#[tactic(auto, unfolding(crate::specs::Reading::text_at))]
pub fn str_at(bytes: &[u8]) -> Result<(&str, &[u8]), ReadError>
    ensures { Gives (λ x. (x.0.now, x.1.now)) result (text_at bytes.now) }
{
    let (len, rest) = u32_at(bytes)?;
    let len = len as usize;
    if rest.len() < len {
        return Err(ReadError::Corrupt(bytes.len()));
    }
    let (front, rest) = rest.split_at(len);
    match str::from_utf8(front) {
        Ok(text) => Ok((text, rest)),
        Err(_) => Err(ReadError::Corrupt(bytes.len())),
    }
}
