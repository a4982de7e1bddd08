//! Columns whose bytes are all there, read in one pass that branches on no value. Each answers the values, and whether all of them are in their
//! range; where one isn't, its column is read again value by value, to find it.
ghost use Rattle.std.specs.Prelude.{◌≡◌, ◌≤◌, ◌+◌, ◌*◌, Ok, drop, length, map, string_bytes, IfOk, IsTrue};
ghost use Rattle.std.specs.Int.{w32, w64};
ghost use Rattle.fw_bytes.specs.Reading.{number_at, times};
ghost use Rattle.fw_fields.specs.Reading.{nanos_at, second_at};
ghost use Rattle.fw_column_bytes.specs.Reading.{byte_at, text_code_at};

use crate::fields::is_text_code;
use fw_charge::LAST_SECOND;
use fw_money::Nanos;
use std::alloc::{AllocError, Global};

/// The number of eight bytes at a place.
#[inline(always)]
fn wide_at(bytes: &[u8], at: usize) -> u64
    requires { at + 8 ≤ length bytes.now }
    ensures { number_at w64 (drop at bytes.now) ≡ Ok (result, drop (at + 8) bytes.now) }
{
    let front = &bytes[at..at + 8];
    u64::from_le_bytes([
        front[0], front[1], front[2], front[3], front[4], front[5], front[6], front[7],
    ])
}

/// The number of four bytes at a place.
#[inline(always)]
fn narrow_at(bytes: &[u8], at: usize) -> u32
    requires { at + 4 ≤ length bytes.now }
    ensures { number_at w32 (drop at bytes.now) ≡ Ok (result, drop (at + 4) bytes.now) }
{
    let front = &bytes[at..at + 4];
    u32::from_le_bytes([front[0], front[1], front[2], front[3]])
}

/// So many amounts.
pub fn amounts_in(alloc: Global, count: usize, bytes: &[u8]) -> Result<(Vec<i64>, bool), AllocError>
    requires { 8 * count ≤ length bytes.now }
    ensures { IfOk result (λ read. IsTrue read.1
        → times nanos_at count bytes.now ≡ Ok (read.0.items, drop (8 * count) bytes.now)) }
{
    let mut column = vec![in alloc; 0; count]?;
    let mut is_right = true;
    for place in 0..count {
        let value = wide_at(bytes, 8 * place).cast_signed();
        is_right &= value.unsigned_abs() <= Nanos::MOST as u64;
        column[place] = value;
    }
    Ok((column, is_right))
}

/// So many seconds.
pub fn seconds_in(alloc: Global, count: usize, bytes: &[u8]) -> Result<(Vec<u64>, bool), AllocError>
    requires { 8 * count ≤ length bytes.now }
    ensures { IfOk result (λ read. IsTrue read.1
        → times second_at count bytes.now ≡ Ok (read.0.items, drop (8 * count) bytes.now)) }
{
    let mut column = vec![in alloc; 0; count]?;
    let mut is_right = true;
    for place in 0..count {
        let value = wide_at(bytes, 8 * place);
        is_right &= value <= LAST_SECOND;
        column[place] = value;
    }
    Ok((column, is_right))
}

/// So many bytes from `least` to `most`.
pub fn bytes_in(
    alloc: Global,
    least: u8,
    most: u8,
    count: usize,
    bytes: &[u8],
) -> Result<(Vec<u8>, bool), AllocError>
    requires { count ≤ length bytes.now }
    ensures { IfOk result (λ read. IsTrue read.1
        → times (byte_at least most) count bytes.now ≡ Ok (read.0.items, drop count bytes.now)) }
{
    let (front, _) = bytes.split_at(count);
    let mut is_right = true;
    for byte in front {
        is_right &= (least <= *byte) & (*byte <= most);
    }
    let column = Vec::from_slice(alloc, front)?;
    Ok((column, is_right))
}

/// So many codes of names of 1 to 256 bytes, or 0.
pub fn text_codes_in(
    alloc: Global,
    names: &[String],
    count: usize,
    bytes: &[u8],
) -> Result<(Vec<u32>, bool), AllocError>
    requires { 4 * count ≤ length bytes.now }
    ensures { IfOk result (λ read. IsTrue read.1
        → times (text_code_at (map string_bytes names.now)) count bytes.now
        ≡ Ok (read.0.items, drop (4 * count) bytes.now)) }
{
    let mut column = vec![in alloc; 0; count]?;
    let mut is_right = true;
    for place in 0..count {
        let code = narrow_at(bytes, 4 * place);
        is_right &= is_text_code(names, code);
        column[place] = code;
    }
    Ok((column, is_right))
}
