//! Readers of single columns. Each returns the values and the bytes after them. Memory is taken for a whole column only where all its bytes are there, else as
//! each value is read.
ghost use Rattle.std.specs.Prelude.{◌≡◌, ◌<◌, ◌≤◌, ◌^◌, length, map, string_bytes, IfErr, IfOk, OnOk};
ghost use Rattle.fw_bytes.specs.Reading.{Fails, Gives, times};
ghost use Rattle.fw_row_table.specs.Table.{most_column_rows};
ghost use Rattle.fw_fields.specs.Reading.{nanos_at, second_at, tag_text_at};
ghost use Rattle.fw_column_bytes.specs.Spelled.{AreSpelled, ReadsNext};
ghost use Rattle.fw_column_bytes.specs.Reading.{byte_at, is_text_code, names_at, place_at, tag_places_at, text_code_at};

use crate::whole::{amounts_in, bytes_in, seconds_in, text_codes_in};
use fw_bytes::{ReadError, u32_at};
use fw_charge::{Tags, is_short_text};
use fw_columns::RowLists;
use fw_fields::{nanos_of, second_of, tag_text_of};
use fw_row_table::Packed;
use std::alloc::Global;
use std::mem::replace;

/// So many amounts.
pub fn amounts_after(
    alloc: Global,
    count: u32,
    bytes: &[u8],
) -> Result<(Vec<i64>, &[u8]), ReadError>
    ensures { Gives (λ x. (x.0.items, x.1.now)) result (times nanos_at count bytes.now) }
{
    let len = 8 * count as usize;
    if len <= bytes.len() {
        let (column, is_right) = amounts_in(alloc, count as usize, bytes)?;
        if is_right {
            let (_, rest) = bytes.split_at(len);
            return Ok((column, rest));
        }
    }
    amounts_to_fault(alloc, count, bytes)
}

/// The same value by value, to find the first fault.
fn amounts_to_fault(alloc: Global, count: u32, bytes: &[u8]) -> Result<(Vec<i64>, &[u8]), ReadError>
    ensures { Gives (λ x. (x.0.items, x.1.now)) result (times nanos_at count bytes.now) }
{
    let mut column = Vec::new(alloc);
    let mut rest = bytes;
    for _ in 0..count {
        let (value, after) = nanos_of(rest)?;
        column.push(value)?;
        rest = after;
    }
    Ok((column, rest))
}

/// So many seconds.
pub fn seconds_after(
    alloc: Global,
    count: u32,
    bytes: &[u8],
) -> Result<(Vec<u64>, &[u8]), ReadError>
    ensures { Gives (λ x. (x.0.items, x.1.now)) result (times second_at count bytes.now) }
{
    let len = 8 * count as usize;
    if len <= bytes.len() {
        let (column, is_right) = seconds_in(alloc, count as usize, bytes)?;
        if is_right {
            let (_, rest) = bytes.split_at(len);
            return Ok((column, rest));
        }
    }
    seconds_to_fault(alloc, count, bytes)
}

/// The same value by value, to find the first fault.
fn seconds_to_fault(alloc: Global, count: u32, bytes: &[u8]) -> Result<(Vec<u64>, &[u8]), ReadError>
    ensures { Gives (λ x. (x.0.items, x.1.now)) result (times second_at count bytes.now) }
{
    let mut column = Vec::new(alloc);
    let mut rest = bytes;
    for _ in 0..count {
        let (value, after) = second_of(rest)?;
        column.push(value)?;
        rest = after;
    }
    Ok((column, rest))
}

/// A byte from `least` to `most`.
#[tactic(auto, unfolding(crate::specs::Reading::byte_at, fw_bytes::specs::Reading::checked, fw_bytes::specs::Reading::code_at))]
pub fn byte_of(least: u8, most: u8, bytes: &[u8]) -> Result<(u8, &[u8]), ReadError>
    ensures { Gives (λ x. (x.0, x.1.now)) result (byte_at least most bytes.now) }
{
    let (byte, rest) = bytes.split_first().ok_or(ReadError::Corrupt(0))?;
    if *byte < least || *byte > most {
        return Err(ReadError::Corrupt(bytes.len()));
    }
    Ok((*byte, rest))
}

/// So many bytes from `least` to `most`.
pub fn bytes_after(
    alloc: Global,
    least: u8,
    most: u8,
    count: u32,
    bytes: &[u8],
) -> Result<(Vec<u8>, &[u8]), ReadError>
    ensures { Gives (λ x. (x.0.items, x.1.now)) result
        (times (byte_at least most) count bytes.now) }
{
    let len = count as usize;
    if len <= bytes.len() {
        let (column, is_right) = bytes_in(alloc, least, most, len, bytes)?;
        if is_right {
            let (_, rest) = bytes.split_at(len);
            return Ok((column, rest));
        }
    }
    bytes_to_fault(alloc, least, most, count, bytes)
}

/// The same value by value, to find the first fault.
fn bytes_to_fault(
    alloc: Global,
    least: u8,
    most: u8,
    count: u32,
    bytes: &[u8],
) -> Result<(Vec<u8>, &[u8]), ReadError>
    ensures { Gives (λ x. (x.0.items, x.1.now)) result
        (times (byte_at least most) count bytes.now) }
{
    let mut column = Vec::new(alloc);
    let mut rest = bytes;
    for _ in 0..count {
        let (value, after) = byte_of(least, most, rest)?;
        column.push(value)?;
        rest = after;
    }
    Ok((column, rest))
}

/// Whether a code is 0 or that of a name of 1 to 256 bytes.
#[tactic(auto, unfolding(fw_row_table::specs::Table::text_at))]
pub fn is_text_code(names: &[String], code: u32) -> bool
    ensures { result ≡ is_text_code (map string_bytes names.now) code }
{
    match code.checked_sub(1) {
        None => true,
        Some(place) => match names.get(place as usize) {
            Some(text) => is_short_text(text.as_str()),
            None => false,
        },
    }
}

/// The code of a name of 1 to 256 bytes, or 0.
#[tactic(auto, unfolding(crate::specs::Reading::text_code_at, fw_bytes::specs::Reading::checked))]
fn text_code_of<'a>(names: &[String], bytes: &'a [u8]) -> Result<(u32, &'a [u8]), ReadError>
    ensures { Gives (λ x. (x.0, x.1.now)) result
        (text_code_at (map string_bytes names.now) bytes.now) }
{
    let (code, rest) = u32_at(bytes)?;
    if !is_text_code(names, code) {
        return Err(ReadError::Corrupt(bytes.len()));
    }
    Ok((code, rest))
}

/// So many codes of names of 1 to 256 bytes, or 0.
pub fn text_codes_after<'a>(
    alloc: Global,
    names: &[String],
    count: u32,
    bytes: &'a [u8],
) -> Result<(Vec<u32>, &'a [u8]), ReadError>
    ensures { Gives (λ x. (x.0.items, x.1.now)) result
        (times (text_code_at (map string_bytes names.now)) count bytes.now) }
{
    let len = 4 * count as usize;
    if len <= bytes.len() {
        let (column, is_right) = text_codes_in(alloc, names, count as usize, bytes)?;
        if is_right {
            let (_, rest) = bytes.split_at(len);
            return Ok((column, rest));
        }
    }
    text_codes_to_fault(alloc, names, count, bytes)
}

/// The same value by value, to find the first fault.
fn text_codes_to_fault<'a>(
    alloc: Global,
    names: &[String],
    count: u32,
    bytes: &'a [u8],
) -> Result<(Vec<u32>, &'a [u8]), ReadError>
    ensures { Gives (λ x. (x.0.items, x.1.now)) result
        (times (text_code_at (map string_bytes names.now)) count bytes.now) }
{
    let mut column = Vec::new(alloc);
    let mut rest = bytes;
    for _ in 0..count {
        let (value, after) = text_code_of(names, rest)?;
        column.push(value)?;
        rest = after;
    }
    Ok((column, rest))
}

/// The place of the name with a code.
#[tactic(auto, unfolding(crate::specs::Reading::place_at, fw_bytes::specs::Reading::checked, fw_bytes::specs::Reading::seen))]
fn place_of<'a>(names: &[String], bytes: &'a [u8]) -> Result<(u32, &'a [u8]), ReadError>
    ensures { Gives (λ x. (x.0, x.1.now)) result (place_at (map string_bytes names.now) bytes.now) }
{
    let (code, rest) = u32_at(bytes)?;
    if code == 0 || code as usize > names.len() {
        return Err(ReadError::Corrupt(bytes.len()));
    }
    Ok((code - 1, rest))
}

/// The places of so many names, into a list that is kept for that.
fn places_into<'a>(
    list: &mut Vec<u32>,
    names: &[String],
    count: u32,
    bytes: &'a [u8],
) -> Result<&'a [u8], ReadError>
    ensures { Gives (λ x. (list.new.items, x.now)) result
        (times (place_at (map string_bytes names.now)) count bytes.now) }
{
    list.clear();
    let mut rest = bytes;
    for _ in 0..count {
        let (value, after) = place_of(names, rest)?;
        list.push(value)?;
        rest = after;
    }
    Ok(rest)
}

/// The places of the texts of the tags of a row, into a list that is kept for that.
#[tactic(auto, unfolding(crate::specs::Reading::tag_places_at, crate::specs::Reading::tag_count_at, fw_bytes::specs::Reading::checked))]
fn tag_places_into<'a>(
    list: &mut Vec<u32>,
    names: &[String],
    bytes: &'a [u8],
) -> Result<&'a [u8], ReadError>
    ensures { Gives (λ x. (list.new.items, x.now)) result
        (tag_places_at (map string_bytes names.now) bytes.now) }
{
    let (count, rest) = u32_at(bytes)?;
    if count > Tags::MOST as u32 {
        return Err(ReadError::Corrupt(bytes.len()));
    }
    let rest = places_into(list, names, 2 * count, rest)?;
    Ok(rest)
}

/// Adds the list of the next row to those of the rows before it, and answers its code. Where the list that is guessed is spelled next, its bytes aren't
/// read again. `list` is kept for the places that are read.
fn row_list_into<'a>(
    column: &mut RowLists,
    spelled: &mut Packed<u8>,
    list: &mut Vec<u32>,
    names: &[String],
    guess: u32,
    bytes: &'a [u8],
) -> Result<(u32, &'a [u8]), ReadError>
    requires few { length column.old < 2 ^ 30 }
    requires spelled { AreSpelled (map string_bytes names.now) column.old spelled.old }
    ensures read { IfOk result (λ x. ReadsNext (map string_bytes names.now)
        column.old column.new bytes.now x.1.now) }
    ensures fault { IfErr result (λ e. Fails e
        (tag_places_at (map string_bytes names.now) bytes.now)) }
    ensures spelled { OnOk result
        (AreSpelled (map string_bytes names.now) column.new spelled.new) }
{
    if (guess as usize) < spelled.len() {
        if let Some(rest) = bytes.strip_prefix(spelled.list(guess as usize)) {
            column.push_again(guess)?;
            return Ok((guess, rest));
        }
    }
    let rest = tag_places_into(list, names, bytes)?;
    let code = column.push(list.as_slice())?;
    if code as usize == spelled.len() {
        let (front, _) = bytes.split_at(bytes.len() - rest.len());
        let before = replace(spelled, Packed::new(*list.allocator()));
        *spelled = before.with(front)?;
    }
    Ok((code, rest))
}

/// The places of the texts of the tags of so many rows, each list of them once. Rows of one hour mostly come in the order of those of the hour before, so
/// the list that came behind that of the row before is guessed.
pub fn row_lists_after<'a>(
    alloc: Global,
    names: &[String],
    count: u32,
    bytes: &'a [u8],
) -> Result<(RowLists, &'a [u8]), ReadError>
    requires { count ≤ most_column_rows }
    ensures { Gives (λ x. (x.0, x.1.now)) result
        (times (tag_places_at (map string_bytes names.now)) count bytes.now) }
{
    let mut column = RowLists::new(alloc);
    let mut spelled = Packed::new(alloc);
    let mut list = Vec::new(alloc);
    let mut guess = 0;
    let mut rest = bytes;
    for _ in 0..count {
        let (code, after) = row_list_into(
            &mut column,
            &mut spelled,
            &mut list,
            names,
            guess,
            rest,
        )?;
        guess = code.saturating_add(1);
        rest = after;
    }
    Ok((column, rest))
}

/// So many names.
fn names_after(alloc: Global, count: u32, bytes: &[u8]) -> Result<(Vec<String>, &[u8]), ReadError>
    ensures { Gives (λ x. (map string_bytes x.0.items, x.1.now)) result
        (times tag_text_at count bytes.now) }
{
    let mut column = Vec::new(alloc);
    let mut rest = bytes;
    for _ in 0..count {
        let (value, after) = tag_text_of(alloc, rest)?;
        column.push(value)?;
        rest = after;
    }
    Ok((column, rest))
}

/// The names behind their number.
#[tactic(auto, unfolding(crate::specs::Reading::names_at, fw_bytes::specs::Reading::list_at))]
pub fn names_of(alloc: Global, bytes: &[u8]) -> Result<(Vec<String>, &[u8]), ReadError>
    ensures { Gives (λ x. (map string_bytes x.0.items, x.1.now)) result (names_at bytes.now) }
{
    let (count, rest) = u32_at(bytes)?;
    let (names, rest) = names_after(alloc, count, rest)?;
    Ok((names, rest))
}
