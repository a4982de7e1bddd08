//! Entries, groups, segments and states: bytes by hand, read and written.
use crate::decoders::joined;
use crate::ended::{check, check_all};
use crate::vectors::TAX;
use fw_entry_bytes::Form;
use fw_segment::{
    DecodeFault, SegmentLayout, decode_entry, decode_group, decode_segment, decode_state,
    encode_entry, encode_group, encode_segment, encode_state,
};
use std::alloc::{AllocError, Global};

/// The group of one entry: from the origin `a`, number 1, the policy with the key `t` and no rules.
const GROUP: [u8; 27] = [
    1, 0, 0, 0, 1, 0, 0, 0, b'a', 1, 0, 0, 0, 0, 0, 0, 0, 3, 1, 0, 0, 0, b't', 0, 0, 0, 0,
];

/// That entry alone.
const ENTRY: [u8; 23] = [
    1, 0, 0, 0, b'a', 1, 0, 0, 0, 0, 0, 0, 0, 3, 1, 0, 0, 0, b't', 0, 0, 0, 0,
];

/// The segment of one row: a tax of 1 nano in the first hour of 1970.
const SEGMENT: [u8; 50] = [
    1, 1, 0, 0, 0, 1, 0, 0, 0, 0, 0, 0, 0, 1, 0, 0, 0, 0, 0, 0, 0, 3, 0, 0, 0, 0, 0, 0, 0, 0, 0,
    0x10, 0x0e, 0, 0, 0, 0, 0, 0, 0, 0, 0, 0, 0, 0, 0, 0, 0, 0, 0,
];

/// The state of dollars in which nothing was accepted.
const EMPTY: [u8; 19] = [
    3, 0, 0, 0, b'U', b'S', b'D', 0, 0, 0, 0, 0, 0, 0, 0, 0, 0, 0, 0,
];

/// The start of a state of dollars with two heads: each is a post of one row, the first from `a`, the second from `b`.
const TWO_POSTS: [u8; 51] = [
    3, 0, 0, 0, b'U', b'S', b'D', 2, 0, 0, 0, 0, 0, 0, 0, 1, 0, 0, 0, b'a', 1, 0, 0, 0, 0, 0, 0, 0,
    1, 1, 0, 0, 0, 1, 0, 0, 0, b'b', 1, 0, 0, 0, 0, 0, 0, 0, 1, 1, 0, 0, 0,
];

/// The same row by column.
const COLUMNS: [u8; 74] = [
    2, 1, 0, 0, 0, 0, 0, 0, 0, 1, 0, 0, 0, 0, 0, 0, 0, 1, 0, 0, 0, 0, 0, 0, 0, 3, 0, 0, 0, 0, 0, 0,
    0, 0, 0, 16, 14, 0, 0, 0, 0, 0, 0, 0, 0, 0, 0, 0, 0, 0, 0, 0, 0, 0, 0, 0, 0, 0, 0, 0, 0, 0, 0,
    0, 0, 0, 0, 0, 0, 0, 0, 0, 0, 0,
];

/// The state after the commitment, the two rows and the policy of `crates/focusd/stdin`, as another program spelled it.
const STORED_RUN: [u8; 425] = [
    3, 0, 0, 0, 85, 83, 68, 3, 0, 0, 0, 0, 0, 0, 0, 7, 0, 0, 0, 98, 105, 108, 108, 105, 110, 103,
    1, 0, 0, 0, 0, 0, 0, 0, 2, 4, 0, 0, 0, 99, 100, 45, 49, 1, 0, 1, 0, 0, 0, 4, 0, 0, 0, 116, 101,
    97, 109, 8, 0, 0, 0, 112, 108, 97, 116, 102, 111, 114, 109, 8, 57, 7, 0, 3, 0, 0, 0, 0, 148,
    53, 119, 0, 0, 0, 0, 5, 0, 0, 0, 72, 111, 117, 114, 115, 1, 0, 0, 0, 2, 0, 0, 0, 118, 109, 1,
    0, 0, 0, 128, 0, 146, 101, 0, 0, 0, 0, 10, 0, 0, 0, 0, 0, 0, 0, 7, 0, 0, 0, 98, 105, 108, 108,
    105, 110, 103, 2, 0, 0, 0, 0, 0, 0, 0, 1, 2, 0, 0, 0, 7, 0, 0, 0, 98, 105, 108, 108, 105, 110,
    103, 3, 0, 0, 0, 0, 0, 0, 0, 3, 4, 0, 0, 0, 116, 101, 97, 109, 1, 0, 0, 0, 8, 0, 0, 0, 112,
    108, 97, 116, 102, 111, 114, 109, 1, 2, 0, 0, 0, 4, 0, 0, 0, 100, 97, 116, 97, 1, 0, 0, 0, 0,
    0, 0, 0, 3, 0, 0, 0, 119, 101, 98, 3, 0, 0, 0, 0, 0, 0, 0, 1, 0, 0, 0, 2, 2, 0, 0, 0, 5, 0, 0,
    0, 5, 0, 0, 0, 72, 111, 117, 114, 115, 2, 0, 0, 0, 118, 109, 4, 0, 0, 0, 116, 101, 97, 109, 3,
    0, 0, 0, 119, 101, 98, 4, 0, 0, 0, 100, 97, 116, 97, 0, 225, 245, 5, 0, 0, 0, 0, 128, 240, 250,
    2, 0, 0, 0, 0, 0, 225, 245, 5, 0, 0, 0, 0, 128, 240, 250, 2, 0, 0, 0, 0, 1, 1, 0, 0, 128, 0,
    146, 101, 0, 0, 0, 0, 128, 0, 146, 101, 0, 0, 0, 0, 144, 14, 146, 101, 0, 0, 0, 0, 144, 14,
    146, 101, 0, 0, 0, 0, 0, 0, 0, 0, 0, 0, 0, 0, 0, 0, 0, 0, 1, 1, 0, 202, 154, 59, 0, 0, 0, 0, 0,
    101, 205, 29, 0, 0, 0, 0, 1, 0, 0, 0, 1, 0, 0, 0, 2, 0, 0, 0, 2, 0, 0, 0, 0, 0, 0, 0, 0, 0, 0,
    0, 1, 0, 0, 0, 3, 0, 0, 0, 4, 0, 0, 0, 1, 0, 0, 0, 3, 0, 0, 0, 5, 0, 0, 0,
];

/// That state with its rows one by one.
const STORED_ROWS: [u8; 404] = [
    3, 0, 0, 0, 85, 83, 68, 3, 0, 0, 0, 0, 0, 0, 0, 7, 0, 0, 0, 98, 105, 108, 108, 105, 110, 103,
    1, 0, 0, 0, 0, 0, 0, 0, 2, 4, 0, 0, 0, 99, 100, 45, 49, 1, 0, 1, 0, 0, 0, 4, 0, 0, 0, 116, 101,
    97, 109, 8, 0, 0, 0, 112, 108, 97, 116, 102, 111, 114, 109, 8, 57, 7, 0, 3, 0, 0, 0, 0, 148,
    53, 119, 0, 0, 0, 0, 5, 0, 0, 0, 72, 111, 117, 114, 115, 1, 0, 0, 0, 2, 0, 0, 0, 118, 109, 1,
    0, 0, 0, 128, 0, 146, 101, 0, 0, 0, 0, 10, 0, 0, 0, 0, 0, 0, 0, 7, 0, 0, 0, 98, 105, 108, 108,
    105, 110, 103, 2, 0, 0, 0, 0, 0, 0, 0, 1, 2, 0, 0, 0, 7, 0, 0, 0, 98, 105, 108, 108, 105, 110,
    103, 3, 0, 0, 0, 0, 0, 0, 0, 3, 4, 0, 0, 0, 116, 101, 97, 109, 1, 0, 0, 0, 8, 0, 0, 0, 112,
    108, 97, 116, 102, 111, 114, 109, 1, 2, 0, 0, 0, 4, 0, 0, 0, 100, 97, 116, 97, 1, 0, 0, 0, 0,
    0, 0, 0, 3, 0, 0, 0, 119, 101, 98, 3, 0, 0, 0, 0, 0, 0, 0, 1, 0, 0, 0, 1, 2, 0, 0, 0, 0, 225,
    245, 5, 0, 0, 0, 0, 0, 225, 245, 5, 0, 0, 0, 0, 1, 0, 128, 0, 146, 101, 0, 0, 0, 0, 144, 14,
    146, 101, 0, 0, 0, 0, 0, 0, 0, 1, 0, 202, 154, 59, 0, 0, 0, 0, 1, 5, 0, 0, 0, 72, 111, 117,
    114, 115, 1, 2, 0, 0, 0, 118, 109, 0, 1, 0, 0, 0, 4, 0, 0, 0, 116, 101, 97, 109, 3, 0, 0, 0,
    119, 101, 98, 128, 240, 250, 2, 0, 0, 0, 0, 128, 240, 250, 2, 0, 0, 0, 0, 1, 0, 128, 0, 146,
    101, 0, 0, 0, 0, 144, 14, 146, 101, 0, 0, 0, 0, 0, 0, 0, 1, 0, 101, 205, 29, 0, 0, 0, 0, 1, 5,
    0, 0, 0, 72, 111, 117, 114, 115, 1, 2, 0, 0, 0, 118, 109, 0, 1, 0, 0, 0, 4, 0, 0, 0, 116, 101,
    97, 109, 4, 0, 0, 0, 100, 97, 116, 97,
];

/// That state with a purchase more for its commitment: as much as goes with the 10 nanos that it cost before.
const STORED_ADDED: [u8; 469] = [
    3, 0, 0, 0, 85, 83, 68, 4, 0, 0, 0, 0, 0, 0, 0, 7, 0, 0, 0, 98, 105, 108, 108, 105, 110, 103,
    1, 0, 0, 0, 0, 0, 0, 0, 2, 4, 0, 0, 0, 99, 100, 45, 49, 1, 0, 1, 0, 0, 0, 4, 0, 0, 0, 116, 101,
    97, 109, 8, 0, 0, 0, 112, 108, 97, 116, 102, 111, 114, 109, 8, 57, 7, 0, 3, 0, 0, 0, 0, 148,
    53, 119, 0, 0, 0, 0, 5, 0, 0, 0, 72, 111, 117, 114, 115, 1, 0, 0, 0, 2, 0, 0, 0, 118, 109, 1,
    0, 0, 0, 128, 0, 146, 101, 0, 0, 0, 0, 10, 0, 0, 0, 0, 0, 0, 0, 7, 0, 0, 0, 98, 105, 108, 108,
    105, 110, 103, 2, 0, 0, 0, 0, 0, 0, 0, 1, 2, 0, 0, 0, 7, 0, 0, 0, 98, 105, 108, 108, 105, 110,
    103, 3, 0, 0, 0, 0, 0, 0, 0, 3, 4, 0, 0, 0, 116, 101, 97, 109, 1, 0, 0, 0, 8, 0, 0, 0, 112,
    108, 97, 116, 102, 111, 114, 109, 1, 2, 0, 0, 0, 4, 0, 0, 0, 100, 97, 116, 97, 1, 0, 0, 0, 0,
    0, 0, 0, 3, 0, 0, 0, 119, 101, 98, 3, 0, 0, 0, 0, 0, 0, 0, 7, 0, 0, 0, 98, 105, 108, 108, 105,
    110, 103, 4, 0, 0, 0, 0, 0, 0, 0, 5, 4, 0, 0, 0, 99, 100, 45, 49, 144, 14, 146, 101, 0, 0, 0,
    0, 246, 255, 137, 93, 120, 69, 99, 1, 1, 0, 0, 0, 2, 2, 0, 0, 0, 5, 0, 0, 0, 5, 0, 0, 0, 72,
    111, 117, 114, 115, 2, 0, 0, 0, 118, 109, 4, 0, 0, 0, 116, 101, 97, 109, 3, 0, 0, 0, 119, 101,
    98, 4, 0, 0, 0, 100, 97, 116, 97, 0, 225, 245, 5, 0, 0, 0, 0, 128, 240, 250, 2, 0, 0, 0, 0, 0,
    225, 245, 5, 0, 0, 0, 0, 128, 240, 250, 2, 0, 0, 0, 0, 1, 1, 0, 0, 128, 0, 146, 101, 0, 0, 0,
    0, 128, 0, 146, 101, 0, 0, 0, 0, 144, 14, 146, 101, 0, 0, 0, 0, 144, 14, 146, 101, 0, 0, 0, 0,
    0, 0, 0, 0, 0, 0, 0, 0, 0, 0, 0, 0, 1, 1, 0, 202, 154, 59, 0, 0, 0, 0, 0, 101, 205, 29, 0, 0,
    0, 0, 1, 0, 0, 0, 1, 0, 0, 0, 2, 0, 0, 0, 2, 0, 0, 0, 0, 0, 0, 0, 0, 0, 0, 0, 1, 0, 0, 0, 3, 0,
    0, 0, 4, 0, 0, 0, 1, 0, 0, 0, 3, 0, 0, 0, 5, 0, 0, 0,
];

/// Kind 5, from `billing`, number 4: two nanos that are paid for `cd-1` in second 1,704,070,800, as another program spelled it.
const ADD: [u8; 44] = [
    7, 0, 0, 0, 98, 105, 108, 108, 105, 110, 103, 4, 0, 0, 0, 0, 0, 0, 0, 5, 4, 0, 0, 0, 99, 100,
    45, 49, 144, 14, 146, 101, 0, 0, 0, 0, 2, 0, 0, 0, 0, 0, 0, 0,
];

/// The group of that entry, and of the one behind it, which adds the same.
const ADD_TWICE: [u8; 92] = [
    2, 0, 0, 0, 7, 0, 0, 0, 98, 105, 108, 108, 105, 110, 103, 4, 0, 0, 0, 0, 0, 0, 0, 5, 4, 0, 0,
    0, 99, 100, 45, 49, 144, 14, 146, 101, 0, 0, 0, 0, 2, 0, 0, 0, 0, 0, 0, 0, 7, 0, 0, 0, 98, 105,
    108, 108, 105, 110, 103, 5, 0, 0, 0, 0, 0, 0, 0, 5, 4, 0, 0, 0, 99, 100, 45, 49, 144, 14, 146,
    101, 0, 0, 0, 0, 2, 0, 0, 0, 0, 0, 0, 0,
];

/// What bytes are read as.
#[derive(Clone, Copy, Drop)]
enum What {
    Entry(Form),
    Group(Form),
    Segment,
    State(Form),
}

/// Reads the bytes and writes what was read.
fn again(alloc: Global, what: What, bytes: &[u8]) -> Result<Vec<u8>, DecodeFault> {
    match what {
        What::Entry(form) => entry_again(alloc, form, bytes),
        What::Group(form) => group_again(alloc, form, bytes),
        What::Segment => segment_again(alloc, bytes),
        What::State(form) => state_again(alloc, form, bytes),
    }
}

fn entry_again(alloc: Global, form: Form, bytes: &[u8]) -> Result<Vec<u8>, DecodeFault> {
    let one = decode_entry(alloc, form, bytes)?;
    encode_entry(alloc, &one).or(Err(DecodeFault::NoMemory))
}

fn group_again(alloc: Global, form: Form, bytes: &[u8]) -> Result<Vec<u8>, DecodeFault> {
    let one = decode_group(alloc, form, bytes)?;
    encode_group(alloc, &one).or(Err(DecodeFault::NoMemory))
}

fn segment_again(alloc: Global, bytes: &[u8]) -> Result<Vec<u8>, DecodeFault> {
    let one = decode_segment(alloc, bytes)?;
    let layout = match bytes {
        [2, ..] => SegmentLayout::Columns,
        _ => SegmentLayout::Rows,
    };
    encode_segment(alloc, &one, layout).or(Err(DecodeFault::NoMemory))
}

fn state_again(alloc: Global, form: Form, bytes: &[u8]) -> Result<Vec<u8>, DecodeFault> {
    let one = decode_state(alloc, form, bytes)?;
    encode_state(alloc, &one).or(Err(DecodeFault::NoMemory))
}

/// Where the first fault is, if there is one.
fn fault(alloc: Global, what: What, bytes: &[u8]) -> Result<Option<usize>, AllocError> {
    match again(alloc, what, bytes) {
        Ok(_) => Ok(None),
        Err(DecodeFault::Corrupt { at }) => Ok(Some(at)),
        Err(DecodeFault::NoMemory) => Err(AllocError),
    }
}

/// Where the first fault is once the byte at a place is another.
fn fault_with(
    alloc: Global,
    what: What,
    bytes: &[u8],
    place: usize,
    byte: u8,
) -> Result<Option<usize>, AllocError> {
    let mut changed = joined(alloc, &[bytes])?;
    if place < changed.len() {
        changed[place] = byte;
    }
    fault(alloc, what, &changed)
}

/// Whether the bytes are read, and written as others.
fn is_written_as(
    alloc: Global,
    what: What,
    bytes: &[u8],
    others: &[u8],
) -> Result<bool, AllocError> {
    match again(alloc, what, bytes) {
        Ok(written) => Ok(written.as_slice() == others),
        Err(DecodeFault::Corrupt { .. }) => Ok(false),
        Err(DecodeFault::NoMemory) => Err(AllocError),
    }
}

/// Bytes by hand, and what they spell.
const SPELLED: &[(What, &[u8])] = &[
    (What::Entry(Form::One), &ENTRY),
    (What::Group(Form::One), &GROUP),
    (What::Segment, &SEGMENT),
    (What::Segment, &COLUMNS),
    (What::State(Form::One), &EMPTY),
    (What::State(Form::One), &STORED_RUN),
    (What::Entry(Form::Two), &ADD),
    (What::Group(Form::Two), &ADD_TWICE),
];

/// How many fronts of the bytes have a fault: each of them should.
fn faulty_fronts(alloc: Global, what: What, bytes: &[u8]) -> Result<usize, AllocError> {
    let mut count = 0_usize;
    for len in 0..bytes.len() {
        if fault(alloc, what, &bytes[..len])?.is_some() {
            count = count.saturating_add(1);
        }
    }
    Ok(count)
}

/// Whether changed bytes are read and written again as they are, or refused with a fault within them.
fn is_noticed(alloc: Global, what: What, changed: &[u8]) -> Result<bool, AllocError> {
    match again(alloc, what, changed) {
        Ok(written) => Ok(written.as_slice() == changed),
        Err(DecodeFault::Corrupt { at }) => Ok(at <= changed.len()),
        Err(DecodeFault::NoMemory) => Err(AllocError),
    }
}

/// Whether it is noticed that the byte at a place is another.
fn is_change_noticed(
    alloc: Global,
    what: What,
    bytes: &[u8],
    place: usize,
    byte: u8,
) -> Result<bool, AllocError> {
    let front = bytes.get(..place).unwrap_or(bytes);
    let rest = bytes.get(place.saturating_add(1)..).unwrap_or(&[]);
    let changed = joined(alloc, &[front, &[byte], rest])?;
    is_noticed(alloc, what, &changed)
}

/// How many changes of one byte, each to each other value, are noticed. Each should be.
fn noticed_changes(alloc: Global, what: What, bytes: &[u8]) -> Result<usize, AllocError> {
    let mut count = 0_usize;
    for (place, byte) in bytes.iter().enumerate() {
        for other in 1..=255_u8 {
            if is_change_noticed(alloc, what, bytes, place, *byte ^ other)? {
                count = count.saturating_add(1);
            }
        }
    }
    Ok(count)
}

/// The place of the first of the bytes that are not written again as they are.
fn first_written_otherwise(alloc: Global) -> Result<Option<usize>, AllocError> {
    for (place, (what, bytes)) in SPELLED.iter().enumerate() {
        if !is_written_as(alloc, *what, bytes, bytes)? {
            return Ok(Some(place));
        }
    }
    Ok(None)
}

#[test]
fn spellings_by_hand(rt: HostRuntime) {
    check_all(&rt, first_written_otherwise(rt.alloc()));
}

/// The place of the first of the bytes of which some front is read.
fn first_with_a_read_front(alloc: Global) -> Result<Option<usize>, AllocError> {
    for (place, (what, bytes)) in SPELLED.iter().enumerate() {
        if faulty_fronts(alloc, *what, bytes)? != bytes.len() {
            return Ok(Some(place));
        }
    }
    Ok(None)
}

#[test]
fn no_front_is_read(rt: HostRuntime) {
    check_all(&rt, first_with_a_read_front(rt.alloc()));
}

/// The place of the first of the bytes of which some change is not noticed, and how many changes there are up to it.
fn changes_of_all(alloc: Global) -> Result<(Option<usize>, usize), AllocError> {
    let mut all = 0_usize;
    for (place, (what, bytes)) in SPELLED.iter().enumerate() {
        let changes = bytes.len().saturating_mul(255);
        if noticed_changes(alloc, *what, bytes)? != changes {
            return Ok((Some(place), all));
        }
        all = all.saturating_add(changes);
    }
    Ok((None, all))
}

/// The same where a change is not noticed, or there are not as many as there are.
fn wrong_changes(alloc: Global) -> Result<Option<(Option<usize>, usize)>, AllocError> {
    let found = changes_of_all(alloc)?;
    Ok(if found == (None, 192_270) {
        None
    } else {
        Some(found)
    })
}

#[test]
fn each_change_of_a_byte_is_noticed(rt: HostRuntime) {
    check_all(&rt, wrong_changes(rt.alloc()));
}

/// Changes of a byte: its place, what it is then, and the place of the fault.
const CHANGED: &[(What, &[u8], usize, u8, usize)] = &[
    // An origin of another letter, kind 9, no entry, 65 entries.
    (What::Group(Form::One), &GROUP, 9, 0, 9),
    (What::Group(Form::One), &GROUP, 17, 9, 17),
    (What::Group(Form::One), &GROUP, 0, 0, 0),
    (What::Group(Form::One), &GROUP, 0, 65, 0),
    // Another layout, no rows, a row that ends before it starts.
    (What::Segment, &SEGMENT, 0, 3, 0),
    (What::Segment, &SEGMENT, 1, 0, 1),
    (What::Segment, &SEGMENT, 25, 1, 5),
    // By column: another layout, no rows, a category of no row, a code of no name, a flag that is none, more tags than a row has.
    (What::Segment, &COLUMNS, 0, 3, 0),
    (What::Segment, &COLUMNS, 1, 0, 1),
    (What::Segment, &COLUMNS, 25, 6, 25),
    (What::Segment, &COLUMNS, 43, 1, 43),
    (What::Segment, &COLUMNS, 49, 2, 49),
    (What::Segment, &COLUMNS, 71, 2, 70),
    // A row that ends before it starts, a status without an id, an amount where the quantity is null.
    (What::Segment, &COLUMNS, 29, 1, 0),
    (What::Segment, &COLUMNS, 48, 1, 0),
    (What::Segment, &COLUMNS, 50, 1, 0),
    // A small letter in the currency, a head of one row less, a number that was used, a number too great, a segment of another layout.
    (What::State(Form::One), &STORED_RUN, 6, b'd', 0),
    (What::State(Form::One), &STORED_RUN, 144, 1, 0),
    (What::State(Form::One), &STORED_RUN, 135, 1, 124),
    (What::State(Form::One), &STORED_RUN, 159, 5, 148),
    (What::State(Form::One), &STORED_RUN, 232, 3, 232),
    (What::State(Form::One), &STORED_ROWS, 232, 3, 232),
    // The first form has no kinds 4 and 5, and neither form has the kind 6. The id of no commitment, a nano too much, a number that was used.
    (What::Entry(Form::One), &ADD, 43, 0, 19),
    (What::Entry(Form::One), &ADD, 19, 4, 19),
    (What::Entry(Form::Two), &ADD, 19, 6, 19),
    (What::Group(Form::One), &ADD_TWICE, 91, 0, 23),
    (What::Group(Form::Two), &ADD_TWICE, 67, 6, 67),
    (What::State(Form::One), &STORED_ADDED, 271, 0, 247),
    (What::State(Form::One), &STORED_ADDED, 247, 4, 247),
    (What::State(Form::Two), &STORED_ADDED, 247, 6, 247),
    (What::State(Form::Two), &STORED_ADDED, 255, 50, 228),
    (What::State(Form::Two), &STORED_ADDED, 264, 247, 228),
    (What::State(Form::Two), &STORED_ADDED, 239, 3, 228),
];

/// Bytes that spell nothing, part by part, and the place of the fault.
const BROKEN: &[(What, &[&[u8]], usize)] = &[
    // The group without its last byte, and a number of entries that no group has.
    (
        What::Group(Form::One),
        &[&[
            1, 0, 0, 0, 1, 0, 0, 0, b'a', 1, 0, 0, 0, 0, 0, 0, 0, 3, 1, 0, 0, 0, b't', 0, 0, 0,
        ]],
        23,
    ),
    (What::Group(Form::One), &[&[255, 255, 255, 255]], 0),
    // 65,537 rows.
    (What::Segment, &[&[1, 1, 0, 1, 0], &TAX], 1),
    (What::Segment, &[&[2, 1, 0, 1, 0], &COLUMNS], 1),
    // A byte too many.
    (What::Group(Form::One), &[&GROUP, &[0]], 27),
    (What::Segment, &[&SEGMENT, &[0]], 50),
    (What::Segment, &[&COLUMNS, &[0]], 74),
    (What::State(Form::One), &[&STORED_RUN, &[0]], 425),
    (What::State(Form::One), &[&STORED_ROWS, &[0]], 404),
    (What::Entry(Form::Two), &[&ADD, &[0]], 44),
    (What::State(Form::Two), &[&STORED_ADDED, &[0]], 469),
];

/// The place of the first of the changes that has no fault or has it elsewhere.
fn first_wrong_change(alloc: Global) -> Result<Option<usize>, AllocError> {
    for (i, (what, bytes, place, byte, at)) in CHANGED.iter().enumerate() {
        if fault_with(alloc, *what, bytes, *place, *byte)? != Some(*at) {
            return Ok(Some(i));
        }
    }
    Ok(None)
}

/// Where the first fault is in the bytes that the parts make.
fn fault_of_parts(alloc: Global, what: What, parts: &[&[u8]]) -> Result<Option<usize>, AllocError> {
    let bytes = joined(alloc, parts)?;
    fault(alloc, what, &bytes)
}

/// The place of the first of the broken bytes that have no fault or have it elsewhere.
fn first_wrong_break(alloc: Global) -> Result<Option<usize>, AllocError> {
    for (i, (what, parts, at)) in BROKEN.iter().enumerate() {
        if fault_of_parts(alloc, *what, parts)? != Some(*at) {
            return Ok(Some(i));
        }
    }
    Ok(None)
}

#[test]
fn changed_bytes_have_their_faults(rt: HostRuntime) {
    check_all(&rt, first_wrong_change(rt.alloc()));
}

#[test]
fn broken_bytes_have_their_faults(rt: HostRuntime) {
    check_all(&rt, first_wrong_break(rt.alloc()));
}

/// The segments of two posts of one row each, part by part, in one segment or in two, row by row or by column. However they are cut, segments of few rows
/// are written again as one, by column.
const CUTS: &[&[&[u8]]] = &[
    &[&[1, 0, 0, 0, 1, 2, 0, 0, 0], &TAX, &TAX],
    &[&[2, 0, 0, 0], &SEGMENT, &SEGMENT],
    &[&[2, 0, 0, 0], &COLUMNS, &COLUMNS],
    &[&[2, 0, 0, 0], &SEGMENT, &COLUMNS],
    ONE_SEGMENT,
];

/// Both rows by column, in one segment.
const ONE_SEGMENT: &[&[u8]] = &[&[1, 0, 0, 0], &BOTH];

/// Two rows by column: a tax of 1 nano in the first hour of 1970, twice.
const BOTH: [u8; 139] = [
    2, 2, 0, 0, 0, 0, 0, 0, 0, 1, 0, 0, 0, 0, 0, 0, 0, 1, 0, 0, 0, 0, 0, 0, 0, 1, 0, 0, 0, 0, 0, 0,
    0, 1, 0, 0, 0, 0, 0, 0, 0, 3, 3, 0, 0, 0, 0, 0, 0, 0, 0, 0, 0, 0, 0, 0, 0, 0, 0, 0, 0, 16, 14,
    0, 0, 0, 0, 0, 0, 16, 14, 0, 0, 0, 0, 0, 0, 0, 0, 0, 0, 0, 0, 0, 0, 0, 0, 0, 0, 0, 0, 0, 0, 0,
    0, 0, 0, 0, 0, 0, 0, 0, 0, 0, 0, 0, 0, 0, 0, 0, 0, 0, 0, 0, 0, 0, 0, 0, 0, 0, 0, 0, 0, 0, 0, 0,
    0, 0, 0, 0, 0, 0, 0, 0, 0, 0, 0, 0, 0,
];

/// The bytes of a state of two posts whose segments are in these parts.
fn two_posts(alloc: Global, segments: &[&[u8]]) -> Result<Vec<u8>, AllocError> {
    let segments = joined(alloc, segments)?;
    joined(alloc, &[&TWO_POSTS, &segments])
}

/// Whether two posts that are cut so are read, and written in one segment.
fn is_cut_read(alloc: Global, cut: &[&[u8]]) -> Result<bool, AllocError> {
    let bytes = two_posts(alloc, cut)?;
    let written = two_posts(alloc, ONE_SEGMENT)?;
    is_written_as(alloc, What::State(Form::One), &bytes, &written)
}

/// The place of the first of the cuts of two posts of one row each that is not read, or not written in one segment.
fn wrong_cut(alloc: Global) -> Result<Option<usize>, AllocError> {
    for (i, cut) in CUTS.iter().enumerate() {
        if !is_cut_read(alloc, cut)? {
            return Ok(Some(i));
        }
    }
    Ok(None)
}

#[test]
fn rows_are_cut_in_any_way(rt: HostRuntime) {
    check_all(&rt, wrong_cut(rt.alloc()));
}

/// Whether a state whose rows stand one by one is read, and written by column.
#[test]
fn rows_one_by_one_are_read(rt: HostRuntime) {
    check(
        &rt,
        is_written_as(
            rt.alloc(),
            What::State(Form::One),
            &STORED_ROWS,
            &STORED_RUN,
        ),
    );
}

/// Bytes of states that both forms have, and of one that only the second has.
const OF_TWO: &[&[u8]] = &[&EMPTY, &STORED_RUN, &STORED_ADDED];

/// The place of the first of these states that the second form doesn't read, or that is written otherwise.
fn first_lost_of_two(alloc: Global) -> Result<Option<usize>, AllocError> {
    for (place, bytes) in OF_TWO.iter().enumerate() {
        if !is_written_as(alloc, What::State(Form::Two), bytes, bytes)? {
            return Ok(Some(place));
        }
    }
    Ok(None)
}

#[test]
fn the_second_form_has_all_states(rt: HostRuntime) {
    check_all(&rt, first_lost_of_two(rt.alloc()));
}
