//! Fields, written and read, and a row's tags.
use crate::ended::check;
use fw_bytes::{
    ReadError, i64_at, put_byte, put_i64, put_text, put_u32, put_u64, str_at, text_len, u32_at,
    u64_at,
};
use fw_charge::{Tags, tags_len};
use fw_fields::{keys_rise, tags_in_order, tags_of};
use std::alloc::{AllocError, Global};

/// A field of bytes.
#[derive(Clone, Copy, Drop)]
enum Field {
    Byte(u8),
    U32(u32),
    U64(u64),
    I64(i64),
    /// The text `ab`.
    Text,
}

/// A byte, a number of 4 bytes, one of 8, a signed one, a text and a byte.
const WRITTEN: &[Field] = &[
    Field::Byte(7),
    Field::U32(0x0403_0201),
    Field::U64(258),
    Field::I64(-2),
    Field::Text,
    Field::Byte(9),
];

fn put(out: &mut Vec<u8>, field: Field) -> Result<(), AllocError> {
    match field {
        Field::Byte(byte) => put_byte(out, byte),
        Field::U32(number) => put_u32(out, number),
        Field::U64(number) => put_u64(out, number),
        Field::I64(number) => put_i64(out, number),
        Field::Text => put_text(out, "ab"),
    }
}

/// Writes these fields, one after the other.
fn put_each(out: &mut Vec<u8>) -> Result<(), AllocError> {
    for field in WRITTEN {
        put(out, *field)?;
    }
    Ok(())
}

/// The bytes of these fields.
const FIELDS: [u8; 28] = [
    7, 1, 2, 3, 4, 2, 1, 0, 0, 0, 0, 0, 0, 0xfe, 0xff, 0xff, 0xff, 0xff, 0xff, 0xff, 0xff, 2, 0, 0,
    0, 97, 98, 9,
];

/// Whether the fields are written as their bytes, and a text of two letters has the length of its field.
fn are_written(alloc: Global) -> Result<bool, AllocError> {
    let mut out = Vec::new(alloc);
    put_each(&mut out)?;
    Ok(out.as_slice() == FIELDS.as_slice() && text_len("ab") == 6)
}

#[test]
fn fields_are_written(rt: HostRuntime) {
    check(&rt, are_written(rt.alloc()));
}

#[test]
fn fields_are_read(rt: HostRuntime) {
    assert!(rt;
        matches!(u32_at(&[1, 2, 3, 4]), Ok((0x0403_0201, [])))
            && matches!(u64_at(&[2, 1, 0, 0, 0, 0, 0, 0]), Ok((258, [])))
            && matches!(
                i64_at(&[0xfe, 0xff, 0xff, 0xff, 0xff, 0xff, 0xff, 0xff]),
                Ok((-2, []))
            )
            && matches!(str_at(&[2, 0, 0, 0, 97, 98, 9]), Ok(("ab", [9])))
    );
}

/// The tags `a` of `x`, and `b` of no text.
const TAGS: [u8; 23] = [
    2, 0, 0, 0, 1, 0, 0, 0, 97, 1, 0, 0, 0, 120, 1, 0, 0, 0, 98, 0, 0, 0, 0,
];

/// Whether the tags have this length, and `x` under `a`.
fn are_two(tags: &Tags) -> bool {
    tags_len(tags) == 23 && tags.value("a") == Some("x")
}

/// Whether the bytes are these tags.
fn are_read(alloc: Global) -> Result<bool, ReadError> {
    let (items, _) = tags_of(alloc, &TAGS)?;
    Ok(keys_rise(items.as_slice()) && are_two(&tags_in_order(items)))
}

#[test]
fn tags_are_read(rt: HostRuntime) {
    check(&rt, are_read(rt.alloc()));
}
