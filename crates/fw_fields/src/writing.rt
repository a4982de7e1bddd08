//! The writers of single fields, at the end of a buffer.
//!
//! Each has one error, [`AllocError`] where the buffer can't grow; then nothing is promised of what the buffer holds.
ghost use Rattle.std.specs.Prelude.{◌≡◌, ◌≤◌, ◌++◌, length, OnOk, IfSome, option_copied};
ghost use Rattle.std.specs.List.{flat_map};
ghost use Rattle.fw_bytes.specs.Spelling.{text, optional};
ghost use Rattle.fw_charge.specs.Charge.{IsShortText};
ghost use Rattle.fw_charge.specs.Tags.{longest_tag_text};
ghost use Rattle.fw_charge.specs.Spelling.{nanos, tag, tags};

use fw_bytes::{put_byte, put_i64, put_text, put_u32};
use fw_charge::{Tag, Tags};
use fw_money::Nanos;
use std::alloc::AllocError;

/// Writes an amount.
pub fn put_nanos(out: &mut Vec<u8>, amount: Nanos) -> Result<(), AllocError>
    ensures { OnOk result (out.new.items ≡ out.old.items ++ nanos amount) }
{
    put_i64(out, amount.count())
}

/// Writes an amount that may be null.
pub fn put_optional_nanos(out: &mut Vec<u8>, amount: Option<Nanos>) -> Result<(), AllocError>
    ensures { OnOk result (out.new.items ≡ out.old.items ++ optional nanos amount) }
{
    match amount {
        None => put_byte(out, 0),
        Some(amount) => {
            put_byte(out, 1)?;
            put_nanos(out, amount)
        }
    }
}

/// Writes a text of 1 to 256 bytes that may be null.
pub fn put_optional_text(out: &mut Vec<u8>, words: Option<&str>) -> Result<(), AllocError>
    requires { IfSome (option_copied words) IsShortText }
    ensures { OnOk result (out.new.items
        ≡ out.old.items ++ optional text (option_copied words.entry)) }
{
    match words {
        None => put_byte(out, 0),
        Some(words) => {
            put_byte(out, 1)?;
            put_text(out, words)
        }
    }
}

/// Writes a tag of this key and this text.
pub fn put_tag(out: &mut Vec<u8>, key: &str, value: &str) -> Result<(), AllocError>
    requires key { length key.now ≤ longest_tag_text }
    requires value { length value.now ≤ longest_tag_text }
    ensures { OnOk result (out.new.items
        ≡ out.old.items ++ tag (record { key = key.now; value = value.now })) }
{
    put_text(out, key)?;
    put_text(out, value)
}

/// Writes tags: their number, and each in turn.
pub fn put_tags(out: &mut Vec<u8>, all: &Tags) -> Result<(), AllocError>
    ensures { OnOk result (out.new.items ≡ out.old.items ++ tags all.now) }
{
    let each = all.as_slice();
    put_u32(out, each.len() as u32)?;
    for one in each {
        put_tag(out, one.key(), one.value())?;
    }
    Ok(())
}
