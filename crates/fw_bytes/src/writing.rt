//! Writers of single fields, at the end of a buffer.
//!
//! Each has one error, [`AllocError`] where the buffer can't grow; then nothing is promised of what the buffer holds.
ghost use Rattle.std.specs.Prelude.{◌≡◌, ◌<◌, ◌^◌, ◌++◌, ◌∷◌, [], length, OnOk};
ghost use Rattle.fw_bytes.specs.Spelling.{number32, number64, signed64, text};

use std::alloc::AllocError;

/// Writes a byte.
pub fn put_byte(out: &mut Vec<u8>, byte: u8) -> Result<(), AllocError>
    ensures { OnOk result (out.new.items ≡ out.old.items ++ byte ∷ []) }
{
    out.push(byte)?;
    Ok(())
}

/// Writes a number, as of a count or a length, as four bytes, the low byte first.
pub fn put_u32(out: &mut Vec<u8>, count: u32) -> Result<(), AllocError>
    ensures { OnOk result (out.new.items ≡ out.old.items ++ number32 count) }
{
    out.extend_from_slice(&count.to_le_bytes())
}

/// Writes a number as eight bytes, the low byte first.
pub fn put_u64(out: &mut Vec<u8>, number: u64) -> Result<(), AllocError>
    ensures { OnOk result (out.new.items ≡ out.old.items ++ number64 number) }
{
    out.extend_from_slice(&number.to_le_bytes())
}

/// Writes a signed number as eight bytes in two's complement, the low byte first.
pub fn put_i64(out: &mut Vec<u8>, number: i64) -> Result<(), AllocError>
    ensures { OnOk result (out.new.items ≡ out.old.items ++ signed64 number) }
{
    put_u64(out, number.cast_unsigned())
}

/// Writes a text behind its length of four bytes. The text has fewer than 2^32 bytes.
pub fn put_text(out: &mut Vec<u8>, words: &str) -> Result<(), AllocError>
    requires { length words.now < 2 ^ 32 }
    ensures { OnOk result (out.new.items ≡ out.old.items ++ text words.now) }
{
    put_u32(out, words.len() as u32)?;
    out.extend_from_slice(words.as_bytes())
}
