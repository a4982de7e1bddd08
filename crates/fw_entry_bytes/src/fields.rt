//! Who sent an entry, its number, and the kind of its command.
ghost use Rattle.std.specs.Prelude.{string_bytes};
ghost use Rattle.fw_bytes.specs.Reading.{Gives};
ghost use Rattle.fw_entry_bytes.specs.Reading.{origin_at, seq_at, kind_at};

use crate::form::Form;
use fw_bytes::{ReadError, str_at, u64_at};
use fw_entry::{CommandKind, is_origin};
use std::alloc::Global;

/// The name of an origin, and the bytes after it.
///
/// # Errors
/// [`ReadError::Corrupt`] at the name's length where the name is cut off or isn't 1 to 64 ASCII letters, digits, `-`, `_` and `.`;
/// [`ReadError::NoMemory`] where there is no memory for the name.
#[tactic(auto, unfolding(crate::specs::Reading::origin_at, fw_bytes::specs::Reading::checked))]
pub fn origin_of(alloc: Global, bytes: &[u8]) -> Result<(String, &[u8]), ReadError>
    ensures { Gives (λ x. (string_bytes x.0, x.1.now)) result (origin_at bytes.now) }
{
    let (name, rest) = str_at(bytes)?;
    if !is_origin(name.as_bytes()) {
        return Err(ReadError::Corrupt(bytes.len()));
    }
    Ok((String::from_str(alloc, name)?, rest))
}

/// The number of an entry, from 1 on, and the bytes after it. Takes no memory.
///
/// # Errors
/// [`ReadError::Corrupt`] at the number where it is cut off or 0.
#[tactic(auto, unfolding(crate::specs::Reading::seq_at, fw_bytes::specs::Reading::checked))]
pub fn seq_of(bytes: &[u8]) -> Result<(u64, &[u8]), ReadError>
    ensures { Gives (λ x. (x.0, x.1.now)) result (seq_at bytes.now) }
{
    let (seq, rest) = u64_at(bytes)?;
    if seq == 0 {
        return Err(ReadError::Corrupt(bytes.len()));
    }
    Ok((seq, rest))
}

/// The kind of a command, which the form has, and the bytes after it. Takes no memory.
///
/// # Errors
/// [`ReadError::Corrupt`] at the byte where it stands for no kind of the form, or where there is none.
#[tactic(auto, unfolding(crate::specs::Reading::kind_at, fw_bytes::specs::Reading::checked, fw_bytes::specs::Reading::code_at))]
pub fn kind_of(form: Form, bytes: &[u8]) -> Result<(CommandKind, &[u8]), ReadError>
    ensures { Gives (λ x. (x.0, x.1.now)) result (kind_at form bytes.now) }
{
    match bytes {
        [] => Err(ReadError::Corrupt(0)),
        [code, rest @ ..] => {
            let Some(kind) = CommandKind::from_code(*code) else {
                return Err(ReadError::Corrupt(bytes.len()));
            };
            if !form.has_kind(kind) {
                return Err(ReadError::Corrupt(bytes.len()));
            }
            Ok((kind, rest))
        }
    }
}
