//! The bytes of a side that is to be made.
ghost use Rattle.std.specs.Prelude.{◌≡◌, ◌⊎◌, ◌+◌, ◌<◌, ◌≤◌, ℕ, List, length, IfOk, OnErr, IsErrOf};
ghost use Rattle.fw_bytes.specs.Spelling.{number64};
ghost use Rattle.fw_disk.specs.Volume.{Holds};
ghost use Rattle.fw_entry_bytes.specs.declared.form.Form.TheVariants.{Two};
ghost use Rattle.fw_segment.specs.States.{Spells, SpellsJoined};
ghost use Rattle.fw_recover.specs.declared.fault.StoreFault.TheVariants.{TooLarge, NoMemory};
ghost use Rattle.fw_recover.specs.Sides.{made_of};
ghost use Rattle.fw_recover.specs.Making.{SpellsSide};
ghost use Rattle.fw_recover.specs.Checkpoints.{HasNoRoomFor};

use crate::StoreFault;
use crate::header::word_of;
use fw_bytes::put_u64;
use fw_entry_bytes::Form;
use fw_segment::append_joined;
use fw_snapshot::JoinedState;
use std::alloc::{AllocError, Global};

/// All of a side behind its gate: a header, which is of the second form, the body that spells the state, and the closed first
/// gate of the log.
///
/// `TooLarge` where the gate and these bytes are longer than the limit, `NoMemory` where a growth was refused.
pub(crate) fn side_bytes(
    alloc: Global,
    generation: u64,
    state: &JoinedState,
    limit: u64,
) -> Result<Vec<u8>, StoreFault>
    ensures made { IfOk result (λ bytes. SpellsSide generation state.now.history bytes.items) }
    ensures fits { IfOk result (λ bytes. 1 + length bytes.items ≤ limit) }
    ensures too_large { IsErrOf result TooLarge → HasNoRoomFor limit state.now.history }
    ensures which { OnErr result (IsErrOf result TooLarge ⊎ IsErrOf result NoMemory) }
{
    let Ok(mut bytes) = header_and_body(alloc, generation, state) else {
        return Err(StoreFault::NoMemory);
    };
    if bytes.len() as u64 + 2 > limit {
        return Err(StoreFault::TooLarge);
    }
    match bytes.push(0) {
        Ok(()) => Ok(bytes),
        Err(_) => Err(StoreFault::NoMemory),
    }
}

/// A header without the gate of its side, of the second form, and the body that spells the state.
fn header_and_body(
    alloc: Global,
    generation: u64,
    state: &JoinedState,
) -> Result<Vec<u8>, AllocError>
    ensures { IfOk result (λ bytes. (body : List ℕ) × Spells body state.now.history
        × (bytes.items ≡ made_of Two generation body)
        × SpellsJoined body state.now.history state.now.segments) }
{
    let word = word_of(Form::Two);
    let mut bytes = word.to_vec(alloc)?;
    put_u64(&mut bytes, generation)?;
    // The place of the body's length, which is known once the body stands.
    put_u64(&mut bytes, 0)?;
    append_joined(&mut bytes, state)?;
    let body_len = bytes.len() as u64 - 24;
    replace_u64(&mut bytes, 16, body_len);
    Ok(bytes)
}

/// Writes a number over the eight bytes from an offset on, the lowest first.
fn replace_u64(bytes: &mut Vec<u8>, at: usize, number: u64)
    requires { at + 8 ≤ length bytes.old.items }
    ensures { Holds at (number64 number) bytes.old.items bytes.new.items }
{
    bytes[at..at + 8].copy_from_slice(&number.to_le_bytes());
}
