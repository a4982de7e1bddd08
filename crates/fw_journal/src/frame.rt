//! The bytes of a frame: a gate, a length, and a payload.
ghost use Rattle.std.specs.Prelude.{◌≡◌, ◌+◌, ◌^◌, ◌≤◌, ◌<◌, ◌++◌, ◌∷◌, [], ℕ, List, length, IfOk, IfSome, IfNone};
ghost use Rattle.std.specs.Int.{to_le_bytes};
ghost use Rattle.std.specs.Int.Width.{w32};
ghost use Rattle.fw_journal.specs.Frames.{sized, open_frame, IsFit};

use std::alloc::{AllocError, Global};

/// The most bytes that a payload can have.
pub(crate) const LONGEST: u64 = 8_388_608;

/// A payload's length, the payload, and a closed gate.
#[tactic(auto, unfolding(crate::specs::Frames::sized))]
pub(crate) fn framed(alloc: Global, payload: &[u8]) -> Result<Vec<u8>, AllocError>
    requires { length payload.now ≤ 8388608 }
    ensures { IfOk result (λ frame. frame.items ≡ sized payload.now ++ 0 ∷ []) }
{
    let mut frame = Vec::with_capacity(alloc, payload.len() + 5)?;
    frame.extend_from_slice(&(payload.len() as u32).to_le_bytes())?;
    frame.extend_from_slice(payload)?;
    frame.push(0)?;
    Ok(frame)
}

/// The length that four bytes spell, where a payload can have it and it is within `room`.
pub(crate) fn fit_len(bytes: [u8; 4], room: u64) -> Option<u64>
    ensures found { IfSome result (λ n. (1 ≤ n) × (n ≤ 8388608) × (n ≤ room)
        × (bytes ≡ to_le_bytes w32 n)) }
    ensures none { IfNone result ((n : ℕ) → 1 ≤ n → n ≤ 8388608 → n ≤ room
        → bytes ≡ to_le_bytes w32 n → ⊥) }
{
    let len = u64::from(u32::from_le_bytes(bytes));
    if len == 0 || len > LONGEST || len > room {
        return None;
    }
    Some(len)
}

/// The payload of the open frame that stands first, and the bytes behind it.
pub(crate) fn first_frame(bytes: &[u8]) -> Option<(&[u8], &[u8])>
    ensures found { IfSome result (λ parts. IsFit parts.0.now
        × (bytes.now ≡ open_frame parts.0.now ++ parts.1.now)) }
    ensures none { IfNone result ((payload rest : List ℕ) → IsFit payload
        → bytes.now ≡ open_frame payload ++ rest → ⊥) }
{
    let (header, rest) = bytes.split_first_chunk::<5>()?;
    if header[0] != 1 {
        return None;
    }
    let len = fit_len(
        [header[1], header[2], header[3], header[4]],
        rest.len() as u64,
    )?;
    Some(rest.split_at(len as usize))
}
