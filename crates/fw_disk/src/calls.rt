//! The record that a volume in memory keeps: its writes, each with the bytes that it replaced, and its syncs.
ghost use Rattle.std.specs.Prelude.{◌≡◌, ◌+◌, ◌-◌, ◌<◌, ◌≤◌, ◌∷◌, [], length, map, replicate, min, take, drop, reverse, vec_capacity, OnOk, OnErr, IfSome, IfNone, IsTrue, IsFalse};
ghost use Rattle.fw_disk.specs.Volume.{Holds};
ghost use Rattle.fw_disk.specs.declared.calls.Call.TheVariants.{Write};
ghost use Rattle.fw_disk.specs.Memory.{Fits, AllFit, Filled, span, range, pending, undone, undone_all, due};

use crate::Side;
use std::alloc::{AllocError, Global};

/// A write of `len` bytes, with the bytes that it replaced: fewer where it went past the end of the file.
#[derive(Drop)]
pub(crate) struct Overwrite {
    pub(crate) side: Side,
    pub(crate) at: usize,
    pub(crate) len: usize,
    pub(crate) saved: Vec<u8>,
}

#[derive(Drop)]
pub(crate) enum Call {
    Write(Overwrite),
    Sync(Side),
}

/// Writes over what is there and past the end, and notes what was there. It takes the room that the next sync of
/// each side needs in the record. At `Err` nothing changes.
pub(crate) fn write(
    alloc: Global,
    file: &mut Vec<u8>,
    calls: &mut Vec<Call>,
    side: Side,
    at: usize,
    bytes: &[u8],
) -> Result<(), AllocError>
    requires fits { at ≤ length file.old.items }
    ensures written { OnOk result (Holds at bytes.now file.old.items file.new.items) }
    ensures noted { OnOk result ((saved : _)
        × (reverse calls.new.items ≡ Write
        (record { side = side; at = at; len = length bytes.now; saved = saved })
        ∷ reverse calls.old.items) × (saved.items
        ≡ take (min (length bytes.now) (length file.old.items - at)) (drop at file.old.items))) }
    ensures room { OnOk result (length calls.new.items + 2 ≤ vec_capacity calls.new) }
    ensures file_err { OnErr result (file.new.items ≡ file.old.items) }
    ensures calls_err { OnErr result (calls.new.items ≡ calls.old.items) }
    ensures room_err { OnErr result (vec_capacity calls.old ≤ vec_capacity calls.new) }
{
    let kept = bytes.len().min(file.len() - at);
    let saved = file[at..at + kept].to_vec(alloc)?;
    calls.reserve(3)?;
    file.extend_from_slice(&bytes[kept..])?;
    file[at..at + kept].copy_from_slice(&bytes[..kept]);
    calls.push(Call::Write(Overwrite {
        side,
        at,
        len: bytes.len(),
        saved,
    }))?;
    Ok(())
}

/// The newest write of a side since its last sync, and the calls before it.
pub(crate) fn last_write(calls: &[Call], side: Side) -> Option<(&Overwrite, &[Call])>
    ensures none { IfNone result (pending side (reverse calls.now) ≡ []) }
    ensures found { IfSome result (λ p. pending side (reverse calls.now)
        ≡ span p.0.now ∷ pending side (reverse p.1.now)) }
    ensures shorter { IfSome result (λ p. length p.1.now < length calls.now) }
{
    let mut rest = calls;
    while let Some((call, before)) = rest.split_last() {
        match call {
            Call::Write(write) if write.side == side => return Some((write, before)),
            Call::Sync(of) if *of == side => return None,
            _ => rest = before,
        }
    }
    None
}

/// Takes the writes of a side since its last sync back, the newest first.
pub(crate) fn take_back(file: &mut Vec<u8>, calls: &[Call], side: Side)
    requires fit { AllFit (length file.old.items) (pending side (reverse calls.now)) }
    ensures taken { file.new.items ≡ undone_all file.old.items (pending side (reverse calls.now)) }
{
    let mut rest = calls;
    while let Some((write, before)) = last_write(rest, side) {
        undo(file, write);
        rest = before;
    }
}

/// Fills the ranges that a side's writes since its last sync cover with a byte.
pub(crate) fn fill(file: &mut Vec<u8>, calls: &[Call], side: Side, byte: u8)
    requires fit { AllFit (length file.old.items) (pending side (reverse calls.now)) }
    ensures filled { Filled byte (map range (pending side (reverse calls.now))) file.old.items
        file.new.items }
{
    let mut rest = calls;
    while let Some((write, before)) = last_write(rest, side) {
        wipe(file, write, byte);
        rest = before;
    }
}

/// Fills the range of a write.
fn wipe(file: &mut Vec<u8>, write: &Overwrite, byte: u8)
    requires within { write.now.at + write.now.len ≤ length file.old.items }
    ensures wiped { Holds write.now.at (replicate write.now.len byte) file.old.items
        file.new.items }
{
    file[write.at..write.at + write.len].fill(byte);
}

/// Takes a write back.
fn undo(file: &mut Vec<u8>, write: &Overwrite)
    requires fits { Fits (length file.old.items) (span write.now) }
    ensures undone { file.new.items ≡ undone file.old.items (span write.now) }
{
    let kept = write.at + write.saved.len();
    if write.saved.len() < write.len {
        file.truncate(kept);
    }
    file[write.at..kept].copy_from_slice(&write.saved);
}
