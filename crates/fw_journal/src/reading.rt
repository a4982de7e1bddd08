//! Reading a log as a whole.
ghost use Rattle.std.specs.Prelude.{◌≡◌, ◌+◌, ◌^◌, ◌<◌, ◌≤◌, ℕ, List, length, drop, IfOk, IsErrOf, IsTrue};
ghost use Rattle.fw_disk.specs.Volume.{Rose, SameSizes, Calm};
ghost use Rattle.fw_journal.specs.Frames.{Tells, BreaksAt, payloads_of};
ghost use Rattle.fw_journal.specs.declared.fault.LogFault.TheVariants.{Device, Corrupt, Failed, TooLarge, NoMemory};

use crate::LogFault;
use crate::frame::first_frame;
use fw_disk::{Side, Volume};
use std::alloc::Global;

/// The payloads of the log on a side whose first gate is at `start`, in bytes from the start of the file: those of the
/// frames up to the first closed gate, in order. It holds the rest of the file in memory while it reads.
///
/// `Corrupt` where the frames break before a closed gate, `Device` where the read failed, `NoMemory` where a growth was
/// refused. Whatever is answered, no byte changes, and a crash leaves nothing that it could not leave before.
pub fn replay<V: Volume>(
    alloc: Global,
    volume: &mut V,
    side: Side,
    start: u64,
) -> Result<Vec<Vec<u8>>, LogFault>
    // These payloads exactly, and the fault at the first place that is no log's.
    ensures payloads { IfOk result (λ payloads. IsTrue V.tells
        → Tells (payloads_of payloads.items) (drop start ((V.view volume.old).seen side))) }
    ensures corrupt { (at : ℕ) → IsErrOf result (Corrupt at) → IsTrue V.tells
        → BreaksAt start at ((V.view volume.old).seen side) }

    ensures calm { IsTrue V.tells → Calm (V.view volume.old) (V.view volume.new) }
    ensures sizes { SameSizes (V.view volume.old) (V.view volume.new) }
    ensures later { (V.view volume.old).failures ≤ (V.view volume.new).failures }
    ensures device { IsErrOf result Device → Rose (V.view volume.old).failures
        (V.view volume.new).failures }
    ensures not_failed { IsErrOf result Failed → ⊥ }
    ensures not_too_large { IsErrOf result TooLarge → ⊥ }
{
    let bytes = read_from(alloc, volume, side, start)?;
    payloads_in(alloc, &bytes, start)
}

/// The bytes of a side from an offset on; none where it lies past the end.
fn read_from<V: Volume>(
    alloc: Global,
    volume: &mut V,
    side: Side,
    start: u64,
) -> Result<Vec<u8>, LogFault>
    ensures bytes { IfOk result (λ bytes. IsTrue V.tells
        → bytes.items ≡ drop start ((V.view volume.old).seen side)) }
    ensures fits { IfOk result (λ bytes. start + length bytes.items < 2 ^ 64) }
    ensures calm { IsTrue V.tells → Calm (V.view volume.old) (V.view volume.new) }
    ensures sizes { SameSizes (V.view volume.old) (V.view volume.new) }
    ensures later { (V.view volume.old).failures ≤ (V.view volume.new).failures }
    ensures device { IsErrOf result Device → Rose (V.view volume.old).failures
        (V.view volume.new).failures }
    ensures not_corrupt { (at : ℕ) → IsErrOf result (Corrupt at) → ⊥ }
    ensures not_failed { IsErrOf result Failed → ⊥ }
    ensures not_too_large { IsErrOf result TooLarge → ⊥ }
{
    let len = volume.len(side).saturating_sub(start);
    let mut bytes = vec![in alloc; 0; len as usize]?;
    if len > 0 {
        let Ok(()) = volume.read(side, start, &mut bytes) else {
            return Err(LogFault::Device);
        };
    }
    Ok(bytes)
}

/// The payloads that the bytes of a log tell, which stand at `start` in their file.
fn payloads_in(alloc: Global, bytes: &[u8], start: u64) -> Result<Vec<Vec<u8>>, LogFault>
    requires { start + length bytes.now < 2 ^ 64 }
    ensures payloads { IfOk result (λ payloads. Tells (payloads_of payloads.items) bytes.now) }
    ensures corrupt { (at : ℕ) → IsErrOf result (Corrupt at) → (file : List ℕ)
        → bytes.now ≡ drop start file → BreaksAt start at file }
    ensures not_device { IsErrOf result Device → ⊥ }
    ensures not_failed { IsErrOf result Failed → ⊥ }
    ensures not_too_large { IsErrOf result TooLarge → ⊥ }
{
    let mut payloads = Vec::new(alloc);
    let mut rest = bytes;
    while let Some((payload, after)) = first_frame(rest) {
        let copy = payload.to_vec(alloc)?;
        let Ok(()) = payloads.push(copy) else {
            return Err(LogFault::NoMemory);
        };
        rest = after;
    }
    match rest {
        [] | [1, ..] => Err(LogFault::Corrupt {
            at: start + (bytes.len() - rest.len()) as u64,
        }),
        _ => Ok(payloads),
    }
}
