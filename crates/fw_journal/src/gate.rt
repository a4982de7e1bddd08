//! What stands at a gate.
ghost use Rattle.std.specs.Option.{ForSome};
ghost use Rattle.std.specs.Prelude.{◌≡◌, ◌+◌, ◌<◌, ◌≤◌, ℕ, drop, IfOk, IsErrOf, IsTrue};
ghost use Rattle.fw_disk.specs.Volume.{Rose, SameSizes, Calm};
ghost use Rattle.fw_journal.specs.declared.fault.LogFault.TheVariants.{Device, Corrupt, Failed, TooLarge, NoMemory};
ghost use Rattle.fw_journal.specs.Frames.{IsBroken};
ghost use Rattle.fw_journal.specs.Log.{LeadsTo, IsFrameAt};

use crate::LogFault;
use crate::frame::fit_len;
use fw_disk::{Side, Volume};
use std::alloc::Global;

/// The payload of the frame at a gate, and the gate behind the frame; none at a closed gate. `gate` is in bytes from the
/// start of the file. It reads twice at most, and holds one payload in memory: so a log is read frame by frame, and the
/// first frame that its reader refuses is found before any fault behind it.
///
/// `Corrupt` at the gate where neither a closed gate nor a whole frame stands there, `Device` where a read failed,
/// `NoMemory` where a growth was refused. Whatever is answered, no byte changes, and a crash leaves nothing that it could
/// not leave before.
pub fn frame_at<V: Volume>(
    alloc: Global,
    volume: &mut V,
    side: Side,
    gate: u64,
) -> Result<Option<(Vec<u8>, u64)>, LogFault>
    ensures found { IfOk result (λ frame. IsTrue V.tells
        → IsFrameAt gate (drop gate ((V.view volume.old).seen side)) frame) }
    ensures within { IfOk result (λ frame. gate < (V.view volume.old).size side) }
    ensures ahead { IfOk result (λ frame. ForSome frame
        (λ f. (gate + 5 < f.1) × (f.1 ≤ (V.view volume.old).size side))) }
    ensures corrupt { (at : ℕ) → IsErrOf result (Corrupt at)
        → (at ≡ gate) × (IsTrue V.tells → IsBroken (drop gate ((V.view volume.old).seen side))) }

    ensures calm { IsTrue V.tells → Calm (V.view volume.old) (V.view volume.new) }
    ensures sizes { SameSizes (V.view volume.old) (V.view volume.new) }
    ensures later { (V.view volume.old).failures ≤ (V.view volume.new).failures }
    ensures device { IsErrOf result Device → Rose (V.view volume.old).failures
        (V.view volume.new).failures }
    ensures not_failed { IsErrOf result Failed → ⊥ }
    ensures not_too_large { IsErrOf result TooLarge → ⊥ }
{
    let Some(next) = next_gate(volume, side, gate)? else {
        return Ok(None);
    };
    let mut payload = vec![in alloc; 0; (next - gate - 5) as usize]?;
    let Ok(()) = volume.read(side, gate + 5, &mut payload) else {
        return Err(LogFault::Device);
    };
    Ok(Some((payload, next)))
}

/// The gate behind the frame at an open gate; none at a closed one.
pub(crate) fn next_gate<V: Volume>(
    volume: &mut V,
    side: Side,
    gate: u64,
) -> Result<Option<u64>, LogFault>
    ensures found { IfOk result (λ next. IsTrue V.tells
        → LeadsTo gate (drop gate ((V.view volume.old).seen side)) next) }
    ensures within { IfOk result (λ next. gate < (V.view volume.old).size side) }
    ensures ahead { IfOk result (λ next. ForSome next
        (λ next. (gate + 5 < next) × (next ≤ (V.view volume.old).size side))) }
    ensures corrupt { (at : ℕ) → IsErrOf result (Corrupt at)
        → (at ≡ gate) × (IsTrue V.tells → IsBroken (drop gate ((V.view volume.old).seen side))) }

    ensures calm { IsTrue V.tells → Calm (V.view volume.old) (V.view volume.new) }
    ensures sizes { SameSizes (V.view volume.old) (V.view volume.new) }
    ensures later { (V.view volume.old).failures ≤ (V.view volume.new).failures }
    ensures device { IsErrOf result Device → Rose (V.view volume.old).failures
        (V.view volume.new).failures }
    ensures not_failed { IsErrOf result Failed → ⊥ }
    ensures not_too_large { IsErrOf result TooLarge → ⊥ }
    ensures not_no_memory { IsErrOf result NoMemory → ⊥ }
{
    let len = volume.len(side);
    if gate >= len {
        return Err(LogFault::Corrupt { at: gate });
    }
    let mut header = [0; 5];
    let here = (len - gate).min(5) as usize;
    let Ok(()) = volume.read(side, gate, &mut header[..here]) else {
        return Err(LogFault::Device);
    };
    if header[0] != 1 {
        return Ok(None);
    }
    if here < 5 {
        return Err(LogFault::Corrupt { at: gate });
    }
    let size = [header[1], header[2], header[3], header[4]];
    match fit_len(size, len - gate - 5) {
        Some(payload) => Ok(Some(gate + 5 + payload)),
        None => Err(LogFault::Corrupt { at: gate }),
    }
}
