//! The device calls of an append.
ghost use Rattle.std.specs.Prelude.{◌≡◌, ◌+◌, ◌<◌, ◌≤◌, length, max, OnOk, OnErr, IsTrue};
ghost use Rattle.fw_disk.specs.Volume.{Rose, LeavesOnly, Settled, KeepsOther, other};
ghost use Rattle.fw_journal.specs.Log.{WhileFraming, Framed, Lengthens};

use fw_disk::{Side, Volume, VolumeFault, write_synced};

/// Writes a frame behind a gate, and then opens the gate. The frame is on the disk before the gate is written.
pub(crate) fn write_frame<V: Volume>(
    volume: &mut V,
    side: Side,
    gate: u64,
    frame: &[u8],
) -> Result<(), VolumeFault>
    requires within { gate < (V.view volume.old).size side }
    requires fits { gate + 1 + length frame.now ≤ (V.view volume.old).limit }

    ensures any_moment { IsTrue V.tells → Settled side (V.view volume.old)
        → LeavesOnly (V.view volume.old) (V.view volume.new)
        (WhileFraming side gate frame.now (V.view volume.old)) }
    ensures done { OnOk result (IsTrue V.tells → Settled side (V.view volume.old)
        → Framed side gate frame.now (V.view volume.old) (V.view volume.new)) }
    ensures kept_other { IsTrue V.tells → Settled side (V.view volume.old)
        → KeepsOther side (V.view volume.old) (V.view volume.new) }
    ensures other_stays { IsTrue V.tells → (V.view volume.new).seen (other side)
        ≡ (V.view volume.old).seen (other side) }
    ensures sizes { Lengthens side (gate + 1 + length frame.now) (V.view volume.old)
        (V.view volume.new) }
    ensures whole { OnOk result ((V.view volume.new).size side
        ≡ max ((V.view volume.old).size side) (gate + 1 + length frame.now)) }
    ensures later { (V.view volume.old).failures ≤ (V.view volume.new).failures }
    ensures cause { OnErr result (Rose (V.view volume.old).failures (V.view volume.new).failures) }
{
    write_synced(volume, side, gate + 1, frame)?;
    write_synced(volume, side, gate, &[1])?;
    Ok(())
}
