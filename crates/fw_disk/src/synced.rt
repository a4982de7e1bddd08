//! The one step by which a store changes its files.
ghost use Rattle.std.specs.Prelude.{◌≡◌, ◌+◌, ◌≤◌, length, max, IsTrue, OnOk, OnErr, IsErr, IsErrOf};
ghost use Rattle.fw_disk.specs.declared.volume.VolumeFault.TheVariants.{TooLarge};
ghost use Rattle.fw_disk.specs.Volume.{LeavesOnly, TornFrom, Synced, Settled, KeepsOther, Rose, Grows, other};

use crate::{Side, Volume, VolumeFault};

/// Writes `bytes` from the offset `at` on, and syncs the side. At any moment since its start a crash leaves an image
/// from before, with this write torn or whole; after `Ok` it leaves the write whole. The other side reads as before,
/// whatever it answers; and where nothing was pending on this side, what was pending on the other still is. A fault is one of the device, `Io`, since the write keeps the limit.
pub fn write_synced<V: Volume>(
    volume: &mut V,
    side: Side,
    at: u64,
    bytes: &[u8],
) -> Result<(), VolumeFault>
    requires within { at ≤ (V.view volume.old).size side }
    requires fits { at + length bytes.now ≤ (V.view volume.old).limit }

    // At each moment a crash leaves an image from before, with this write torn or whole.
    ensures any_moment { IsTrue V.tells → LeavesOnly (V.view volume.old) (V.view volume.new)
        (TornFrom side at (length bytes.now) (V.view volume.old)) }
    ensures done { OnOk result (IsTrue V.tells
        → Synced side at bytes.now (V.view volume.old) (V.view volume.new)) }
    ensures kept_other { IsTrue V.tells → Settled side (V.view volume.old)
        → KeepsOther side (V.view volume.old) (V.view volume.new) }
    ensures other_stays { IsTrue V.tells → (V.view volume.new).seen (other side)
        ≡ (V.view volume.old).seen (other side) }
    ensures sizes { Grows side at (length bytes.now) (V.view volume.old)
        (V.view volume.new) result }
    ensures later { (V.view volume.old).failures ≤ (V.view volume.new).failures }
    ensures cause { OnErr result (Rose (V.view volume.old).failures (V.view volume.new).failures) }
    ensures fits { IsErrOf result TooLarge → ⊥ }
{
    volume.write_at(side, at, bytes)?;
    volume.sync(side)
}
