//! Making a side: it is closed, filled and opened, one write and sync each.
ghost use Rattle.std.specs.Prelude.{◌≡◌, ◌+◌, ◌<◌, ◌≤◌, length, IsTrue, OnOk, OnErr, IsErrOf};
ghost use Rattle.fw_disk.specs.declared.volume.VolumeFault.TheVariants.{TooLarge};
ghost use Rattle.fw_disk.specs.Volume.{LeavesOnly, Rose, other};
ghost use Rattle.fw_recover.specs.Making.{Keeps, Closing, Filling, Opening, Making, Closed, AllSettled, Filled, Opened, Made};

use fw_disk::{Side, Volume, VolumeFault, write_synced};

/// Closes a side. At each moment since the call's start a crash leaves the side as it was, or with its gate torn where the
/// gate was open; after `Ok` it leaves the side closed. A gate that is closed already isn't written: a torn write could
/// open it. The other side stays. A fault is one of the device.
pub fn close_side<V: Volume>(volume: &mut V, side: Side) -> Result<(), VolumeFault>
    requires room { 1 ≤ (V.view volume.old).limit }
    ensures any_moment { IsTrue V.tells → AllSettled (V.view volume.old)
        → LeavesOnly (V.view volume.old) (V.view volume.new)
        (Keeps side (V.view volume.old) Closing) }
    ensures closed { OnOk result (IsTrue V.tells → AllSettled (V.view volume.old)
        → Closed side (V.view volume.old) (V.view volume.new)) }
    ensures size { OnOk result (1 ≤ (V.view volume.new).size side) }
    ensures other_size { (V.view volume.new).size (other side)
        ≡ (V.view volume.old).size (other side) }
    ensures later { (V.view volume.old).failures ≤ (V.view volume.new).failures }
    ensures limit { (V.view volume.new).limit ≡ (V.view volume.old).limit }
    ensures cause { OnErr result (Rose (V.view volume.old).failures (V.view volume.new).failures) }
    ensures fits { IsErrOf result TooLarge → ⊥ }
{
    if volume.len(side) > 0 {
        let mut gate = [0];
        volume.read(side, 0, &mut gate)?;
        if gate[0] != 1 {
            return Ok(());
        }
    }
    write_synced(volume, side, 0, &[0])?;
    Ok(())
}

/// Writes all of a closed side but its gate. At each moment since the call's start a crash leaves the gate as it was;
/// after `Ok` it leaves the bytes whole behind the gate. The other side stays. A fault is one of the device.
pub fn fill_side<V: Volume>(volume: &mut V, side: Side, bytes: &[u8]) -> Result<(), VolumeFault>
    requires size { 1 ≤ (V.view volume.old).size side }
    requires fits { 1 + length bytes.now ≤ (V.view volume.old).limit }
    ensures any_moment { IsTrue V.tells → AllSettled (V.view volume.old)
        → LeavesOnly (V.view volume.old) (V.view volume.new)
        (Keeps side (V.view volume.old) Filling) }
    ensures filled { OnOk result (IsTrue V.tells → AllSettled (V.view volume.old)
        → Filled side bytes.now (V.view volume.old) (V.view volume.new)) }
    ensures sizes { OnOk result (1 + length bytes.now ≤ (V.view volume.new).size side) }
    ensures other_size { (V.view volume.new).size (other side)
        ≡ (V.view volume.old).size (other side) }
    ensures later { (V.view volume.old).failures ≤ (V.view volume.new).failures }
    ensures limit { (V.view volume.new).limit ≡ (V.view volume.old).limit }
    ensures cause { OnErr result (Rose (V.view volume.old).failures (V.view volume.new).failures) }
    ensures fits { IsErrOf result TooLarge → ⊥ }
{
    write_synced(volume, side, 1, bytes)?;
    Ok(())
}

/// Opens the gate of a side that is whole behind it. At each moment since the call's start a crash leaves all but the gate
/// as it was; after `Ok` it leaves the gate open. The other side stays. A fault is one of the device.
pub fn open_side<V: Volume>(volume: &mut V, side: Side) -> Result<(), VolumeFault>
    requires size { 1 ≤ (V.view volume.old).size side }
    ensures any_moment { IsTrue V.tells → AllSettled (V.view volume.old)
        → LeavesOnly (V.view volume.old) (V.view volume.new)
        (Keeps side (V.view volume.old) Opening) }
    ensures opened { OnOk result (IsTrue V.tells → AllSettled (V.view volume.old)
        → Opened side (V.view volume.old) (V.view volume.new)) }
    ensures no_shorter { (V.view volume.old).size side ≤ (V.view volume.new).size side }
    ensures other_size { (V.view volume.new).size (other side)
        ≡ (V.view volume.old).size (other side) }
    ensures later { (V.view volume.old).failures ≤ (V.view volume.new).failures }
    ensures limit { (V.view volume.new).limit ≡ (V.view volume.old).limit }
    ensures cause { OnErr result (Rose (V.view volume.old).failures (V.view volume.new).failures) }
    ensures fits { IsErrOf result TooLarge → ⊥ }
{
    write_synced(volume, side, 0, &[1])?;
    Ok(())
}

/// Makes a side of these bytes, which stand behind its gate: closes it, fills it, and opens it. At each moment since the
/// call's start the side is closing, or not open, or whole behind its gate; after `Ok` it is open, and whole. The other
/// side stays. A fault is one of the device.
pub fn make_side<V: Volume>(volume: &mut V, side: Side, bytes: &[u8]) -> Result<(), VolumeFault>
    requires fits { 1 + length bytes.now ≤ (V.view volume.old).limit }
    ensures any_moment { IsTrue V.tells → AllSettled (V.view volume.old)
        → LeavesOnly (V.view volume.old) (V.view volume.new)
        (Keeps side (V.view volume.old) (Making bytes.now)) }
    ensures made { OnOk result (IsTrue V.tells → AllSettled (V.view volume.old)
        → Made side bytes.now (V.view volume.old) (V.view volume.new)) }
    ensures sizes { OnOk result (1 + length bytes.now ≤ (V.view volume.new).size side) }
    ensures other_size { (V.view volume.new).size (other side)
        ≡ (V.view volume.old).size (other side) }
    ensures later { (V.view volume.old).failures ≤ (V.view volume.new).failures }
    ensures limit { (V.view volume.new).limit ≡ (V.view volume.old).limit }
    ensures cause { OnErr result (Rose (V.view volume.old).failures (V.view volume.new).failures) }
    ensures fits { IsErrOf result TooLarge → ⊥ }
{
    close_side(volume, side)?;
    fill_side(volume, side, bytes)?;
    open_side(volume, side)?;
    Ok(())
}
