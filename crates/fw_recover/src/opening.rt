//! Reading a warehouse: its sides are synced, the headers say which side is in use, and its body and log are read.
ghost use Rattle.std.specs.Prelude.{◌≡◌, ◌+◌, ◌<◌, ◌≤◌, ℕ, length, take, drop, OnOk, OnErr, IfOk, IfErr, IsErrOf, IsTrue};
ghost use Rattle.fw_disk.specs.declared.volume.Side.{Side};
ghost use Rattle.fw_disk.specs.Volume.{Rose};
ghost use Rattle.fw_entry_bytes.specs.Forms.{IsOfForm};
ghost use Rattle.fw_segment.specs.States.{Spells};
ghost use Rattle.fw_snapshot.specs.Judging.{IsLegal};
ghost use Rattle.fw_recover.specs.declared.fault.StoreFault.TheVariants.{NoHouse, Corrupt, Device};
ghost use Rattle.fw_recover.specs.Making.{AllSettled};
ghost use Rattle.fw_recover.specs.Stands.{StandsForNone};
ghost use Rattle.fw_recover.specs.Corrupt.{CorruptAt};
ghost use Rattle.fw_recover.specs.Opening.{HasBadBody, IsOpenFault, OnlyReads};
ghost use Rattle.fw_recover.specs.Store.{IsInUse};

use crate::StoreFault;
use crate::header::side_in_use;
use crate::shared::snapshot_of;
use crate::walk::walk_log;
use fw_disk::{Side, Volume, VolumeFault};
use fw_entry_bytes::Form;
use fw_journal::Log;
use fw_segment::{DecodeFault, decode_state};
use fw_snapshot::Snapshot;
use std::alloc::{AllocError, Global};

/// Syncs both sides: after `Ok` nothing is pending. A fault is one of the device. Whatever is answered, no byte changes,
/// and a crash leaves nothing that it could not leave before.
pub(crate) fn settle<V: Volume>(volume: &mut V) -> Result<(), VolumeFault>
    ensures settled { OnOk result (IsTrue V.tells → AllSettled (V.view volume.new)) }
    ensures reads { OnlyReads V.tells (V.view volume.old) (V.view volume.new) }
    ensures cause { OnErr result (Rose (V.view volume.old).failures (V.view volume.new).failures) }
{
    volume.sync(Side::Left)?;
    volume.sync(Side::Right)
}

/// The form, the generation, the log and the state of the side in use. First both sides are synced, so that a crash leaves of them
/// what is read.
pub(crate) fn read_sides<V: Volume>(
    alloc: Global,
    volume: &mut V,
) -> Result<(Form, u64, Log, Snapshot), StoreFault>
    ensures found { IfOk result (λ r. IsInUse V.tells r.0 r.1 r.2 r.3 (V.view volume.new)) }
    ensures none { IsErrOf result NoHouse → IsTrue V.tells
        → StandsForNone (V.view volume.old).seen }
    ensures corrupt { (side : Side) (at : ℕ) → IsErrOf result (Corrupt side at) → IsTrue V.tells
        → CorruptAt (V.view volume.old).seen side at }
    ensures which { IfErr result IsOpenFault }

    ensures reads { OnlyReads V.tells (V.view volume.old) (V.view volume.new) }
    ensures device { IsErrOf result Device → Rose (V.view volume.old).failures
        (V.view volume.new).failures }
{
    let Ok(()) = settle(volume) else {
        return Err(StoreFault::Device);
    };
    read_settled(alloc, volume)
}

/// The form, the generation, the log and the state of the side in use, where nothing is pending.
fn read_settled<V: Volume>(
    alloc: Global,
    volume: &mut V,
) -> Result<(Form, u64, Log, Snapshot), StoreFault>
    requires settled { IsTrue V.tells → AllSettled (V.view volume.old) }

    ensures found { IfOk result (λ r. IsInUse V.tells r.0 r.1 r.2 r.3 (V.view volume.new)) }
    ensures none { IsErrOf result NoHouse → IsTrue V.tells
        → StandsForNone (V.view volume.old).seen }
    ensures corrupt { (side : Side) (at : ℕ) → IsErrOf result (Corrupt side at) → IsTrue V.tells
        → CorruptAt (V.view volume.old).seen side at }
    ensures which { IfErr result IsOpenFault }

    ensures reads { OnlyReads V.tells (V.view volume.old) (V.view volume.new) }
    ensures device { IsErrOf result Device → Rose (V.view volume.old).failures
        (V.view volume.new).failures }
{
    let (side, header) = side_in_use(volume)?;
    let mut state = body_state(alloc, volume, side, header.form, header.body_len)?;
    let start = 25 + header.body_len;
    let end = walk_log(alloc, volume, side, header.form, start, &mut state)?;
    Ok((
        header.form,
        header.generation,
        Log::at(side, start, end),
        state,
    ))
}

/// The state that the body of a side spells, which is of the form and has so many bytes behind the header.
///
/// `Corrupt` where it spells none, `Device` where the read failed, `NoMemory` where a growth was refused.
fn body_state<V: Volume>(
    alloc: Global,
    volume: &mut V,
    side: Side,
    form: Form,
    body_len: u64,
) -> Result<Snapshot, StoreFault>
    requires { 25 + body_len < (V.view volume.old).size side }

    ensures found { IfOk result (λ state. IsTrue V.tells
        → Spells (take body_len (drop 25 ((V.view volume.old).seen side))) state) }
    ensures of_form { IfOk result (λ state. IsOfForm form state.entries) }
    ensures legal { IfOk result (λ state. IsLegal state.entries) }
    ensures corrupt { (at_side : Side) (at : ℕ) → IsErrOf result (Corrupt at_side at)
        → (at_side ≡ side) × (IsTrue V.tells → HasBadBody form body_len at
        ((V.view volume.old).seen side)) }
    ensures not_no_house { IsErrOf result NoHouse → ⊥ }
    ensures which { IfErr result IsOpenFault }

    ensures reads { OnlyReads V.tells (V.view volume.old) (V.view volume.new) }
    ensures device { IsErrOf result Device → Rose (V.view volume.old).failures
        (V.view volume.new).failures }
{
    let Ok(mut body) = vec![in alloc; 0; body_len as usize] else {
        return Err(StoreFault::NoMemory);
    };
    let Ok(()) = volume.read(side, 25, &mut body) else {
        return Err(StoreFault::Device);
    };
    match decode_state(alloc, form, &body) {
        Ok(state) => match snapshot_of(state) {
            Ok(state) => Ok(state),
            Err(AllocError) => Err(StoreFault::NoMemory),
        },
        Err(DecodeFault::Corrupt { at }) => Err(StoreFault::Corrupt {
            side,
            at: 25 + at as u64,
        }),
        Err(DecodeFault::NoMemory) => Err(StoreFault::NoMemory),
    }
}
