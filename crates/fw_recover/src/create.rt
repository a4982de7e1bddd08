//! Creating a warehouse: the first side of all is made.
ghost use Rattle.std.specs.Prelude.{◌≡◌, ◌⊎◌, ◌↔◌, ◌<◌, ◌≤◌, length, false, IfOk, IfErr, OnOk, OnErr, IsOk, IsErr, IsErrOf, IsTrue, IsFalse};
ghost use Rattle.fw_disk.specs.declared.volume.Side.{Side};
ghost use Rattle.fw_disk.specs.declared.volume.Side.TheVariants.{Left};
ghost use Rattle.fw_disk.specs.Volume.{Rose, Calm, LeavesOnly};
ghost use Rattle.fw_entry_bytes.specs.declared.form.Form.TheVariants.{Two};
ghost use Rattle.fw_recover.specs.declared.fault.StoreFault.TheVariants.{Device, TooLarge, Exists, NoMemory};
ghost use Rattle.fw_recover.specs.Opening.{OnlyReads};
ghost use Rattle.fw_recover.specs.Sides.{IsOpen};
ghost use Rattle.fw_recover.specs.Stands.{StandsForNone, EachStandsFor};
ghost use Rattle.fw_recover.specs.Making.{SpellsSide, AllSettled};
ghost use Rattle.fw_recover.specs.Creating.{empty, StandsForNoneOr, IsCreateFault};
ghost use Rattle.fw_recover.specs.Checkpoints.{HasBodyAlone};
ghost use Rattle.fw_recover.specs.Store.{IsInUse};

use crate::opening::settle;
use crate::shared::snapshot_of;
use crate::spelled::side_bytes;
use crate::{Store, StoreFault, make_side};
use fw_charge::Currency;
use fw_disk::{Side, Volume, VolumeFault};
use fw_entry_bytes::Form;
use fw_journal::Log;
use fw_snapshot::{JoinedState, Snapshot, State};
use std::alloc::Global;

impl<V: Volume> Store<V> {
    /// Creates an empty warehouse of this currency on the volume: Left is made, of 45 bytes, of the second form and with
    /// generation 1. Where no side was open and nothing was pending, a crash at any moment of the call leaves no warehouse or
    /// the empty one.
    ///
    /// `Device` where a sync or a read failed, then `Exists` where a side is open, then `TooLarge` where the volume's
    /// limit is below 45 bytes, or `NoMemory` where a growth was refused: up to here no byte changes, and a crash leaves
    /// nothing that it could not leave before. `Device` also where a write failed. The volume is handed back with each.
    pub fn create(alloc: Global, volume: V, currency: Currency) -> Result<Store<V>, (V, StoreFault)>
        ensures made { IfOk result (λ s. (s.history ≡ empty currency) × (s.form ≡ Two)
            × (s.generation ≡ 1) × (s.failed ≡ false)
            × (s.log ≡ record { side = Left; start = 44; end = 44; failed = false })) }
        ensures each { IfOk result (λ s. IsTrue V.tells
            → EachStandsFor (empty currency) (V.view s.volume)) }
        ensures bytes { IfOk result (λ s. IsTrue V.tells
            → HasBodyAlone 1 (empty currency) ((V.view s.volume).seen Left)) }

        // Where a side is open, as it reads, no warehouse is made and no byte changes.
        ensures taken { IsTrue V.tells → (side : Side) → IsOpen ((V.view volume).seen side)
            → IsErr result × IfErr result (λ e.
            ((e.1 ≡ Exists) ⊎ (e.1 ≡ Device)) × Calm (V.view volume) (V.view e.0)) }
        ensures exists { IfErr result (λ e. e.1 ≡ Exists → IsTrue V.tells
            → (side : Side) × IsOpen ((V.view volume).seen side)) }

        // Where none is open and nothing was pending, each image stands for no warehouse, or for the empty one.
        ensures any_moment { IfOk result (λ s.
            IsTrue V.tells → AllSettled (V.view volume) → StandsForNone (V.view volume).seen
            → LeavesOnly (V.view volume) (V.view s.volume) (StandsForNoneOr (empty currency))) }
        ensures any_moment_fault { IfErr result (λ e.
            IsTrue V.tells → AllSettled (V.view volume) → StandsForNone (V.view volume).seen
            → LeavesOnly (V.view volume) (V.view e.0) (StandsForNoneOr (empty currency))) }

        ensures fits { IfOk result (λ s. 45 ≤ (V.view volume).limit) }
        ensures too_large { IfErr result (λ e. e.1 ≡ TooLarge → (V.view volume).limit < 45) }
        ensures calm { IfErr result (λ e. (e.1 ≡ TooLarge) ⊎ ((e.1 ≡ NoMemory) ⊎ (e.1 ≡ Exists))
            → IsTrue V.tells → Calm (V.view volume) (V.view e.0)) }
        ensures which { IfErr result (λ e. IsCreateFault e.1) }
        ensures device { IfErr result (λ e. e.1 ≡ Device
            → Rose (V.view volume).failures (V.view e.0).failures) }
        ensures later { IfOk result (λ s. (V.view volume).failures ≤ (V.view s.volume).failures) }
        ensures later_fault { IfErr result (λ e. (V.view volume).failures ≤ (V.view e.0).failures) }
        ensures limit { IfOk result (λ s. (V.view s.volume).limit ≡ (V.view volume).limit) }
        ensures limit_fault { IfErr result (λ e. (V.view e.0).limit ≡ (V.view volume).limit) }
    {
        let mut volume = volume;
        match make_first(alloc, &mut volume, currency) {
            Ok((log, snapshot)) => Ok(Store {
                volume,
                form: Form::Two,
                generation: 1,
                log,
                snapshot,
                failed: false,
            }),
            Err(fault) => Err((volume, fault)),
        }
    }
}

/// Makes Left of an empty warehouse, where no side is open. First both sides are synced.
fn make_first<V: Volume>(
    alloc: Global,
    volume: &mut V,
    currency: Currency,
) -> Result<(Log, Snapshot), StoreFault>
    ensures made { IfOk result (λ r. (r.1 ≡ empty currency)
        × (r.0 ≡ record { side = Left; start = 44; end = 44; failed = false })) }
    ensures in_use { IfOk result (λ r. IsInUse V.tells Two 1 r.0 r.1 (V.view volume.new)) }
    ensures bytes { IfOk result (λ r. IsTrue V.tells
        → HasBodyAlone 1 (empty currency) ((V.view volume.new).seen Left)) }
    ensures any_moment { IsTrue V.tells → AllSettled (V.view volume.old)
        → StandsForNone (V.view volume.old).seen
        → LeavesOnly (V.view volume.old) (V.view volume.new) (StandsForNoneOr (empty currency)) }
    ensures none { IfOk result (λ r. IsTrue V.tells → StandsForNone (V.view volume.old).seen) }
    ensures exists { IsErrOf result Exists → IsTrue V.tells
        → (side : Side) × IsOpen ((V.view volume.old).seen side) }
    ensures calm { (IsErrOf result Exists ⊎ (IsErrOf result TooLarge ⊎ IsErrOf result NoMemory))
        → IsTrue V.tells → Calm (V.view volume.old) (V.view volume.new) }
    ensures taken { IsTrue V.tells → (side : Side) → IsOpen ((V.view volume.old).seen side)
        → (IsErrOf result Exists ⊎ IsErrOf result Device)
        × Calm (V.view volume.old) (V.view volume.new) }
    ensures fits { IsOk result → 45 ≤ (V.view volume.old).limit }
    ensures too_large { IsErrOf result TooLarge → (V.view volume.old).limit < 45 }
    ensures which { IfErr result IsCreateFault }
    ensures device { IsErrOf result Device → Rose (V.view volume.old).failures
        (V.view volume.new).failures }
    ensures later { (V.view volume.old).failures ≤ (V.view volume.new).failures }
    ensures limit { (V.view volume.new).limit ≡ (V.view volume.old).limit }
{
    find_free(volume)?;
    let (bytes, snapshot) = first_side(alloc, currency, volume.limit())?;
    let Ok(()) = make_side(volume, Side::Left, &bytes) else {
        return Err(StoreFault::Device);
    };
    let start = bytes.len() as u64;
    Ok((Log::at(Side::Left, start, start), snapshot))
}

/// Syncs both sides, and answers `Exists` where one is open. Whatever is answered, no byte changes, and a crash leaves
/// nothing that it could not leave before.
fn find_free<V: Volume>(volume: &mut V) -> Result<(), StoreFault>
    ensures free { OnOk result (IsTrue V.tells → StandsForNone (V.view volume.old).seen) }
    ensures settled { OnOk result (IsTrue V.tells → AllSettled (V.view volume.new)) }
    ensures exists { IsErrOf result Exists → IsTrue V.tells
        → (side : Side) × IsOpen ((V.view volume.old).seen side) }
    ensures which { OnErr result (IsErrOf result Device ⊎ IsErrOf result Exists) }

    ensures reads { OnlyReads V.tells (V.view volume.old) (V.view volume.new) }
    ensures device { IsErrOf result Device → Rose (V.view volume.old).failures
        (V.view volume.new).failures }
{
    let Ok(()) = settle(volume) else {
        return Err(StoreFault::Device);
    };
    match has_open_side(volume) {
        Ok(false) => Ok(()),
        Ok(true) => Err(StoreFault::Exists),
        Err(_) => Err(StoreFault::Device),
    }
}

/// Whether a side is open. It reads at most the two gates.
fn has_open_side<V: Volume>(volume: &mut V) -> Result<bool, VolumeFault>
    ensures some { IfOk result (λ found. IsTrue V.tells → IsTrue found
        → (side : Side) × IsOpen ((V.view volume.old).seen side)) }
    ensures none { IfOk result (λ found. IsTrue V.tells → IsFalse found
        → StandsForNone (V.view volume.old).seen) }

    ensures reads { OnlyReads V.tells (V.view volume.old) (V.view volume.new) }
    ensures cause { OnErr result (Rose (V.view volume.old).failures (V.view volume.new).failures) }
{
    if is_open(volume, Side::Left)? {
        return Ok(true);
    }
    is_open(volume, Side::Right)
}

/// Whether this side is open. It reads at most its gate.
fn is_open<V: Volume>(volume: &mut V, side: Side) -> Result<bool, VolumeFault>
    ensures exact { IfOk result (λ found. IsTrue V.tells
        → (IsTrue found ↔ IsOpen ((V.view volume.old).seen side))) }

    ensures reads { OnlyReads V.tells (V.view volume.old) (V.view volume.new) }
    ensures cause { OnErr result (Rose (V.view volume.old).failures (V.view volume.new).failures) }
{
    if volume.len(side) < 26 {
        return Ok(false);
    }
    let mut gate = [0];
    volume.read(side, 0, &mut gate)?;
    Ok(gate[0] == 1)
}

/// All of the first side behind its gate, 44 bytes, and the state of which it is made.
fn first_side(
    alloc: Global,
    currency: Currency,
    limit: u64,
) -> Result<(Vec<u8>, Snapshot), StoreFault>
    ensures state { IfOk result (λ r. r.1 ≡ empty currency) }
    ensures made { IfOk result (λ r. SpellsSide 1 (empty currency) r.0.items) }
    ensures long { IfOk result (λ r. length r.0.items ≡ 44) }
    ensures fits { IsOk result → 45 ≤ limit }
    ensures too_large { IsErrOf result TooLarge → limit < 45 }
    ensures which { OnErr result (IsErrOf result TooLarge ⊎ IsErrOf result NoMemory) }
{
    let Ok(joined) = JoinedState::of_state(&State::empty(alloc, currency)) else {
        return Err(StoreFault::NoMemory);
    };
    let bytes = side_bytes(alloc, 1, &joined, limit)?;
    let Ok(snapshot) = snapshot_of(joined.into_state()) else {
        return Err(StoreFault::NoMemory);
    };
    Ok((bytes, snapshot))
}
