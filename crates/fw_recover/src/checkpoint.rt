//! Checkpoints: a side is made of the state, and the log begins anew on it.
ghost use Rattle.std.specs.Prelude.{◌≡◌, ◌⊎◌, ◌↔◌, ◌+◌, ◌-◌, ◌^◌, ◌≤◌, ℕ, length, false, true, IfOk, OnOk, OnErr, IsErrOf, IsTrue};
ghost use Rattle.fw_disk.specs.declared.volume.Side.{Side};
ghost use Rattle.fw_disk.specs.Volume.{Rose, LeavesOnly};
ghost use Rattle.fw_recover.specs.declared.fault.StoreFault.TheVariants.{NoHouse, Corrupt, Device, Failed, Generations, NoMemory, TooLarge, Exists, OldSide};
ghost use Rattle.fw_recover.specs.Stands.{StandsFor, EachStandsFor};
ghost use Rattle.fw_recover.specs.Checkpoints.{HasNoRoomFor, IsCheckpointed};
ghost use Rattle.fw_recover.specs.Making.{SpellsSide};

use crate::shared::snapshot_of;
use crate::spelled::side_bytes;
use crate::{Store, StoreFault, make_side};
use fw_disk::Volume;
use fw_entry_bytes::Form;
use fw_journal::Log;
use fw_snapshot::{JoinedState, Snapshot, State};
use std::alloc::{AllocError, Global};

impl<V: Volume> Store<V> {
    /// Makes the side that isn't in use anew, of the state as it is, of the second form and with the next generation; from
    /// then on that side is in use, and its log is empty. The rows are then in few segments, on the side and in the store: short ones that follow each other are
    /// joined, as [`JoinedState::of_state`] says. At each moment since the call's start, and after it whatever it answers, a crash
    /// leaves files that stand for the warehouse as it is.
    ///
    /// `Failed` where the device has failed in an earlier call that writes, then `Generations` where there is no greater
    /// generation, then `TooLarge` where the volume's limit is below the side's length, or `NoMemory` where a growth was
    /// refused: these change nothing. `Device` where a write, a read or a sync failed: then every later call that writes
    /// is `Failed`.
    pub fn checkpoint(&mut self, alloc: Global) -> Result<(), StoreFault>
        ensures any_moment { IsTrue V.tells → self.old.failed ≡ false
            → LeavesOnly (V.view self.old.volume) (V.view self.new.volume)
            (StandsFor self.old.history) }
        ensures each { IsTrue V.tells → self.old.failed ≡ false
            → EachStandsFor self.old.history (V.view self.new.volume) }
        ensures done { OnOk result (IsCheckpointed V.tells V.view self.old self.new) }
        ensures same { self.new.history ≡ self.old.history }

        ensures failed { IsErrOf result Failed ↔ (self.old.failed ≡ true) }
        ensures generations { IsErrOf result Generations
            ↔ ((self.old.failed ≡ false) × (self.old.generation ≡ 2 ^ 64 - 1)) }
        ensures too_large { IsErrOf result TooLarge
            → HasNoRoomFor (V.view self.old.volume).limit self.old.history }
        ensures device { IsErrOf result Device
            → (self.new ≡ record self.old { volume = self.new.volume; failed = true })
            × Rose (V.view self.old.volume).failures (V.view self.new.volume).failures }
        ensures unchanged { OnErr result (IsErrOf result Device ⊎ (self.new ≡ self.old)) }
        ensures not_no_house { IsErrOf result NoHouse → ⊥ }
        ensures not_corrupt { (side : Side) (at : ℕ) → IsErrOf result (Corrupt side at) → ⊥ }
        ensures not_exists { IsErrOf result Exists → ⊥ }
        ensures not_old_side { IsErrOf result OldSide → ⊥ }
        ensures later { (V.view self.old.volume).failures ≤ (V.view self.new.volume).failures }
        ensures limit { (V.view self.new.volume).limit ≡ (V.view self.old.volume).limit }
    {
        if self.failed {
            return Err(StoreFault::Failed);
        }
        let Some(generation) = self.generation.checked_add(1) else {
            return Err(StoreFault::Generations);
        };
        let (bytes, snapshot) = self.merged_side(alloc, generation)?;
        let side = self.log.side().other();
        let start = bytes.len() as u64;
        self.failed = true;
        let Ok(()) = make_side(&mut self.volume, side, &bytes) else {
            return Err(StoreFault::Device);
        };
        self.form = Form::Two;
        self.generation = generation;
        self.snapshot = snapshot;
        self.log = Log::at(side, start, start);
        self.failed = false;
        Ok(())
    }

    // The bytes of a side of the state, and a snapshot of it, once its short segments are joined.
    fn merged_side(&self, alloc: Global, generation: u64) -> Result<(Vec<u8>, Snapshot), StoreFault>
        ensures made { IfOk result (λ side. SpellsSide generation self.now.history side.0.items) }
        ensures same { IfOk result (λ side. side.1 ≡ self.now.history) }
        ensures fits { IfOk result (λ side. 1 + length side.0.items
            ≤ (V.view self.now.volume).limit) }
        ensures too_large { IsErrOf result TooLarge
            → HasNoRoomFor (V.view self.now.volume).limit self.now.history }
        ensures which { OnErr result (IsErrOf result TooLarge ⊎ IsErrOf result NoMemory) }
    {
        let Ok(joined) = JoinedState::of_state(self.snapshot.state()) else {
            return Err(StoreFault::NoMemory);
        };
        let bytes = side_bytes(alloc, generation, &joined, self.volume.limit())?;
        let Ok(snapshot) = snapshot_of(joined.into_state()) else {
            return Err(StoreFault::NoMemory);
        };
        Ok((bytes, snapshot))
    }

    /// The length of the body of the side in use, in bytes.
    pub fn body_len(&self) -> u64
        ensures { result ≡ self.now.log.start - 25 }
    {
        self.log.start().saturating_sub(25)
    }

    /// The length of the log of the side in use, in bytes: 0 right after a checkpoint.
    pub fn log_len(&self) -> u64
        ensures { result ≡ self.now.log.end - self.now.log.start }
    {
        self.log.end().saturating_sub(self.log.start())
    }

    /// Whether a checkpoint pays: the log has as many bytes as the body, or more. A checkpoint costs as much as writing the
    /// body, and saves reading the log each time that the warehouse is opened.
    pub fn checkpoint_pays(&self) -> bool
        ensures { IsTrue result
            ↔ (self.now.log.start - 25 ≤ self.now.log.end - self.now.log.start) }
    {
        self.body_len() <= self.log_len()
    }
}

/// The state, once its short segments are joined. The error comes where memory ran out.
pub(crate) fn merged_of(state: &State) -> Result<Snapshot, AllocError>
    ensures { IfOk result (λ merged. merged ≡ state.now) }
{
    snapshot_of(state.merged()?)
}
