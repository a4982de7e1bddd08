//! A volume in memory. It keeps what each write replaced, so each of its past contents can be worked out.
ghost use Rattle.std.specs.Prelude.{◌≡◌, ◌+◌, ◌-◌, ◌^◌, ◌<◌, ◌≤◌, ◌↔◌, ◌∷◌, [], length, min, reverse, vec_capacity, true, refl, OnOk, OnErr, IsOk, IsErrOf, IsTrue, IsFalse};
ghost use Rattle.std.proofs.Common.{inl};
ghost use Rattle.fw_disk.specs.Volume.{View, Image, other, Returns, Holds, Torn, Writes, Quiet, SameSizes, Grows, HasCause, Rose, Settled, StaysPending, SettlesOnly, Shows, Allows, TornSide};
ghost use Rattle.fw_disk.specs.declared.volume.Side.{Side};
ghost use Rattle.fw_disk.specs.declared.volume.Side.TheVariants.{Left, Right};
ghost use Rattle.fw_disk.specs.declared.volume.VolumeFault.TheVariants.{Io, TooLarge};
ghost use Rattle.fw_disk.specs.Memory.{memory_view, file_state, pending, AllFit, AllFit-prop, LeftBy, Outcome, AddsRange, Syncs, all_synced, syncs_due, stays_itself, none_since, sides_within};

use crate::calls::{Call, fill, last_write, take_back, write};
use crate::volume::count_failure;
use crate::{Side, Stoppable, Volume, VolumeFault};
use std::alloc::{AllocError, Global};

/// What a stop leaves of the ranges that were written and not synced.
#[derive(Clone, Copy, Debug, PartialEq, Eq)]
pub enum Choice {
    /// What the file held after its last sync, at the length that it had then.
    Old,
    /// All that was written, at the length that the file has now.
    New,
    /// This byte in each place that was written, at the length that the file has now.
    Torn(u8),
}

/// A volume that keeps its files and a record of its writes and syncs in memory. A write takes memory for the file and
/// the record; out of memory, it answers `Io` and changes nothing but the count of failures. No other call takes memory
/// or fails.
#[derive(Drop)]
pub struct MemVolume {
    alloc: Global,
    limit: u64,
    choice: Choice,
    left: Vec<u8>,
    right: Vec<u8>,
    /// The writes and syncs since the start or the last stop.
    calls: Vec<Call>,
    failures: u64,
    ghost limit_fits: { limit ≤ 2 ^ 40 },
    ghost left_fits: { length left.items ≤ limit },
    ghost right_fits: { length right.items ≤ limit },
    ghost left_undoes: { AllFit (length left.items) (pending Left (reverse calls.items)) } by { AllFit-prop (length left.items) (pending Left (reverse calls.items)) },
    ghost right_undoes: { AllFit (length right.items) (pending Right (reverse calls.items)) } by { AllFit-prop (length right.items) (pending Right (reverse calls.items)) },
    ghost room: { length calls.items + syncs_due (reverse calls.items) ≤ vec_capacity calls },
}

impl MemVolume {
    ghost use Rattle.fw_disk.specs.Stop.{choice_of, file_of, view_of};

    /// Two empty files with nothing pending, of at most `limit` bytes each; a stop will leave what `choice` says. Takes no
    /// memory.
    pub fn new(alloc: Global, limit: u64, choice: Choice) -> MemVolume
        requires { limit ≤ 2 ^ 40 }
        ensures empty { (s : Side) → (⟦<MemVolume as Volume>⟧.view result).seen s ≡ [] }
        ensures settled { (s : Side) → Settled s (⟦<MemVolume as Volume>⟧.view result) }
        ensures limit { (⟦<MemVolume as Volume>⟧.view result).limit ≡ limit }
        ensures start { ((⟦<MemVolume as Volume>⟧.view result).moment ≡ 0)
            × ((⟦<MemVolume as Volume>⟧.view result).failures ≡ 0) }
        ensures choice { choice_of result ≡ choice }
        ensures files { (s : Side) → file_of result s ≡ all_synced [] }
    {
        MemVolume {
            alloc,
            limit,
            choice,
            left: Vec::new(alloc),
            right: Vec::new(alloc),
            calls: Vec::new(alloc),
            failures: 0,
        }
    }
}

impl Volume for MemVolume {
    ghost use Rattle.fw_disk.specs.Stop.{choice_of, file_of, view_of};

    ghost tells = { true };

    ghost view = { λ m. memory_view m.left.items m.right.items (reverse m.calls.items) m.limit m.failures };

    ghost sized = { λ m _ s. refl };

    ghost within = { λ m s. sides_within m.left.items m.right.items m.limit m.left_fits m.right_fits s };

    ghost bounded = { λ m. m.limit_fits };

    ghost stays = { λ m _. stays_itself m.left.items m.right.items (reverse m.calls.items) };

    ghost counts_now = { λ m t c le now. inl now };

    ghost only_now = { λ m c left. none_since m.left.items m.right.items (reverse m.calls.items) c left };

    fn limit(&self) -> u64 {
        self.limit
    }

    fn len(&self, side: Side) -> u64 {
        match side {
            Side::Left => self.left.len() as u64,
            Side::Right => self.right.len() as u64,
        }
    }

    /// Never fails.
    fn read(&mut self, side: Side, at: u64, into: &mut [u8]) -> Result<(), VolumeFault>
        requires { at + length into.old ≤ (view_of self.old).size side }
        ensures bytes { OnOk result (Returns at ((view_of self.old).seen side) into.new) }
        ensures told { Quiet (view_of self.old) (view_of self.new) }
        ensures pending { StaysPending (view_of self.old) (view_of self.new) }
        ensures sizes { SameSizes (view_of self.old) (view_of self.new) }
        ensures cause { HasCause (view_of self.old) (view_of self.new) result }
        ensures fits { IsErrOf result TooLarge → ⊥ }

        // It never fails, and changes nothing.
        ensures succeeds { IsOk result }
        ensures unchanged { self.new ≡ self.old }
    {
        let start = at as usize;
        let end = start + into.len();
        match side {
            Side::Left => into.copy_from_slice(&self.left[start..end]),
            Side::Right => into.copy_from_slice(&self.right[start..end]),
        }
        Ok(())
    }

    /// `Io` means out of memory, and nothing else; it counts as a failure and changes nothing else.
    fn write_at(&mut self, side: Side, at: u64, bytes: &[u8]) -> Result<(), VolumeFault>
        requires { at ≤ (view_of self.old).size side }
        ensures written { OnOk result (Holds at bytes.now ((view_of self.old).seen side)
            ((view_of self.new).seen side)) }
        ensures told { Writes side at (length bytes.now) (view_of self.old) (view_of self.new) }
        ensures pending { StaysPending (view_of self.old) (view_of self.new) }

        // A write that was done may be torn in every way.
        ensures every_tear { OnOk result (Allows (TornSide side at (length bytes.now))
            (view_of self.old).may_leave (view_of self.new).may_leave) }
        ensures sizes { Grows side at (length bytes.now) (view_of self.old)
            (view_of self.new) result }
        ensures cause { HasCause (view_of self.old) (view_of self.new) result }
        ensures too_large { IsErrOf result TooLarge
            ↔ ((view_of self.old).limit < at + length bytes.now) }
        ensures unchanged { IsErrOf result TooLarge → self.new ≡ self.old }

        // The range of a write that was done is unsynced from then on.
        ensures adds { OnOk result (AddsRange side at (length bytes.now) (file_of self.old)
            (file_of self.new)) }

        // A write that wasn't done changes no file and no image.
        ensures refused { OnErr result (Shows (view_of self.old) (view_of self.new)) }
        ensures files_stay { OnErr result ((s : Side) → file_of self.new s ≡ file_of self.old s) }

        ensures choice { choice_of self.new ≡ choice_of self.old }
        ensures failures { OnOk result ((view_of self.new).failures ≡ (view_of self.old).failures) }
    {
        if bytes.len() as u64 > self.limit - at {
            return Err(VolumeFault::TooLarge);
        }
        let start = at as usize;
        match side {
            Side::Left => match write(
                self.alloc,
                &mut self.left,
                &mut self.calls,
                side,
                start,
                bytes,
            ) {
                Ok(()) => Ok(()),
                Err(AllocError) => Err(count_failure(&mut self.failures)),
            },
            Side::Right => match write(
                self.alloc,
                &mut self.right,
                &mut self.calls,
                side,
                start,
                bytes,
            ) {
                Ok(()) => Ok(()),
                Err(AllocError) => Err(count_failure(&mut self.failures)),
            },
        }
    }

    /// Never fails and takes no memory. Where nothing is pending it records nothing.
    fn sync(&mut self, side: Side) -> Result<(), VolumeFault>
        ensures durable { OnOk result (Settled side (view_of self.new)) }
        ensures told { Quiet (view_of self.old) (view_of self.new) }
        ensures pending { SettlesOnly side (view_of self.old) (view_of self.new) }
        ensures sizes { SameSizes (view_of self.old) (view_of self.new) }
        ensures cause { HasCause (view_of self.old) (view_of self.new) result }
        ensures fits { IsErrOf result TooLarge → ⊥ }

        // It never fails, and settles its own side alone.
        ensures succeeds { IsOk result }
        ensures syncs { Syncs side (file_of self.old) (file_of self.new) }
        ensures nothing_pending { (file_of self.old side).unsynced ≡ [] → self.new ≡ self.old }

        ensures choice { choice_of self.new ≡ choice_of self.old }
        ensures failures { (view_of self.new).failures ≡ (view_of self.old).failures }
    {
        if last_write(&self.calls, side).is_some() {
            self.calls.push(Call::Sync(side)).unwrap();
        }
        Ok(())
    }
}

impl Stoppable for MemVolume {
    ghost use Rattle.fw_disk.specs.Stop.{choice_of, file_of, view_of, leaves_of};

    ghost leaves = { leaves_of };

    /// Leaves of each file what the choice says. The record of calls is empty afterwards.
    fn stop(self) -> Self
        ensures image { (view_of self).may_leave (view_of result).seen }
        ensures settled { (s : Side) → Settled s (view_of result) }
        ensures limit { (view_of result).limit ≡ (view_of self).limit }

        // What a crash may leave is the disk model's, no less and no more.
        ensures images { (c : Image) → (view_of self).may_leave c
            ↔ ((s : Side) → Outcome (file_of self s) (c s)) }

        // Which of these a stop leaves.
        ensures left { leaves_of self (view_of result).seen }
        ensures files { (s : Side) → file_of result s ≡ all_synced ((view_of result).seen s) }
        ensures choice { choice_of result ≡ choice_of self }
        ensures failures { (view_of result).failures ≡ (view_of self).failures }
        ensures moment { (view_of result).moment ≡ 0 }
    {
        let MemVolume {
            alloc,
            limit,
            choice,
            mut left,
            mut right,
            mut calls,
            failures,
        } = self;
        leave(&mut left, &calls, Side::Left, choice);
        leave(&mut right, &calls, Side::Right, choice);
        calls.clear();
        MemVolume {
            alloc,
            limit,
            choice,
            left,
            right,
            calls,
            failures,
        }
    }
}

/// Leaves of a side's file what the choice says.
fn leave(file: &mut Vec<u8>, calls: &[Call], side: Side, choice: Choice)
    requires fit { AllFit (length file.old.items) (pending side (reverse calls.now)) }
    ensures left { LeftBy choice (file_state file.old.items (pending side (reverse calls.now)))
        file.new.items }
{
    match choice {
        Choice::Old => take_back(file, calls, side),
        Choice::New => {}
        Choice::Torn(byte) => fill(file, calls, side, byte),
    }
}
