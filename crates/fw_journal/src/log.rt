//! A log that stands on its volume, and grows by one payload at a time.
ghost use Rattle.std.specs.Prelude.{◌≡◌, ◌⊎◌, ◌↔◌, ◌+◌, ◌^◌, ◌<◌, ◌≤◌, ◌++◌, ◌∷◌, [], List, ℕ, length, drop, false, true, IsSome, IfSome, IfNone, IfOk, IfErr, OnOk, OnErr, IsErrOf, IsTrue, max};
ghost use Rattle.fw_disk.specs.Volume.{Rose, LeavesOnly, Settled, KeepsOther, SameSizes, Calm, other};
ghost use Rattle.fw_journal.specs.declared.fault.LogFault.TheVariants.{Device, Corrupt, Failed, TooLarge, NoMemory};
ghost use Rattle.fw_journal.specs.Frames.{BreaksAt, IsFit};
ghost use Rattle.fw_journal.specs.Log.{Stands, IsReady, Appends, Lengthens};

use crate::LogFault;
use crate::frame::framed;
use crate::gate::next_gate;
use crate::writing::write_frame;
use fw_disk::{Side, Volume};
use std::alloc::Global;
use std::marker::Model;

/// A log: its side, its first gate, its first closed gate, and whether an append has failed.
#[derive(Debug, Drop)]
pub struct Log {
    side: Side,
    start: u64,
    end: u64,
    failed: bool,
}

impl Model for Log {
    ghost use Rattle.fw_journal.specs.Log.{LogState};

    ghost Value = { LogState };

    ghost view = { λ log. record { side = log.side; start = log.start; end = log.end; failed = log.failed } };
}

impl Log {
    /// The log on a side whose first gate is at `start`, in bytes from the start of the file; nothing may be pending on
    /// the side. The log stands at its first closed gate. It takes no memory, and reads a few bytes at each gate.
    ///
    /// `Corrupt` where the frames break before a closed gate, `Device` where a read failed. Whatever is answered, no
    /// byte changes, and a crash leaves nothing that it could not leave before.
    pub fn open<V: Volume>(volume: &mut V, side: Side, start: u64) -> Result<Log, LogFault>
        requires { IsTrue V.tells → Settled side (V.view volume.old) }

        ensures place { IfOk result (λ log. (log.side ≡ side) × (log.start ≡ start)
            × (log.failed ≡ false)) }
        ensures ready { IfOk result (λ log. IsReady V.tells log (V.view volume.new)) }
        ensures corrupt { (at : ℕ) → IsErrOf result (Corrupt at) → IsTrue V.tells
            → BreaksAt start at ((V.view volume.old).seen side) }

        ensures calm { IsTrue V.tells → Calm (V.view volume.old) (V.view volume.new) }
        ensures sizes { SameSizes (V.view volume.old) (V.view volume.new) }
        ensures later { (V.view volume.old).failures ≤ (V.view volume.new).failures }
        ensures device { IsErrOf result Device → Rose (V.view volume.old).failures
            (V.view volume.new).failures }
        ensures not_failed { IsErrOf result Failed → ⊥ }
        ensures not_too_large { IsErrOf result TooLarge → ⊥ }
        ensures not_no_memory { IsErrOf result NoMemory → ⊥ }
    {
        let mut gate = start;
        loop {
            match next_gate(volume, side, gate) {
                Err(fault) => return Err(fault),
                Ok(Some(next)) => gate = next,
                Ok(None) => return Ok(Log::at(side, start, gate)),
            }
        }
    }

    /// The log on a side whose first gate is at `start` and whose first closed gate is at `end`, for a caller that has
    /// walked from the one to the other, or has just written them. It reads nothing and takes no memory.
    pub fn at(side: Side, start: u64, end: u64) -> Log
        ensures { result ≡ record { side = side; start = start; end = end; failed = false } }
    {
        Log {
            side,
            start,
            end,
            failed: false,
        }
    }

    /// Adds a payload of 1 to 8,388,608 bytes. At `Ok` it is acknowledged: from then on each crash leaves a file that
    /// has it. Until then a crash leaves a file with it or without it.
    ///
    /// `Failed` comes after an earlier `Device` alone, then `TooLarge` where the frame would end past the volume's limit,
    /// then `NoMemory`: these change nothing. After `Device` the payload is in the log or not, and every later append is
    /// `Failed`.
    pub fn append<V: Volume>(
        &mut self,
        alloc: Global,
        volume: &mut V,
        payload: &[u8],
    ) -> Result<(), LogFault>
        requires size { IsFit payload.now }
        requires ready { IsReady V.tells self.old (V.view volume.old) }

        // Each image within stands for the old payloads, or for these and the new one; after `Ok` only for the latter.
        ensures any_moment { IsTrue V.tells → self.old.failed ≡ false → (payloads : List (List ℕ))
            → Stands self.old payloads (V.view volume.old)
            → LeavesOnly (V.view volume.old) (V.view volume.new)
            (Appends self.old payloads payload.now (V.view volume.old)) }
        ensures acknowledged { OnOk result (IsTrue V.tells → (payloads : List (List ℕ))
            → Stands self.old payloads (V.view volume.old)
            → Stands self.new (payloads ++ payload.now ∷ []) (V.view volume.new)) }
        // What a crash could leave of the other side, it still can.
        ensures kept_other { IsTrue V.tells
            → KeepsOther self.old.side (V.view volume.old) (V.view volume.new) }
        ensures other_stays { IsTrue V.tells → (V.view volume.new).seen (other self.old.side)
            ≡ (V.view volume.old).seen (other self.old.side) }

        ensures ready { IsReady V.tells self.new (V.view volume.new) }
        ensures place { (self.new.side ≡ self.old.side) × (self.new.start ≡ self.old.start) }
        ensures moved { OnOk result (self.new ≡ record self.old
            { end = self.old.end + 5 + length payload.now; failed = false }) }
        ensures sizes { Lengthens self.old.side (self.old.end + 6 + length payload.now)
            (V.view volume.old) (V.view volume.new) }
        ensures whole { OnOk result ((V.view volume.new).size self.old.side
            ≡ max ((V.view volume.old).size self.old.side)
            (self.old.end + 6 + length payload.now)) }

        ensures failed { IsErrOf result Failed ↔ (self.old.failed ≡ true) }
        ensures too_large { IsErrOf result TooLarge
            ↔ ((self.old.failed ≡ false)
            × ((V.view volume.old).limit < self.old.end + 6 + length payload.now)) }
        ensures device { IsErrOf result Device → (self.new ≡ record self.old { failed = true })
            × Rose (V.view volume.old).failures (V.view volume.new).failures }
        ensures unchanged { OnErr result (IsErrOf result Device
            ⊎ ((volume.new ≡ volume.old) × (self.new ≡ self.old))) }
        ensures not_corrupt { (at : ℕ) → IsErrOf result (Corrupt at) → ⊥ }
        ensures later { (V.view volume.old).failures ≤ (V.view volume.new).failures }
    {
        if self.failed {
            return Err(LogFault::Failed);
        }
        let gate = self.end;
        let len = payload.len() as u64;
        if len + 6 > volume.limit() - gate {
            return Err(LogFault::TooLarge);
        }
        let Ok(frame) = framed(alloc, payload) else {
            return Err(LogFault::NoMemory);
        };
        self.failed = true;
        let Ok(()) = write_frame(volume, self.side, gate, &frame) else {
            return Err(LogFault::Device);
        };
        self.end = gate + 5 + len;
        self.failed = false;
        Ok(())
    }

    /// Adds a payload of `len` bytes, 1 to 8,388,608, that nobody made: a volume that keeps nothing of what is written takes it by its length
    /// alone, and the log goes on as after [`Log::append`]. The fault is `Device` alone, after which every later append is `Failed`.
    ///
    /// `None` where the volume keeps what is written, where the frame would end past its limit, and after an earlier `Device`. Nothing changes
    /// then: `append` needs the payload, or says what is wrong.
    pub fn append_length<V: Volume>(
        &mut self,
        volume: &mut V,
        len: u64,
    ) -> Option<Result<(), LogFault>>
        requires size { (1 ≤ len) × (len ≤ 8388608) }
        requires ready { IsReady V.tells self.old (V.view volume.old) }

        ensures unkept { IsSome result → (V.keeps ≡ false) × (V.tells ≡ false) }
        ensures goes_on { IsSome result → self.old.failed ≡ false }
        ensures room { IsSome result → self.old.end + 6 + len ≤ (V.view volume.old).limit }
        ensures declined { IfNone result ((volume.new ≡ volume.old) × (self.new ≡ self.old)) }

        ensures ready { IsReady V.tells self.new (V.view volume.new) }
        ensures place { (self.new.side ≡ self.old.side) × (self.new.start ≡ self.old.start) }
        ensures moved { IfSome result (λ added. OnOk added
            (self.new ≡ record self.old { end = self.old.end + 5 + len; failed = false })) }
        ensures sizes { Lengthens self.old.side (self.old.end + 6 + len) (V.view volume.old)
            (V.view volume.new) }
        ensures whole { IfSome result (λ added. OnOk added
            ((V.view volume.new).size self.old.side
            ≡ max ((V.view volume.old).size self.old.side) (self.old.end + 6 + len))) }
        ensures device { IfSome result (λ added. IfErr added
            (λ why. (why ≡ Device) × (self.new ≡ record self.old { failed = true })
            × Rose (V.view volume.old).failures (V.view volume.new).failures)) }
        ensures later { (V.view volume.old).failures ≤ (V.view volume.new).failures }
    {
        if self.failed || len + 6 > volume.limit() - self.end {
            return None;
        }
        let written = volume.write_length(self.side, self.end + 1, len + 5)?;
        self.failed = written.is_err();
        if written.is_err() {
            return Some(Err(LogFault::Device));
        }
        self.end += len + 5;
        Some(Ok(()))
    }

    /// The side of the volume that the log is on.
    pub fn side(&self) -> Side
        ensures { result ≡ self.now.side }
    {
        self.side
    }

    /// The offset of the first gate in the file, in bytes.
    pub fn start(&self) -> u64
        ensures { result ≡ self.now.start }
    {
        self.start
    }

    /// The offset of the first closed gate in the file, in bytes: where the next append opens a gate.
    pub fn end(&self) -> u64
        ensures { result ≡ self.now.end }
    {
        self.end
    }

    /// Whether an append has failed on the device. Such a log refuses every later append.
    pub fn has_failed(&self) -> bool
        ensures { result ≡ self.now.failed }
    {
        self.failed
    }
}
