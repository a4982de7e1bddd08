//! What a store may rest on: the bytes of two files, and what a crash may leave of them.
//!
//! The disk model. A volume has two files. Between two syncs of a file, a crash may leave any bytes in each range that
//! was written, and any bytes past the old end; it may leave the end anywhere between the old and the new one. All
//! other bytes stay. After a sync that succeeded, a crash leaves of that file what a read gives. A write that failed
//! counts as written and not synced. A read and a sync, failed ones too, change no byte, and a crash leaves nothing
//! after them that it could not leave before.
//!
//! A crash leaves both files together: this is an image. Time is counted in moments, of which one or more pass in a
//! call; a crash within a call leaves what it could leave before the call or what it can leave after it.
//!
//! A fault of the device, [`VolumeFault::Io`], comes only where the volume's count of failures rises. The count ends
//! at `u64::MAX`; from there on it stays, and counts as risen.
ghost use Rattle.std.specs.Prelude.{◌≡◌, ℕ, ◌+◌, ◌-◌, ◌^◌, ◌<◌, ◌≤◌, ◌↔◌, min, Bool, true, false, IsTrue, List, length, IsSome, IfSome, IfNone, IsErrOf, OnOk};
ghost use Rattle.fw_disk.specs.declared.volume.VolumeFault.TheVariants.{Io, TooLarge};
ghost use Rattle.fw_disk.specs.declared.volume.Side.{Side};
ghost use Rattle.fw_disk.specs.Volume.{View, Image, other, Returns, Writes, Holds, Settled, Quiet, StaysPending, SettlesOnly, Allows, TornSide, SameSizes, Grows, HasCause, Rose};

use thiserror::Error;

/// One of the two files.
#[derive(Clone, Copy, Debug, PartialEq, Eq)]
pub enum Side {
    Left,
    Right,
}

/// Why a call of a volume failed.
#[derive(Clone, Copy, Debug, PartialEq, Eq, Error)]
pub enum VolumeFault {
    /// A fault of the device. What a write left of its range is unknown.
    #[error("the device failed")]
    Io,
    /// The write would end past the limit. Nothing changed.
    #[error("the write would end past the limit")]
    TooLarge,
}

/// Two files of bytes, addressed by byte offsets. The module says which disk they model.
pub trait Volume {
    /// Whether the contracts state what the files hold. Where they don't, only lengths, the limit and the causes of
    /// faults are stated. It is one value for the type, so no call changes it.
    ghost tells: { Bool };

    /// Whether what is written can be read again. Where it can't, a write needs no bytes. It is one value for the type, too.
    ghost keeps: { Bool } = { true };

    /// The bytes that a read gives, what a crash may leave, the clock, the lengths and the count of failures.
    ghost view: { Self → View };

    /// The largest length of a file, in bytes: at most 2^40. It never changes.
    fn limit(&self) -> u64
        ensures { result ≡ (view self.now).limit };

    /// The length of a file, in bytes.
    fn len(&self, side: Side) -> u64
        ensures { result ≡ (view self.now).size side };

    /// Fills the slice with the bytes from `at` on; they have to lie within the file. It fails with `Io` alone, and
    /// then the slice may hold anything. It settles nothing: what was pending still is.
    fn read(&mut self, side: Side, at: u64, into: &mut [u8]) -> Result<(), VolumeFault>
        requires { at + length into.old ≤ (view self.old).size side }
        ensures bytes { OnOk result (IsTrue tells
            → Returns at ((view self.old).seen side) into.new) }
        ensures told { IsTrue tells → Quiet (view self.old) (view self.new) }
        ensures pending { IsTrue tells → StaysPending (view self.old) (view self.new) }
        ensures sizes { SameSizes (view self.old) (view self.new) }
        ensures cause { HasCause (view self.old) (view self.new) result }
        ensures fits { IsErrOf result TooLarge → ⊥ };

    /// Writes over what is there, and past the end; `at` is at most the length. `TooLarge` comes exactly where the
    /// write would end past the limit, and changes nothing. After `Io` the write counts as written and not synced:
    /// a read, too, may give anything in its range, and the end may lie anywhere up to the new one. It settles nothing,
    /// and after `Ok` a crash may tear the write in every way.
    fn write_at(&mut self, side: Side, at: u64, bytes: &[u8]) -> Result<(), VolumeFault>
        requires { at ≤ (view self.old).size side }
        ensures written { OnOk result (IsTrue tells
            → Holds at bytes.now ((view self.old).seen side) ((view self.new).seen side)) }
        ensures told { IsTrue tells → Writes side at (length bytes.now) (view self.old)
            (view self.new) }
        ensures pending { IsTrue tells → StaysPending (view self.old) (view self.new) }
        ensures every_tear { OnOk result (IsTrue tells
            → Allows (TornSide side at (length bytes.now)) (view self.old).may_leave
            (view self.new).may_leave) }
        ensures sizes { Grows side at (length bytes.now) (view self.old) (view self.new) result }
        ensures cause { HasCause (view self.old) (view self.new) result }
        ensures too_large { IsErrOf result TooLarge
            ↔ ((view self.old).limit < at + length bytes.now) }
        ensures unchanged { IsErrOf result TooLarge → self.new ≡ self.old };

    /// Writes so many bytes that nobody gives, where what is written can't be read again: lengths change as by [`Volume::write_at`], and `TooLarge`
    /// and `Io` come as there. `None` where it can be read again: then nothing changes, and the write needs its bytes.
    fn write_length(&mut self, side: Side, at: u64, len: u64) -> Option<Result<(), VolumeFault>>
        requires { at ≤ (view self.old).size side }
        ensures unkept { IsSome result → (keeps ≡ false) × (tells ≡ false) }
        ensures declined { IfNone result (self.new ≡ self.old) }
        ensures sizes { IfSome result (Grows side at len (view self.old) (view self.new)) }
        ensures cause { IfSome result (HasCause (view self.old) (view self.new)) }
        ensures too_large { IfSome result (λ written. IsErrOf written TooLarge
            ↔ ((view self.old).limit < at + len)) }
        ensures unchanged { IfSome result (λ written. IsErrOf written TooLarge
            → self.new ≡ self.old) }
    {
        None
    }

    /// After `Ok` a crash leaves of this file what a read gives. It fails with `Io` alone, and then what was pending
    /// may still be. Whatever it answers, no byte changes, a crash leaves nothing new, and the other file is as pending
    /// as before.
    fn sync(&mut self, side: Side) -> Result<(), VolumeFault>
        ensures durable { OnOk result (IsTrue tells → Settled side (view self.new)) }
        ensures told { IsTrue tells → Quiet (view self.old) (view self.new) }
        ensures pending { IsTrue tells → SettlesOnly side (view self.old) (view self.new) }
        ensures sizes { SameSizes (view self.old) (view self.new) }
        ensures cause { HasCause (view self.old) (view self.new) result }
        ensures fits { IsErrOf result TooLarge → ⊥ };

    /// The lengths are those of the bytes.
    ghost sized: { (v : Self) → IsTrue tells → (s : Side) → length ((view v).seen s) ≡ (view v).size s };

    /// Lengths keep the limit.
    ghost within: { (v : Self) (s : Side) → (view v).size s ≤ (view v).limit };

    /// The limit is at most 2^40.
    ghost bounded: { (v : Self) → (view v).limit ≤ 2 ^ 40 };

    /// What a read gives is one of the images.
    ghost stays: { (v : Self) → IsTrue tells → (view v).may_leave (view v).seen };

    /// This moment is one of those since an earlier one.
    ghost counts_now: { (v : Self) (t : ℕ) (c : Image) → t ≤ (view v).moment → (view v).may_leave c → (view v).left_since t c };

    /// Since this moment there is no other.
    ghost only_now: { (v : Self) (c : Image) → (view v).left_since (view v).moment c → (view v).may_leave c };
}

/// A volume that can be stopped as by a crash.
pub trait Stoppable: Volume {
    /// The images that a stop now may leave. A crash may leave others too: a stop takes one by the volume's own choice.
    ghost leaves: { Self → Image → Type 0 };

    /// Reads afterwards as one of the images of now, the one of its choice, with nothing pending. The clock may start
    /// anew.
    fn stop(self) -> Self
        ensures image { IsTrue Self.tells → (Self.view self).may_leave (Self.view result).seen }
        ensures left { IsTrue Self.tells → Self.leaves self (Self.view result).seen }
        ensures settled { IsTrue Self.tells → (s : Side) → Settled s (Self.view result) }
        ensures limit { (Self.view result).limit ≡ (Self.view self).limit };
}

impl Side {
    /// The other file.
    pub fn other(self) -> Side
        ensures { result ≡ other self }
    {
        match self {
            Side::Left => Side::Right,
            Side::Right => Side::Left,
        }
    }
}

/// Counts a call that failed; a count at its last value stays.
pub(crate) fn count_failure(failures: &mut u64) -> VolumeFault
    ensures io { result ≡ Io }
    ensures later { failures.old ≤ failures.new }
    ensures rose { Rose failures.old failures.new }
    ensures exact { failures.new ≡ min (failures.old + 1) (2 ^ 64 - 1) }
{
    *failures = failures.saturating_add(1);
    VolumeFault::Io
}
