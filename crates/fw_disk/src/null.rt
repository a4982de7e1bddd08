//! A volume that keeps no byte, for a warehouse that stays in memory.
ghost use Rattle.std.specs.Prelude.{◌≡◌, ℕ, ◌+◌, ◌^◌, ◌<◌, ◌≤◌, ◌↔◌, length, false, All, IsSome, IfSome, IsErrOf, IsOk, IsTrue};
ghost use Rattle.fw_disk.specs.Volume.{SameSizes, Grows, HasCause};
ghost use Rattle.fw_disk.specs.declared.volume.Side.{Side};
ghost use Rattle.fw_disk.specs.declared.volume.VolumeFault.TheVariants.{Io, TooLarge};

use crate::{FileVolume, Side, Volume, VolumeFault};

/// Two files of which only the lengths are kept. What is written is dropped, and each byte that is read is 0. No call fails but a write past the limit.
///
/// A store that is made on such a volume takes entries and makes checkpoints as on any other. It can't be opened again: what was accepted is gone with
/// it. Its type says nothing of what the files hold (`tells` is false).
#[derive(Debug, Drop)]
pub struct NullVolume {
    left: u64,
    right: u64,
    ghost left_fits: { left ≤ 2 ^ 40 },
    ghost right_fits: { right ≤ 2 ^ 40 },
}

impl NullVolume {
    ghost use Rattle.fw_disk.specs.Null.{view_of};

    /// Two files of no byte.
    pub fn new() -> NullVolume
        ensures { (s : Side) → (view_of result).size s ≡ 0 }
    {
        NullVolume { left: 0, right: 0 }
    }

    // What a write of so many bytes does to the lengths.
    fn lengthen(&mut self, side: Side, at: u64, len: u64) -> Result<(), VolumeFault>
        requires { at ≤ (view_of self.old).size side }
        ensures sizes { Grows side at len (view_of self.old) (view_of self.new) result }
        ensures too_large { IsErrOf result TooLarge ↔ ((view_of self.old).limit < at + len) }
        ensures unchanged { IsErrOf result TooLarge → self.new ≡ self.old }
        ensures works { IsErrOf result Io → ⊥ }
    {
        if len > FileVolume::LIMIT - at {
            return Err(VolumeFault::TooLarge);
        }
        match side {
            Side::Left => self.left = self.left.max(at + len),
            Side::Right => self.right = self.right.max(at + len),
        }
        Ok(())
    }
}

impl Volume for NullVolume {
    ghost use Rattle.fw_disk.specs.Null.{view_of, sizes_within, limit_bounded};
    ghost use Rattle.fw_disk.specs.Files.{none_told};

    ghost tells = { false };

    ghost keeps = { false };

    ghost view = { view_of };

    ghost sized = { λ v told s. none_told told };

    ghost within = { sizes_within };

    ghost bounded = { limit_bounded };

    ghost stays = { λ v told. tt };

    ghost counts_now = { λ v t c le now. tt };

    ghost only_now = { λ v c left. tt };

    fn limit(&self) -> u64 {
        FileVolume::LIMIT
    }

    fn len(&self, side: Side) -> u64 {
        match side {
            Side::Left => self.left,
            Side::Right => self.right,
        }
    }

    /// `Io` comes never.
    fn read(&mut self, side: Side, at: u64, into: &mut [u8]) -> Result<(), VolumeFault>
        requires { at + length into.old ≤ (view_of self.old).size side }
        ensures sizes { SameSizes (view_of self.old) (view_of self.new) }
        ensures cause { HasCause (view_of self.old) (view_of self.new) result }
        ensures zeros { All (λ byte. byte ≡ 0) into.new }
        ensures works { IsOk result }
    {
        into.fill(0);
        Ok(())
    }

    /// `Io` comes never.
    fn write_at(&mut self, side: Side, at: u64, bytes: &[u8]) -> Result<(), VolumeFault>
        requires { at ≤ (view_of self.old).size side }
        ensures sizes { Grows side at (length bytes.now) (view_of self.old)
            (view_of self.new) result }
        ensures cause { HasCause (view_of self.old) (view_of self.new) result }
        ensures too_large { IsErrOf result TooLarge
            ↔ ((view_of self.old).limit < at + length bytes.now) }
        ensures unchanged { IsErrOf result TooLarge → self.new ≡ self.old }
        ensures works { IsErrOf result Io → ⊥ }
    {
        self.lengthen(side, at, bytes.len() as u64)
    }

    /// `None` and `Io` come never.
    fn write_length(&mut self, side: Side, at: u64, len: u64) -> Option<Result<(), VolumeFault>>
        requires { at ≤ (view_of self.old).size side }
        ensures sizes { IfSome result (Grows side at len (view_of self.old) (view_of self.new)) }
        ensures cause { IfSome result (HasCause (view_of self.old) (view_of self.new)) }
        ensures too_large { IfSome result (λ written. IsErrOf written TooLarge
            ↔ ((view_of self.old).limit < at + len)) }
        ensures unchanged { IfSome result (λ written. IsErrOf written TooLarge
            → self.new ≡ self.old) }
        ensures works { IfSome result (λ written. IsErrOf written Io → ⊥) }
        ensures taken { IsSome result }
    {
        Some(self.lengthen(side, at, len))
    }

    /// `Io` comes never.
    fn sync(&mut self, side: Side) -> Result<(), VolumeFault>
        ensures sizes { SameSizes (view_of self.old) (view_of self.new) }
        ensures cause { HasCause (view_of self.old) (view_of self.new) result }
        ensures works { IsOk result }
    {
        Ok(())
    }
}
