//! The volume, and what its gate has to be.
ghost use Rattle.std.specs.Prelude.{◌≡◌, ◌+◌, ◌<◌, ◌≤◌, ◌↔◌, length, IsTrue, OnOk, IsErrOf};
ghost use Rattle.fw_disk.specs.declared.volume.Side.{Side};
ghost use Rattle.fw_disk.specs.declared.volume.VolumeFault.TheVariants.{TooLarge};
ghost use Rattle.fw_disk.specs.Volume.{Returns, Writes, Holds, Settled, Quiet, StaysPending, SettlesOnly, Allows, TornSide, SameSizes, Grows, HasCause};
ghost use Rattle.fw_gate.specs.Gate.{one_more, inner_of, gate_of, view_behind};

use fw_disk::{Side, Stoppable, Volume, VolumeFault};

/// What has to be passed before each sync.
pub trait Gate: Drop {
    ghost use Rattle.std.specs.Prelude.{ℕ};

    /// How often it was passed. It stays at its last value, 2^64 - 1.
    ghost passed: { Self → ℕ };

    /// Passes the gate. It may take its time, and has to return.
    fn pass(&mut self)
        ensures { passed self.new ≡ one_more (passed self.old) };
}

/// A volume over another one, of which each sync first passes a gate. Else the two are alike.
pub struct GateVolume<V: Volume, G: Gate> {
    inner: V,
    gate: G,
}

impl<V: Volume + Drop, G: Gate + Drop> Drop for GateVolume<V, G> {
    fn drop(self) {
        let Self { inner: _, gate: _ } = self;
    }
}

impl<V: Volume, G: Gate> GateVolume<V, G> {
    /// A volume over `inner`, with this gate. It takes no memory.
    pub fn new(inner: V, gate: G) -> GateVolume<V, G>
        ensures inner { inner_of result ≡ inner }
        ensures gate { gate_of result ≡ gate }
    {
        GateVolume { inner, gate }
    }
}

impl<V: Volume, G: Gate> Volume for GateVolume<V, G> {
    ghost tells = { V.tells };

    ghost view = { λ g. view_behind V.view g };

    ghost sized = { λ g. V.sized g.inner };

    ghost within = { λ g. V.within g.inner };

    ghost bounded = { λ g. V.bounded g.inner };

    ghost stays = { λ g. V.stays g.inner };

    ghost counts_now = { λ g. V.counts_now g.inner };

    ghost only_now = { λ g. V.only_now g.inner };

    fn limit(&self) -> u64 {
        self.inner.limit()
    }

    fn len(&self, side: Side) -> u64 {
        self.inner.len(side)
    }

    fn read(&mut self, side: Side, at: u64, into: &mut [u8]) -> Result<(), VolumeFault>
        requires { at + length into.old ≤ (view_behind V.view self.old).size side }
        ensures bytes { OnOk result (IsTrue V.tells
            → Returns at ((view_behind V.view self.old).seen side) into.new) }
        ensures told { IsTrue V.tells → Quiet (view_behind V.view self.old)
            (view_behind V.view self.new) }
        ensures pending { IsTrue V.tells → StaysPending (view_behind V.view self.old)
            (view_behind V.view self.new) }
        ensures sizes { SameSizes (view_behind V.view self.old) (view_behind V.view self.new) }
        ensures cause { HasCause (view_behind V.view self.old)
            (view_behind V.view self.new) result }
        ensures fits { IsErrOf result TooLarge → ⊥ }

        // Only a sync passes the gate.
        ensures gate { gate_of self.new ≡ gate_of self.old }
    {
        self.inner.read(side, at, into)
    }

    fn write_at(&mut self, side: Side, at: u64, bytes: &[u8]) -> Result<(), VolumeFault>
        requires { at ≤ (view_behind V.view self.old).size side }
        ensures written { OnOk result (IsTrue V.tells
            → Holds at bytes.now ((view_behind V.view self.old).seen side)
            ((view_behind V.view self.new).seen side)) }
        ensures told { IsTrue V.tells → Writes side at (length bytes.now)
            (view_behind V.view self.old) (view_behind V.view self.new) }
        ensures pending { IsTrue V.tells → StaysPending (view_behind V.view self.old)
            (view_behind V.view self.new) }
        ensures every_tear { OnOk result (IsTrue V.tells
            → Allows (TornSide side at (length bytes.now)) (view_behind V.view self.old).may_leave
            (view_behind V.view self.new).may_leave) }
        ensures sizes { Grows side at (length bytes.now) (view_behind V.view self.old)
            (view_behind V.view self.new) result }
        ensures cause { HasCause (view_behind V.view self.old)
            (view_behind V.view self.new) result }
        ensures too_large { IsErrOf result TooLarge
            ↔ ((view_behind V.view self.old).limit < at + length bytes.now) }
        ensures unchanged { IsErrOf result TooLarge → self.new ≡ self.old }

        // Only a sync passes the gate.
        ensures gate { gate_of self.new ≡ gate_of self.old }
    {
        self.inner.write_at(side, at, bytes)
    }

    fn sync(&mut self, side: Side) -> Result<(), VolumeFault>
        ensures durable { OnOk result (IsTrue V.tells
            → Settled side (view_behind V.view self.new)) }
        ensures told { IsTrue V.tells → Quiet (view_behind V.view self.old)
            (view_behind V.view self.new) }
        ensures pending { IsTrue V.tells → SettlesOnly side (view_behind V.view self.old)
            (view_behind V.view self.new) }
        ensures sizes { SameSizes (view_behind V.view self.old) (view_behind V.view self.new) }
        ensures cause { HasCause (view_behind V.view self.old)
            (view_behind V.view self.new) result }
        ensures fits { IsErrOf result TooLarge → ⊥ }

        // Whatever it answers, the gate was passed once.
        ensures passed { G.passed (gate_of self.new) ≡ one_more (G.passed (gate_of self.old)) }
    {
        self.gate.pass();
        self.inner.sync(side)
    }
}

impl<V: Stoppable, G: Gate> Stoppable for GateVolume<V, G> {
    ghost leaves = { λ g. V.leaves g.inner };

    /// The volume below is stopped. The gate stays as it is.
    fn stop(self) -> Self
        ensures image { IsTrue V.tells → (view_behind V.view self).may_leave
            (view_behind V.view result).seen }
        ensures left { IsTrue V.tells → V.leaves (inner_of self) (view_behind V.view result).seen }
        ensures settled { IsTrue V.tells → (s : Side) → Settled s (view_behind V.view result) }
        ensures limit { (view_behind V.view result).limit ≡ (view_behind V.view self).limit }
        ensures gate { gate_of result ≡ gate_of self }
    {
        let GateVolume { inner, gate } = self;
        GateVolume {
            inner: inner.stop(),
            gate,
        }
    }
}
