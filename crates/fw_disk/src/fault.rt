//! A volume of which some calls fail, by a plan.
ghost use Rattle.std.specs.Prelude.{◌≡◌, ℕ, ◌+◌, ◌-◌, ◌^◌, ◌<◌, ◌≤◌, ◌↔◌, min, length, true, false, IsTrue, IsFalse, OnOk, IsErr, IsErrOf};
ghost use Rattle.fw_disk.specs.declared.volume.Side.{Side};
ghost use Rattle.fw_disk.specs.declared.volume.VolumeFault.TheVariants.{Io, TooLarge};
ghost use Rattle.fw_disk.specs.Volume.{Returns, Writes, Holds, Settled, Quiet, StaysPending, SettlesOnly, Allows, TornSide, SameSizes, Grows, HasCause, Shows};
ghost use Rattle.fw_disk.specs.Schedule.{fails_after, fails_between, schedule, is_series, stopped, schedule_of, is_series_of, inner_of, failed_of, failed_more, view_over, Reaches};

use crate::volume::count_failure;
use crate::{Side, Stoppable, Volume, VolumeFault};

/// How many calls fail once the first one has.
#[derive(Clone, Copy, Debug, PartialEq, Eq)]
pub enum Mode {
    /// That one alone.
    Once,
    /// Each from there on.
    After,
}

#[derive(Drop)]
enum Plan {
    /// Passes so many calls, and then fails by the mode.
    Passing(u64, Mode),
    Failing,
    Done,
    /// Passes so many calls, fails one, and goes on with the last of the further numbers. With no number none fails.
    Series(Option<u64>, Vec<u64>),
}

impl Plan {
    /// Whether the next call fails, which is then one of the past.
    fn next_fails(&mut self) -> bool
        ensures fails { result ≡ schedule self.old 0 }
        ensures goes_on { (k : ℕ) → schedule self.new k ≡ schedule self.old (k + 1) }
        ensures kind { is_series self.new ≡ is_series self.old }
    {
        match self {
            Plan::Passing(0, Mode::Once) => {
                *self = Plan::Done;
                true
            }
            Plan::Passing(0, Mode::After) => {
                *self = Plan::Failing;
                true
            }
            Plan::Passing(pass, _) => {
                *pass -= 1;
                false
            }
            Plan::Series(pass @ Some(0), more) => {
                *pass = more.pop();
                true
            }
            Plan::Series(Some(pass), _) => {
                *pass -= 1;
                false
            }
            Plan::Failing => true,
            Plan::Done | Plan::Series(None, _) => false,
        }
    }

    /// What a stop leaves of the plan: a series goes on, and by any other nothing fails any more.
    fn after_stop(self) -> Plan
        ensures schedule { (k : ℕ) → schedule result k
            ≡ stopped (is_series self) (schedule self) k }
        ensures kind { is_series result ≡ is_series self }
    {
        match self {
            Plan::Series(pass, more) => Plan::Series(pass, more),
            Plan::Passing(..) | Plan::Failing | Plan::Done => Plan::Done,
        }
    }
}

/// A volume over another one, of which some reads, writes and syncs fail with `Io`. A write that fails reaches the
/// volume below all the same, a sync or a read that fails doesn't. A write past the limit is no such call.
pub struct FaultVolume<V: Volume> {
    inner: V,
    plan: Plan,
    /// The calls that failed by the plan.
    failures: u64,
}

impl<V: Volume + Drop> Drop for FaultVolume<V> {
    fn drop(self) {
        let Self {
            inner: _,
            plan: _,
            failures: _,
        } = self;
    }
}

impl<V: Volume> FaultVolume<V> {
    /// Passes `pass` reads, writes and syncs on to `inner`; then one fails, or all, as the mode says.
    pub fn new(inner: V, pass: u64, mode: Mode) -> FaultVolume<V>
        ensures shows { Shows (V.view inner) (⟦<FaultVolume<V> as Volume>⟧.view result) }
        ensures inner { inner_of result ≡ inner }
        ensures schedule { (k : ℕ) → schedule_of result k ≡ fails_after pass mode k }
        ensures ends { is_series_of result ≡ false }
        ensures failures { failed_of result ≡ 0 }
    {
        FaultVolume {
            inner,
            plan: Plan::Passing(pass, mode),
            failures: 0,
        }
    }

    /// Passes the first number of reads, writes and syncs on to `inner` and fails one, passes the second number and fails
    /// one, and so on; after the last one none fails. It takes no memory, and a stop keeps what is left of the numbers.
    pub fn series(inner: V, mut passes: Vec<u64>) -> FaultVolume<V>
        ensures shows { Shows (V.view inner) (⟦<FaultVolume<V> as Volume>⟧.view result) }
        ensures inner { inner_of result ≡ inner }
        ensures schedule { (k : ℕ) → schedule_of result k ≡ fails_between passes.items k }
        ensures goes_on { is_series_of result ≡ true }
        ensures failures { failed_of result ≡ 0 }
    {
        passes.reverse();
        FaultVolume {
            inner,
            plan: Plan::Series(passes.pop(), passes),
            failures: 0,
        }
    }
}

impl<V: Volume> Volume for FaultVolume<V> {
    ghost tells = { V.tells };

    ghost view = { λ f. view_over V.view f };

    ghost sized = { λ f. V.sized f.inner };

    ghost within = { λ f. V.within f.inner };

    ghost bounded = { λ f. V.bounded f.inner };

    ghost stays = { λ f. V.stays f.inner };

    ghost counts_now = { λ f. V.counts_now f.inner };

    ghost only_now = { λ f. V.only_now f.inner };

    fn limit(&self) -> u64 {
        self.inner.limit()
    }

    fn len(&self, side: Side) -> u64 {
        self.inner.len(side)
    }

    fn read(&mut self, side: Side, at: u64, into: &mut [u8]) -> Result<(), VolumeFault>
        requires { at + length into.old ≤ (view_over V.view self.old).size side }
        ensures bytes { OnOk result (IsTrue V.tells
            → Returns at ((view_over V.view self.old).seen side) into.new) }
        ensures told { IsTrue V.tells → Quiet (view_over V.view self.old)
            (view_over V.view self.new) }
        ensures pending { IsTrue V.tells → StaysPending (view_over V.view self.old)
            (view_over V.view self.new) }
        ensures sizes { SameSizes (view_over V.view self.old) (view_over V.view self.new) }
        ensures cause { HasCause (view_over V.view self.old) (view_over V.view self.new) result }
        ensures fits { IsErrOf result TooLarge → ⊥ }

        // The plan says whether the call fails; where it doesn't, the answer is that of the volume below.
        ensures fails { IsTrue (schedule_of self.old 0) → IsErrOf result Io }
        ensures keeps { IsTrue (schedule_of self.old 0) → inner_of self.new ≡ inner_of self.old }
        ensures passes { IsFalse (schedule_of self.old 0)
            → HasCause (V.view (inner_of self.old)) (V.view (inner_of self.new)) result }
        ensures schedule { (k : ℕ) → schedule_of self.new k ≡ schedule_of self.old (k + 1) }
        ensures kind { is_series_of self.new ≡ is_series_of self.old }
        ensures failures { failed_of self.new ≡ failed_more (schedule_of self.old 0)
            (failed_of self.old) }
    {
        if self.plan.next_fails() {
            return Err(count_failure(&mut self.failures));
        }
        self.inner.read(side, at, into)
    }

    fn write_at(&mut self, side: Side, at: u64, bytes: &[u8]) -> Result<(), VolumeFault>
        requires { at ≤ (view_over V.view self.old).size side }
        ensures written { OnOk result (IsTrue V.tells
            → Holds at bytes.now ((view_over V.view self.old).seen side)
            ((view_over V.view self.new).seen side)) }
        ensures told { IsTrue V.tells → Writes side at (length bytes.now)
            (view_over V.view self.old) (view_over V.view self.new) }
        ensures pending { IsTrue V.tells → StaysPending (view_over V.view self.old)
            (view_over V.view self.new) }
        ensures every_tear { OnOk result (IsTrue V.tells
            → Allows (TornSide side at (length bytes.now)) (view_over V.view self.old).may_leave
            (view_over V.view self.new).may_leave) }
        ensures sizes { Grows side at (length bytes.now) (view_over V.view self.old)
            (view_over V.view self.new) result }
        ensures cause { HasCause (view_over V.view self.old) (view_over V.view self.new) result }
        ensures too_large { IsErrOf result TooLarge
            ↔ ((view_over V.view self.old).limit < at + length bytes.now) }
        ensures unchanged { IsErrOf result TooLarge → self.new ≡ self.old }

        // The plan says whether the call fails; where it doesn't, the answer is that of the volume below.
        ensures fails { IsTrue (schedule_of self.old 0) → IsErr result }
        ensures reaches { at + length bytes.now ≤ (view_over V.view self.old).limit
            → Reaches V.tells side at bytes.now (V.view (inner_of self.old))
            (V.view (inner_of self.new)) }
        ensures passes { IsFalse (schedule_of self.old 0)
            → HasCause (V.view (inner_of self.old)) (V.view (inner_of self.new)) result }
        ensures schedule { at + length bytes.now ≤ (view_over V.view self.old).limit → (k : ℕ)
            → schedule_of self.new k ≡ schedule_of self.old (k + 1) }
        ensures kind { is_series_of self.new ≡ is_series_of self.old }
        ensures failures { at + length bytes.now ≤ (view_over V.view self.old).limit
            → failed_of self.new ≡ failed_more (schedule_of self.old 0) (failed_of self.old) }
    {
        if bytes.len() as u64 > self.inner.limit() - at {
            return Err(VolumeFault::TooLarge);
        }
        if self.plan.next_fails() {
            let _ = self.inner.write_at(side, at, bytes);
            return Err(count_failure(&mut self.failures));
        }
        self.inner.write_at(side, at, bytes)
    }

    fn sync(&mut self, side: Side) -> Result<(), VolumeFault>
        ensures durable { OnOk result (IsTrue V.tells → Settled side (view_over V.view self.new)) }
        ensures told { IsTrue V.tells → Quiet (view_over V.view self.old)
            (view_over V.view self.new) }
        ensures pending { IsTrue V.tells → SettlesOnly side (view_over V.view self.old)
            (view_over V.view self.new) }
        ensures sizes { SameSizes (view_over V.view self.old) (view_over V.view self.new) }
        ensures cause { HasCause (view_over V.view self.old) (view_over V.view self.new) result }
        ensures fits { IsErrOf result TooLarge → ⊥ }

        // The plan says whether the call fails; where it doesn't, the answer is that of the volume below.
        ensures fails { IsTrue (schedule_of self.old 0) → IsErrOf result Io }
        ensures keeps { IsTrue (schedule_of self.old 0) → inner_of self.new ≡ inner_of self.old }
        ensures passes { IsFalse (schedule_of self.old 0)
            → HasCause (V.view (inner_of self.old)) (V.view (inner_of self.new)) result }
        ensures schedule { (k : ℕ) → schedule_of self.new k ≡ schedule_of self.old (k + 1) }
        ensures kind { is_series_of self.new ≡ is_series_of self.old }
        ensures failures { failed_of self.new ≡ failed_more (schedule_of self.old 0)
            (failed_of self.old) }
    {
        if self.plan.next_fails() {
            // The volume below isn't synced.
            return Err(count_failure(&mut self.failures));
        }
        self.inner.sync(side)
    }
}

impl<V: Stoppable> Stoppable for FaultVolume<V> {
    ghost leaves = { λ f. V.leaves f.inner };

    /// The volume below is stopped, and leaves what it leaves of itself. A series goes on, so that calls after the stop
    /// fail too; by any other plan none fails any more.
    fn stop(self) -> Self
        ensures image { IsTrue V.tells → (view_over V.view self).may_leave
            (view_over V.view result).seen }
        ensures left { IsTrue V.tells → V.leaves (inner_of self) (view_over V.view result).seen }
        ensures settled { IsTrue V.tells → (s : Side) → Settled s (view_over V.view result) }
        ensures limit { (view_over V.view result).limit ≡ (view_over V.view self).limit }
        ensures schedule { (k : ℕ) → schedule_of result k
            ≡ stopped (is_series_of self) (schedule_of self) k }
        ensures kind { is_series_of result ≡ is_series_of self }
        ensures failures { failed_of result ≡ failed_of self }
    {
        let FaultVolume {
            inner,
            plan,
            failures,
        } = self;
        FaultVolume {
            inner: inner.stop(),
            plan: plan.after_stop(),
            failures,
        }
    }
}
