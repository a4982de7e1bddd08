//! Entries that are committed one by one, and what a crash leaves of them.
ghost use Rattle.std.specs.Prelude.{◌≡◌, ◌⊎◌, ◌↔◌, ◌+◌, ◌<◌, ◌≤◌, ℕ, true, false, length, take, drop, None, IfOk, IfErr, IfSome, IsTrue};
ghost use Rattle.fw_disk.specs.Volume.{Image, LeavesOnly, Rose};
ghost use Rattle.fw_entry_bytes.specs.Forms.{IsOfForm};
ghost use Rattle.fw_snapshot.specs.Verdicts.{verdicts_on, accepted_of};
ghost use Rattle.fw_recover.specs.declared.fault.StoreFault.TheVariants.{Device, Failed, TooLarge, OldSide, NoMemory};
ghost use Rattle.fw_recover.specs.Stands.{EachStandsFor};
ghost use Rattle.fw_recover.specs.Committing.{HasNoRoom, with_first, StandsForFirst, HasAnswered, IsCommitFault};

use crate::{Store, StoreFault};
use fw_disk::{Stoppable, Volume};
use fw_snapshot::{Entry, Verdict};
use std::alloc::Global;

impl<V: Volume> Store<V> {
    /// Commits each entry as a group of its own, in turn, until one fails. The verdicts are those on the entries before that
    /// one, whose accepted ones are in the warehouse: whatever a crash leaves afterwards stands for it with these, and after
    /// `Device` perhaps with the entry that failed.
    ///
    /// # Errors
    /// The verdicts so far, and the fault of [`Store::commit`] for the next entry. `Failed` comes first, before any entry, and
    /// where there is none too: nothing changes. Then `NoMemory`, before the first entry, where there is no memory for the
    /// verdicts. After `OldSide`, `TooLarge` and `NoMemory` the store goes on: it takes what later calls add. After `Device` every later
    /// call that writes is `Failed`.
    pub fn run(
        &mut self,
        alloc: Global,
        entries: &[Entry],
    ) -> Result<Vec<Verdict>, (Vec<Verdict>, StoreFault)>
        ensures any_moment { IsTrue V.tells → self.old.failed ≡ false
            → LeavesOnly (V.view self.old.volume) (V.view self.new.volume)
            (StandsForFirst self.old.history entries.now) }
        ensures all { IfOk result (λ verdicts.
            (verdicts.items ≡ verdicts_on self.old.history.entries entries.now)
            × (self.new.history ≡ with_first self.old.history (length entries.now) entries.now)
            × (self.old.failed ≡ false) × (self.new.failed ≡ false)) }
        ensures so_far { IfErr result (λ e. (length e.0.items ≤ length entries.now)
            × (e.0.items ≡ verdicts_on self.old.history.entries
            (take (length e.0.items) entries.now))
            × (self.new.history ≡ with_first self.old.history (length e.0.items) entries.now)) }
        ensures not_all { IfErr result (λ e. 0 < length entries.now
            → length e.0.items < length entries.now) }
        ensures each { IfOk result (λ verdicts.
            IsTrue V.tells → EachStandsFor self.new.history (V.view self.new.volume)) }
        ensures each_so_far { IfErr result (λ e.
            IsTrue V.tells → self.old.failed ≡ false → (c : Image)
            → (V.view self.new.volume).may_leave c
            → HasAnswered self.old.history entries.now (length e.0.items) c) }

        ensures failed { IfErr result (λ e. (e.1 ≡ Failed) ↔ (self.old.failed ≡ true)) }
        ensures unchanged { IfErr result (λ e. e.1 ≡ Failed → self.new ≡ self.old) }
        ensures goes_on { IfErr result (λ e. (e.1 ≡ OldSide) ⊎ ((e.1 ≡ TooLarge) ⊎ (e.1 ≡ NoMemory))
            → (self.new.failed ≡ false)
            × (IsTrue V.tells → EachStandsFor self.new.history (V.view self.new.volume))) }
        ensures old_side { IfErr result (λ e. e.1 ≡ OldSide
            → IsOfForm self.new.form (accepted_of self.new.history.entries
            (take 1 (drop (length e.0.items) entries.now))) → ⊥) }
        ensures too_large { IfErr result (λ e. e.1 ≡ TooLarge
            → HasNoRoom (V.view self.new.volume).limit self.new
            (accepted_of self.new.history.entries (take 1 (drop (length e.0.items) entries.now)))) }
        ensures lost { IfErr result (λ e. e.1 ≡ Device → self.new.failed ≡ true) }
        ensures accepted { IfErr result (λ e.
            e.1 ≡ Device → 0 < length (accepted_of self.new.history.entries
            (take 1 (drop (length e.0.items) entries.now)))) }
        ensures device { IfErr result (λ e. e.1 ≡ Device
            → Rose (V.view self.old.volume).failures (V.view self.new.volume).failures) }
        ensures which { IfErr result (λ e. IsCommitFault e.1) }
        ensures later { (V.view self.old.volume).failures ≤ (V.view self.new.volume).failures }
        ensures limit { (V.view self.new.volume).limit ≡ (V.view self.old.volume).limit }
    {
        self.keeps();
        if self.failed {
            return Err((Vec::new(alloc), StoreFault::Failed));
        }
        let Ok(mut verdicts) = Vec::with_capacity(alloc, entries.len()) else {
            return Err((Vec::new(alloc), StoreFault::NoMemory));
        };
        for entry in entries {
            match self.commit(alloc, entry) {
                Ok(verdict) => verdicts.push_reserved(verdict),
                Err(fault) => return Err((verdicts, fault)),
            }
        }
        Ok(verdicts)
    }

    // The verdicts of `run`, and the fault that it came to, if any.
    fn run_until_a_fault(
        &mut self,
        alloc: Global,
        entries: &[Entry],
    ) -> (Vec<Verdict>, Option<StoreFault>)
        requires { self.old.failed ≡ false }

        ensures answered { (length result.0.items ≤ length entries.now)
            × (result.0.items ≡ verdicts_on self.old.history.entries
            (take (length result.0.items) entries.now)) }
        ensures all { result.1 ≡ None → length result.0.items ≡ length entries.now }
        ensures which { IfSome result.1 IsCommitFault }
        ensures each { IsTrue V.tells → (c : Image) → (V.view self.new.volume).may_leave c
            → HasAnswered self.old.history entries.now (length result.0.items) c }
    {
        match self.run(alloc, entries) {
            Ok(all) => (all, None),
            Err((some, fault)) => (some, Some(fault)),
        }
    }
}

/// Commits entries in turn until one fails, is stopped as by a crash, and opened again. It answers the verdicts on the entries before the one
/// that failed, which are all where none failed, then the fault of that one, and then the warehouse. Whenever the stop came, the warehouse has
/// the entries of a prefix in which each answered one is, and one more at most. It is never missing or corrupt: it opens, unless a read or a
/// sync fails or memory runs out.
pub fn run_and_recover<V: Stoppable>(
    alloc: Global,
    store: Store<V>,
    entries: &[Entry],
) -> (
    Vec<Verdict>,
    Option<StoreFault>,
    Result<Store<V>, (V, StoreFault)>,
)
    requires { store.failed ≡ false }

    ensures answered { (length result.0.items ≤ length entries.now)
        × (result.0.items ≡ verdicts_on store.history.entries
        (take (length result.0.items) entries.now)) }
    ensures all { result.1 ≡ None → length result.0.items ≡ length entries.now }
    ensures which { IfSome result.1 IsCommitFault }
    ensures recovered { IfOk result.2 (λ s. IsTrue V.tells
        → (n : ℕ) × (length result.0.items ≤ n) × (n ≤ length result.0.items + 1)
        × (s.history ≡ with_first store.history n entries.now)) }
    ensures else_device_or_memory { IfErr result.2 (λ e.
        IsTrue V.tells → (e.1 ≡ Device) ⊎ (e.1 ≡ NoMemory)) }
{
    let mut store = store;
    let (verdicts, fault) = store.run_until_a_fault(alloc, entries);
    let volume = store.close().stop();
    (verdicts, fault, Store::open(alloc, volume))
}
