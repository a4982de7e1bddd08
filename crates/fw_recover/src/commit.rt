//! Adding entries to a warehouse: they are judged, the state with the accepted ones is made, and then these are written.
ghost use Rattle.std.specs.Prelude.{◌≡◌, ◌⊎◌, ◌↔◌, ◌+◌, ◌<◌, ◌≤◌, true, false, [], ◌∷◌, length, IsSome, IfSome, IfNone, IsOk, IsErr, IfOk, IfErr, OnOk, IsErrOf, IsTrue};
ghost use Rattle.fw_disk.specs.Volume.{LeavesOnly, Rose};
ghost use Rattle.fw_journal.specs.Frames.{IsFit};
ghost use Rattle.fw_entry_bytes.specs.Forms.{has_entry, IsOfForm};
ghost use Rattle.fw_segment.specs.Groups.{group, IsGroup};
ghost use Rattle.fw_snapshot.specs.Verdicts.{verdicts_on};
ghost use Rattle.fw_snapshot.specs.declared.verdict.Verdict.TheVariants.{Accept};
ghost use Rattle.fw_recover.specs.declared.fault.StoreFault.TheVariants.{Device, Failed, TooLarge, OldSide};
ghost use Rattle.fw_recover.specs.Stands.{StandsFor};
ghost use Rattle.fw_recover.specs.Opening.{GoesBehind};
ghost use Rattle.fw_recover.specs.Committing.{prepared_on, judged_on, taken_on, accepted_on, LacksRoom, LeavesEither, Committed, Appended, Fails, Lost, IsCommitFault};

use crate::prepared::{group_of_one, len_of_one};
use crate::shared::with_entry;
use crate::{Prepared, Store, StoreFault};
use fw_disk::Volume;
use fw_journal::LogFault;
use fw_snapshot::{Entry, Snapshot, Verdict, judge};
use std::alloc::Global;

impl<V: Volume> Store<V> {
    /// Judges an entry after those of the warehouse, and adds it where it is accepted: it is written as a group of its own.
    /// The state with it is made before the first write, so after `Ok` nothing is left to do: whatever a crash leaves then
    /// stands for the warehouse with the entry. At each moment since the call's start a crash leaves the warehouse as it
    /// was, or with the entry. An entry that isn't accepted changes nothing.
    ///
    /// # Errors
    /// `Failed` where an earlier call ended with `Device`, whatever the entry is; then, for an entry that is accepted,
    /// `OldSide` where the form of the side in use doesn't have it, then `TooLarge` where the volume has no room for it, or
    /// `NoMemory`. These change nothing. `Device` where a write or a sync
    /// failed: the state is as it was, the files have the entry or not, and every later call that writes is `Failed`.
    pub fn commit(&mut self, alloc: Global, entry: &Entry) -> Result<Verdict, StoreFault>
        ensures any_moment { IsTrue V.tells → self.old.failed ≡ false
            → LeavesEither V.view self.old self.new (taken_on self.old entry.now) }
        ensures done { IfOk result (λ verdict. (verdict ≡ judged_on self.old entry.now)
            × Committed V.tells V.view self.old self.new (taken_on self.old entry.now)) }
        ensures fails { IfErr result (Fails V.view self.old self.new) }

        ensures failed { IsErrOf result Failed ↔ (self.old.failed ≡ true) }
        ensures old_side { IsErrOf result OldSide
            ↔ ((self.old.failed ≡ false) × (judged_on self.old entry.now ≡ Accept)
            × (has_entry self.old.form entry.now ≡ false)) }
        ensures too_large { IsErrOf result TooLarge
            → LacksRoom V.view self.old (taken_on self.old entry.now) }
        ensures fits { IsOk result → LacksRoom V.view self.old (taken_on self.old entry.now) → ⊥ }
        ensures accepted { IsErrOf result Device → judged_on self.old entry.now ≡ Accept }
        ensures later { (V.view self.old.volume).failures ≤ (V.view self.new.volume).failures }
        ensures limit { (V.view self.new.volume).limit ≡ (V.view self.old.volume).limit }
    {
        self.keeps();
        if self.failed {
            return Err(StoreFault::Failed);
        }
        let verdict = judge(self.snapshot.state(), entry);
        if let Verdict::Accept = verdict {
            if !self.form.has_entry(entry) {
                return Err(StoreFault::OldSide);
            }
            self.add(alloc, entry)?;
        }
        Ok(verdict)
    }

    /// Judges entries in turn, each after those of the warehouse and the accepted ones before it, and adds the accepted ones
    /// as one group: all of them at once, or none. It is [`Store::prepare`] and then [`Store::write`]. The entries have to
    /// be 1 to 64, of at most 8,388,608 bytes as a group. Where none is accepted nothing is written, so `Device` never comes.
    ///
    /// # Errors
    /// `Failed` where an earlier call ended with `Device`; then `OldSide` where the form of the side in use doesn't have an
    /// accepted entry, then `TooLarge` where the volume has no room for the group, or `NoMemory` in place of these two. These
    /// change nothing. `Device` where a write or a sync failed: the state is as it was, the files have all
    /// accepted entries or none, and every later call that writes is `Failed`.
    pub fn commit_group(
        &mut self,
        alloc: Global,
        entries: &[Entry],
    ) -> Result<Vec<Verdict>, StoreFault>
        requires group { IsGroup entries.now }
        requires size { length (group entries.now) ≤ 8388608 }

        ensures any_moment { IsTrue V.tells → self.old.failed ≡ false
            → LeavesEither V.view self.old self.new (accepted_on self.old entries.now) }
        ensures done { IfOk result (λ verdicts.
            (verdicts.items ≡ verdicts_on self.old.history.entries entries.now)
            × Committed V.tells V.view self.old self.new (accepted_on self.old entries.now)) }
        ensures fails { IfErr result (Fails V.view self.old self.new) }

        ensures failed { IsErrOf result Failed ↔ (self.old.failed ≡ true) }
        ensures old_side { IsErrOf result OldSide
            → IsOfForm self.old.form (accepted_on self.old entries.now) → ⊥ }
        ensures of_form { IsOk result → IsOfForm self.old.form (accepted_on self.old entries.now) }
        ensures before_too_large { IsErrOf result TooLarge
            → IsOfForm self.old.form (accepted_on self.old entries.now) }
        ensures too_large { IsErrOf result TooLarge
            → LacksRoom V.view self.old (accepted_on self.old entries.now) }
        ensures fits { IsOk result → LacksRoom V.view self.old (accepted_on self.old entries.now)
            → ⊥ }
        ensures accepted { IsErrOf result Device → 0 < length (accepted_on self.old entries.now) }
        ensures later { (V.view self.old.volume).failures ≤ (V.view self.new.volume).failures }
        ensures limit { (V.view self.new.volume).limit ≡ (V.view self.old.volume).limit }
    {
        self.keeps();
        let prepared = self.prepare(alloc, entries)?;
        self.write(alloc, prepared)
    }

    /// Judges entries in turn, and makes all that [`Store::write`] needs to add the accepted ones: the group that is to be
    /// written, and the state with them. It changes nothing. The entries have to be 1 to 64, of at most 8,388,608 bytes as a
    /// group.
    ///
    /// # Errors
    /// `Failed` where an earlier call ended with `Device`; then `OldSide` where the form of the side in use doesn't have an
    /// accepted entry, then `TooLarge` where the volume has no room for the group, or `NoMemory` in place of these two.
    pub fn prepare(&self, alloc: Global, entries: &[Entry]) -> Result<Prepared, StoreFault>
        requires group { IsGroup entries.now }
        requires size { length (group entries.now) ≤ 8388608 }

        ensures prepared { IfOk result (λ p. p ≡ prepared_on self.now.history entries.now) }
        ensures room { IfOk result (λ p. LacksRoom V.view self.now p.accepted → ⊥) }
        ensures failed { IsErrOf result Failed ↔ (self.now.failed ≡ true) }
        ensures of_form { IfOk result (λ p. IsOfForm self.now.form p.accepted) }
        ensures old_side { IsErrOf result OldSide
            → IsOfForm self.now.form (accepted_on self.now entries.now) → ⊥ }
        ensures before_too_large { IsErrOf result TooLarge
            → IsOfForm self.now.form (accepted_on self.now entries.now) }
        ensures too_large { IsErrOf result TooLarge
            → LacksRoom V.view self.now (accepted_on self.now entries.now) }
        ensures not_device { IsErrOf result Device → ⊥ }
        ensures which { IfErr result IsCommitFault }
    {
        if self.failed {
            return Err(StoreFault::Failed);
        }
        let Ok(prepared) = Prepared::new(alloc, self.form, &self.snapshot, entries) else {
            return Err(StoreFault::NoMemory);
        };
        let Some(prepared) = prepared else {
            return Err(StoreFault::OldSide);
        };
        let len = prepared.payload.len() as u64;
        if len > 0 && len + 6 > self.volume.limit() - self.log.end() {
            return Err(StoreFault::TooLarge);
        }
        Ok(prepared)
    }

    /// Adds what was prepared, and answers with the verdict on each entry. The store has to be as it was when the entries
    /// were prepared. At each moment since the call's start a crash leaves the warehouse as it was, or with all accepted
    /// entries; after `Ok` with them. Where none was accepted nothing is written, and the answer is `Ok`.
    ///
    /// # Errors
    /// `NoMemory`, before the first write: nothing changes. `Device` where a write or a sync failed: the state is as it was,
    /// the files have all accepted entries or none, and every later call that writes is `Failed`. What was prepared is spent.
    pub fn write(&mut self, alloc: Global, prepared: Prepared) -> Result<Vec<Verdict>, StoreFault>
        requires before { prepared.before ≡ self.old.history }
        requires goes_on { self.old.failed ≡ false }
        requires of_form { IsOfForm self.old.form prepared.accepted }
        requires room { LacksRoom V.view self.old prepared.accepted → ⊥ }

        ensures any_moment { IsTrue V.tells → LeavesEither V.view self.old self.new
            prepared.accepted }
        ensures done { IfOk result (λ verdicts. (verdicts.items ≡ prepared.verdicts)
            × Committed V.tells V.view self.old self.new prepared.accepted) }
        ensures fails { IfErr result (Fails V.view self.old self.new) }

        ensures accepted { IsErr result → 0 < length prepared.accepted }
        ensures not_failed { IsErrOf result Failed → ⊥ }
        ensures not_too_large { IsErrOf result TooLarge → ⊥ }
        ensures not_old_side { IsErrOf result OldSide → ⊥ }
        ensures later { (V.view self.old.volume).failures ≤ (V.view self.new.volume).failures }
        ensures limit { (V.view self.new.volume).limit ≡ (V.view self.old.volume).limit }
    {
        let Prepared {
            next,
            verdicts,
            payload,
            ..
        } = prepared;
        self.keeps();
        if payload.is_empty() {
            return Ok(verdicts);
        }
        self.append(alloc, &payload, next)?;
        Ok(verdicts)
    }

    // Adds an entry that is accepted, and that the form of the side in use has.
    fn add(&mut self, alloc: Global, entry: &Entry) -> Result<(), StoreFault>
        requires goes_on { self.old.failed ≡ false }
        requires of_form { has_entry self.old.form entry.now ≡ true }
        requires accepted { judged_on self.old entry.now ≡ Accept }

        ensures any_moment { IsTrue V.tells
            → LeavesEither V.view self.old self.new (entry.now ∷ []) }
        ensures done { OnOk result (Committed V.tells V.view self.old self.new (entry.now ∷ [])) }
        ensures fails { IfErr result (Fails V.view self.old self.new) }

        ensures not_failed { IsErrOf result Failed → ⊥ }
        ensures not_old_side { IsErrOf result OldSide → ⊥ }
        ensures too_large { IsErrOf result TooLarge → LacksRoom V.view self.old (entry.now ∷ []) }
        ensures fits { IsOk result → LacksRoom V.view self.old (entry.now ∷ []) → ⊥ }
        ensures later { (V.view self.old.volume).failures ≤ (V.view self.new.volume).failures }
        ensures limit { (V.view self.new.volume).limit ≡ (V.view self.old.volume).limit }
    {
        self.keeps();
        let Ok(next) = with_entry(self.snapshot.state(), entry) else {
            return Err(StoreFault::NoMemory);
        };
        if let Some(added) = self.append_length(len_of_one(entry)) {
            added?;
            self.snapshot = next;
            return Ok(());
        }
        let Ok(payload) = group_of_one(alloc, entry) else {
            return Err(StoreFault::NoMemory);
        };
        self.append(alloc, &payload, next)
    }

    // Adds a group of so many bytes to the log by its length alone, where the volume keeps nothing of what is written. `None` where the group has to be made; nothing
    // changes then. The state is shown as it was.
    fn append_length(&mut self, len: u64) -> Option<Result<(), StoreFault>>
        requires goes_on { self.old.failed ≡ false }
        requires fit { (1 ≤ len) × (len ≤ 8388608) }

        ensures untold { IsSome result → V.tells ≡ false }
        ensures declined { IfNone result (self.new ≡ self.old) }
        ensures done { IfSome result (λ added. OnOk added (self.new
            ≡ record self.old {
              volume = self.new.volume;
              log = record self.old.log
                  { end = self.old.log.end + 5 + len };
            })) }
        ensures fits { IsSome result → self.old.log.end + 6 + len ≤ (V.view self.old.volume).limit }
        ensures lost { IfSome result (λ added.
            IfErr added (λ why. (why ≡ Device) × Lost self.old self.new
            × Rose (V.view self.old.volume).failures (V.view self.new.volume).failures)) }
        ensures later { (V.view self.old.volume).failures ≤ (V.view self.new.volume).failures }
        ensures limit { (V.view self.new.volume).limit ≡ (V.view self.old.volume).limit }
    {
        let added = self.log.append_length(&mut self.volume, len)?;
        self.failed = added.is_err();
        Some(added.map_err(|_| StoreFault::Device))
    }

    // Writes a group to the log, and shows the state with it from then on.
    fn append(&mut self, alloc: Global, payload: &[u8], next: Snapshot) -> Result<(), StoreFault>
        requires goes_on { self.old.failed ≡ false }
        requires fit { IsFit payload.now }
        requires goes { GoesBehind self.old.form self.old.history payload.now next }

        ensures any_moment { IsTrue V.tells → LeavesOnly (V.view self.old.volume)
            (V.view self.new.volume)
            (λ c. StandsFor self.old.history c ⊎ StandsFor next c) }
        ensures done { OnOk result (Appended V.tells V.view self.old self.new payload.now next) }
        ensures fails { IfErr result (Fails V.view self.old self.new) }

        ensures not_failed { IsErrOf result Failed → ⊥ }
        ensures not_old_side { IsErrOf result OldSide → ⊥ }
        ensures too_large { IsErrOf result TooLarge
            ↔ ((V.view self.old.volume).limit < self.old.log.end + 6 + length payload.now) }
        ensures later { (V.view self.old.volume).failures ≤ (V.view self.new.volume).failures }
        ensures limit { (V.view self.new.volume).limit ≡ (V.view self.old.volume).limit }
    {
        match self.log.append(alloc, &mut self.volume, payload) {
            Ok(()) => {
                self.snapshot = next;
                Ok(())
            }
            Err(LogFault::Device) => {
                self.failed = true;
                Err(StoreFault::Device)
            }
            Err(LogFault::TooLarge) => Err(StoreFault::TooLarge),
            Err(LogFault::NoMemory) => Err(StoreFault::NoMemory),
            Err(LogFault::Failed | LogFault::Corrupt { .. }) => unreachable!(),
        }
    }
}
