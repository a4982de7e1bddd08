//! Entries that are judged, and spelled as a group, before anything of them is written.
ghost use Rattle.std.specs.Prelude.{◌≡◌, ◌<◌, ◌≤◌, [], ◌∷◌, false, length, true, IfNone, IfOk, IfSome};
ghost use Rattle.std.specs.List.{list_all};
ghost use Rattle.std.specs.Vec.{vec_capacity};
ghost use Rattle.fw_entry_bytes.specs.Forms.{has_entry};
ghost use Rattle.fw_segment.specs.Groups.{group, IsGroup};
ghost use Rattle.fw_snapshot.specs.Verdicts.{verdicts_on, accepted_of, chosen, with_more};
ghost use Rattle.fw_recover.specs.Committing.{payload_of, IsFrameable};

use crate::judging::judge_each;
use fw_entry_bytes::Form;
use fw_segment::append_accepted;
use fw_snapshot::{Entry, Snapshot, Verdict};
use std::alloc::{AllocError, Global};
use std::marker::Model;
use std::slice;

/// Entries that were judged after those of a warehouse, the accepted ones as a group that is ready to be written, and the
/// state with them, which is [settled](State::settled), since it is shown to many.
#[derive(Drop)]
pub struct Prepared {
    /// How many entries the warehouse had before.
    entries: usize,
    /// The state with the accepted entries.
    pub(crate) next: Snapshot,
    pub(crate) verdicts: Vec<Verdict>,
    /// The group of the accepted entries; no bytes where none was accepted.
    pub(crate) payload: Vec<u8>,
}

impl Model for Prepared {
    ghost use Rattle.fw_recover.specs.Committing.{PreparedState};
    ghost use Rattle.fw_recover.specs.Prepared.{prepared_view, KeepsPrepared};

    ghost Value = { PreparedState };

    ghost view = { prepared_view };

    ghost invariant = { KeepsPrepared };
}

impl Prepared {
    ghost use Rattle.fw_recover.specs.Committing.{prepared_on};

    /// Entries that are judged in turn after those of a state, and all that is needed to add the accepted ones, where the form
    /// has each of these. The error comes where memory ran out.
    pub(crate) fn new(
        alloc: Global,
        form: Form,
        state: &Snapshot,
        entries: &[Entry],
    ) -> Result<Option<Prepared>, AllocError>
        requires group { IsGroup entries.now }
        requires size { length (group entries.now) ≤ 8388608 }

        ensures prepared { IfOk result (λ found.
            IfSome found (λ p. p ≡ prepared_on state.now entries.now)) }
        ensures of_form { IfOk result (λ found.
            IfSome found (λ _. list_all (has_entry form) (accepted_of state.now.entries entries.now)
            ≡ true)) }
        ensures old { IfOk result (λ found. IfNone found
            (list_all (has_entry form) (accepted_of state.now.entries entries.now) ≡ false)) }
    {
        let mut verdicts = Vec::with_capacity(alloc, entries.len())?;
        let Some(next) = judged(form, state, entries, &mut verdicts)? else {
            return Ok(None);
        };
        let before = state.state().entries();
        let accepted = next.state().entries() - before;
        let payload = group_of_accepted(alloc, accepted, entries, &verdicts)?;
        Ok(Some(Prepared {
            entries: before,
            next,
            verdicts,
            payload,
        }))
    }

    /// The state of the warehouse with the accepted entries. It takes no memory.
    pub fn next(&self) -> &Snapshot
        ensures { result.now ≡ with_more self.now.before self.now.accepted }
    {
        &self.next
    }

    /// The verdict on each entry, in their order. It takes no memory.
    pub fn verdicts(&self) -> &[Verdict]
        ensures { result.now ≡ self.now.verdicts }
    {
        &self.verdicts
    }
}

/// The state with those of the entries that are accepted, where the form has each of these, and the verdicts in the list.
fn judged(
    form: Form,
    state: &Snapshot,
    entries: &[Entry],
    verdicts: &mut Vec<Verdict>,
) -> Result<Option<Snapshot>, AllocError>
    requires none { verdicts.old.items ≡ [] }
    requires room { length entries.now ≤ vec_capacity verdicts.old }
    ensures verdicts { IfOk result (λ _.
        verdicts.new.items ≡ verdicts_on state.now.entries entries.now) }
    ensures next { IfOk result (λ found. IfSome found (λ next.
        next ≡ with_more state.now (accepted_of state.now.entries entries.now))) }
    ensures of_form { IfOk result (λ found.
        IfSome found (λ _. list_all (has_entry form) (accepted_of state.now.entries entries.now)
        ≡ true)) }
    ensures old { IfOk result (λ found. IfNone found
        (list_all (has_entry form) (accepted_of state.now.entries entries.now) ≡ false)) }
{
    let mut next = state.copy()?;
    if judge_each(form, &mut next, entries, verdicts)? {
        Ok(Some(Snapshot::settled(next.state())?))
    } else {
        Ok(None)
    }
}

/// The bytes of the group of the entries that their verdicts accept, which are so many; no bytes where there is none.
fn group_of_accepted(
    alloc: Global,
    count: usize,
    entries: &[Entry],
    verdicts: &[Verdict],
) -> Result<Vec<u8>, AllocError>
    requires each { length verdicts.now ≡ length entries.now }
    requires count { count ≡ length (chosen entries.now verdicts.now) }
    requires group { 0 < length (chosen entries.now verdicts.now)
        → IsGroup (chosen entries.now verdicts.now) }

    ensures { IfOk result (λ bytes. bytes.items ≡ payload_of (chosen entries.now verdicts.now)) }
{
    let mut payload = Vec::new(alloc);
    if count == 0 {
        return Ok(payload);
    }
    append_accepted(&mut payload, entries, verdicts)?;
    Ok(payload)
}

/// The bytes of the group of one entry.
pub(crate) fn group_of_one(alloc: Global, entry: &Entry) -> Result<Vec<u8>, AllocError>
    ensures spelled { IfOk result (λ bytes. bytes.items ≡ group (entry.now ∷ [])) }
    ensures frameable { IsFrameable (entry.now ∷ []) }
{
    // An entry keeps its limits.
    let _seq = entry.seq();
    let mut payload = Vec::new(alloc);
    append_accepted(&mut payload, slice::from_ref(entry), &[Verdict::Accept])?;
    Ok(payload)
}

/// How many bytes the group of one entry has.
pub(crate) fn len_of_one(entry: &Entry) -> u64
    ensures len { result ≡ length (group (entry.now ∷ [])) }
    ensures fit { (1 ≤ result) × (result ≤ 8388608) }
{
    // An entry keeps its limits.
    let _seq = entry.seq();
    4 + entry.encoded_len() as u64
}
