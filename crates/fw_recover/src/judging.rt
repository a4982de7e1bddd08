//! Entries that are judged in turn, each after those of a state.
//!
//! What the state is lent to has no other value at hand: so a proof has few drops to follow.
ghost use Rattle.std.specs.Prelude.{◌≡◌, ◌≤◌, [], length, IfOk};
ghost use Rattle.std.specs.List.{list_all};
ghost use Rattle.std.specs.Vec.{vec_capacity};
ghost use Rattle.fw_entry_bytes.specs.Forms.{has_entry};
ghost use Rattle.fw_snapshot.specs.Judging.{judged};
ghost use Rattle.fw_snapshot.specs.Verdicts.{taken, verdicts_on, accepted_of, with_more};

use crate::shared::with_entry;
use fw_entry_bytes::Form;
use fw_snapshot::{Entry, Snapshot, Verdict, judge};
use std::alloc::AllocError;

/// The verdict on an entry, which is put behind the state where it is accepted.
pub(crate) fn judge_and_add(state: &mut Snapshot, entry: &Entry) -> Result<Verdict, AllocError>
    ensures verdict { IfOk result (λ verdict. verdict ≡ judged state.old.entries entry.now) }
    ensures state { IfOk result (λ verdict. state.new
        ≡ with_more state.old (taken state.old.entries entry.now)) }
{
    match judge(state.state(), entry) {
        Verdict::Accept => {
            *state = with_entry(state.state(), entry)?;
            Ok(Verdict::Accept)
        }
        verdict => Ok(verdict),
    }
}

/// Judges entries in turn, each after those of the state and the accepted ones before it: puts the accepted ones behind the
/// state and the verdicts into a list, and says whether the form has each accepted one.
pub(crate) fn judge_each(
    form: Form,
    state: &mut Snapshot,
    entries: &[Entry],
    verdicts: &mut Vec<Verdict>,
) -> Result<bool, AllocError>
    requires none { verdicts.old.items ≡ [] }
    requires room { length entries.now ≤ vec_capacity verdicts.old }
    ensures verdicts { IfOk result (λ _.
        verdicts.new.items ≡ verdicts_on state.old.entries entries.now) }
    ensures state { IfOk result (λ _.
        state.new ≡ with_more state.old (accepted_of state.old.entries entries.now)) }
    ensures has_each { IfOk result (λ has.
        has ≡ list_all (has_entry form) (accepted_of state.old.entries entries.now)) }
{
    let mut has_each = true;
    for entry in entries {
        let verdict = judge_and_add(state, entry)?;
        if let Verdict::Accept = verdict {
            has_each = has_each && form.has_entry(entry);
        }
        verdicts.push_reserved(verdict);
    }
    Ok(has_each)
}
