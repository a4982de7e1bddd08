//! A warehouse with one entry more, which sets a policy.
ghost use Rattle.std.specs.Prelude.{◌≡◌, IfOk, string_bytes};
ghost use Rattle.fw_entry.specs.Entry.CommandValue.{set_policy};
ghost use Rattle.fw_what_if.specs.Under.{IsUnder};

use fw_entry::{Command, Entry};
use fw_snapshot::{Snapshot, State, Verdict, judge};
use fw_terms::Policy;
use std::alloc::{AllocError, Global};

/// Who sends the entry.
const ORIGIN: &str = "what-if";

/// The warehouse under a policy: as it would be if its next entry set the policy. The state stays as it is, and the two share their rows.
///
/// The one error is that memory ran out, or that the sender has no number left: it has 2^64 - 1.
pub fn under_policy(alloc: Global, state: &State, policy: &Policy) -> Result<Snapshot, AllocError>
    ensures { IfOk result (IsUnder state.now policy.now) }
{
    let entry = next_entry(alloc, state, policy)?;
    match judge(state, &entry) {
        Verdict::Accept => Snapshot::settled(&state.apply(&entry)?),
        _ => Err(AllocError),
    }
}

// The entry that sets the policy, with the next number of its sender.
fn next_entry(alloc: Global, state: &State, policy: &Policy) -> Result<Entry, AllocError>
    ensures { IfOk result (λ entry. entry.command ≡ set_policy policy.now) }
{
    let first = entry_of(alloc, policy, 1)?;
    match judge(state, &first) {
        Verdict::Already { last } => entry_of(alloc, policy, last.saturating_add(1)),
        _ => Ok(first),
    }
}

// The entry of this number that sets the policy.
fn entry_of(alloc: Global, policy: &Policy, seq: u64) -> Result<Entry, AllocError>
    ensures { IfOk result (λ entry. entry.command ≡ set_policy policy.now) }
{
    let command = Command::SetPolicy(policy.copy(alloc)?);
    match Entry::new(alloc, ORIGIN.as_bytes(), seq, command) {
        Ok(entry) => Ok(entry),
        Err(_) => Err(AllocError),
    }
}
