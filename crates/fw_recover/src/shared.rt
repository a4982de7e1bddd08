//! Snapshots of states that are made. Who owns a snapshot has one share at hand, where a state is many values: so the proofs of
//! those who own one have few drops to follow.
ghost use Rattle.std.specs.Prelude.{◌≡◌, ◌++◌, [], ◌∷◌, IfOk};
ghost use Rattle.fw_snapshot.specs.Judging.{IsLegal, judged};
ghost use Rattle.fw_snapshot.specs.declared.verdict.Verdict.TheVariants.{Accept};

use fw_snapshot::{Entry, Snapshot, State};
use std::alloc::AllocError;

/// A snapshot of a state. The error comes where memory ran out.
pub(crate) fn snapshot_of(state: State) -> Result<Snapshot, AllocError>
    ensures same { IfOk result (λ snapshot. snapshot ≡ state) }
    ensures legal { IfOk result (λ snapshot. IsLegal snapshot.entries) }
{
    match Snapshot::new(state) {
        Ok(snapshot) => Ok(snapshot),
        Err(_) => Err(AllocError),
    }
}

/// The state with an entry behind it, which is accepted after its own. The error comes where memory ran out.
pub(crate) fn with_entry(state: &State, entry: &Entry) -> Result<Snapshot, AllocError>
    requires { judged state.now.entries entry.now ≡ Accept }
    ensures { IfOk result (λ next. next
        ≡ record { currency = state.now.currency; entries = state.now.entries ++ entry.now ∷ [] }) }
{
    snapshot_of(state.apply(entry)?)
}
