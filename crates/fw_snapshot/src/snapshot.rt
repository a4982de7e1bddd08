//! A state that is shared.
ghost use Rattle.std.specs.Prelude.{◌≡◌, IfOk, IfErr};

use crate::state::State;
use std::alloc::AllocError;
use std::marker::Model;
use std::sync::Arc;

/// A state that is shared: a copy costs nothing, and stays as it was whatever is accepted later.
pub struct Snapshot {
    state: Arc<State>,
}

impl Drop for Snapshot {
    fn drop(self) {
        let Self { state: _ } = self;
    }
}

impl Model for Snapshot {
    ghost use Rattle.fw_snapshot.specs.History.{History};

    ghost Value = { History };

    ghost use Rattle.fw_snapshot.specs.SnapshotView.{snapshot_view};

    ghost view = { snapshot_view };
}

impl Snapshot {
    /// The snapshot of a state. Out of memory, the state is handed back.
    pub fn new(state: State) -> Result<Snapshot, State>
        ensures shared { IfOk result (λ snapshot. snapshot ≡ state) }
        ensures handed_back { IfErr result (λ same. same ≡ state) }
    {
        match Arc::new(state.allocator(), state) {
            Ok(state) => Ok(Snapshot { state }),
            Err(refused) => Err(refused.value),
        }
    }

    /// A snapshot of the same state, [settled](State::settled): what is to be shown to whoever asks for reports.
    pub fn settled(state: &State) -> Result<Snapshot, AllocError>
        ensures { IfOk result (λ snapshot. snapshot ≡ state.now) }
    {
        match Snapshot::new(state.settled()?) {
            Ok(snapshot) => Ok(snapshot),
            Err(_) => Err(AllocError),
        }
    }

    /// The state. It takes no memory.
    pub fn state(&self) -> &State
        ensures { result.now ≡ self.now }
    {
        &self.state
    }

    /// The same snapshot, which shares the state. It takes no memory. The error comes only where the state has as many owners as can be
    /// counted.
    pub fn copy(&self) -> Result<Snapshot, AllocError>
        ensures { IfOk result (λ copy. copy ≡ self.now) }
    {
        Ok(Snapshot {
            state: Arc::try_clone(&self.state)?,
        })
    }
}
