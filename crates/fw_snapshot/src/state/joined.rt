//! A state whose short segments are joined, with these segments.
ghost use Rattle.std.specs.Prelude.{◌≡◌, ◌≤◌, length, IfOk};
ghost use Rattle.fw_posted.specs.Rows.{segment_rows};
ghost use Rattle.fw_snapshot.specs.History.{rows_posted};
ghost use Rattle.fw_snapshot.specs.Joined.{AreFull};
ghost use Rattle.fw_snapshot.specs.Judging.{most_rows};

use crate::state::State;
use fw_columns::Columns;
use fw_persistent::Sequence;
use std::alloc::AllocError;
use std::marker::Model;

/// A state whose short segments are joined, with these segments: what a checkpoint writes.
///
/// A contract sees the state's history and the list of the segments.
pub struct JoinedState {
    state: State,
    // the segments of the state, which it shares
    segments: Sequence<Columns>,
}

impl Drop for JoinedState {
    fn drop(self) {
        let Self {
            state: _,
            segments: _,
        } = self;
    }
}

impl Model for JoinedState {
    ghost use Rattle.fw_snapshot.specs.Joined.{JoinedValue};

    ghost Value = { JoinedValue };

    ghost use Rattle.fw_snapshot.specs.JoinedView.{joined_view, KeepsJoined};

    ghost view = { joined_view };

    ghost invariant = { KeepsJoined };
}

impl JoinedState {
    /// The same state, whose rows are in few segments: from the front, each segment is joined with the next one as long as they have at most
    /// 65,536 rows together. It costs what the rows of the segments cost that are joined; the others are shared.
    /// The error comes where memory ran out.
    pub fn of_state(state: &State) -> Result<JoinedState, AllocError>
        ensures { IfOk result (λ joined. joined.history ≡ state.now) }
    {
        let mut merged = state.copy()?;
        merged.posted = merged.posted.merged(merged.alloc)?;
        let segments = merged.posted.segments().copy()?;
        Ok(JoinedState {
            state: merged,
            segments,
        })
    }

    /// The state.
    pub fn state(&self) -> &State
        ensures { result.now ≡ self.now.history }
    {
        &self.state
    }

    /// The rows that were ever posted, in order, in the segments of the state. No two segments that follow each other have room in one.
    pub fn segments(&self) -> &Sequence<Columns>
        ensures segments { result.now ≡ self.now.segments }
        ensures posted { segment_rows result.now ≡ rows_posted self.now.history.entries }
        ensures few { length result.now ≤ most_rows }
        ensures full { AreFull result.now }
    {
        &self.segments
    }

    /// The state alone.
    pub fn into_state(self) -> State
        ensures { result ≡ self.history }
    {
        let JoinedState { state, segments: _ } = self;
        state
    }
}
