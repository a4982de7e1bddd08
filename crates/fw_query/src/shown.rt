//! A state beside its rows that count.
ghost use Rattle.std.specs.Prelude.{◌≡◌, IfOk};
ghost use Rattle.fw_snapshot.specs.History.{rows_of};
ghost use Rattle.fw_sums.specs.Hours.{all_rows, lent};

use fw_columns::Columns;
use fw_snapshot::{CountingSegments, State};
use std::alloc::{AllocError, Global};
use std::marker::Model;

/// A state and the segments of its rows that count, so that a report borrows both from one place. It shares everything with the state that it was made
/// of; what that left to make for the rows that count is made here.
pub struct Shown {
    state: State,
    counting: CountingSegments,
}

impl Drop for Shown {
    fn drop(self) {
        let Self {
            state: _,
            counting: _,
        } = self;
    }
}

impl Model for Shown {
    ghost use Rattle.fw_snapshot.specs.History.{History};

    ghost Value = { History };

    ghost use Rattle.fw_query.specs.ShownView.{shown_view, KeepsShown};

    ghost view = { shown_view };

    ghost invariant = { KeepsShown };
}

impl Shown {
    /// A state, shown. The error comes where memory ran out.
    pub fn of(alloc: Global, state: &State) -> Result<Shown, AllocError>
        ensures { IfOk result (λ shown. shown ≡ state.now) }
    {
        let counting = state.counting_segments(alloc)?;
        let state = state.copy()?;
        Ok(Shown { state, counting })
    }

    /// The segments of the rows that count, in order. The error comes where memory ran out.
    pub fn segments(&self, alloc: Global) -> Result<Vec<&Columns>, AllocError>
        ensures { IfOk result (λ segments. all_rows (lent segments.items)
            ≡ rows_of self.now.entries) }
    {
        self.counting.references(alloc)
    }

    /// The state.
    pub fn state(&self) -> &State
        ensures { result.now ≡ self.now }
    {
        &self.state
    }
}
