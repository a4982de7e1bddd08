//! The mark of a front in the list of all fronts of a split.
ghost use Rattle.std.specs.Prelude.{◌≡◌, ◌≤◌, [], length, IfSome};
ghost use Rattle.fw_group.specs.Laws.{Begins};

use fw_growing::{Beginning, Growing};
use fw_snapshot::Snapshot;
use std::marker::Model;

/// The list of fronts up to one. It takes no memory. Contracts see that front, and the list in which it is.
#[derive(Drop)]
pub struct Mark {
    /// How many entries the front has.
    entries: usize,
    fronts: Beginning<Snapshot>,
}

impl Model for Mark {
    ghost use Rattle.std.specs.Prelude.{◌≡◌, ◌<◌, length};
    ghost use Rattle.fw_threads.specs.Fronts.{Marked, latest, IsChain};

    ghost Value = { Marked };

    ghost view = { λ m. record { front = latest m.fronts.list; of = m.fronts.of } };

    ghost invariant = { λ m. (m.entries ≡ length (latest m.fronts.list).entries) × (0 < length m.fronts.list) × IsChain m.fronts.list };
}

impl Mark {
    /// The mark of the first front. `None` where the list has a front already.
    pub fn first(
        growing: &Growing<Snapshot>,
        nothing: Beginning<Snapshot>,
        front: &Snapshot,
    ) -> Option<Mark>
        requires empty { nothing.list ≡ [] }
        requires same { nothing.of ≡ growing.now }
        ensures { IfSome result (λ m. (m.front ≡ front.now) × (m.of ≡ growing.now)) }
    {
        let mut fronts = nothing;
        if !fronts.add(growing, front) {
            return None;
        }
        Some(Mark {
            entries: front.state().entries(),
            fronts,
        })
    }

    /// The mark of the front that follows this one. `None` where another one follows it.
    pub fn next(&self, growing: &Growing<Snapshot>, front: &Snapshot) -> Option<Mark>
        requires same { growing.now ≡ self.now.of }
        requires follows { Begins self.now.front front.now }
        ensures { IfSome result (λ m. (m.front ≡ front.now) × (m.of ≡ self.now.of)) }
    {
        let mut fronts = self.fronts.again();
        if !fronts.add(growing, front) {
            return None;
        }
        Some(Mark {
            entries: front.state().entries(),
            fronts,
        })
    }

    /// How many entries the front has.
    pub fn entries(&self) -> usize
        ensures { result ≡ length self.now.front.entries }
    {
        self.entries
    }

    /// A copy.
    pub fn again(&self) -> Mark
        ensures { result ≡ self.now }
    {
        Mark {
            entries: self.entries,
            fronts: self.fronts.again(),
        }
    }

    /// Of two fronts of one list the one that has no more entries begins the other. It does nothing.
    pub fn meet(&self, other: &Mark)
        requires { other.now.of ≡ self.now.of }
        ensures { length self.now.front.entries ≤ length other.now.front.entries
            → Begins self.now.front other.now.front }
    {
        let _entries = other.entries;
        self.fronts.meet(&other.fronts);
        other.fronts.meet(&self.fronts);
    }
}
