//! The flusher, as a thread holds it.
ghost use Rattle.std.specs.Prelude.{◌≡◌, IfOk, IfErr};
ghost use Rattle.fw_load.specs.Loads.{Flushes, GoesOn, Stops};

use crate::fault::LoadFault;
use crate::progress::Progress;
use fw_disk::Volume;
use fw_recover::{Store, StoreFault};
use fw_threads::{CommitFault, Flusher, Naming, Taken};
use std::sync::Wait;

/// A flusher that a closure can hold: its drop closes it.
pub(crate) struct Held<'a, J: Naming, V: Volume + Drop, R: Wait> {
    pub(crate) flusher: Flusher<J, V>,
    pub(crate) rt: &'a R,
}

impl<J: Naming, V: Volume + Drop, R: Wait> Drop for Held<'_, J, V, R> {
    fn drop(self) {
        drop(self.close());
    }
}

impl<J: Naming, V: Volume + Drop, R: Wait> Held<'_, J, V, R> {
    /// Commits until all importers have left, or until a fault, after which importers may still wait. Where a commit ran out of memory its
    /// importers were answered so, and the next group is taken. After each group it tells how many entries were stored so far.
    pub(crate) fn flush<P: Progress>(&mut self, progress: &mut P) -> Option<LoadFault>
        ensures { Flushes V.tells V.view self.old.flusher self.new.flusher result }
    {
        let rt = self.rt;
        let mut stored: usize = 0;
        for _ in rt.forever() {
            match step(rt, &mut self.flusher) {
                Ok(Some(count)) => {
                    stored = stored.saturating_add(count);
                    progress.stored(stored);
                }
                Ok(None) => return None,
                Err(fault) => return Some(fault),
            }
        }
        None
    }

    /// Ends the flusher. Whoever waits is answered `closed`.
    pub(crate) fn close(self) -> Store<V>
        ensures { result ≡ self.entry.flusher.store }
    {
        let Self { flusher, rt } = self;
        flusher.close(rt)
    }
}

// Commits the next group, and answers how many entries were stored. `None` where all importers have left.
#[tactic(auto, using(crate::proofs::Grown::same_state, crate::proofs::Grown::goes_on_both, crate::proofs::Grown::stops_after))]
fn step<J: Naming, V: Volume + Drop, R: Wait>(
    rt: &R,
    flusher: &mut Flusher<J, V>,
) -> Result<Option<usize>, LoadFault>
    ensures went_on { IfOk result (λ _. GoesOn V.tells V.view flusher.old flusher.new) }
    ensures stopped { IfErr result (λ _. Stops V.tells V.view flusher.old flusher.new) }
{
    match flusher.take(rt) {
        Ok(Taken::Over) => Ok(None),
        Ok(Taken::Took(_)) => commit(rt, flusher),
        Err(_) => Err(LoadFault::NoMemory),
    }
}

// Commits what is in hand, and answers how many entries were stored.
#[tactic(auto, using(crate::proofs::Grown::committed, crate::proofs::Grown::ran_out, crate::proofs::Grown::failed))]
fn commit<J: Naming, V: Volume + Drop, R: Wait>(
    rt: &R,
    flusher: &mut Flusher<J, V>,
) -> Result<Option<usize>, LoadFault>
    ensures went_on { IfOk result (λ _. GoesOn V.tells V.view flusher.old flusher.new) }
    ensures stopped { IfErr result (λ _. Stops V.tells V.view flusher.old flusher.new) }
{
    match flusher.commit(rt) {
        Ok(count) => Ok(Some(count)),
        Err(CommitFault::Store(StoreFault::NoMemory)) => Ok(Some(0)),
        Err(fault) => Err(LoadFault::from(fault)),
    }
}
