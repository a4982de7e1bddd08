//! What a crash leaves beside importers, a flusher and analysts: laws, each the contract of a
//! function that does nothing.
ghost use Rattle.std.specs.Prelude.{◌≡◌, [], IsTrue, List, Result, Some, false, slice_get, ℕ};
ghost use Rattle.fw_disk.specs.Volume.{Image};
ghost use Rattle.fw_group.specs.Laws.{Begins};
ghost use Rattle.fw_group.specs.Runs.{HasRun, volume_of};
ghost use Rattle.fw_group.specs.Steps.{State, receipt_at};
ghost use Rattle.fw_group.specs.declared.answer.Receipt.{Receipt};
ghost use Rattle.fw_group.specs.declared.event.Event.{Event};
ghost use Rattle.fw_group.specs.declared.event.EventAnswer.{EventAnswer};
ghost use Rattle.fw_recover.specs.Stands.{StandsFor};
ghost use Rattle.fw_recover.specs.declared.fault.StoreFault.{StoreFault};
ghost use Rattle.fw_snapshot.specs.History.{History};
ghost use Rattle.fw_threads.specs.Flushed.{Checkpoints, CommitFails, Commits, group_on};
ghost use Rattle.fw_threads.specs.declared.publisher.CommitFault.{CommitFault};
ghost use Rattle.fw_load.specs.Left.{IsLeftOf};

use fw_disk::Volume;
use fw_group::House;
use fw_threads::{Flusher, Naming};

/// A crash at any moment of a commit of the [`Flusher`] leaves a warehouse that can be opened. It
/// is the one that was published, or this with the whole group in hand, and its reports add up. So
/// it is where the group was stored (`committed`), where the device failed (`device`), and where
/// the stored group could not be published (`unpublished`).
pub fn a_commit_leaves_none_or_all<J: Naming, V: Volume>(
    before: &Flusher<J, V>,
    after: &Flusher<J, V>,
)
    ensures committed { (n : ℕ) (image : Image) → IsTrue V.tells → (before.now.hand ≡ [] → ⊥)
        → Commits V.tells V.view before.now n after.now
        → (V.view after.now.store.volume).left_since (V.view before.now.store.volume).moment image
        → IsLeftOf before.now.published (group_on before.now.published before.now.hand) image }
    ensures device { (image : Image) → IsTrue V.tells
        → CommitFails V.tells V.view before.now (CommitFault.Store StoreFault.Device) after.now
        → (V.view after.now.store.volume).left_since (V.view before.now.store.volume).moment image
        → IsLeftOf before.now.store.history (group_on before.now.store.history before.now.hand)
        image }
    ensures unpublished { (image : Image) → IsTrue V.tells
        → CommitFails V.tells V.view before.now CommitFault.Unpublished after.now
        → (V.view after.now.store.volume).left_since (V.view before.now.store.volume).moment image
        → IsLeftOf before.now.store.history (group_on before.now.store.history before.now.hand)
        image }
{}

/// A crash at any moment of a checkpoint of the [`Flusher`] (`moment`), and behind one whatever it
/// answered (`behind`), leaves the warehouse that the store has. It can be opened, and its reports
/// add up.
pub fn a_checkpoint_leaves_the_warehouse<J: Naming, V: Volume>(
    before: &Flusher<J, V>,
    after: &Flusher<J, V>,
)
    ensures moment { (result : Result (Unit {0}) StoreFault) (image : Image) → IsTrue V.tells
        → before.now.store.failed ≡ false → before.now.unpublished ≡ false
        → Checkpoints V.tells V.view false result before.now.store after.now.store
        → (V.view after.now.store.volume).left_since (V.view before.now.store.volume).moment image
        → IsLeftOf before.now.store.history [] image }
    ensures behind { (result : Result (Unit {0}) StoreFault) (image : Image) → IsTrue V.tells
        → before.now.store.failed ≡ false → before.now.unpublished ≡ false
        → Checkpoints V.tells V.view false result before.now.store after.now.store
        → (V.view after.now.store.volume).may_leave image
        → IsLeftOf before.now.store.history [] image }
{}

/// What a crash leaves behind a run of events (`fw_group::run_events`) can be opened, whatever was
/// stopped, failed or opened in it. It is what was published, or this with the group that may be
/// stored, and its reports add up (`left`). It begins with what was published before the run
/// (`held`), and with the front of each receipt that the run answered (`accepted`).
pub fn a_run_leaves_what_was_accepted<V: Volume>(house: &House<V>, ended: &House<V>)
    ensures left { (s : State) (events : List Event) (answers : List EventAnswer) (image : Image)
        → (run : HasRun V.view house.now s events answers ended.now)
        → (V.view (volume_of ended.now)).may_leave image
        → IsLeftOf run.state.published run.state.group image }
    ensures held { (s : State) (events : List Event) (answers : List EventAnswer) (image : Image)
        (found : History)
        → HasRun V.view house.now s events answers ended.now
        → (V.view (volume_of ended.now)).may_leave image → StandsFor found image
        → Begins s.published found }
    ensures accepted { (s : State) (events : List Event) (answers : List EventAnswer)
        (image : Image) (found : History) (event place : ℕ) (receipt : Receipt History)
        → HasRun V.view house.now s events answers ended.now
        → (V.view (volume_of ended.now)).may_leave image → StandsFor found image
        → receipt_at (slice_get answers event) place ≡ Some receipt
        → Begins receipt.front found }
{}
