//! Opening the warehouse that a crash left, with the promise for scripts as the contract.
ghost use Rattle.std.specs.Prelude.{◌≡◌, ◌⊎◌, ◌≤◌, ◌∷◌, ◌++◌, [], ℕ, List, false, IfErr, IfOk, IsTrue};
ghost use Rattle.fw_disk.specs.declared.volume.Side.{Side};
ghost use Rattle.fw_disk.specs.Volume.{Calm, Rose, SameSizes};
ghost use Rattle.fw_recover.specs.Corrupt.{CorruptAt};
ghost use Rattle.fw_recover.specs.Opening.{IsOpenFault};
ghost use Rattle.fw_recover.specs.Stands.{EachStandsFor, StandsFor, StandsForNone};
ghost use Rattle.fw_recover.specs.declared.fault.StoreFault.TheVariants.{Corrupt, Device, NoHouse, NoMemory};
ghost use Rattle.fw_snapshot.specs.History.{History};
ghost use Rattle.fw_serve.specs.Recovery.{IsPromised, KeepsPromise, ServedSession, WasLeft};
ghost use Rattle.fw_serve.specs.Served.{most_workers};

use crate::fault::ServeFault;
use crate::server::serve;
use fw_disk::{Stoppable, Volume};
use fw_recover::{Store, StoreFault};
use std::alloc::Global;
use std::io::{Read, Write};
use std::thread::Threads;

/// Opens the warehouse that stands on the volume, as [`Store::open`](fw_recover::Store::open) does, and says what it has where scripts were served on it.
///
/// The promise (`promise`) is of any number of sessions. The first began with a store that was created or opened. It had the entries of `held`, of which a new
/// warehouse has none. In each session a script was served, and a crash ended it, at any moment of a command or between two. Each later one began
/// with what was opened from what the crash before it left. This volume reads as what the last crash left, and tells its bytes: of files nothing is said.
///
/// Then it is opened, unless a read or a sync fails or memory runs out. What is opened is the warehouse after a prefix of the commands that holds each
/// acknowledged one: of each session what was accepted, in order, and at most one entry more, the one that was in flight when it ended. What was
/// answered `accepted N` in any session is the Nth entry. Each report on it, and each text of lines, is the stated allocation of its rows. In these a
/// commitment's Purchase lines have an EffectiveCost of 0, and its Used and Unused lines over its term carry what its purchases cost, to the last nano.
///
/// That [`serve`](crate::serve) runs the commands of a script so, one after the other, is its clause `one_run`. A crash at a moment of a command, or
/// behind one, ends a session ([`a_served_script_may_stop_anywhere`](crate::a_served_script_may_stop_anywhere)).
pub fn reopen<V: Volume>(alloc: Global, volume: V) -> Result<Store<V>, (V, StoreFault)>
    ensures promise { (held : History) (earlier : List (ServedSession V)) (last : ServedSession V)
        → IsTrue V.tells → WasLeft V.tells V.view held earlier last (V.view volume).seen
        → IfOk result (λ s. IsPromised held (earlier ++ last ∷ []) s.history)
        × IfErr result (λ e. (e.1 ≡ Device) ⊎ (e.1 ≡ NoMemory)) }

    // As `Store::open`.
    ensures found { IfOk result (λ s. (s.failed ≡ false)
        × (IsTrue V.tells → StandsFor s.history (V.view volume).seen)) }
    ensures each { IfOk result (λ s. IsTrue V.tells → EachStandsFor s.history (V.view s.volume)) }
    ensures none { IfErr result (λ e. e.1 ≡ NoHouse → IsTrue V.tells
        → StandsForNone (V.view volume).seen) }
    ensures corrupt { (side : Side) (at : ℕ) → IfErr result (λ e. e.1 ≡ Corrupt side at
        → IsTrue V.tells → CorruptAt (V.view volume).seen side at) }
    ensures calm { IfOk result (λ s. IsTrue V.tells → Calm (V.view volume) (V.view s.volume)) }
    ensures calm_fault { IfErr result (λ e. IsTrue V.tells → Calm (V.view volume) (V.view e.0)) }
    ensures sizes { IfOk result (λ s. SameSizes (V.view volume) (V.view s.volume)) }
    ensures sizes_fault { IfErr result (λ e. SameSizes (V.view volume) (V.view e.0)) }
    ensures device { IfErr result (λ e. e.1 ≡ Device
        → Rose (V.view volume).failures (V.view e.0).failures) }
    ensures which { IfErr result (λ e. IsOpenFault e.1) }
{
    Store::open(alloc, volume)
}

/// Serves a script, is stopped as by a crash, and opens what is left: what [`serve`] promises and
/// what [`reopen`] promises, of one run. It answers what serving answered, and then the warehouse.
///
/// The commands that were run come first in the script, and the writer got their answers, up to
/// some place. What is opened is what is promised of them (`KeepsPromise`): the warehouse that the
/// store had, and behind it what was accepted of the entries that these commands sent, in order,
/// then at most the one that was in flight when the device failed. It is never missing or corrupt:
/// it opens, unless a read or a sync fails or memory runs out.
pub fn serve_and_reopen<R: Read, W: Write, V: Stoppable>(
    rt: &(impl Threads + Sync),
    alloc: Global,
    reader: &mut R,
    writer: &mut W,
    store: Store<V>,
    workers: u32,
) -> (Result<(), ServeFault>, Result<Store<V>, (V, StoreFault)>)
    requires some_worker { 1 ≤ workers }
    requires few_workers { workers ≤ most_workers }
    requires works { store.failed ≡ false }
    ensures { IsTrue V.tells → KeepsPromise V.tells V.view result.0 (R.remaining reader.old) store
        (W.contents writer.old) (W.contents writer.new) result.1 }
{
    let mut store = store;
    store.keeps();
    let served = serve(rt, alloc, reader, writer, &mut store, workers);
    let volume = store.close().stop();
    (served, reopen(alloc, volume))
}
