//! A store: an open warehouse on a volume.
ghost use Rattle.std.specs.Prelude.{◌≡◌, ◌+◌, ◌<◌, ◌≤◌, ℕ, false, IfOk, IfErr, IsTrue};
ghost use Rattle.fw_disk.specs.declared.volume.Side.{Side};
ghost use Rattle.fw_disk.specs.Volume.{Rose, SameSizes, Calm};
ghost use Rattle.fw_recover.specs.declared.fault.StoreFault.TheVariants.{NoHouse, Corrupt, Device};
ghost use Rattle.fw_recover.specs.Stands.{StandsFor, StandsForNone, EachStandsFor};
ghost use Rattle.fw_recover.specs.Corrupt.{CorruptAt};
ghost use Rattle.fw_recover.specs.Opening.{IsOpenFault};
ghost use Rattle.fw_recover.specs.Store.{IsKept};

use crate::StoreFault;
use crate::opening::read_sides;
use fw_disk::Volume;
use fw_entry_bytes::Form;
use fw_journal::Log;
use fw_snapshot::Snapshot;
use std::alloc::{AllocError, Global};
use std::marker::Model;

/// A warehouse that stands on a volume, and its state in memory.
pub struct Store<V: Volume> {
    pub(crate) volume: V,
    /// The form of the side in use.
    pub(crate) form: Form,
    /// The generation of the side in use, from 1 on.
    pub(crate) generation: u64,
    /// The log of the side in use.
    pub(crate) log: Log,
    pub(crate) snapshot: Snapshot,
    /// Whether the device has failed in a call that writes.
    pub(crate) failed: bool,
}

impl<V: Volume + Drop> Drop for Store<V> {
    fn drop(self) {
        let Self {
            volume: _,
            form: _,
            generation: _,
            log: _,
            snapshot: _,
            failed: _,
        } = self;
    }
}

impl<V: Volume> Model for Store<V> {
    ghost use Rattle.fw_recover.specs.Store.{StoreState, IsKept};

    ghost Value = { StoreState V };

    ghost view = { λ s. record {
      volume = s.volume;
      form = s.form;
      generation = s.generation;
      log = s.log;
      history = s.snapshot;
      failed = s.failed;
    } };

    ghost invariant = { λ s. IsKept V.tells V.view (record {
      volume = s.volume;
      form = s.form;
      generation = s.generation;
      log = s.log;
      history = s.snapshot;
      failed = s.failed;
    }) };
}

impl<V: Volume> Store<V> {
    /// Opens the warehouse that stands on the volume. It syncs both sides, and then reads the two headers, and the body
    /// and the log of the side in use, both by the form that its magic word names. It holds one body or one group in memory beside the state.
    ///
    /// `Device` where a sync or a read failed, `NoHouse` where no side is open, `Corrupt` at the first fault of the files,
    /// `NoMemory` where a growth was refused; the volume is handed back. Whatever is answered, no byte changes, and a
    /// crash leaves nothing that it could not leave before.
    pub fn open(alloc: Global, volume: V) -> Result<Store<V>, (V, StoreFault)>
        ensures found { IfOk result (λ s. (s.failed ≡ false)
            × (IsTrue V.tells → StandsFor s.history (V.view volume).seen)) }
        ensures each { IfOk result (λ s. IsTrue V.tells
            → EachStandsFor s.history (V.view s.volume)) }
        ensures none { IfErr result (λ e. e.1 ≡ NoHouse → IsTrue V.tells
            → StandsForNone (V.view volume).seen) }
        ensures corrupt { (side : Side) (at : ℕ)
            → IfErr result (λ e. e.1 ≡ Corrupt side at → IsTrue V.tells
            → CorruptAt (V.view volume).seen side at) }

        ensures calm { IfOk result (λ s. IsTrue V.tells → Calm (V.view volume) (V.view s.volume)) }
        ensures calm_fault { IfErr result (λ e.
            IsTrue V.tells → Calm (V.view volume) (V.view e.0)) }
        ensures sizes { IfOk result (λ s. SameSizes (V.view volume) (V.view s.volume)) }
        ensures sizes_fault { IfErr result (λ e. SameSizes (V.view volume) (V.view e.0)) }
        ensures device { IfErr result (λ e. e.1 ≡ Device
            → Rose (V.view volume).failures (V.view e.0).failures) }
        ensures which { IfErr result (λ e. IsOpenFault e.1) }
    {
        let mut volume = volume;
        match read_sides(alloc, &mut volume) {
            Ok((form, generation, log, state)) => match Snapshot::settled(state.state()) {
                Ok(snapshot) => Ok(Store {
                    volume,
                    form,
                    generation,
                    log,
                    snapshot,
                    failed: false,
                }),
                Err(AllocError) => Err((volume, StoreFault::NoMemory)),
            },
            Err(fault) => Err((volume, fault)),
        }
    }

    /// The state of the warehouse. It takes no memory.
    pub fn state(&self) -> &Snapshot
        ensures { result.now ≡ self.now.history }
    {
        &self.snapshot
    }

    /// Makes the columns of the rows that count, where withdrawals left some to make, so that the reports that follow don't. The warehouse stays the
    /// same, and where memory runs out so does the store. Entries that [`Store::prepare`] takes, and [`Store::open`], leave nothing to make.
    pub fn settle(&mut self)
        ensures { self.new ≡ self.old }
    {
        if let Ok(snapshot) = Snapshot::settled(self.snapshot.state()) {
            self.snapshot = snapshot;
        }
    }

    /// The form of the side in use: of its body and of its log. [`Store::create`] and [`Store::checkpoint`] make a side of the
    /// second form. A side of the first one, which an earlier version of the program made, keeps its form while entries are
    /// added to its log.
    pub fn form(&self) -> Form
        ensures { result ≡ self.now.form }
    {
        self.form
    }

    /// The volume on which the warehouse stands. Nothing is written or synced.
    pub fn close(self) -> V
        ensures { result ≡ self.volume }
    {
        let Self {
            volume,
            form: _,
            generation: _,
            log: _,
            snapshot: _,
            failed: _,
        } = self;
        volume
    }

    /// What each store keeps between two calls. It does nothing.
    pub fn keeps(&self)
        ensures { IsKept V.tells V.view self.now }
    {
        let _ = &self.failed;
    }
}
