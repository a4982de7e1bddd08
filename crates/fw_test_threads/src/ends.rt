//! What the tests run on each thread.
ghost use Rattle.std.specs.Prelude.{◌≡◌};

use fw_charge::Currency;
use fw_disk::{Choice, MemVolume, Volume};
use fw_entry_bytes::Form;
use fw_group::Answer;
use fw_recover::{Store, StoreFault};
use fw_segment::decode_entry;
use fw_snapshot::Entry;
use fw_threads::{
    Analyst, CommitFault, Flusher, Importer, Naming, Opened, Parts, Published, SplitFault, Taken,
    split,
};
use std::alloc::Global;
use std::sync::Wait;

/// The entry of a number of an origin. It sets a policy.
fn entry(alloc: Global, origin: u8, seq: u16) -> Result<Entry, StoreFault> {
    let low = (seq % 256) as u8;
    let high = (seq / 256) as u8;
    decoded(
        alloc,
        &[
            1, 0, 0, 0, origin, low, high, 0, 0, 0, 0, 0, 0, 3, 1, 0, 0, 0, 0x74, 0, 0, 0, 0,
        ],
    )
}

/// The entry of these bytes.
pub(crate) fn decoded(alloc: Global, bytes: &[u8]) -> Result<Entry, StoreFault> {
    match decode_entry(alloc, Form::One, bytes) {
        Ok(entry) => Ok(entry),
        Err(_) => Err(StoreFault::NoMemory),
    }
}

/// What an importer was answered.
#[derive(Clone, Copy, Debug, PartialEq, Eq)]
pub(crate) enum Told {
    /// With this number.
    Accepted(usize),
    /// The last number of the origin, and after how many entries that is so.
    Already(u64, usize),
    Unknown,
    Closed,
    NoMemory,
    /// Any other answer, which no test expects.
    Other,
}

/// What an importer was answered.
pub(crate) fn outcome_of<J: Naming>(answer: &Answer<Published<J>>) -> Told {
    match answer {
        Answer::Accepted(receipt) => Told::Accepted(receipt.number),
        Answer::Already { last, seen } => Told::Already(*last, seen.at),
        Answer::Unknown => Told::Unknown,
        Answer::Closed => Told::Closed,
        Answer::NoMemory => Told::NoMemory,
        Answer::Gap { .. } | Answer::Refused { .. } => Told::Other,
    }
}

/// Posts the entry of a number of an origin.
pub(crate) fn post<J: Naming, R: Wait>(
    rt: &R,
    alloc: Global,
    importer: &mut Importer<J>,
    origin: u8,
    seq: u16,
) -> Answer<Published<J>> {
    match entry(alloc, origin, seq) {
        Ok(entry) => importer.post(rt, entry),
        Err(_) => Answer::NoMemory,
    }
}

/// A volume in memory.
pub(crate) fn memory(alloc: Global) -> MemVolume {
    MemVolume::new(alloc, 1 << 20, Choice::Old)
}

/// Creates a warehouse in dollars.
pub(crate) fn created<V: Volume + Drop>(alloc: Global, volume: V) -> Result<Store<V>, StoreFault> {
    let Some(currency) = Currency::new(b"USD") else {
        return Err(StoreFault::NoMemory);
    };
    match Store::create(alloc, volume, currency) {
        Ok(store) => Ok(store),
        Err((_, fault)) => Err(fault),
    }
}

/// The flusher, the importers and the analyst of a warehouse.
pub(crate) type Ends<'a, J, V, R> = (Held<'a, J, V, R>, Vec<Importer<J>>, Analyst<J>);

/// Takes a store apart into a flusher, so many importers, and an analyst.
pub(crate) fn ends_of<'a, J: Naming, V: Volume + Drop, R: Wait>(
    rt: &'a R,
    alloc: Global,
    opened: Opened,
    store: Store<V>,
    importers: usize,
) -> Result<Ends<'a, J, V, R>, SplitFault>
    requires { (opened.fronts ≡ J.fronts) × (opened.posts ≡ J.posts) }
{
    match split::<J, V, R>(rt, alloc, opened, store, importers, 1) {
        Ok(parts) => {
            let Parts {
                importers,
                flusher,
                mut analysts,
            } = parts;
            let held = Held { flusher, rt };
            match analysts.pop() {
                Some(analyst) => Ok((held, importers, analyst)),
                None => Err(SplitFault::Counts),
            }
        }
        Err((_, fault)) => Err(fault),
    }
}

/// What a flusher leaves: how many entries the store has, how many were accepted in its commits, and the first fault of a take or a commit.
#[derive(Clone, Copy, Debug, PartialEq, Eq)]
pub(crate) struct Left {
    pub(crate) entries: usize,
    pub(crate) accepted: usize,
    pub(crate) fault: Option<StoreFault>,
}

/// A flusher that a closure can hold: its drop closes it.
pub(crate) struct Held<'a, J: Naming, V: Volume + Drop, R: Wait> {
    pub(crate) flusher: Flusher<J, V>,
    pub(crate) rt: &'a R,
}

impl<J: Naming, V: Volume + Drop, R: Wait> Drop for Held<'_, J, V, R> {
    fn drop(self) {
        let Self { flusher, rt } = self;
        drop(flusher.close(rt));
    }
}

impl<J: Naming, V: Volume + Drop, R: Wait> Held<'_, J, V, R> {
    /// Commits until all importers have left.
    pub(crate) fn flush(self) -> Left {
        let Self { flusher, rt } = self;
        let mut flusher = flusher;
        let mut accepted: usize = 0;
        let mut fault: Option<StoreFault> = None;
        for _ in rt.forever() {
            match step(rt, &mut flusher) {
                Ok(Some(count)) => accepted = accepted.saturating_add(count),
                Ok(None) => break,
                Err(why) => fault = fault.or(Some(why)),
            }
        }
        let store = flusher.close(rt);
        Left {
            entries: store.state().state().entries(),
            accepted,
            fault,
        }
    }

    /// Takes a group in hand, and commits it.
    pub(crate) fn commit_next(&mut self) -> Result<(), StoreFault> {
        match step(self.rt, &mut self.flusher) {
            Ok(_) => Ok(()),
            Err(why) => Err(why),
        }
    }

    /// Takes a group in hand, calls `then`, and closes. It answers how many entries the store has.
    pub(crate) fn close_in_hand<F: FnOnce()>(self, then: F) -> usize
        requires { F.pre then }
    {
        let Self { flusher, rt } = self;
        let mut flusher = flusher;
        let _ = flusher.take(rt);
        then();
        let store = flusher.close(rt);
        store.state().state().entries()
    }
}

// Takes a group and commits it. It answers how many were accepted; `None` where all importers have left.
fn step<J: Naming, V: Volume, R: Wait>(
    rt: &R,
    flusher: &mut Flusher<J, V>,
) -> Result<Option<usize>, StoreFault> {
    match flusher.take(rt) {
        Ok(Taken::Took(_)) => match flusher.commit(rt) {
            Ok(count) => Ok(Some(count)),
            Err(CommitFault::Store(why)) => Err(why),
            Err(CommitFault::Unpublished) => Err(StoreFault::NoMemory),
        },
        Ok(Taken::Over) => Ok(None),
        Err(_) => Err(StoreFault::NoMemory),
    }
}
