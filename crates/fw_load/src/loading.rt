//! Files that are loaded side by side.
ghost use Rattle.std.specs.Prelude.{◌≡◌};
ghost use Rattle.fw_load.specs.Loads.{IsShown, Loads};

use crate::board::{Place, places, watch};
use crate::fault::LoadFault;
use crate::flushing::Held;
use crate::lines::lines;
use crate::progress::Progress;
use crate::seat::{Seat, seats_of};
use fw_disk::Volume;
use fw_group::Answer;
use fw_recover::Store;
use fw_threads::{Analyst, Flusher, Naming, Opened, Parts, Published, split};
use std::alloc::Global;
use std::io::Write;
use std::marker::Brand;
use std::sync::Wait;
use std::thread::{self, JoinHandle, Scope, Threads};

/// What is loaded.
#[derive(Drop)]
pub struct Job<'a> {
    /// The texts of the files, which are CSVs with the columns of FOCUS.
    pub texts: Vec<Vec<u8>>,
    /// File number I, counted from 1, is the first entry of the origin made of this name, a point and I.
    pub origin: &'a str,
    /// How many analysts view what is stored meanwhile.
    pub analysts: usize,
}

/// Posts each text as an entry, from a thread of its own, and commits them in groups. Analysts learn of each entry that is accepted, and
/// view. Then it writes a line for each text in order, `I accepted` or `I` and another answer; `stale N`, the number of views that lacked
/// an entry that their analyst had learned of; and the counts of the warehouse. Meanwhile it tells its progress.
///
/// There are 1 to 64 texts and as many analysts at most, else the fault is `G1 Counts`. A fault of a commit, but for out of memory, ends
/// the load: whoever waits is answered `closed`, and the lines are written all the same. The store comes back with what was accepted. A crash at any
/// moment of the load leaves a warehouse that has all that the store had before, and perhaps more of the files.
pub fn load<R: Threads + Wait + Sync, V: Volume + Drop, W: Write, P: Progress>(
    rt: &R,
    alloc: Global,
    store: Store<V>,
    job: Job<'_>,
    writer: &mut W,
    progress: &mut P,
) -> (Store<V>, Option<LoadFault>)
    ensures { Loads V.tells V.view store result.0 result.1 }
{
    load_as::<Brand, R, V, W, P>(rt, alloc, Opened::new(), store, job, writer, progress)
}

fn load_as<
    J: Naming + Send + Sync,
    R: Threads + Wait + Sync,
    V: Volume + Drop,
    W: Write,
    P: Progress,
>(
    rt: &R,
    alloc: Global,
    opened: Opened,
    store: Store<V>,
    job: Job<'_>,
    writer: &mut W,
    progress: &mut P,
) -> (Store<V>, Option<LoadFault>)
    requires { (opened.fronts ≡ J.fronts) × (opened.posts ≡ J.posts) }
    ensures { Loads V.tells V.view store result.0 result.1 }
{
    let count = job.texts.len();
    let Ok(places) = places::<Answer<Published<J>>>(alloc, count) else {
        return (store, Some(LoadFault::NoMemory));
    };
    let currency = store.state().state().currency();
    match split::<J, V, R>(rt, alloc, opened, store, count, job.analysts) {
        Ok(parts) => {
            let Parts {
                importers,
                flusher,
                analysts,
            } = parts;
            let Job { texts, origin, .. } = job;
            let seats = seats_of(rt, alloc, importers, texts, &places, currency, origin);
            let (store, fault, stale) = run(rt, alloc, flusher, seats, analysts, &places, progress);
            let written = match lines(rt, alloc, &places, stale, store.state()) {
                Ok(text) => write(writer, text.as_slice()),
                Err(fault) => Some(fault),
            };
            (store, fault.or(written))
        }
        Err((store, fault)) => (store, Some(LoadFault::from(fault))),
    }
}

// Writes a text, and flushes.
fn write<W: Write>(writer: &mut W, text: &[u8]) -> Option<LoadFault> {
    match writer.write_all(text).and_then(|()| writer.flush()) {
        Ok(()) => None,
        Err(_) => Some(LoadFault::Write),
    }
}

// Runs the threads to their end, with the flusher on this one. Where no fault ended it, it ends only after the analysts. It answers how many
// views were stale, too.
fn run<J: Naming + Send + Sync, R: Threads + Wait + Sync, V: Volume + Drop, P: Progress>(
    rt: &R,
    alloc: Global,
    flusher: Flusher<J, V>,
    seats: Vec<Seat<'_, J, R>>,
    analysts: Vec<Analyst<J>>,
    places: &[Place<Answer<Published<J>>>],
    progress: &mut P,
) -> (Store<V>, Option<LoadFault>, u64)
    requires { IsShown flusher }
    ensures { Loads V.tells V.view flusher.store result.0 result.1 }
{
    let held = Held { flusher, rt };
    thread::scope(
        thread::scope_env(),
        rt,
        move |scope| -> (Store<V>, Option<LoadFault>, u64)
            ensures { IsShown held.entry.flusher
                → Loads V.tells V.view held.entry.flusher.store result.0 result.1 }
        {
            start_seats(scope, seats);
            let watches = start_watches(rt, alloc, scope, analysts, places);
            let mut held = held;
            match held.flush(progress) {
                None => {
                    let stale = stale_views(rt, watches);
                    (held.close(), None, stale)
                }
                Some(fault) => {
                    let store = held.close();
                    (store, Some(fault), stale_views(rt, watches))
                }
            }
        },
    )
}

// Starts a thread for each seat. One that gets none is dropped, which answers its file.
fn start_seats<'s, E, J: Naming + Send + Sync, R: Wait + Sync>(
    scope: &Scope<'s, E>,
    seats: Vec<Seat<'s, J, R>>,
) {
    let mut seats = seats;
    for _ in 0..seats.len() {
        if let Some(seat) = seats.pop() {
            let _ = scope.spawn(move || seat.run());
        }
    }
}

// Starts a thread for each analyst.
fn start_watches<'s, E, J: Naming + Send + Sync, R: Wait + Sync>(
    rt: &'s R,
    alloc: Global,
    scope: &Scope<'s, E>,
    analysts: Vec<Analyst<J>>,
    places: &'s [Place<Answer<Published<J>>>],
) -> Vec<JoinHandle<u64>> {
    let mut analysts = analysts;
    let mut watches = Vec::new(alloc);
    for _ in 0..analysts.len() {
        if let Some(analyst) = analysts.pop() {
            if let Ok(started) = scope.spawn(move || watch(rt, analyst, places)) {
                let _ = watches.push(started);
            }
        }
    }
    watches
}

// Waits for all analysts. It answers how many of their views were stale.
fn stale_views<R: Threads>(rt: &R, watches: Vec<JoinHandle<u64>>) -> u64 {
    let mut watches = watches;
    let mut stale: u64 = 0;
    for _ in 0..watches.len() {
        if let Some(started) = watches.pop() {
            stale = stale.saturating_add(started.join(rt));
        }
    }
    stale
}
