//! All posts are answered, and each view has what its analyst learned.
ghost use Rattle.std.specs.Prelude.{◌≡◌};

use crate::ends::{Held, Left, created, ends_of, memory, outcome_of, post};
use crate::seats::{ALL, IMPORTERS, Seats, Tally};
use fw_disk::MemVolume;
use fw_group::Answer;
use fw_recover::StoreFault;
use fw_threads::{Naming, Opened, Published};
use std::alloc::Global;
use std::marker::Brand;
use std::process::Abort;
use std::sync::{Mutex, Wait};
use std::test::*;
use std::thread::{Threads, join};

/// How many entries each posts.
const ENTRIES: u8 = 4;

// Learns a receipt and views. It answers how many entries it viewed.
fn look<J: Naming, R: Wait>(rt: &R, seats: &Seats<J>, answer: &Answer<Published<J>>) -> usize {
    let mut analyst = seats.analyst.lock(rt);
    if let Answer::Accepted(receipt) = answer {
        analyst.learn(receipt);
    }
    match analyst.view() {
        Ok(seen) => seen.state().entries(),
        Err(_) => 0,
    }
}

// One importer posts the entries of an origin.
fn one<J: Naming, R: Wait>(rt: &R, seats: &Seats<J>, origin: u8) {
    let Some(importer) = seats.importers.lock(rt).pop() else {
        return;
    };
    let mut importer = importer;
    for place in 0..ENTRIES {
        let answer = post(rt, seats.alloc, &mut importer, origin, u16::from(place) + 1);
        let viewed = look(rt, seats, &answer);
        seats.tally.lock(rt).note(outcome_of(&answer), viewed);
    }
    importer.leave(rt);
}

// Two importers at once, for this origin and the next.
fn two<J: Naming + Send + Sync, R: Threads + Wait + Sync>(rt: &R, seats: &Seats<J>, origin: u8) {
    join(
        rt,
        move || one(rt, seats, origin),
        move || one(rt, seats, origin.wrapping_add(1)),
    );
}

fn four<J: Naming + Send + Sync, R: Threads + Wait + Sync>(rt: &R, seats: &Seats<J>, origin: u8) {
    join(
        rt,
        move || two(rt, seats, origin),
        move || two(rt, seats, origin.wrapping_add(2)),
    );
}

fn eight<J: Naming + Send + Sync, R: Threads + Wait + Sync>(rt: &R, seats: &Seats<J>) {
    join(
        rt,
        move || four(rt, seats, b'a'),
        move || four(rt, seats, b'e'),
    );
}

// Eight importers at once, beside the flusher.
fn answered<J: Naming + Send + Sync, R: Threads + Wait + Abort + Sync>(
    rt: &R,
    alloc: Global,
    opened: Opened,
) -> Result<(), Fail>
    requires { (opened.fronts ≡ J.fronts) × (opened.posts ≡ J.posts) }
{
    let (held, seats) = seated::<J, R>(rt, alloc, opened)?;
    let shared = &seats;
    let (left, ()) = join(rt, move || held.flush(), move || eight(rt, shared));
    judge(rt, &left, &seats)
}

// The flusher and the seats of a new warehouse.
fn seated<'a, J: Naming, R: Wait>(
    rt: &'a R,
    alloc: Global,
    opened: Opened,
) -> Result<(Held<'a, J, MemVolume, R>, Seats<J>), Fail>
    requires { (opened.fronts ≡ J.fronts) × (opened.posts ≡ J.posts) }
{
    let store = created(alloc, memory(alloc))?;
    let (held, importers, analyst) = ends_of::<J, MemVolume, R>(
        rt, alloc, opened, store, IMPORTERS,
    )?;
    let seats = Seats {
        alloc,
        importers: Mutex::new(importers),
        analyst: Mutex::new(analyst),
        tally: Mutex::new(Tally::new()),
    };
    Ok((held, seats))
}

// Whether all went as it has to.
fn judge<J: Naming, R: Wait + Abort>(rt: &R, left: &Left, seats: &Seats<J>) -> Result<(), Fail> {
    let tally = seats.tally.lock(rt);
    if let Some(fault) = left.fault {
        return Err(Fail::from(fault));
    }
    if tally.ran_out {
        return Err(Fail::from(StoreFault::NoMemory));
    }
    assert_eq!(rt; (left.entries, left.accepted), (ALL, ALL));
    assert!(rt; tally.is_right());
    Ok(())
}

/// Eight importers on threads each post four entries of an origin of their own, and an analyst learns each receipt and views. All are
/// accepted, with the numbers 1 to 32, each once; each view has the entry that was learned; no commit fails; 32 entries are stored.
#[test]
fn all_answered(rt: HostRuntime) -> Result<(), Fail> {
    answered::<Brand, _>(&rt, rt.alloc(), Opened::new())
}
