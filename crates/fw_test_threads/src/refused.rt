//! Repeats, a device that fails, and a flusher that closes while items wait.
ghost use Rattle.std.specs.Prelude.{◌≡◌};

use crate::ends::{Held, Left, Told, created, ends_of, memory, outcome_of, post};
use fw_disk::{FaultVolume, MemVolume, Mode, Volume};
use fw_recover::StoreFault;
use fw_threads::{Importer, Naming, Opened};
use std::alloc::Global;
use std::marker::Brand;
use std::process::Abort;
use std::sync::Wait;
use std::sync::atomic::{AtomicBool, Ordering};
use std::test::*;
use std::thread::{Threads, join, yield_now};

/// How many device calls creating a warehouse takes.
const CREATING: u64 = 8;

// Posts the first entries of an origin, at most two, and leaves.
fn post_first<J: Naming, R: Wait>(
    rt: &R,
    alloc: Global,
    importer: Importer<J>,
    origin: u8,
    count: u8,
) -> [Told; 2] {
    let mut importer = importer;
    let mut all = [Told::Other; 2];
    for place in 0..count.min(2) {
        let answer = post(rt, alloc, &mut importer, origin, u16::from(place) + 1);
        all[usize::from(place)] = outcome_of(&answer);
    }
    importer.leave(rt);
    all
}

// Fails where memory ran out for a post.
fn in_memory(both: &Both) -> Result<(), StoreFault> {
    let all = [both.0[0], both.0[1], both.1[0], both.1[1]];
    if all.contains(&Told::NoMemory) {
        return Err(StoreFault::NoMemory);
    }
    Ok(())
}

/// What two importers on threads were answered.
type Both = ([Told; 2], [Told; 2]);

// Two importers post so many entries each, both for one origin or each for its own.
fn both<J: Naming + Send + Sync, R: Threads + Wait + Sync>(
    rt: &R,
    alloc: Global,
    importers: (Importer<J>, Importer<J>),
    origins: (u8, u8),
    count: u8,
) -> Both {
    let (one, other) = importers;
    join(
        rt,
        move || post_first(rt, alloc, one, origins.0, count),
        move || post_first(rt, alloc, other, origins.1, count),
    )
}

// The ends of a new warehouse.
fn ends<'a, J: Naming, V: Volume + Drop, R: Wait>(
    rt: &'a R,
    alloc: Global,
    opened: Opened,
    volume: V,
) -> Result<(Held<'a, J, V, R>, (Importer<J>, Importer<J>)), Fail>
    requires { (opened.fronts ≡ J.fronts) × (opened.posts ≡ J.posts) }
{
    let store = created(alloc, volume)?;
    let (held, mut importers, _analyst) = ends_of::<J, V, R>(rt, alloc, opened, store, 2)?;
    match (importers.pop(), importers.pop()) {
        (Some(one), Some(other)) => Ok((held, (one, other))),
        _ => Err(Fail::from("importers")),
    }
}

// Whether one of two posts of the same entry was accepted and the other answered `Already`, and the entry is stored once.
fn judge_repeated<R: Abort>(rt: &R, left: &Left, answers: &Both) -> Result<(), Fail> {
    if let Some(fault) = left.fault {
        return Err(Fail::from(fault));
    }
    in_memory(answers)?;
    assert_eq!(rt; (left.entries, left.accepted), (1, 1));
    let answers = (answers.0[0], answers.1[0]);
    let first = (Told::Accepted(1), Told::Already(1, 1));
    assert!(rt; answers == first || answers == (first.1, first.0));
    Ok(())
}

fn repeated<J: Naming + Send + Sync, R: Threads + Wait + Abort + Sync>(
    rt: &R,
    alloc: Global,
    opened: Opened,
) -> Result<(), Fail>
    requires { (opened.fronts ≡ J.fronts) × (opened.posts ≡ J.posts) }
{
    let (held, importers) = ends::<J, MemVolume, R>(rt, alloc, opened, memory(alloc))?;
    let (left, answers) = join(
        rt,
        move || held.flush(),
        move || both(rt, alloc, importers, (b'a', b'a'), 1),
    );
    judge_repeated(rt, &left, &answers)
}

/// Two importers post the same entry: one is answered `Accepted` with the number 1, the other `Already` after one entry. It is stored
/// once.
#[test]
fn the_same_entry_twice(rt: HostRuntime) -> Result<(), Fail> {
    repeated::<Brand, _>(&rt, rt.alloc(), Opened::new())
}

fn count(all: &[Told], told: Told) -> usize {
    all.iter().filter(|one| **one == told).count()
}

// Whether the device failed, nothing is stored, and one or two posts are unknown and all others closed.
fn judge_failed<R: Abort>(rt: &R, left: &Left, answers: &Both) -> Result<(), Fail> {
    in_memory(answers)?;
    if let Some(StoreFault::NoMemory) = left.fault {
        return Err(Fail::from(StoreFault::NoMemory));
    }
    assert_eq!(rt;
        (left.entries, left.accepted, left.fault),
        (0, 0, Some(StoreFault::Device))
    );
    let (one, other) = answers;
    let all = [one[0], one[1], other[0], other[1]];
    let (unknown, closed) = (count(&all, Told::Unknown), count(&all, Told::Closed));
    assert!(rt; 0 < unknown && unknown <= 2 && unknown.wrapping_add(closed) == 4);
    Ok(())
}

fn failed<J: Naming + Send + Sync, R: Threads + Wait + Abort + Sync>(
    rt: &R,
    alloc: Global,
    opened: Opened,
) -> Result<(), Fail>
    requires { (opened.fronts ≡ J.fronts) × (opened.posts ≡ J.posts) }
{
    let volume = FaultVolume::new(memory(alloc), CREATING, Mode::After);
    let (held, importers) = ends::<J, FaultVolume<MemVolume>, R>(rt, alloc, opened, volume)?;
    let (left, answers) = join(
        rt,
        move || held.flush(),
        move || both(rt, alloc, importers, (b'a', b'b'), 2),
    );
    judge_failed(rt, &left, &answers)
}

/// The device fails in the first commit. Whoever is in hand is answered `Unknown`, all others `Closed`, and nobody hangs.
#[test]
fn a_device_that_fails(rt: HostRuntime) -> Result<(), Fail> {
    failed::<Brand, _>(&rt, rt.alloc(), Opened::new())
}

/// How often the flusher gives way to a post before it closes.
const GIVES_WAY: u32 = 10_000;

// Posts the first entries of an origin once a group is in hand, and leaves.
fn post_later<J: Naming, R: Wait>(
    rt: &R,
    alloc: Global,
    importer: Importer<J>,
    in_hand: &AtomicBool,
    posts: &AtomicBool,
) -> [Told; 2] {
    for _ in rt.forever() {
        if in_hand.load(Ordering::SeqCst) {
            break;
        }
        yield_now();
    }
    posts.store(true, Ordering::SeqCst);
    post_first(rt, alloc, importer, b'b', 2)
}

// Says that a group is in hand, and gives way until another post most likely waits.
fn await_post<R: Wait>(rt: &R, in_hand: &AtomicBool, posts: &AtomicBool) {
    in_hand.store(true, Ordering::SeqCst);
    for _ in rt.forever() {
        if posts.load(Ordering::SeqCst) {
            break;
        }
        yield_now();
    }
    for _ in 0..GIVES_WAY {
        yield_now();
    }
}

// Whether nothing is stored, and all posts are closed.
fn judge_closed<R: Abort>(rt: &R, entries: usize, answers: &Both) -> Result<(), Fail> {
    in_memory(answers)?;
    assert_eq!(rt; entries, 0);
    assert_eq!(rt; *answers, ([Told::Closed; 2], [Told::Closed; 2]));
    Ok(())
}

fn closed<J: Naming + Send + Sync, R: Threads + Wait + Abort + Sync>(
    rt: &R,
    alloc: Global,
    opened: Opened,
) -> Result<(), Fail>
    requires { (opened.fronts ≡ J.fronts) × (opened.posts ≡ J.posts) }
{
    let (held, (one, other)) = ends::<J, MemVolume, R>(rt, alloc, opened, memory(alloc))?;
    let (in_hand, posts) = (AtomicBool::new(false), AtomicBool::new(false));
    let (in_hand, posts) = (&in_hand, &posts);
    let (entries, answers) = join(
        rt,
        move || held.close_in_hand(|| await_post(rt, in_hand, posts)),
        move || {
            join(
                rt,
                move || post_first(rt, alloc, one, b'a', 2),
                move || post_later(rt, alloc, other, in_hand, posts),
            )
        },
    );
    judge_closed(rt, entries, &answers)
}

/// A flusher closes with one item in hand while another one waits. Both, and what is posted later, are answered `Closed`, and nothing is
/// stored.
#[test]
fn a_flusher_that_closes(rt: HostRuntime) -> Result<(), Fail> {
    closed::<Brand, _>(&rt, rt.alloc(), Opened::new())
}
