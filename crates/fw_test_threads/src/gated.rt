//! A view goes on while a commit is held in its sync.
ghost use Rattle.std.specs.Prelude.{◌≡◌};
ghost use Rattle.fw_gate.specs.Gate.{one_more};

use crate::ends::{Held, Left, Told, created, ends_of, memory, outcome_of, post};
use fw_disk::{MemVolume, Volume};
use fw_gate::{Gate, GateVolume};
use fw_group::Answer;
use fw_recover::StoreFault;
use fw_threads::{Analyst, Importer, Naming, Opened};
use std::alloc::Global;
use std::marker::Brand;
use std::process::Abort;
use std::sync::atomic::{AtomicBool, Ordering};
use std::sync::{Arc, Wait};
use std::test::*;
use std::thread::{Threads, join, yield_now};
use std::time::{Clock, Instant};

/// How often each side looks for the other before it gives up.
const TURNS: u32 = 1_000_000;

/// Views are timed in so many batches.
const BATCHES: u32 = 50;

/// How many views a batch has.
const VIEWS: u64 = 200;

/// A view beside a commit takes at most so many times as long as one at rest.
const MOST_TIMES: u64 = 10;

/// What the two sides of a gate share.
#[derive(Drop)]
struct Latch {
    /// A sync stands before the gate.
    came: AtomicBool,
    open: AtomicBool,
    /// A sync went through a gate that was shut.
    gave_up: AtomicBool,
}

impl Latch {
    fn new() -> Latch {
        Latch {
            came: AtomicBool::new(false),
            open: AtomicBool::new(true),
            gave_up: AtomicBool::new(false),
        }
    }

    fn is_open(&self) -> bool {
        self.open.load(Ordering::SeqCst)
    }

    fn has_come(&self) -> bool {
        self.came.load(Ordering::SeqCst)
    }

    /// Whether a sync is held before the gate.
    fn holds(&self) -> bool {
        self.has_come() && !self.is_open()
    }

    fn set_open(&self, open: bool) {
        self.came.store(false, Ordering::SeqCst);
        self.open.store(open, Ordering::SeqCst);
    }
}

/// A gate that another thread opens. It gives up after so many turns.
#[derive(Drop)]
struct Waits {
    latch: Arc<Latch>,
    passed: u64,
}

impl Gate for Waits {
    ghost passed = { λ g. g.passed };

    fn pass(&mut self) {
        self.latch.came.store(true, Ordering::SeqCst);
        for _ in 0..TURNS {
            if self.latch.is_open() {
                break;
            }
            yield_now();
        }
        if !self.latch.is_open() {
            self.latch.gave_up.store(true, Ordering::SeqCst);
        }
        self.passed = self.passed.saturating_add(1);
    }
}

// The nanos that the fastest batch of views took. `None` where nothing can be viewed, or no clock can be read.
fn fastest<J: Naming, R: Clock>(rt: &R, analyst: &mut Analyst<J>) -> Option<u64> {
    let mut least = u64::MAX;
    for _ in 0..BATCHES {
        least = least.min(batch(rt, analyst)?);
    }
    Some(least)
}

// The nanos that a batch of views took.
fn batch<J: Naming, R: Clock>(rt: &R, analyst: &mut Analyst<J>) -> Option<u64> {
    let start = Instant::now(rt).ok()?;
    for _ in 0..VIEWS {
        if analyst.view().is_err() {
            return None;
        }
    }
    let took = start.elapsed(rt).ok()?;
    u64::try_from(took.as_nanos()).ok()
}

/// What a thread saw while a commit stood before the gate, if it stood there all the while: how many entries it viewed, and the nanos of
/// its fastest batch of views.
type Beside = Option<(usize, u64)>;

// Views once a sync stands before the shut gate, and then opens it.
fn view_held<J: Naming, R: Clock>(
    rt: &R,
    analyst: Analyst<J>,
    latch: &Latch,
) -> (Analyst<J>, Beside) {
    let mut analyst = analyst;
    wait_until_held(latch);
    let entries = entries_seen(&mut analyst);
    let nanos = fastest(rt, &mut analyst);
    let held = latch.holds();
    latch.set_open(true);
    match nanos {
        Some(nanos) if held => (analyst, Some((entries, nanos))),
        _ => (analyst, None),
    }
}

// Gives way until a sync stands before the shut gate, so many turns long.
fn wait_until_held(latch: &Latch) {
    for _ in 0..TURNS {
        if latch.holds() {
            break;
        }
        yield_now();
    }
}

// Posts an entry.
fn post_one<J: Naming, R: Wait>(rt: &R, alloc: Global, importer: Importer<J>) -> Told {
    let mut importer = importer;
    let answer = post(rt, alloc, &mut importer, b'a', 1);
    importer.leave(rt);
    outcome_of(&answer)
}

/// The ends of a warehouse whose syncs pass a gate: the flusher, an importer and an analyst.
type GatedEnds<'a, J, R> = (
    Held<'a, J, GateVolume<MemVolume, Waits>, R>,
    Importer<J>,
    Analyst<J>,
);

// The ends of a new warehouse behind the gate, which is open.
fn gated_ends<'a, J: Naming, R: Wait>(
    rt: &'a R,
    alloc: Global,
    opened: Opened,
    latch: &Arc<Latch>,
) -> Result<GatedEnds<'a, J, R>, Fail>
    requires { (opened.fronts ≡ J.fronts) × (opened.posts ≡ J.posts) }
{
    let gate = Waits {
        latch: Arc::try_clone(latch)?,
        passed: 0,
    };
    let volume = GateVolume::new(memory(alloc), gate);
    let store = created(alloc, volume)?;
    let (held, mut importers, analyst) = ends_of::<J, GateVolume<MemVolume, Waits>, R>(
        rt, alloc, opened, store, 1,
    )?;
    match importers.pop() {
        Some(importer) => Ok((held, importer, analyst)),
        None => Err(Fail::from("importer")),
    }
}

/// How many nanos the fastest batch of views took.
#[derive(Clone, Copy, Debug, PartialEq, Eq)]
struct Times {
    rest: u64,
    beside: u64,
}

// The times of views, at rest and beside a commit. The latter have to be of nothing, and not to take many times as long.
fn times_of<R: Abort>(rt: &R, rest: Option<u64>, seen: Beside) -> Result<Times, Fail> {
    let (Some(rest), Some((entries, beside))) = (rest, seen) else {
        return Err(Fail::from("no view was timed"));
    };
    assert_eq!(rt; entries, 0);
    assert!(rt;
        beside <= rest.saturating_mul(MOST_TIMES),
        "{beside} and {rest} ns"
    );
    Ok(Times { rest, beside })
}

// Whether the one post was accepted and is stored, and the gate never gave up.
fn judge<R: Abort>(rt: &R, left: &Left, told: Told, latch: &Latch) -> Result<(), Fail> {
    if let Some(fault) = left.fault {
        return Err(Fail::from(fault));
    }
    if told == Told::NoMemory {
        return Err(Fail::from(StoreFault::NoMemory));
    }
    assert_eq!(rt; (left.entries, told), (1, Told::Accepted(1)));
    assert!(rt; !latch.gave_up.load(Ordering::SeqCst));
    Ok(())
}

fn viewed<J: Naming + Send + Sync, R: Threads + Wait + Abort + Clock + Sync>(
    rt: &R,
    alloc: Global,
    opened: Opened,
) -> Result<Times, Fail>
    requires { (opened.fronts ≡ J.fronts) × (opened.posts ≡ J.posts) }
{
    let latch = Arc::new(alloc, Latch::new())?;
    let (held, importer, mut analyst) = gated_ends::<J, R>(rt, alloc, opened, &latch)?;
    let rest = fastest(rt, &mut analyst);
    latch.set_open(false);
    let watched: &Latch = &latch;
    let (left, (told, (analyst, seen))) = join(
        rt,
        move || held.flush(),
        move || {
            join(
                rt,
                move || post_one(rt, alloc, importer),
                move || view_held(rt, analyst, watched),
            )
        },
    );
    judge(rt, &left, told, &latch)?;
    // The flusher has ended, so there is nothing to view.
    let mut analyst = analyst;
    assert!(rt; analyst.view().is_err());
    times_of(rt, rest, seen)
}

/// A commit is held in its sync until an analyst on another thread was answered, many times over. The view has nothing of the group; the
/// post is accepted once the gate is open, and the gate never gives up. A view takes about as long as one at rest: both times are printed.
#[test]
fn view_while_sync(rt: HostRuntime) -> Result<(), Fail> {
    let times = viewed::<Brand, _>(&rt, rt.alloc(), Opened::new())?;
    let rest = times.rest / VIEWS;
    let beside = times.beside / VIEWS;
    println!(rt; "views: {rest} ns at rest, {beside} ns while a commit syncs")?;
    Ok(())
}

// Commits the first group, and makes a checkpoint that is held at the gate. Then it commits until all importers have left.
fn checkpoint_held<J: Naming, V: Volume + Drop, R: Wait>(
    held: Held<'_, J, V, R>,
    latch: &Latch,
) -> Left {
    let mut held = held;
    let committed = held.commit_next();
    latch.set_open(false);
    let rt = held.rt;
    let done = held.flusher.checkpoint(rt);
    latch.set_open(true);
    let left = held.flush();
    Left {
        fault: committed.err().or(done.err()).or(left.fault),
        ..left
    }
}

/// What an analyst saw beside a checkpoint.
#[derive(Clone, Copy, Debug, PartialEq, Eq)]
struct Learned {
    told: Told,
    /// The checkpoint was held all the while.
    held: bool,
    /// How many entries there were before the receipt was learned, and after.
    before: usize,
    after: usize,
}

// Posts an entry; then, while the checkpoint is held, views, learns the receipt and views again.
fn learn_held<J: Naming, R: Wait>(
    rt: &R,
    alloc: Global,
    ends: (Importer<J>, Analyst<J>),
    latch: &Latch,
) -> Learned {
    let (mut importer, mut analyst) = ends;
    let answer = post(rt, alloc, &mut importer, b'a', 1);
    wait_until_held(latch);
    let before = entries_seen(&mut analyst);
    if let Answer::Accepted(receipt) = &answer {
        analyst.learn(receipt);
    }
    let after = entries_seen(&mut analyst);
    let held = latch.holds();
    latch.set_open(true);
    importer.leave(rt);
    Learned {
        told: outcome_of(&answer),
        held,
        before,
        after,
    }
}

// How many entries an analyst views; more than there can be where it views nothing.
fn entries_seen<J: Naming>(analyst: &mut Analyst<J>) -> usize {
    match analyst.view() {
        Ok(seen) => seen.state().entries(),
        Err(_) => usize::MAX,
    }
}

// Whether the checkpoint was held all the while, and the post was seen once it was learned.
fn judge_learned<R: Abort>(
    rt: &R,
    left: &Left,
    learned: &Learned,
    latch: &Latch,
) -> Result<(), Fail> {
    judge(rt, left, learned.told, latch)?;
    assert!(rt;
        learned.held && learned.before <= 1 && learned.after == 1,
        "{learned:?}"
    );
    Ok(())
}

fn checkpointed<J: Naming + Send + Sync, R: Threads + Wait + Abort + Sync>(
    rt: &R,
    alloc: Global,
    opened: Opened,
) -> Result<(), Fail>
    requires { (opened.fronts ≡ J.fronts) × (opened.posts ≡ J.posts) }
{
    let latch = Arc::new(alloc, Latch::new())?;
    let (held, importer, analyst) = gated_ends::<J, R>(rt, alloc, opened, &latch)?;
    let watched: &Latch = &latch;
    let (left, learned) = join(
        rt,
        move || checkpoint_held(held, watched),
        move || learn_held(rt, alloc, (importer, analyst), watched),
    );
    judge_learned(rt, &left, &learned, &latch)
}

/// A post is answered `Accepted`. While a checkpoint after it is held in its sync, an analyst learns the receipt and views: the entry is
/// there. Before it learned, it may have viewed less.
#[test]
fn learned_while_a_checkpoint_syncs(rt: HostRuntime) -> Result<(), Fail> {
    checkpointed::<Brand, _>(&rt, rt.alloc(), Opened::new())
}
