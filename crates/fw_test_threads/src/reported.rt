//! A report takes about as long while importers post as at rest, and says the same.
ghost use Rattle.std.specs.Prelude.{◌≡◌};

use crate::ends::{Held, Left, created, decoded, ends_of, outcome_of, post};
use crate::seats::{IMPORTERS, Posting, Signs};
use fw_disk::{Choice, MemVolume};
use fw_query::{Query, Report, report_alone, report_csv};
use fw_recover::{Store, StoreFault};
use fw_threads::{Analyst, Naming, Opened};
use std::alloc::{AllocError, Global};
use std::marker::Brand;
use std::process::Abort;
use std::sync::atomic::Ordering;
use std::sync::{Mutex, Wait};
use std::test::*;
use std::thread::{Threads, join, yield_now};
use std::time::{Clock, Instant};

/// How many posts of rows there are before any importer posts.
const POSTS: u8 = 16;

/// How many rows each of them has.
const ROWS: u16 = 4_096;

/// How many reports are timed at rest, and as many while importers post.
const REPORTS: usize = 25;

/// How many entries an importer posts at most, if the reports don't end before.
const MOST_ENTRIES: u16 = 60_000;

/// How often the analyst looks whether all importers post before it gives up.
const TURNS: u32 = 1_000_000;

/// A report while importers post takes at most so many times as long as one at rest.
const MOST_TIMES: u64 = 10;

/// The first day of 1970, by teams.
const QUERY: Query<'static> = Query {
    key: "team",
    from_hour: 0,
    to_hour: 24,
};

/// A row of use of no cost over no time: seven nanos of `h` of the SKU `v`, by a team of one letter.
const ROW: [u8; 76] = [
    0, 0, 0, 0, 0, 0, 0, 0, 0, 0, 0, 0, 0, 0, 0, 0, 1, 0, 0, 0, 0, 0, 0, 0, 0, 0, 0, 0, 0, 0, 0, 0,
    0, 0, 0, 0, 0, 1, 7, 0, 0, 0, 0, 0, 0, 0, 1, 1, 0, 0, 0, 0x68, 1, 1, 0, 0, 0, 0x76, 0, 1, 0, 0,
    0, 4, 0, 0, 0, 0x74, 0x65, 0x61, 0x6d, 1, 0, 0, 0, 0x61,
];

// A row of some nanos, of an hour of the day and of one of 16 teams.
fn row(place: u16) -> [u8; 76] {
    let mut bytes = ROW;
    let start = u64::from(place % 24) * 3_600;
    bytes[0] = (place % 251) as u8;
    bytes[8] = (place % 241) as u8;
    bytes[18..26].copy_from_slice(&start.to_le_bytes());
    bytes[26..34].copy_from_slice(&(start + 3_600).to_le_bytes());
    bytes[75] = 0x61 + (place % 16) as u8;
    bytes
}

// An entry of the origin `z` that posts rows.
fn post_bytes(alloc: Global, seq: u8) -> Result<Vec<u8>, AllocError> {
    let mut bytes = vec![in alloc; 1, 0, 0, 0, b'z', seq, 0, 0, 0, 0, 0, 0, 0, 1, 0, 16, 0, 0]?;
    for place in 0..ROWS {
        bytes.extend_from_slice(&row(place))?;
    }
    Ok(bytes)
}

// Adds an entry that posts rows to a warehouse.
fn add(alloc: Global, store: &mut Store<MemVolume>, seq: u8) -> Result<(), StoreFault> {
    let Ok(bytes) = post_bytes(alloc, seq) else {
        return Err(StoreFault::NoMemory);
    };
    let entry = decoded(alloc, &bytes)?;
    store.commit(alloc, &entry)?;
    Ok(())
}

// A warehouse in memory that has rows.
fn filled(alloc: Global) -> Result<Store<MemVolume>, StoreFault> {
    let mut store = created(alloc, MemVolume::new(alloc, 1 << 30, Choice::Old))?;
    for place in 0..POSTS {
        add(alloc, &mut store, place + 1)?;
    }
    Ok(store)
}

// One importer posts entries of an origin until it is enough.
fn one<J: Naming, R: Wait>(rt: &R, posting: &Posting<J>, origin: u8) {
    let Some(importer) = posting.importers.lock(rt).pop() else {
        return;
    };
    let mut importer = importer;
    let signs = &posting.signs;
    for place in 0..MOST_ENTRIES {
        let answer = post(rt, posting.alloc, &mut importer, origin, place + 1);
        signs.note(outcome_of(&answer));
        if place == 0 {
            signs.began.fetch_add(1, Ordering::SeqCst);
        }
        if signs.is_enough() {
            break;
        }
    }
    signs.over.store(true, Ordering::SeqCst);
    importer.leave(rt);
}

// Two importers at once, for this origin and the next.
fn two<J: Naming + Send + Sync, R: Threads + Wait + Sync>(
    rt: &R,
    posting: &Posting<J>,
    origin: u8,
) {
    join(
        rt,
        move || one(rt, posting, origin),
        move || one(rt, posting, origin.wrapping_add(1)),
    );
}

fn four<J: Naming + Send + Sync, R: Threads + Wait + Sync>(
    rt: &R,
    posting: &Posting<J>,
    origin: u8,
) {
    join(
        rt,
        move || two(rt, posting, origin),
        move || two(rt, posting, origin.wrapping_add(2)),
    );
}

fn eight<J: Naming + Send + Sync, R: Threads + Wait + Sync>(rt: &R, posting: &Posting<J>) {
    join(
        rt,
        move || four(rt, posting, b'a'),
        move || four(rt, posting, b'e'),
    );
}

/// Why reports were not timed.
#[derive(Clone, Copy, Debug, PartialEq, Eq)]
enum Untimed {
    /// No clock can be read.
    Clock,
    /// Nothing can be viewed, or there is no report of it.
    Report,
    /// The report isn't the one at rest.
    Text,
    /// An importer posted nothing yet, or all its entries.
    Idle,
}

/// The nanos of each report, in rising order.
type Nanos = Result<[u64; REPORTS], Untimed>;

// A report of what is viewed.
fn report_seen<J: Naming>(alloc: Global, analyst: &mut Analyst<J>) -> Option<Report> {
    match analyst.view() {
        Ok(seen) => report_alone(alloc, &seen, &QUERY).ok(),
        Err(_) => None,
    }
}

// The text of a report of what is viewed; no byte where there is none.
fn text_seen<J: Naming>(alloc: Global, analyst: &mut Analyst<J>) -> Vec<u8> {
    match report_seen(alloc, analyst) {
        Some(report) => text_of(alloc, &report),
        None => Vec::new(alloc),
    }
}

// The text of a report; no byte where memory ran out.
fn text_of(alloc: Global, report: &Report) -> Vec<u8> {
    match report_csv(alloc, report) {
        Ok(text) => text,
        Err(_) => Vec::new(alloc),
    }
}

// The nanos that a view and its report take. The report has to have this text.
fn timed<J: Naming, R: Clock>(
    rt: &R,
    alloc: Global,
    analyst: &mut Analyst<J>,
    text: &[u8],
) -> Result<u64, Untimed> {
    let Ok(start) = Instant::now(rt) else {
        return Err(Untimed::Clock);
    };
    let Some(report) = report_seen(alloc, analyst) else {
        return Err(Untimed::Report);
    };
    let end = Instant::now(rt);
    if text_of(alloc, &report).as_slice() != text {
        return Err(Untimed::Text);
    }
    match end {
        Ok(end) => nanos_between(start, end),
        Err(_) => Err(Untimed::Clock),
    }
}

fn nanos_between(start: Instant, end: Instant) -> Result<u64, Untimed> {
    match u64::try_from(end.duration_since(start).as_nanos()) {
        Ok(nanos) => Ok(nanos),
        Err(_) => Err(Untimed::Clock),
    }
}

// The times of reports at rest.
fn report_at_rest<J: Naming, R: Clock>(
    rt: &R,
    alloc: Global,
    analyst: &mut Analyst<J>,
    text: &[u8],
) -> Nanos {
    let mut nanos = [0; REPORTS];
    for place in 0..REPORTS {
        nanos[place] = timed(rt, alloc, analyst, text)?;
    }
    nanos.sort_unstable();
    Ok(nanos)
}

// The times of reports while all importers post.
fn report_beside<J: Naming, R: Clock>(
    rt: &R,
    alloc: Global,
    analyst: Analyst<J>,
    signs: &Signs,
    text: &[u8],
) -> Nanos {
    let mut analyst = analyst;
    wait_until_busy(signs);
    let nanos = report_while_busy(rt, alloc, &mut analyst, signs, text);
    signs.enough.store(true, Ordering::SeqCst);
    nanos
}

// Gives way until all importers post, so many turns long.
fn wait_until_busy(signs: &Signs) {
    for _ in 0..TURNS {
        if signs.is_busy() {
            break;
        }
        yield_now();
    }
}

fn report_while_busy<J: Naming, R: Clock>(
    rt: &R,
    alloc: Global,
    analyst: &mut Analyst<J>,
    signs: &Signs,
    text: &[u8],
) -> Nanos {
    let mut nanos = [0; REPORTS];
    for place in 0..REPORTS {
        nanos[place] = timed(rt, alloc, analyst, text)?;
        if !signs.is_busy() {
            return Err(Untimed::Idle);
        }
    }
    nanos.sort_unstable();
    Ok(nanos)
}

/// What the threads of eight importers, a flusher and an analyst begin with.
type Seated<'a, J, R> = (Held<'a, J, MemVolume, R>, Posting<J>, Analyst<J>);

// The ends of a warehouse that has rows.
fn seated<'a, J: Naming, R: Wait>(
    rt: &'a R,
    alloc: Global,
    opened: Opened,
) -> Result<Seated<'a, J, R>, Fail>
    requires { (opened.fronts ≡ J.fronts) × (opened.posts ≡ J.posts) }
{
    let store = filled(alloc)?;
    let (held, importers, analyst) = ends_of::<J, MemVolume, R>(
        rt, alloc, opened, store, IMPORTERS,
    )?;
    let posting = Posting {
        alloc,
        importers: Mutex::new(importers),
        signs: Signs::new(),
    };
    Ok((held, posting, analyst))
}

// Whether all posts were accepted and are stored.
fn judge<R: Abort>(rt: &R, left: &Left, signs: &Signs) -> Result<(), Fail> {
    if let Some(fault) = left.fault {
        return Err(Fail::from(fault));
    }
    if signs.ran_out.load(Ordering::SeqCst) {
        return Err(Fail::from(StoreFault::NoMemory));
    }
    let accepted = signs.accepted.load(Ordering::SeqCst);
    let entries = accepted.saturating_add(usize::from(POSTS));
    assert_eq!(rt; (left.entries, left.accepted), (entries, accepted));
    assert_eq!(rt; signs.wrong.load(Ordering::SeqCst), 0);
    Ok(())
}

/// How many nanos a report took in the middle of all.
#[derive(Clone, Copy, Debug, PartialEq, Eq)]
struct Times {
    rest: u64,
    beside: u64,
}

// The times of reports, at rest and while importers post. The latter must not take many times as long.
fn times_of<R: Abort>(rt: &R, rest: Nanos, beside: Nanos) -> Result<Times, Fail> {
    let rest = rest?[REPORTS / 2];
    let beside = beside?[REPORTS / 2];
    assert!(rt;
        beside <= rest.saturating_mul(MOST_TIMES),
        "{beside} and {rest} ns"
    );
    Ok(Times { rest, beside })
}

// The times of reports while eight importers post.
fn report_beside_eight<J: Naming + Send + Sync, R: Threads + Wait + Clock + Sync>(
    rt: &R,
    analyst: Analyst<J>,
    posting: &Posting<J>,
    text: &[u8],
) -> Nanos {
    let ((), nanos) = join(
        rt,
        move || eight(rt, posting),
        move || report_beside(rt, posting.alloc, analyst, &posting.signs, text),
    );
    nanos
}

// Reports at rest, and beside eight importers and the flusher.
fn reported<J: Naming + Send + Sync, R: Threads + Wait + Abort + Clock + Sync>(
    rt: &R,
    alloc: Global,
    opened: Opened,
) -> Result<Times, Fail>
    requires { (opened.fronts ≡ J.fronts) × (opened.posts ≡ J.posts) }
{
    let (held, posting, mut analyst) = seated::<J, R>(rt, alloc, opened)?;
    let text = text_seen(alloc, &mut analyst);
    let rest = report_at_rest(rt, alloc, &mut analyst, &text);
    let shared = &posting;
    let wanted: &[u8] = &text;
    let (left, beside) = join(
        rt,
        move || held.flush(),
        move || report_beside_eight(rt, analyst, shared, wanted),
    );
    judge(rt, &left, &posting.signs)?;
    times_of(rt, rest, beside)
}

/// An analyst reports 65,536 rows, and then again while eight importers on threads post one entry after the other, none of which has a row.
/// Each report has the same text. No post fails, and all are stored. A report takes about as long as one at rest: both times are printed.
#[test]
fn a_report_beside_importers(rt: HostRuntime) -> Result<(), Fail> {
    let times = reported::<Brand, _>(&rt, rt.alloc(), Opened::new())?;
    let rest = times.rest / 1_000;
    let beside = times.beside / 1_000;
    println!(rt; "reports: {rest} us at rest, {beside} us while {IMPORTERS} importers post")?;
    Ok(())
}
