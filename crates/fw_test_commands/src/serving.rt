//! What no file of `examples/cases` can show: readers and writers that fail or are short, volumes that are full or fail, and
//! what the store holds then.
use crate::ended::check_all;
use crate::stores::{CREATING, Faulty, NEVER, ROOM, created};
use fw_disk::{Mode, Stoppable};
use fw_recover::{Store, StoreFault};
use fw_serve::{ServeFault, serve};
use std::alloc::Global;
use std::io;
use std::io::{ErrorKind, Read, Write};
use std::thread::Threads;

// Gives the text, at most `piece` bytes at a time, and ends there or fails.
#[derive(Drop)]
struct SlowReader<'a> {
    text: &'a [u8],
    piece: usize,
    fails: bool,
}

impl Read for SlowReader<'_> {
    fn read(&mut self, buf: &mut [u8]) -> io::Result<usize> {
        if self.fails && self.text.is_empty() {
            return Err(io::Error::from(ErrorKind::Other));
        }
        let room = buf.len().min(self.piece);
        let count = self.text.read(&mut buf[..room])?;
        Ok(count.min(room))
    }
}

// Takes as many bytes as it has room for, and fails where it has none left, or at a flush. Its text has room for all that the tests
// write, so that a refused allocation is never taken for a failed write.
#[derive(Drop)]
struct ShortWriter {
    text: Vec<u8>,
    room: usize,
    flushes: bool,
}

impl Write for ShortWriter {
    fn write(&mut self, buf: &[u8]) -> io::Result<usize> {
        if self.room == 0 {
            return Err(io::Error::from(ErrorKind::BrokenPipe));
        }
        let count = buf.len().min(self.room);
        self.text.extend_from_slice(&buf[..count])?;
        self.room -= count;
        Ok(count)
    }

    fn flush(&mut self) -> io::Result<()> {
        if self.flushes {
            Ok(())
        } else {
            Err(io::Error::from(ErrorKind::BrokenPipe))
        }
    }
}

// A script that is served from a new warehouse, and what has to come of it.
#[derive(Clone, Copy)]
struct Case {
    // How long the files of the warehouse may be, and how many calls of its device pass before one fails.
    limit: u64,
    pass: u64,
    script: &'static str,
    // How many bytes a read gives, and whether reading fails where the script ends.
    piece: usize,
    reader_fails: bool,
    // How many bytes the writer takes, and whether it takes a flush.
    room: usize,
    flushes: bool,
    workers: u32,
    // What is written, and what serving answers.
    answers: &'static str,
    end: Result<(), ServeFault>,
    // What the next script is answered to `state`, and how many entries there are when the warehouse is opened again.
    state: &'static str,
    entries: usize,
}

// A script with a reader, a writer and a device that do all that is asked.
const PLAIN: Case = Case {
    limit: ROOM,
    pass: NEVER,
    script: "",
    piece: 4096,
    reader_fails: false,
    room: 64,
    flushes: true,
    workers: 1,
    answers: "",
    end: Ok(()),
    state: "state 0 0 0 0\n",
    entries: 0,
};

// Serves a script from a store. What is written is in the writer afterwards.
fn served(
    rt: &(impl Threads + Sync),
    alloc: Global,
    store: &mut Store<Faulty>,
    writer: &mut ShortWriter,
    case: &Case,
) -> Result<(), ServeFault> {
    let mut reader = SlowReader {
        text: case.script.as_bytes(),
        piece: case.piece,
        fails: case.reader_fails,
    };
    serve(
        rt,
        alloc,
        &mut reader,
        writer,
        store,
        case.workers.clamp(1, 64),
    )
}

// Whether a script is answered as it has to be. A volume in memory fails only where memory runs out, so an answer that says so and wasn't
// to come is out of memory.
fn is_answered(
    rt: &(impl Threads + Sync),
    alloc: Global,
    store: &mut Store<Faulty>,
    case: &Case,
) -> Result<bool, ServeFault> {
    let mut writer = ShortWriter {
        text: Vec::with_capacity(alloc, 64)?,
        room: case.room,
        flushes: case.flushes,
    };
    let end = served(rt, alloc, store, &mut writer, case);
    let text = str::from_utf8(&writer.text).unwrap_or("no text");
    let is_right = text == case.answers && end == case.end;
    if !is_right && (text.contains("no memory") || text.contains("store S3")) {
        return Err(ServeFault::NoMemory);
    }
    match end {
        Err(ServeFault::NoMemory) => Err(ServeFault::NoMemory),
        _ => Ok(is_right),
    }
}

// Whether a script and the next one are answered as they have to be, in dollars.
fn are_answered(
    rt: &(impl Threads + Sync),
    alloc: Global,
    store: &mut Store<Faulty>,
    case: &Case,
) -> Result<bool, ServeFault> {
    let next = Case {
        script: "state\n",
        answers: case.state,
        ..PLAIN
    };
    let first = is_answered(rt, alloc, store, case)?;
    let second = is_answered(rt, alloc, store, &next)?;
    Ok(first && second && store.state().state().currency().code() == b"USD".as_slice())
}

// Whether what a stop leaves of a volume opens as a warehouse of so many entries.
fn opens_with(alloc: Global, volume: Faulty, entries: usize) -> Result<bool, ServeFault> {
    match Store::open(alloc, volume.stop()) {
        Ok(store) => Ok(store.state().state().entries() == entries),
        Err((_, StoreFault::NoMemory)) => Err(ServeFault::NoMemory),
        Err(_) => Ok(false),
    }
}

// Whether all that comes of a case is right.
fn is_right(rt: &(impl Threads + Sync), alloc: Global, case: &Case) -> Result<bool, ServeFault> {
    let Ok(mut store) = created(alloc, case.limit, case.pass, Mode::Once) else {
        return Err(ServeFault::NoMemory);
    };
    let answered = are_answered(rt, alloc, &mut store, case)?;
    let opens = opens_with(alloc, Box::into_inner(store).close(), case.entries)?;
    Ok(answered && opens)
}

// The place of the first case of which something isn't right.
fn first_wrong(
    rt: &(impl Threads + Sync),
    alloc: Global,
    cases: &[Case],
) -> Result<Option<usize>, ServeFault> {
    for (place, case) in cases.iter().enumerate() {
        if !is_right(rt, alloc, case)? {
            return Ok(Some(place));
        }
    }
    Ok(None)
}

const EARLY_END: &[Case] = &[Case {
    script: "post a 1 2\nx\n",
    answers: "bad end\n",
    ..PLAIN
}];

#[test]
fn a_post_that_ends_early_keeps_nothing(rt: HostRuntime) {
    check_all(&rt, first_wrong(&rt, rt.alloc(), EARLY_END));
}

const POST: &str = "post a 1 2
BilledCost,EffectiveCost,BillingCurrency,ChargeCategory,ChargePeriodStart,ChargePeriodEnd
0.1,0.25,USD,Usage,2024-01-01T00:00:00Z,2024-01-01T01:00:00Z
";

// A post that a reader gives in pieces of a size, and then fails.
const UNREAD_POST: Case = Case {
    script: POST,
    reader_fails: true,
    end: Err(ServeFault::Read),
    ..PLAIN
};

const UNREAD: &[Case] = &[
    Case {
        piece: 1,
        ..UNREAD_POST
    },
    Case {
        piece: 7,
        ..UNREAD_POST
    },
    UNREAD_POST,
];

#[test]
fn a_reader_that_fails_runs_no_command(rt: HostRuntime) {
    check_all(&rt, first_wrong(&rt, rt.alloc(), UNREAD));
}

const TWO_POSTS: &str = "post a 1 2
BilledCost,EffectiveCost,BillingCurrency,ChargeCategory,ChargePeriodStart,ChargePeriodEnd
0.1,0.25,USD,Usage,2024-01-01T00:00:00Z,2024-01-01T01:00:00Z
post a 2 2
BilledCost,EffectiveCost,BillingCurrency,ChargeCategory,ChargePeriodStart,ChargePeriodEnd
0.1,0.25,USD,Usage,2024-01-01T00:00:00Z,2024-01-01T01:00:00Z
x
";

// Two posts and a bad command, whose answers have 34 bytes, and a writer that takes no flush. Both posts are done.
const UNWRITTEN_POSTS: Case = Case {
    script: TWO_POSTS,
    flushes: false,
    end: Err(ServeFault::Write),
    state: "state 2 2 0 0\n",
    entries: 2,
    ..PLAIN
};

// How many bytes the writer takes, and what these are. It fails at the first answer where it takes 10, so the second post isn't done.
const UNWRITTEN: &[Case] = &[
    Case {
        room: 10,
        answers: "accepted 1",
        state: "state 1 1 0 0\n",
        entries: 1,
        ..UNWRITTEN_POSTS
    },
    Case {
        room: 21,
        answers: "accepted 1\naccepted 2",
        ..UNWRITTEN_POSTS
    },
    Case {
        room: 22,
        answers: "accepted 1\naccepted 2\n",
        ..UNWRITTEN_POSTS
    },
    Case {
        room: 33,
        answers: "accepted 1\naccepted 2\nbad command",
        ..UNWRITTEN_POSTS
    },
    Case {
        room: 100,
        answers: "accepted 1\naccepted 2\nbad command\n",
        ..UNWRITTEN_POSTS
    },
];

#[test]
fn a_writer_that_fails_leaves_what_is_done(rt: HostRuntime) {
    check_all(&rt, first_wrong(&rt, rt.alloc(), UNWRITTEN));
}

// A writer with just the room for an answer, and as many workers as there may be.
const WRITTEN: &[Case] = &[Case {
    script: "x\n",
    room: 12,
    workers: 64,
    answers: "bad command\n",
    ..PLAIN
}];

#[test]
fn a_writer_that_takes_all(rt: HostRuntime) {
    check_all(&rt, first_wrong(&rt, rt.alloc(), WRITTEN));
}

// An entry whose frame ends at 77, on a volume of one byte less and on one of just so many.
const FULL: &[Case] = &[
    Case {
        limit: 76,
        script: "policy a 1 1\nkey = \"t\"\n",
        answers: "store S6 TooLarge\n",
        ..PLAIN
    },
    Case {
        limit: 77,
        script: "policy a 1 1\nkey = \"t\"\n",
        answers: "accepted 1\n",
        state: "state 1 0 0 1\n",
        entries: 1,
        ..PLAIN
    },
];

#[test]
fn a_full_volume_takes_no_entry(rt: HostRuntime) {
    check_all(&rt, first_wrong(&rt, rt.alloc(), FULL));
}

const CHECKPOINT: &[Case] = &[Case {
    script: "policy a 1 1\nkey = \"t\"\ncheckpoint\nstate\npolicy a 1 1\nkey = \"t\"\n",
    answers: "accepted 1\ncheckpointed\nstate 1 0 0 1\nalready 1\n",
    state: "state 1 0 0 1\n",
    entries: 1,
    ..PLAIN
}];

#[test]
fn a_checkpoint_changes_no_answer(rt: HostRuntime) {
    check_all(&rt, first_wrong(&rt, rt.alloc(), CHECKPOINT));
}

// One call of the device fails, in the first entry. It would pass the next ones.
const FAILED: &[Case] = &[Case {
    pass: CREATING,
    script: "policy a 1 1\nkey = \"t\"\npolicy a 1 1\nkey = \"t\"\ncheckpoint\nstate\n",
    room: 128,
    answers: "store S3 Device\nstore S4 Failed\nstore S4 Failed\nstate 0 0 0 0\n",
    ..PLAIN
}];

#[test]
fn a_device_that_failed_takes_no_entry(rt: HostRuntime) {
    check_all(&rt, first_wrong(&rt, rt.alloc(), FAILED));
}
