//! What loads answer.
use crate::ended::check;
use crate::stores::{CREATING, Faulty, NEVER, created};
use fw_disk::Mode;
use fw_load::{Job, LoadFault, load};
use fw_recover::{Store, StoreFault};
use fw_threads::SplitFault;
use std::alloc::{AllocError, Global};
use std::sync::Wait;
use std::thread::Threads;

/// How many bytes a volume needs for an empty warehouse and no entry more.
const NO_ROOM: u64 = 60;

/// How many bytes a volume has for all that these tests load.
const ROOM: u64 = 1 << 20;

/// The most bytes that a load of these tests writes.
const MOST_WRITTEN: usize = 4096;

const RIGHT: &[u8] =
    b"BilledCost,EffectiveCost,BillingCurrency,ChargeCategory,ChargePeriodStart,ChargePeriodEnd
0.1,0.1,USD,Tax,2024-01-01T00:00Z,2024-01-01T01:00Z
";

/// The second record lacks a field.
const SHORT: &[u8] =
    b"BilledCost,EffectiveCost,BillingCurrency,ChargeCategory,ChargePeriodStart,ChargePeriodEnd
0.1,0.1,USD,Tax,2024-01-01T00:00Z,2024-01-01T01:00Z
0.1,0.1,USD,Tax,2024-01-01T00:00Z
";

/// Files that are loaded for an origin, what is written, and the fault. Where it begins with a line feed, more may be written before it.
#[derive(Clone, Copy)]
struct Load {
    origin: &'static str,
    files: &'static [&'static [u8]],
    written: &'static str,
    fault: Option<LoadFault>,
}

/// Copies texts.
fn add_copies(alloc: Global, texts: &mut Vec<Vec<u8>>, files: &[&[u8]]) -> Result<(), AllocError> {
    for file in files {
        texts.push(file.to_vec(alloc)?)?;
    }
    Ok(())
}

/// Copies of texts.
fn copies(alloc: Global, files: &[&[u8]]) -> Result<Vec<Vec<u8>>, AllocError> {
    let mut texts = Vec::new(alloc);
    add_copies(alloc, &mut texts, files)?;
    Ok(texts)
}

/// Whether a load wrote and answered what it should. Where memory ran out, another fault may be answered, and nothing is written beside it.
fn is_right(written: &[u8], fault: Option<LoadFault>, load: &Load) -> Result<bool, StoreFault> {
    let text = str::from_utf8(written).unwrap_or("no text");
    let is_written = if load.written.starts_with('\n') {
        text.ends_with(load.written)
    } else {
        text == load.written
    };
    if is_written && fault == load.fault {
        return Ok(true);
    }
    if text.contains("no memory") || text.is_empty() {
        return Err(StoreFault::NoMemory);
    }
    match fault {
        Some(LoadFault::NoMemory) => Err(StoreFault::NoMemory),
        Some(LoadFault::Store(StoreFault::Device)) => Err(StoreFault::Device),
        _ => Ok(false),
    }
}

/// Loads texts with four analysts: the store, and whether all went as it should.
fn loaded<R: Threads + Wait + Sync>(
    rt: &R,
    alloc: Global,
    store: Store<Faulty>,
    texts: Vec<Vec<u8>>,
    wanted: &Load,
) -> Result<(Store<Faulty>, bool), StoreFault> {
    // What is written has room, so that a refused growth is none of the writer.
    let Ok(mut written) = Vec::with_capacity(alloc, MOST_WRITTEN) else {
        return Err(StoreFault::NoMemory);
    };
    let job = Job {
        texts,
        origin: wanted.origin,
        analysts: 4,
    };
    let (store, fault) = load(rt, alloc, store, job, &mut written, &mut ());
    match is_right(&written, fault, wanted) {
        Ok(is_right) => Ok((store, is_right)),
        Err(fault) => Err(fault),
    }
}

/// The same of files that are copied first.
fn loads<R: Threads + Wait + Sync>(
    rt: &R,
    alloc: Global,
    store: Store<Faulty>,
    wanted: &Load,
) -> Result<(Store<Faulty>, bool), StoreFault> {
    match copies(alloc, wanted.files) {
        Ok(texts) => loaded(rt, alloc, store, texts, wanted),
        Err(_) => Err(StoreFault::NoMemory),
    }
}

/// Whether a load into a new warehouse goes as it should, whose files may be so long, and whose device passes so many calls.
fn is_loaded<R: Threads + Wait + Sync>(
    rt: &R,
    alloc: Global,
    limit: u64,
    pass: u64,
    wanted: &Load,
) -> Result<bool, StoreFault> {
    let store = created(alloc, limit, pass, Mode::After)?;
    let (_, is_right) = loads(rt, alloc, Box::into_inner(store), wanted)?;
    Ok(is_right)
}

/// Whether two loads into a new warehouse go as they should.
fn are_loaded<R: Threads + Wait + Sync>(
    rt: &R,
    alloc: Global,
    first: &Load,
    second: &Load,
) -> Result<bool, StoreFault> {
    let store = created(alloc, ROOM, NEVER, Mode::After)?;
    let (store, is_first) = loads(rt, alloc, Box::into_inner(store), first)?;
    let (_, is_second) = loads(rt, alloc, store, second)?;
    Ok(is_first && is_second)
}

const REFUSED: Load = Load {
    origin: "f",
    files: &[RIGHT, SHORT],
    written: "1 accepted\n2 refused V1 Fields 2\nstale 0\nstate 1 1 0 0\n",
    fault: None,
};

/// A file with one right row is accepted beside one whose second record lacks a field.
#[test]
fn a_file_that_is_refused(rt: HostRuntime) {
    check(&rt, is_loaded(&rt, rt.alloc(), ROOM, NEVER, &REFUSED));
}

const TWICE: Load = Load {
    origin: "f",
    files: &[RIGHT, RIGHT],
    written: "1 accepted\n2 accepted\nstale 0\nstate 2 2 0 0\n",
    fault: None,
};

const AGAIN: Load = Load {
    origin: "f",
    files: &[RIGHT, SHORT, RIGHT],
    written: "1 already 1\n2 refused V1 Fields 2\n3 accepted\nstale 0\nstate 3 3 0 0\n",
    fault: None,
};

/// The same file under another number is another entry; the same files again are none.
#[test]
fn files_that_are_loaded_again(rt: HostRuntime) {
    check(&rt, are_loaded(&rt, rt.alloc(), &TWICE, &AGAIN));
}

const NO_ORIGIN: Load = Load {
    origin: "a b",
    files: &[RIGHT],
    written: "1 refused E1 Origin\nstale 0\nstate 0 0 0 0\n",
    fault: None,
};

/// An origin has no blank.
#[test]
fn an_origin_that_is_none(rt: HostRuntime) {
    check(&rt, is_loaded(&rt, rt.alloc(), ROOM, NEVER, &NO_ORIGIN));
}

const UNKNOWN: Load = Load {
    origin: "f",
    files: &[RIGHT],
    written: "1 unknown\nstale 0\nstate 0 0 0 0\n",
    fault: Some(LoadFault::Store(StoreFault::Device)),
};

/// The device fails in the first commit, and the importer is answered `unknown`.
#[test]
fn a_device_that_fails(rt: HostRuntime) {
    check(&rt, is_loaded(&rt, rt.alloc(), ROOM, CREATING, &UNKNOWN));
}

const FULL: Load = Load {
    origin: "f",
    files: &[RIGHT, RIGHT],
    written: "1 closed\n2 closed\nstale 0\nstate 0 0 0 0\n",
    fault: Some(LoadFault::Store(StoreFault::TooLarge)),
};

/// A volume without room takes no entry, and each importer is answered `closed`.
#[test]
fn a_volume_that_is_full(rt: HostRuntime) {
    check(&rt, is_loaded(&rt, rt.alloc(), NO_ROOM, NEVER, &FULL));
}

const TOO_MANY: Load = Load {
    origin: "f",
    files: &[RIGHT; 65],
    written: "",
    fault: Some(LoadFault::Split(SplitFault::Counts)),
};

const ALL_REFUSED: Load = Load {
    origin: "f",
    files: &[SHORT; 64],
    written: "\nstale 0\nstate 0 0 0 0\n",
    fault: None,
};

/// There are at most 64 files.
#[test]
fn more_files_than_importers(rt: HostRuntime) {
    check(&rt, are_loaded(&rt, rt.alloc(), &TOO_MANY, &ALL_REFUSED));
}
