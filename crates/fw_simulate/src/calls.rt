//! Calls on a store, or on a device without one.
ghost use Rattle.std.specs.Prelude.{◌≤◌, length, IfOk};
ghost use Rattle.fw_segment.specs.Groups.{group, IsGroup};

use crate::print::{file_text, list_text, segments_text, verdict_text, verdicts_text};
use crate::script::{Fault, create, read_number, wrong};
use crate::setup::Device;
use fw_disk::{Side, Stoppable, Volume};
use fw_entry::Entry;
use fw_entry_bytes::Form;
use fw_recover::{Store, StoreFault, make_side, side_in_use};
use fw_segment::{DecodeFault, decode_entry, decode_group};
use std::alloc::{AllocError, Global};

/// The longest group that is added, in bytes.
const LONGEST_GROUP: usize = 8_388_608;

/// A side of an empty warehouse in dollars behind its gate, of the second form: a header with the place of the generation at 8, a body of 19
/// bytes, and a closed gate.
const EMPTY_SIDE: [u8; 44] = [
    0x46, 0x57, 0x48, 0x4f, 0x55, 0x53, 0x45, 0x32, 0, 0, 0, 0, 0, 0, 0, 0, 0x13, 0, 0, 0, 0, 0, 0,
    0, 3, 0, 0, 0, 0x55, 0x53, 0x44, 0, 0, 0, 0, 0, 0, 0, 0, 0, 0, 0, 0, 0,
];

/// A tax of no nanos over the first hour of 1970, all else null. The nanos stand first.
const ROW: [u8; 45] = [
    0, 0, 0, 0, 0, 0, 0, 0, 1, 0, 0, 0, 0, 0, 0, 0, 3, 0, 0, 0, 0, 0, 0, 0, 0, 0, 0x10, 0x0e, 0, 0,
    0, 0, 0, 0, 0, 0, 0, 0, 0, 0, 0, 0, 0, 0, 0,
];

/// What a script of calls works on: a store, or a device without one.
#[derive(Drop)]
pub(crate) struct Bench {
    device: Option<Device>,
    store: Option<Store<Device>>,
}

impl Bench {
    /// A device without a store.
    pub(crate) fn new(device: Device) -> Bench {
        Bench {
            device: Some(device),
            store: None,
        }
    }
}

/// Makes the call of a line's words: what it answers. A call that needs a store where none is, or a device without one where there is one, is
/// ignored.
pub(crate) fn call(alloc: Global, bench: &mut Bench, words: &[&str]) -> Result<String, Fault> {
    match words {
        ["close"] => close(alloc, bench),
        ["create" | "open" | "stop" | "files" | "sides" | "side", ..] => match bench.device.take() {
            Some(device) => call_device(alloc, bench, device, words),
            None => said(alloc, "ignored"),
        },
        words => match &mut bench.store {
            Some(store) => call_store(alloc, store, words),
            None => said(alloc, "ignored"),
        },
    }
}

// A text.
fn said(alloc: Global, text: &str) -> Result<String, Fault> {
    Ok(String::from_str(alloc, text)?)
}

// What a call that answers nothing but a fault is answered.
fn done<T: Drop>(
    alloc: Global,
    word: &str,
    answer: Result<T, StoreFault>,
) -> Result<String, Fault> {
    match answer {
        Ok(_) => said(alloc, word),
        Err(fault) => wrong(alloc, fault),
    }
}

// Closes the store.
fn close(alloc: Global, bench: &mut Bench) -> Result<String, Fault> {
    match bench.store.take() {
        Some(store) => {
            bench.device = Some(store.close());
            said(alloc, "closed")
        }
        None => said(alloc, "ignored"),
    }
}

// Makes a call on a device without a store.
fn call_device(
    alloc: Global,
    bench: &mut Bench,
    device: Device,
    words: &[&str],
) -> Result<String, Fault> {
    match words {
        ["create"] => begin(alloc, bench, create(alloc, device), "created"),
        ["open"] => begin(alloc, bench, Store::open(alloc, device), "opened"),
        ["stop"] => {
            bench.device = Some(device.stop());
            said(alloc, "stopped")
        }
        words => look(alloc, bench.device.insert(device), words),
    }
}

// Notes what creating or opening a warehouse answered.
fn begin(
    alloc: Global,
    bench: &mut Bench,
    answer: Result<Store<Device>, (Device, StoreFault)>,
    word: &str,
) -> Result<String, Fault> {
    match answer {
        Ok(store) => {
            bench.store = Some(store);
            said(alloc, word)
        }
        Err((device, fault)) => {
            bench.device = Some(device);
            wrong(alloc, fault)
        }
    }
}

// Makes a call on a device that stays one.
fn look(alloc: Global, device: &mut Device, words: &[&str]) -> Result<String, Fault> {
    match words {
        ["files"] => files(alloc, device),
        ["sides"] => sides(alloc, device),
        ["side", generation] => make_right(alloc, device, read_number(generation)?),
        _ => Err(Fault::Script),
    }
}

// The bytes of both files.
fn files(alloc: Global, device: &mut Device) -> Result<String, Fault> {
    let left = file_text(alloc, device, Side::Left)?;
    let right = file_text(alloc, device, Side::Right)?;
    Ok(format!(in alloc; "{left} {right}")?)
}

// The side in use, its generation, and how long its body is.
fn sides(alloc: Global, device: &mut Device) -> Result<String, Fault> {
    match side_in_use(device) {
        Ok((side, header)) => {
            let (generation, body) = (header.generation, header.body_len);
            Ok(format!(in alloc; "{side:?} {generation} {body}")?)
        }
        Err(fault) => wrong(alloc, fault),
    }
}

// Makes Right of an empty warehouse of this generation.
fn make_right(alloc: Global, device: &mut Device, generation: u64) -> Result<String, Fault> {
    let mut side = EMPTY_SIDE;
    side[8..16].copy_from_slice(&generation.to_le_bytes());
    if device.limit() < 45 {
        return Err(Fault::Script);
    }
    match make_side(device, Side::Right, &side) {
        Ok(()) => said(alloc, "made"),
        Err(_) => wrong(alloc, StoreFault::Device),
    }
}

// Makes a call on a store.
fn call_store(alloc: Global, store: &mut Store<Device>, words: &[&str]) -> Result<String, Fault> {
    match words {
        ["entry", number] => add_entry(alloc, store, number),
        ["group", numbers @ ..] => add_group(alloc, store, numbers),
        ["prepared", numbers @ ..] => add_prepared(alloc, store, numbers),
        ["each", numbers @ ..] => add_each(alloc, store, numbers),
        ["rows", number, rows, nanos] => add_rows(alloc, store, number, rows, nanos),
        ["checkpoint"] => done(alloc, "checkpointed", store.checkpoint(alloc)),
        ["list"] => Ok(list_text(alloc, "listed", store.state().state())?),
        ["segments"] => Ok(segments_text(alloc, store.state().state())?),
        ["lengths"] => lengths(alloc, store),
        _ => Err(Fault::Script),
    }
}

// How long the body and the log are.
fn lengths(alloc: Global, store: &Store<Device>) -> Result<String, Fault> {
    let (body, log) = (store.body_len(), store.log_len());
    Ok(format!(in alloc; "body {body} log {log}")?)
}

// The bytes of a group of entries of these numbers of the origin `a`, each of which sets a policy.
fn group_bytes(alloc: Global, numbers: &[&str]) -> Result<Vec<u8>, Fault> {
    let count = numbers.len() as u64;
    let mut bytes = Vec::new(alloc);
    add_bytes(&mut bytes, &count.to_le_bytes()[..4])?;
    for number in numbers {
        add_bytes(&mut bytes, &[1, 0, 0, 0, b'a'])?;
        add_bytes(&mut bytes, &read_number(number)?.to_le_bytes())?;
        add_bytes(&mut bytes, &[3, 1, 0, 0, 0, b't', 0, 0, 0, 0])?;
    }
    Ok(bytes)
}

// Adds bytes at the end.
fn add_bytes(bytes: &mut Vec<u8>, more: &[u8]) -> Result<(), AllocError> {
    bytes.extend_from_slice(more)
}

// The entries of these numbers, 1 to 64 of them.
fn entries_of(alloc: Global, numbers: &[&str]) -> Result<Vec<Entry>, Fault>
    ensures group { IfOk result (λ entries. IsGroup entries.items) }
    ensures size { IfOk result (λ entries. length (group entries.items) ≤ 8388608) }
{
    let bytes = group_bytes(alloc, numbers)?;
    if bytes.len() > LONGEST_GROUP {
        return Err(Fault::Script);
    }
    match decode_group(alloc, Form::One, &bytes) {
        Ok(entries) => Ok(entries),
        Err(_) => Err(Fault::NoMemory),
    }
}

// Commits the entry of a number.
fn add_entry(alloc: Global, store: &mut Store<Device>, number: &str) -> Result<String, Fault> {
    let entries = entries_of(alloc, &[number])?;
    match entries.first() {
        Some(entry) => commit(alloc, store, entry),
        None => Err(Fault::Script),
    }
}

// Commits an entry.
fn commit(alloc: Global, store: &mut Store<Device>, entry: &Entry) -> Result<String, Fault> {
    match store.commit(alloc, entry) {
        Ok(verdict) => Ok(verdict_text(alloc, &verdict)?),
        Err(fault) => wrong(alloc, fault),
    }
}

// The bytes of a post of the origin `z`: so many rows, each of so many nanos.
fn post_bytes(alloc: Global, number: u64, rows: u64, nanos: u64) -> Result<Vec<u8>, AllocError> {
    let mut row = ROW;
    row[..8].copy_from_slice(&nanos.to_le_bytes());
    let mut bytes = Vec::new(alloc);
    add_bytes(&mut bytes, &[1, 0, 0, 0, b'z'])?;
    add_bytes(&mut bytes, &number.to_le_bytes())?;
    add_bytes(&mut bytes, &[1])?;
    add_bytes(&mut bytes, &rows.to_le_bytes()[..4])?;
    for _ in 0..rows {
        add_bytes(&mut bytes, &row)?;
    }
    Ok(bytes)
}

// Commits a post of the origin `z`: so many rows, each of so many nanos.
fn add_rows(
    alloc: Global,
    store: &mut Store<Device>,
    number: &str,
    rows: &str,
    nanos: &str,
) -> Result<String, Fault> {
    let (number, rows, nanos) = (
        read_number(number)?,
        read_number(rows)?,
        read_number(nanos)?,
    );
    let bytes = post_bytes(alloc, number, rows, nanos)?;
    match decode_entry(alloc, Form::One, &bytes) {
        Ok(entry) => commit(alloc, store, &entry),
        Err(DecodeFault::NoMemory) => Err(Fault::NoMemory),
        Err(DecodeFault::Corrupt { .. }) => Err(Fault::Script),
    }
}

// Commits a group.
fn add_group(alloc: Global, store: &mut Store<Device>, numbers: &[&str]) -> Result<String, Fault> {
    let entries = entries_of(alloc, numbers)?;
    match store.commit_group(alloc, &entries) {
        Ok(verdicts) => Ok(verdicts_text(alloc, &verdicts)?),
        Err(fault) => wrong(alloc, fault),
    }
}

// Commits each of some entries in turn, until one fails.
fn add_each(alloc: Global, store: &mut Store<Device>, numbers: &[&str]) -> Result<String, Fault> {
    let entries = entries_of(alloc, numbers)?;
    match store.run(alloc, &entries) {
        Ok(verdicts) => Ok(verdicts_text(alloc, &verdicts)?),
        Err((_, fault)) => wrong(alloc, fault),
    }
}

// Prepares a group and writes it: the verdicts that were promised and the list with them; what the store was meanwhile; and the verdicts.
fn add_prepared(
    alloc: Global,
    store: &mut Store<Device>,
    numbers: &[&str],
) -> Result<String, Fault> {
    let entries = entries_of(alloc, numbers)?;
    match store.prepare(alloc, &entries) {
        Ok(prepared) => {
            let promised = verdicts_text(alloc, prepared.verdicts())?;
            let next = list_text(alloc, "next", prepared.next().state())?;
            let (count, log) = (store.state().state().entries(), store.log_len());
            let verdicts = match store.write(alloc, prepared) {
                Ok(verdicts) => verdicts_text(alloc, &verdicts)?,
                Err(fault) => wrong(alloc, fault)?,
            };
            Ok(format!(in alloc; "{promised}; {next}; {count} log {log}; {verdicts}")?)
        }
        Err(fault) => wrong(alloc, fault),
    }
}
