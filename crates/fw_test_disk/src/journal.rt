//! Rows of bytes, and what a stop leaves of an append from each of its device calls on.
ghost use Rattle.std.specs.Prelude.{IfOk, OnOk};
ghost use Rattle.fw_disk.specs.Volume.{Settled};
ghost use Rattle.fw_journal.specs.Log.{IsReady};
ghost use Rattle.fw_disk.specs.declared.volume.Side.TheVariants.{Left};

use crate::calls::fill;
use crate::ended::{check, check_all};
use fw_disk::{Choice, FaultVolume, MemVolume, Mode, Side, Stoppable, Volume};
use fw_journal::*;
use std::alloc::Global;

/// A side's header and its body, and behind them a closed gate at 44.
const EMPTY_LOG: [u8; 45] = [
    0x01, 0x46, 0x57, 0x48, 0x4f, 0x55, 0x53, 0x45, 0x32, 1, 0, 0, 0, 0, 0, 0, 0, 0x13, 0, 0, 0, 0,
    0, 0, 0, 3, 0, 0, 0, 0x55, 0x53, 0x44, 0, 0, 0, 0, 0, 0, 0, 0, 0, 0, 0, 0, 0,
];

const PAYLOAD: [u8; 27] = [
    1, 0, 0, 0, 1, 0, 0, 0, 0x61, 1, 0, 0, 0, 0, 0, 0, 0, 3, 1, 0, 0, 0, 0x74, 0, 0, 0, 0,
];

/// The payload behind an open gate, with its length before it and a closed gate behind it.
const FRAME: [u8; 33] = [
    1, 0x1b, 0, 0, 0, 1, 0, 0, 0, 1, 0, 0, 0, 0x61, 1, 0, 0, 0, 0, 0, 0, 0, 3, 1, 0, 0, 0, 0x74, 0,
    0, 0, 0, 0,
];

/// The payload and the closed gate behind it.
const PAYLOAD_AND_GATE: [u8; 28] = [
    1, 0, 0, 0, 1, 0, 0, 0, 0x61, 1, 0, 0, 0, 0, 0, 0, 0, 3, 1, 0, 0, 0, 0x74, 0, 0, 0, 0, 0,
];

/// Writes the bytes of Left, synced, and opens the log that starts at this gate.
fn opened<V: Volume>(volume: &mut V, bytes: &[u8], start: u64) -> Result<Log, LogFault>
    ensures { IfOk result (λ log. IsReady V.tells log (V.view volume.new)) }
{
    match fill(volume, Side::Left, bytes) {
        Ok(()) => Log::open(volume, Side::Left, start),
        Err(_) => Err(LogFault::Device),
    }
}

/// Whether payloads of five bytes, of four and of one are too large, fit, and are too large.
fn are_bounded(alloc: Global, volume: &mut MemVolume) -> Result<bool, LogFault> {
    let mut log = opened(volume, &[0], 0)?;
    let five = log.append(alloc, volume, &[5, 6, 7, 8, 9]);
    log.append(alloc, volume, &[5, 6, 7, 8])?;
    let one = log.append(alloc, volume, &[5]);
    let too_large = Err(LogFault::TooLarge);
    Ok(log.end() == 9 && five == too_large && one == too_large)
}

fn does_the_limit_bound(alloc: Global) -> Result<bool, LogFault> {
    let mut volume = MemVolume::new(alloc, 10, Choice::Old);
    are_bounded(alloc, &mut volume)
}

#[test]
fn the_limit_bounds_a_payload(rt: HostRuntime) {
    check(&rt, does_the_limit_bound(rt.alloc()));
}

/// What stands in the left file, the first gate, and where the frames break.
const BREAKS: &[(&[u8], u64, u64)] = &[
    (&[], 0, 0),
    (&[1], 0, 0),
    (&[0], 5, 5),
    (&[1, 0, 0, 0, 0, 0], 0, 0),
    (&[1, 1, 0, 0x80, 0, 0], 0, 0),
    (&[1, 1, 0, 0, 0, 9], 0, 6),
    (&[7, 1, 1, 0, 0, 0, 9, 1, 2, 0, 0, 0, 7], 1, 7),
];

/// Why a log isn't read; none where it is.
fn replay_fault(
    alloc: Global,
    volume: &mut impl Volume,
    start: u64,
) -> Result<Option<LogFault>, LogFault> {
    match replay(alloc, volume, Side::Left, start) {
        Ok(_) => Ok(None),
        Err(LogFault::NoMemory) => Err(LogFault::NoMemory),
        Err(fault) => Ok(Some(fault)),
    }
}

/// Whether the log of these bytes is neither opened nor read, for a fault at this place.
fn is_broken(
    alloc: Global,
    volume: &mut MemVolume,
    bytes: &[u8],
    start: u64,
    at: u64,
) -> Result<bool, LogFault> {
    let broken = Some(LogFault::Corrupt { at });
    let open = opened(volume, bytes, start).err();
    let read = replay_fault(alloc, volume, start)?;
    if open == Some(LogFault::Device) {
        return Err(LogFault::Device);
    }
    Ok(open == broken && read == broken)
}

fn breaks_at(alloc: Global, bytes: &[u8], start: u64, at: u64) -> Result<bool, LogFault> {
    let mut volume = MemVolume::new(alloc, 100, Choice::Old);
    is_broken(alloc, &mut volume, bytes, start, at)
}

/// The place of the first that doesn't break there.
fn first_unbroken(alloc: Global) -> Result<Option<usize>, LogFault> {
    for (place, (bytes, start, at)) in BREAKS.iter().enumerate() {
        if !breaks_at(alloc, bytes, *start, *at)? {
            return Ok(Some(place));
        }
    }
    Ok(None)
}

#[test]
fn each_break_has_its_place(rt: HostRuntime) {
    check_all(&rt, first_unbroken(rt.alloc()));
}

/// Whether an empty log ends at 44, and the left file at 77 after the payload was added.
fn is_added(alloc: Global, volume: &mut MemVolume) -> Result<bool, LogFault> {
    let mut log = opened(volume, &EMPTY_LOG, 44)?;
    let end = log.end();
    log.append(alloc, volume, &PAYLOAD)?;
    Ok(end == 44 && volume.len(Side::Left) == 77)
}

/// Whether the left file is the empty log with the frame in place of its closed gate.
fn has_frame(volume: &mut MemVolume) -> Result<bool, LogFault> {
    let mut file = [0; 77];
    if volume.len(Side::Left) != 77 {
        return Ok(false);
    }
    match volume.read(Side::Left, 0, &mut file) {
        Ok(()) => Ok(file.split_at(44) == (EMPTY_LOG.split_at(44).0, FRAME.as_slice())),
        Err(_) => Err(LogFault::Device),
    }
}

fn is_framed(alloc: Global) -> Result<bool, LogFault> {
    let mut volume = MemVolume::new(alloc, 77, Choice::Old);
    let is_added = is_added(alloc, &mut volume);
    both(is_added, has_frame(&mut volume))
}

fn both(first: Result<bool, LogFault>, second: Result<bool, LogFault>) -> Result<bool, LogFault> {
    Ok(first? && second?)
}

#[test]
fn a_frame_has_its_bytes(rt: HostRuntime) {
    check(&rt, is_framed(rt.alloc()));
}

/// Whether a payload and a next gate are these.
fn are_these(found: &Option<(Vec<u8>, u64)>, expected: Option<(&[u8], u64)>) -> bool {
    match (found, expected) {
        (Some((payload, next)), Some((bytes, gate))) => {
            payload.as_slice() == bytes && *next == gate
        }
        (None, None) => true,
        _ => false,
    }
}

/// Whether a gate has this payload behind it, and this next gate; none where it is closed.
fn is_read(
    alloc: Global,
    volume: &mut MemVolume,
    gate: u64,
    expected: Option<(&[u8], u64)>,
) -> Result<bool, LogFault> {
    let found = frame_at(alloc, volume, Side::Left, gate)?;
    Ok(are_these(&found, expected))
}

/// Writes over the left file from a place on, and syncs.
fn overwrite(volume: &mut MemVolume, at: u64, bytes: &[u8]) -> Result<(), LogFault>
    ensures { OnOk result (Settled Left (⟦<MemVolume as Volume>⟧.view volume.new)) }
{
    if at > volume.len(Side::Left) || volume.write_at(Side::Left, at, bytes).is_err() {
        return Err(LogFault::Device);
    }
    match volume.sync(Side::Left) {
        Ok(()) => Ok(()),
        Err(_) => Err(LogFault::Device),
    }
}

/// Whether a frame and the closed gate behind it are read.
fn is_whole_read(alloc: Global, volume: &mut MemVolume) -> Result<bool, LogFault> {
    overwrite(volume, 0, &EMPTY_LOG)?;
    overwrite(volume, 44, &FRAME)?;
    Ok(is_read(alloc, volume, 44, Some((&PAYLOAD, 76)))? && is_read(alloc, volume, 76, None)?)
}

/// Whether a frame whose length has a byte too many, and which so ends at the end of the file, is read before the gate
/// that is missing behind it is found.
fn is_long_read(alloc: Global, volume: &mut MemVolume) -> Result<bool, LogFault> {
    overwrite(volume, 45, &[28])?;
    let missing = Some(LogFault::Corrupt { at: 77 });
    let opened = Log::open(volume, Side::Left, 44).err();
    let is_read = is_read(alloc, volume, 44, Some((&PAYLOAD_AND_GATE, 77)))?;
    let next = frame_at(alloc, volume, Side::Left, 77).err();
    Ok(is_read && opened == missing && next == missing)
}

fn are_frames_read(alloc: Global) -> Result<bool, LogFault> {
    let mut volume = MemVolume::new(alloc, 100, Choice::Old);
    let whole = is_whole_read(alloc, &mut volume);
    both(whole, is_long_read(alloc, &mut volume))
}

#[test]
fn a_frame_is_read_before_the_next_gate(rt: HostRuntime) {
    check(&rt, are_frames_read(rt.alloc()));
}

/// Whether a log has these payloads.
fn has_payloads(
    alloc: Global,
    volume: &mut impl Volume,
    start: u64,
    expected: &[&[u8]],
) -> Result<bool, LogFault> {
    let payloads = replay(alloc, volume, Side::Left, start)?;
    Ok(are_equal(&payloads, expected))
}

fn are_equal(payloads: &[Vec<u8>], expected: &[&[u8]]) -> bool {
    for (payload, bytes) in payloads.iter().zip(expected) {
        if payload.as_slice() != *bytes {
            return false;
        }
    }
    payloads.len() == expected.len()
}

/// Whether a log without frames has no payload.
fn has_none(alloc: Global, volume: &mut MemVolume) -> Result<bool, LogFault> {
    opened(volume, &[9, 0], 1)?;
    has_payloads(alloc, volume, 1, &[])
}

/// Adds two payloads: where the log ends.
fn append_two(alloc: Global, volume: &mut MemVolume) -> Result<u64, LogFault> {
    let mut log = opened(volume, &[9, 0], 1)?;
    log.append(alloc, volume, &[5, 6, 7])?;
    log.append(alloc, volume, &[8])?;
    Ok(log.end())
}

/// Whether the log has none before and both after, and where it ends.
fn is_replayed(alloc: Global, volume: &mut MemVolume) -> Result<(bool, u64), LogFault> {
    let none = has_none(alloc, volume)?;
    let end = append_two(alloc, volume)?;
    let two = has_payloads(alloc, volume, 1, &[&[5, 6, 7], &[8]])?;
    Ok((none && two, end))
}

/// Whether the log of a stopped volume is the same.
fn is_same(volume: &mut MemVolume, end: u64) -> Result<bool, LogFault>
    requires { Settled Left (⟦<MemVolume as Volume>⟧.view volume.old) }
{
    let log = Log::open(volume, Side::Left, 1)?;
    Ok(log.end() == end && log.start() == 1 && log.side() == Side::Left)
}

fn stopped_is_same(
    volume: &mut MemVolume,
    before: Result<(bool, u64), LogFault>,
) -> Result<bool, LogFault>
    requires { Settled Left (⟦<MemVolume as Volume>⟧.view volume.old) }
{
    let (is_replayed, end) = before?;
    Ok(is_same(volume, end)? && is_replayed)
}

fn are_replayed(alloc: Global) -> Result<bool, LogFault> {
    let mut volume = MemVolume::new(alloc, 100, Choice::Old);
    let before = is_replayed(alloc, &mut volume);
    let mut volume = volume.stop();
    stopped_is_same(&mut volume, before)
}

// Without a fault or a crash, the old payloads and then the new one.
#[test]
fn what_is_appended_is_replayed(rt: HostRuntime) {
    check(&rt, are_replayed(rt.alloc()));
}

/// The calls until an empty log is open: a write, a sync, and the read of its gate.
const OPENING: u64 = 3;

/// Whether an append on a device that fails from then on returns `Device`, and each later one `Failed`.
fn is_failure_told(alloc: Global, volume: &mut FaultVolume<MemVolume>) -> Result<bool, LogFault> {
    let mut log = opened(volume, &EMPTY_LOG, 44)?;
    let sound = !log.has_failed();
    let first = log.append(alloc, volume, &PAYLOAD).err();
    let failed = log.has_failed();
    if first == Some(LogFault::NoMemory) {
        return if failed {
            Ok(false)
        } else {
            Err(LogFault::NoMemory)
        };
    }
    let second = log.append(alloc, volume, &PAYLOAD).err();
    let are_told = first == Some(LogFault::Device) && second == Some(LogFault::Failed);
    Ok(are_told && sound && failed)
}

fn is_told(alloc: Global) -> Result<bool, LogFault> {
    let memory = MemVolume::new(alloc, 100, Choice::Old);
    let mut volume = FaultVolume::new(memory, OPENING, Mode::After);
    is_failure_told(alloc, &mut volume)
}

/// Whether a log is neither opened nor read where the reads fail.
fn is_reading_told(alloc: Global, volume: &mut FaultVolume<MemVolume>) -> Result<bool, LogFault> {
    if fill(volume, Side::Left, &EMPTY_LOG).is_err() {
        return Err(LogFault::Device);
    }
    let device = Some(LogFault::Device);
    let opened = Log::open(volume, Side::Left, 44).err();
    Ok(replay_fault(alloc, volume, 44)? == device && opened == device)
}

fn is_read_told(alloc: Global) -> Result<bool, LogFault> {
    let memory = MemVolume::new(alloc, 100, Choice::Old);
    let mut volume = FaultVolume::new(memory, OPENING - 1, Mode::After);
    is_reading_told(alloc, &mut volume)
}

fn are_told(alloc: Global) -> Result<bool, LogFault> {
    Ok(is_told(alloc)? && is_read_told(alloc)?)
}

#[test]
fn a_failed_device_is_told(rt: HostRuntime) {
    check(&rt, are_told(rt.alloc()));
}

/// Whether an append is acknowledged.
fn is_acknowledged(alloc: Global, volume: &mut FaultVolume<MemVolume>) -> Result<bool, LogFault> {
    let mut log = opened(volume, &EMPTY_LOG, 44)?;
    match log.append(alloc, volume, &PAYLOAD) {
        Ok(()) => Ok(true),
        Err(LogFault::NoMemory) => Err(LogFault::NoMemory),
        Err(_) => Ok(false),
    }
}

/// Whether a stop leaves the payload, or nothing, and whether its append was acknowledged.
fn stopped_append(
    alloc: Global,
    choice: Choice,
    pass: u64,
    left: &[&[u8]],
) -> (Result<bool, LogFault>, Result<bool, LogFault>) {
    let memory = MemVolume::new(alloc, 77, choice);
    let mut volume = FaultVolume::new(memory, pass, Mode::After);
    let done = is_acknowledged(alloc, &mut volume);
    let mut volume = volume.stop();
    (has_payloads(alloc, &mut volume, 44, left), done)
}

/// An append makes four calls: the frame's write and sync, and the gate's write and sync. From none of them on each is the
/// first to fail, until none does. A row says how many payloads the stop leaves. The gate is torn to 0, and to 7: it
/// stays closed. Torn to 1 it is open, and what stands behind it was synced.
const STOPS: &[(Choice, [usize; 5])] = &[
    (Choice::Old, [0, 0, 0, 0, 1]),
    (Choice::New, [0, 0, 1, 1, 1]),
    (Choice::Torn(0), [0, 0, 0, 0, 1]),
    (Choice::Torn(1), [0, 0, 1, 1, 1]),
    (Choice::Torn(7), [0, 0, 0, 0, 1]),
];

const ONE: &[&[u8]] = &[&PAYLOAD];

/// Whether a stop leaves the payload or not, as it should. Out of memory, the device fails at another call: an error of
/// the test.
fn is_left(alloc: Global, choice: Choice, pass: u64, left: usize) -> Result<bool, LogFault> {
    let payloads = ONE.get(..left).unwrap_or(ONE);
    let (left, done) = stopped_append(alloc, choice, OPENING.saturating_add(pass), payloads);
    match (done?, left?) {
        (false, false) => Err(LogFault::Device),
        (done, left) => Ok(left && done == (pass == 4)),
    }
}

/// Whether each stop of a row leaves what it should.
fn is_row_left(alloc: Global, choice: Choice, left: &[usize]) -> Result<bool, LogFault> {
    for (pass, left) in left.iter().enumerate() {
        if !is_left(alloc, choice, pass as u64, *left)? {
            return Ok(false);
        }
    }
    Ok(true)
}

/// The place of the first row of which a stop leaves something else.
fn wrong_stop(alloc: Global) -> Result<Option<usize>, LogFault> {
    for (place, (choice, left)) in STOPS.iter().enumerate() {
        if !is_row_left(alloc, *choice, left)? {
            return Ok(Some(place));
        }
    }
    Ok(None)
}

#[test]
fn a_stop_leaves_a_payload_or_not(rt: HostRuntime) {
    check_all(&rt, wrong_stop(rt.alloc()));
}
