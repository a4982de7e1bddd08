//! Calls of a volume, and what they answer: the tests of volumes are tables of them.
ghost use Rattle.std.specs.Prelude.{OnOk, IsTrue};
ghost use Rattle.fw_disk.specs.Volume.{Settled};

use fw_disk::*;
use std::alloc::{AllocError, Global};
use std::fmt::Display;

/// A call of a volume, or a look at it.
#[derive(Clone, Copy, Drop)]
pub(crate) enum Call {
    /// Writes these bytes at a place of a file.
    Write(Side, u64, &'static [u8]),
    /// Writes these bytes at the start of a file, and syncs it.
    WriteSynced(Side, &'static [u8]),
    Sync(Side),
    /// The file has these bytes, at most 8, and ends there.
    Read(Side, &'static [u8]),
    /// The file has this length.
    Len(Side, u64),
    /// The volume has this limit.
    Limit(u64),
}

/// What a call answers.
pub(crate) type Answer = Result<(), VolumeFault>;

pub(crate) const DONE: Answer = Ok(());

pub(crate) const FAILS: Answer = Err(VolumeFault::Io);

pub(crate) const TOO_LARGE: Answer = Err(VolumeFault::TooLarge);

/// Calls, one after the other, and the answer of each.
pub(crate) type Round = (&'static [Call], &'static [Answer]);

/// Writes where the file is long enough for it.
fn write(volume: &mut impl Volume, side: Side, at: u64, bytes: &[u8]) -> Answer {
    if at > volume.len(side) {
        return Err(VolumeFault::TooLarge);
    }
    volume.write_at(side, at, bytes)
}

/// Writes and syncs where the volume has room for it.
pub(crate) fn fill<V: Volume>(volume: &mut V, side: Side, bytes: &[u8]) -> Answer
    ensures { OnOk result (IsTrue V.tells → Settled side (V.view volume.new)) }
{
    if bytes.len() as u64 > volume.limit() {
        return Err(VolumeFault::TooLarge);
    }
    write_synced(volume, side, 0, bytes)
}

/// Whether a file reads as these bytes, at most 8, and ends there.
fn reads_as(volume: &mut impl Volume, side: Side, bytes: &[u8]) -> Result<bool, VolumeFault> {
    let mut buffer = [0; 8];
    if bytes.len() > 8 || volume.len(side) != bytes.len() as u64 {
        return Ok(false);
    }
    let read = &mut buffer[..bytes.len()];
    volume.read(side, 0, read)?;
    Ok(&*read == bytes)
}

/// Whether what a call found is as it says.
fn called(volume: &mut impl Volume, call: Call) -> Result<bool, VolumeFault> {
    match call {
        Call::Write(side, at, bytes) => write(volume, side, at, bytes)?,
        Call::WriteSynced(side, bytes) => fill(volume, side, bytes)?,
        Call::Sync(side) => volume.sync(side)?,
        Call::Read(side, bytes) => return reads_as(volume, side, bytes),
        Call::Len(side, len) => return Ok(volume.len(side) == len),
        Call::Limit(limit) => return Ok(volume.limit() == limit),
    }
    Ok(true)
}

/// Where a write ends.
fn end_of(call: Call) -> (Side, u64) {
    match call {
        Call::Write(side, at, bytes) => (side, at.saturating_add(bytes.len() as u64)),
        Call::WriteSynced(side, bytes) => (side, bytes.len() as u64),
        _ => (Side::Left, 0),
    }
}

/// Whether a call answers so. A call that fails where it was to pass is an error of the test, and so is a write that was
/// to fail and did not reach the volume below: out of memory.
fn is_answered(
    volume: &mut impl Volume,
    call: Call,
    expected: Answer,
) -> Result<bool, VolumeFault> {
    let (side, end) = end_of(call);
    match called(volume, call) {
        Ok(right) => Ok(right && expected.is_ok()),
        Err(VolumeFault::TooLarge) => Ok(expected == TOO_LARGE),
        Err(VolumeFault::Io) if expected == FAILS && volume.len(side) >= end => Ok(true),
        Err(VolumeFault::Io) => Err(VolumeFault::Io),
    }
}

/// Whether each call answers as it should.
pub(crate) fn are_answered(volume: &mut impl Volume, round: Round) -> Result<bool, VolumeFault> {
    let (calls, answers) = round;
    for (call, answer) in calls.iter().zip(answers) {
        if !is_answered(volume, *call, *answer)? {
            return Ok(false);
        }
    }
    Ok(calls.len() == answers.len())
}

/// Whether a fault prints so.
pub(crate) fn prints(
    alloc: Global,
    fault: impl Display + Drop,
    text: &str,
) -> Result<bool, AllocError> {
    let printed = format!(in alloc; "{fault}")?;
    Ok(printed.as_str() == text)
}
