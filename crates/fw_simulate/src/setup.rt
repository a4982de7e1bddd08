//! The device that a script works on.
use crate::script::{Fault, read_number, read_numbers, read_place};
use fw_disk::{Choice, FaultVolume, MemVolume, Mode, Side, Volume, write_synced};
use std::alloc::Global;

/// The most bytes of a file.
const LIMIT: u64 = 1 << 30;

/// A device in memory, some calls of which fail.
pub(crate) type Device = FaultVolume<MemVolume>;

/// What the files of a device are at first.
#[derive(Drop)]
pub(crate) struct Files {
    limit: u64,
    left: Vec<u8>,
    right: Vec<u8>,
}

impl Files {
    /// Empty files of at most 2^30 bytes.
    pub(crate) fn new(alloc: Global) -> Files {
        Files {
            limit: LIMIT,
            left: Vec::new(alloc),
            right: Vec::new(alloc),
        }
    }

    /// Whether no byte is there.
    pub(crate) fn are_empty(&self) -> bool {
        self.left.is_empty() && self.right.is_empty()
    }

    // A volume in memory with these files. What a stop leaves of it is said by a word.
    fn volume(&self, alloc: Global, left: &str) -> Result<MemVolume, Fault> {
        let mut volume = MemVolume::new(alloc, self.limit.min(LIMIT), read_choice(left)?);
        fill(&mut volume, Side::Left, &self.left)?;
        fill(&mut volume, Side::Right, &self.right)?;
        Ok(volume)
    }
}

// Writes a file, where there is room for it. No call is made where it is empty.
fn fill(volume: &mut MemVolume, side: Side, bytes: &[u8]) -> Result<(), Fault> {
    if bytes.len() as u64 > volume.limit() {
        return Err(Fault::Script);
    }
    if bytes.is_empty() {
        return Ok(());
    }
    match write_synced(volume, side, 0, bytes) {
        Ok(()) => Ok(()),
        Err(_) => Err(Fault::NoMemory),
    }
}

/// The files of a line's words: a limit, and the bytes of Left and of Right.
pub(crate) fn read_files(alloc: Global, words: &[&str]) -> Result<Files, Fault> {
    match words {
        [limit, left, right] => Ok(Files {
            limit: read_number(limit)?,
            left: read_bytes(alloc, left)?,
            right: read_bytes(alloc, right)?,
        }),
        _ => Err(Fault::Script),
    }
}

// Bytes as pairs of hexadecimal digits. A `-` is no byte.
fn read_bytes(alloc: Global, word: &str) -> Result<Vec<u8>, Fault> {
    if word == "-" {
        return Ok(Vec::new(alloc));
    }
    match hex::decode(alloc, word) {
        Ok(bytes) => Ok(bytes),
        Err(hex::FromHexError::OutOfMemory) => Err(Fault::NoMemory),
        Err(_) => Err(Fault::Script),
    }
}

/// A device with these files, by words that say what a stop leaves and which calls fail.
pub(crate) fn read_device(alloc: Global, files: &Files, words: &[&str]) -> Result<Device, Fault> {
    match words {
        [left, "once", pass] => failing(alloc, files, left, read_number(pass)?, Mode::Once),
        [left, "ever", pass] => failing(alloc, files, left, read_number(pass)?, Mode::After),
        [left, passes @ ..] => {
            let passes = read_numbers(alloc, passes)?;
            Ok(FaultVolume::series(files.volume(alloc, left)?, passes))
        }
        [] => Err(Fault::Script),
    }
}

// A device that passes so many calls, and then fails by a mode.
fn failing(
    alloc: Global,
    files: &Files,
    left: &str,
    pass: u64,
    mode: Mode,
) -> Result<Device, Fault> {
    Ok(FaultVolume::new(files.volume(alloc, left)?, pass, mode))
}

// What a crash leaves of a write that wasn't synced.
fn read_choice(word: &str) -> Result<Choice, Fault> {
    match word {
        "old" => Ok(Choice::Old),
        "new" => Ok(Choice::New),
        _ => match word.parse::<u8>() {
            Ok(byte) => Ok(Choice::Torn(byte)),
            Err(_) => Err(Fault::Script),
        },
    }
}
