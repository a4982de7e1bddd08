//! Volumes of real files. Each test makes a folder of its own below the working folder, and removes it.
use crate::calls::{Call, DONE, FAILS, Round, TOO_LARGE, are_answered, fill, prints};
use crate::ended::{check, check_all};
use fw_disk::*;
use fw_journal::{Log, LogFault, replay};
use std::alloc::{AllocError, Global};
use std::fs::OpenOptions;
use std::os::unix::fs::symlink;
use std::{fs, io};

/// Makes an empty folder, in place of what an earlier run may have left.
fn make_folder(rt: &HostRuntime, folder: &str) -> Result<(), FolderFault> {
    match fs::remove_dir_all(rt, folder) {
        Err(error) if error.kind() != io::ErrorKind::NotFound => return Err(error.into()),
        _ => {}
    }
    Ok(fs::create_dir(rt, folder)?)
}

fn remove_folder(rt: &HostRuntime, folder: &str) -> Result<(), FolderFault> {
    Ok(fs::remove_dir_all(rt, folder)?)
}

/// Why a folder isn't opened; none where it is.
fn refusal(rt: &HostRuntime, folder: &str) -> Result<Option<FolderFault>, FolderFault> {
    match FileVolume::open(rt, folder) {
        Ok(_) => Ok(None),
        Err(FolderFault::NoMemory) => Err(FolderFault::NoMemory),
        Err(fault) => Ok(Some(fault)),
    }
}

/// Whether calls were answered as they should be; a device that failed is a fault of the folder.
fn answered(played: Result<bool, VolumeFault>) -> Result<bool, FolderFault> {
    match played {
        Ok(right) => Ok(right),
        Err(_) => Err(FolderFault::Io(io::ErrorKind::Other.into())),
    }
}

/// Whether the volume of a folder answers as it should. It is closed afterwards.
fn plays(rt: &HostRuntime, folder: &str, round: Round) -> Result<bool, FolderFault> {
    let mut volume = FileVolume::open(rt, folder)?;
    answered(are_answered(&mut volume, round))
}

const WRITTEN: Round = (
    &[
        Call::Limit(1 << 40),
        Call::WriteSynced(Side::Left, &[1, 2, 3]),
        Call::Write(Side::Left, 1, &[9]),
        Call::Read(Side::Left, &[1, 9, 3]),
        Call::Write(Side::Left, 3, &[4, 5]),
        Call::Len(Side::Left, 5),
    ],
    &[DONE; 6],
);

const KEPT: Round = (
    &[
        Call::Read(Side::Left, &[1, 9, 3, 4, 5]),
        Call::Read(Side::Right, &[]),
    ],
    &[DONE; 2],
);

/// Whether a folder's files are made, and keep their bytes.
fn are_kept(rt: &HostRuntime) -> Result<bool, FolderFault> {
    let folder = "fw_test_disk_kept";
    make_folder(rt, folder)?;
    let are_kept = plays(rt, folder, WRITTEN)? && plays(rt, folder, KEPT)?;
    remove_folder(rt, folder)?;
    Ok(are_kept)
}

#[test]
fn files_are_made_and_keep_their_bytes(rt: HostRuntime) {
    check(&rt, are_kept(&rt));
}

/// Writes a log of one payload.
fn log_one(alloc: Global, volume: &mut FileVolume) -> Result<bool, LogFault> {
    if fill(volume, Side::Right, &[0]).is_err() {
        return Err(LogFault::Device);
    }
    let mut log = Log::open(volume, Side::Right, 0)?;
    log.append(alloc, volume, &[5, 6, 7])?;
    Ok(true)
}

/// Whether the log has that payload and no other.
fn has_one(alloc: Global, volume: &mut FileVolume) -> Result<bool, LogFault> {
    let payloads = replay(alloc, volume, Side::Right, 0)?;
    Ok(payloads.len() == 1 && payloads[0].as_slice() == [5, 6, 7].as_slice())
}

/// What a log's fault is to a test: out of memory, or a device that failed.
fn logged(answer: Result<bool, LogFault>) -> Result<bool, FolderFault> {
    match answer {
        Ok(right) => Ok(right),
        Err(LogFault::NoMemory) => Err(FolderFault::NoMemory),
        Err(_) => Err(FolderFault::Io(io::ErrorKind::Other.into())),
    }
}

fn log_one_in(rt: &HostRuntime, folder: &str) -> Result<bool, FolderFault> {
    let mut volume = FileVolume::open(rt, folder)?;
    logged(log_one(rt.alloc(), &mut volume))
}

fn has_one_in(rt: &HostRuntime, folder: &str) -> Result<bool, FolderFault> {
    let mut volume = FileVolume::open(rt, folder)?;
    logged(has_one(rt.alloc(), &mut volume))
}

/// Whether a log is there after its folder is opened again.
fn is_logged(rt: &HostRuntime) -> Result<bool, FolderFault> {
    let folder = "fw_test_disk_log";
    make_folder(rt, folder)?;
    let is_logged = log_one_in(rt, folder)? && has_one_in(rt, folder)?;
    remove_folder(rt, folder)?;
    Ok(is_logged)
}

#[test]
fn a_log_is_there_after_the_folder_is_opened_again(rt: HostRuntime) {
    check(&rt, is_logged(&rt));
}

/// Whether a folder is in use while its volume is open.
fn is_in_use(rt: &HostRuntime, folder: &str) -> Result<bool, FolderFault> {
    let _volume = FileVolume::open(rt, folder)?;
    match refusal(rt, folder) {
        Ok(fault) => Ok(matches!(fault, Some(FolderFault::InUse))),
        Err(fault) => Err(fault),
    }
}

/// Whether a folder is in use while its volume is open, and no longer.
fn is_in_use_once(rt: &HostRuntime) -> Result<bool, FolderFault> {
    let folder = "fw_test_disk_in_use";
    make_folder(rt, folder)?;
    let is_in_use = is_in_use(rt, folder)? && refusal(rt, folder)?.is_none();
    remove_folder(rt, folder)?;
    Ok(is_in_use)
}

#[test]
fn an_open_folder_is_in_use(rt: HostRuntime) {
    check(&rt, is_in_use_once(&rt));
}

const THREE_BYTES: Round = (
    &[
        Call::WriteSynced(Side::Left, &[1, 2, 3]),
        Call::Read(Side::Left, &[1, 2, 3]),
    ],
    &[DONE; 2],
);

const SHORT: Round = (&[Call::Read(Side::Left, &[1, 2, 3])], &[FAILS]);

/// Whether a read of a file that lost a byte fails, and spoils no write.
fn reads_on(volume: &mut FileVolume) -> Result<bool, VolumeFault> {
    let short = are_answered(volume, SHORT)?;
    let sound = volume.failure(Side::Left).is_none();
    Ok(are_answered(volume, THREE_BYTES)? && short && sound)
}

/// Whether that is so of a file that is written, and then loses its last byte.
fn reads_short(rt: &HostRuntime, volume: &mut FileVolume, path: &str) -> Result<bool, FolderFault> {
    let written = answered(are_answered(volume, THREE_BYTES))?;
    fs::write(rt, path, [1, 2].as_slice())?;
    Ok(answered(reads_on(volume))? && written)
}

fn reads_short_in(rt: &HostRuntime, folder: &str, path: &str) -> Result<bool, FolderFault> {
    let mut volume = FileVolume::open(rt, folder)?;
    reads_short(rt, &mut volume, path)
}

fn is_short_read(rt: &HostRuntime) -> Result<bool, FolderFault> {
    let folder = "fw_test_disk_short";
    make_folder(rt, folder)?;
    let is_right = reads_short_in(rt, folder, "fw_test_disk_short/left")?;
    remove_folder(rt, folder)?;
    Ok(is_right)
}

#[test]
fn a_read_that_comes_short_fails(rt: HostRuntime) {
    check(&rt, is_short_read(&rt));
}

const READ: Round = (
    &[
        Call::Limit(1 << 40),
        Call::Read(Side::Left, &[1, 9, 3, 4, 5]),
        Call::Read(Side::Right, &[]),
        Call::Sync(Side::Left),
        Call::Sync(Side::Right),
        Call::Write(Side::Left, 0, &[7]),
        Call::Write(Side::Right, 0, &[]),
        Call::Sync(Side::Left),
        Call::Sync(Side::Right),
        Call::Read(Side::Left, &[1, 9, 3, 4, 5]),
    ],
    &[
        DONE, DONE, DONE, DONE, DONE, FAILS, FAILS, FAILS, FAILS, DONE,
    ],
);

const NO_BYTES: Round = (
    &[
        Call::Read(Side::Left, &[]),
        Call::Read(Side::Right, &[]),
        Call::Sync(Side::Left),
        Call::Len(Side::Right, 0),
    ],
    &[DONE; 4],
);

/// Whether the volume of a folder that is opened to be read answers as it should. It is closed afterwards.
fn reads(rt: &HostRuntime, folder: &str, round: Round) -> Result<bool, FolderFault> {
    let mut volume = FileVolume::open_to_read(rt, folder)?;
    answered(are_answered(&mut volume, round))
}

/// Whether a folder with one file is read, and has that file alone and its bytes afterwards.
fn is_only_read(rt: &HostRuntime) -> Result<bool, FolderFault> {
    let folder = "fw_test_disk_read";
    make_folder(rt, folder)?;
    let is_written = plays(rt, folder, WRITTEN)?;
    fs::remove_file(rt, "fw_test_disk_read/right")?;
    let is_read = reads(rt, folder, READ)?;
    let is_made = fs::exists(rt, "fw_test_disk_read/right")?;
    let is_kept = plays(rt, folder, KEPT)?;
    remove_folder(rt, folder)?;
    Ok(is_written && is_read && !is_made && is_kept)
}

#[test]
fn a_folder_that_is_read_takes_no_write(rt: HostRuntime) {
    check(&rt, is_only_read(&rt));
}

/// Whether an empty folder is read, and is empty afterwards: it is removed as such a one.
fn stays_empty(rt: &HostRuntime) -> Result<bool, FolderFault> {
    let folder = "fw_test_disk_empty";
    make_folder(rt, folder)?;
    let is_read = reads(rt, folder, NO_BYTES)?;
    fs::remove_dir(rt, folder)?;
    Ok(is_read)
}

#[test]
fn a_folder_that_is_read_stays_empty(rt: HostRuntime) {
    check(&rt, stays_empty(&rt));
}

/// Why a folder isn't opened to be read; none where it is.
fn reading_refusal(rt: &HostRuntime, folder: &str) -> Result<Option<FolderFault>, FolderFault> {
    match FileVolume::open_to_read(rt, folder) {
        Ok(_) => Ok(None),
        Err(FolderFault::NoMemory) => Err(FolderFault::NoMemory),
        Err(fault) => Ok(Some(fault)),
    }
}

/// Whether a folder that is read may be read by another, and not written.
fn reads_beside(rt: &HostRuntime, folder: &str) -> Result<bool, FolderFault> {
    let _volume = FileVolume::open_to_read(rt, folder)?;
    match (refusal(rt, folder), reading_refusal(rt, folder)) {
        (Ok(written), Ok(read)) => {
            Ok(matches!(written, Some(FolderFault::InUse)) && read.is_none())
        }
        (Err(fault), _) | (_, Err(fault)) => Err(fault),
    }
}

/// Whether a folder that may be written by one isn't read by another.
fn is_written_alone(rt: &HostRuntime, folder: &str) -> Result<bool, FolderFault> {
    let _volume = FileVolume::open(rt, folder)?;
    match reading_refusal(rt, folder) {
        Ok(fault) => Ok(matches!(fault, Some(FolderFault::InUse))),
        Err(fault) => Err(fault),
    }
}

/// Whether readers share a folder, which a writer doesn't.
fn is_shared(rt: &HostRuntime) -> Result<bool, FolderFault> {
    let folder = "fw_test_disk_shared";
    make_folder(rt, folder)?;
    let is_shared = reads_beside(rt, folder)?
        && is_written_alone(rt, folder)?
        && refusal(rt, folder)?.is_none()
        && reading_refusal(rt, folder)?.is_none();
    remove_folder(rt, folder)?;
    Ok(is_shared)
}

#[test]
fn readers_share_a_folder(rt: HostRuntime) {
    check(&rt, is_shared(&rt));
}

/// Whether a missing folder, a folder for a file, a device for a file and a file past the limit aren't read.
fn are_unread(rt: &HostRuntime) -> Result<bool, FolderFault> {
    let folder = "fw_test_disk_unread";
    let path = "fw_test_disk_unread/left";
    make_folder(rt, folder)?;
    let none = reading_refusal(rt, "fw_test_disk_unread/none")?;
    fs::create_dir(rt, path)?;
    let of_folder = reading_refusal(rt, folder)?;
    fs::remove_dir(rt, path)?;
    symlink(rt, "/dev/null", path)?;
    let of_device = reading_refusal(rt, folder)?;
    fs::remove_file(rt, path)?;
    set_len(rt, path, FileVolume::LIMIT + 1)?;
    let of_length = reading_refusal(rt, folder)?;
    remove_folder(rt, folder)?;
    Ok(
        matches!(none, Some(FolderFault::Io(_)))
            && matches!(of_folder, Some(FolderFault::Io(_)))
            && matches!(of_device, Some(FolderFault::Io(_)))
            && matches!(of_length, Some(FolderFault::TooLong)),
    )
}

#[test]
fn what_is_no_folder_and_no_file_is_not_read(rt: HostRuntime) {
    check(&rt, are_unread(&rt));
}

/// Makes a file of this length, which takes no room on the disk.
fn set_len(rt: &HostRuntime, path: &str, len: u64) -> io::Result<()> {
    let file = OpenOptions::new().write(true).create(true).open(rt, path)?;
    file.set_len(len)
}

/// Whether a folder is opened where its file has this length.
fn opens_at_length(
    rt: &HostRuntime,
    folder: &str,
    path: &str,
    len: u64,
) -> Result<bool, FolderFault> {
    set_len(rt, path, len)?;
    match refusal(rt, folder)? {
        None => Ok(true),
        Some(FolderFault::TooLong) => Ok(false),
        Some(fault) => Err(fault),
    }
}

const FULL: Round = (
    &[
        Call::Len(Side::Right, FileVolume::LIMIT),
        Call::Write(Side::Right, FileVolume::LIMIT, &[1]),
        Call::Write(Side::Right, FileVolume::LIMIT - 1, &[1]),
    ],
    &[DONE, TOO_LARGE, DONE],
);

/// Whether a file at the limit is opened, and one past it is not.
fn is_limited(rt: &HostRuntime) -> Result<bool, FolderFault> {
    let folder = "fw_test_disk_long";
    let path = "fw_test_disk_long/right";
    make_folder(rt, folder)?;
    let is_limited = !opens_at_length(rt, folder, path, FileVolume::LIMIT + 1)?
        && opens_at_length(rt, folder, path, FileVolume::LIMIT)?
        && plays(rt, folder, FULL)?;
    remove_folder(rt, folder)?;
    Ok(is_limited)
}

#[test]
fn a_file_past_the_limit_is_refused(rt: HostRuntime) {
    check(&rt, is_limited(&rt));
}

/// Whether a folder is refused by a call of the system.
fn is_io(rt: &HostRuntime, folder: &str) -> Result<bool, FolderFault> {
    let refused = refusal(rt, folder)?;
    Ok(matches!(refused, Some(FolderFault::Io(_))))
}

fn is_folder_for_file_refused(
    rt: &HostRuntime,
    folder: &str,
    path: &str,
) -> Result<bool, FolderFault> {
    fs::create_dir(rt, path)?;
    let is_refused = is_io(rt, folder)?;
    fs::remove_dir(rt, path)?;
    Ok(is_refused)
}

fn is_device_for_file_refused(
    rt: &HostRuntime,
    folder: &str,
    path: &str,
) -> Result<bool, FolderFault> {
    symlink(rt, "/dev/null", path)?;
    is_io(rt, folder)
}

/// Whether a missing folder, a folder for a file and a device for a file are refused.
fn are_others_refused(rt: &HostRuntime) -> Result<bool, FolderFault> {
    let folder = "fw_test_disk_other";
    let path = "fw_test_disk_other/left";
    make_folder(rt, folder)?;
    let are_refused = is_io(rt, "fw_test_disk_other/none")?
        && is_folder_for_file_refused(rt, folder, path)?
        && is_device_for_file_refused(rt, folder, path)?;
    remove_folder(rt, folder)?;
    Ok(are_refused)
}

#[test]
fn what_is_no_folder_and_no_file_is_refused(rt: HostRuntime) {
    check(&rt, are_others_refused(&rt));
}

/// The faults of a folder that are no system's, and what they print.
const SENTENCES: &[(FolderFault, &str)] = &[
    (FolderFault::InUse, "the folder is in use"),
    (FolderFault::TooLong, "a file is longer than 2^40 bytes"),
    (FolderFault::NoMemory, "out of memory"),
];

/// The first that prints something else.
fn wrong_sentence(alloc: Global) -> Result<Option<usize>, AllocError> {
    for (place, (fault, text)) in SENTENCES.iter().enumerate() {
        if !prints(alloc, *fault, text)? {
            return Ok(Some(place));
        }
    }
    Ok(None)
}

#[test]
fn folder_faults_read_as_sentences(rt: HostRuntime) {
    check_all(&rt, wrong_sentence(rt.alloc()));
}
