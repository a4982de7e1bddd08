//! A volume of two real files in a folder. What the files hold is not stated, only what is counted of them.
ghost use Rattle.std.specs.Prelude.{◌≡◌, ℕ, ◌+◌, ◌-◌, ◌^◌, ◌<◌, ◌≤◌, ◌↔◌, length, max, true, false, IsTrue, IsFalse, IsSome, None, OnOk, OnErr, IfOk, IsErrOf};
ghost use Rattle.fw_disk.specs.Volume.{Returns, Holds, Writes, Quiet, Settled, StaysPending, SettlesOnly, Allows, TornSide, SameSizes, Grows, HasCause};
ghost use Rattle.fw_disk.specs.declared.volume.Side.{Side};
ghost use Rattle.fw_disk.specs.declared.volume.VolumeFault.TheVariants.{Io, TooLarge};

use crate::volume::count_failure;
use crate::{Side, Volume, VolumeFault};
use std::alloc::AllocError;
use std::fs::{File, OpenOptions, TryLockError};
use std::os::fd::AsRawFd;
use std::os::unix::fs::FileExt;
use std::{fs, io};
use thiserror::Error;

/// Why a folder was not opened.
#[derive(Clone, Copy, Debug, Error)]
pub enum FolderFault {
    /// A call of the system failed, or what stands at a file's name is not a file.
    #[error("{0}")]
    Io(io::Error),
    /// A file is longer than [`FileVolume::LIMIT`].
    #[error("a file is longer than 2^40 bytes")]
    TooLong,
    /// Another process has the folder open, or another volume of this one.
    #[error("the folder is in use")]
    InUse,
    #[error("out of memory")]
    NoMemory,
}

impl From<io::Error> for FolderFault {
    fn from(error: io::Error) -> FolderFault {
        match error.kind() {
            io::ErrorKind::OutOfMemory => FolderFault::NoMemory,
            _ => FolderFault::Io(error),
        }
    }
}

impl From<AllocError> for FolderFault {
    fn from(_: AllocError) -> FolderFault {
        FolderFault::NoMemory
    }
}

impl From<TryLockError> for FolderFault {
    fn from(error: TryLockError) -> FolderFault {
        match error {
            TryLockError::WouldBlock => FolderFault::InUse,
            TryLockError::Error(error) => FolderFault::from(error),
        }
    }
}

// What the system says of a folder that is opened as a file: `EISDIR` of Linux.
const IS_A_FOLDER: i32 = 21;

/// One of the two files.
#[derive(Drop)]
struct DataFile {
    /// None where a file that is only read isn't there.
    file: Option<File>,
    /// Whether it was opened to be read alone.
    reads_only: bool,
    /// Counted from the length at opening on.
    len: u64,
    /// Why the first write or sync failed; each later one fails too. The system may have dropped what such a call was
    /// to write, and a later sync would succeed without it.
    failure: Option<io::Error>,
    ghost fits: { len ≤ 2 ^ 40 },
}

impl DataFile {
    /// Opens the file at a path, and makes it where it is missing.
    fn open(rt: &HostRuntime, path: &str) -> Result<DataFile, FolderFault>
        ensures works { IfOk result (λ file. file.failure ≡ None) }
        ensures writes { IfOk result (λ file. file.reads_only ≡ false) }
    {
        let file = OpenOptions::new()
            .read(true)
            .write(true)
            .create(true)
            .open(rt, path)?;
        DataFile::of(file, false)
    }

    /// Opens the file at a path to read it, and makes nothing. One that isn't there has no byte.
    fn open_to_read(rt: &HostRuntime, path: &str) -> Result<DataFile, FolderFault>
        ensures works { IfOk result (λ file. file.failure ≡ None) }
        ensures reads { IfOk result (λ file. file.reads_only ≡ true) }
    {
        match fs::metadata(rt, path) {
            // To open what is no file could wait for one that writes to it.
            Ok(found) if found.is_dir() => {
                Err(FolderFault::Io(io::Error::from_raw_os_error(IS_A_FOLDER)))
            }
            Ok(found) if !found.is_file() => {
                Err(FolderFault::Io(io::ErrorKind::Unsupported.into()))
            }
            Ok(_) => DataFile::of(File::open(rt, path)?, true),
            Err(error) if error.kind() == io::ErrorKind::NotFound => Ok(DataFile {
                file: None,
                reads_only: true,
                len: 0,
                failure: None,
            }),
            Err(error) => Err(FolderFault::from(error)),
        }
    }

    /// A file that is open.
    fn of(file: File, reads_only: bool) -> Result<DataFile, FolderFault>
        ensures works { IfOk result (λ file. file.failure ≡ None) }
        ensures access { IfOk result (λ file. file.reads_only ≡ reads_only) }
    {
        let file = above_streams(file)?;
        let found = file.metadata()?;
        if !found.is_file() {
            return Err(FolderFault::Io(io::ErrorKind::Unsupported.into()));
        }
        if found.len() > FileVolume::LIMIT {
            return Err(FolderFault::TooLong);
        }
        Ok(DataFile {
            file: Some(file),
            reads_only,
            len: found.len(),
            failure: None,
        })
    }

    /// Whether the bytes from a place on came.
    fn read(&self, at: u64, into: &mut [u8]) -> bool {
        match &self.file {
            Some(file) => file.read_exact_at(into, at).is_ok(),
            None => into.is_empty(),
        }
    }

    /// Whether all of the bytes were written.
    fn write(&mut self, at: u64, bytes: &[u8]) -> bool
        requires { at + length bytes.now ≤ 2 ^ 40 }
        ensures grown { IsTrue result → self.new.len ≡ max self.old.len (at + length bytes.now) }
        ensures done { IsTrue result → self.new.failure ≡ self.old.failure }
        ensures same { IsFalse result → self.new.len ≡ self.old.len }
        ensures marked { IsFalse result → IsSome self.new.failure }
        ensures refused { IsSome self.old.failure
            → IsFalse result × (self.new.failure ≡ self.old.failure) }
        ensures denied { self.old.reads_only ≡ true → IsFalse result }
        ensures access { self.new.reads_only ≡ self.old.reads_only }
    {
        if self.failure.is_some() {
            return false;
        }
        let written = match &self.file {
            Some(file) if !self.reads_only => file.write_all_at(bytes, at),
            _ => Err(io::ErrorKind::PermissionDenied.into()),
        };
        match written {
            Ok(()) => {
                self.len = self.len.max(at + bytes.len() as u64);
                true
            }
            Err(error) => {
                self.failure = Some(error);
                false
            }
        }
    }

    /// Whether what was written has reached the disk, by the word of the system.
    fn sync(&mut self) -> bool
        ensures same { self.new.len ≡ self.old.len }
        ensures done { IsTrue result → self.new.failure ≡ self.old.failure }
        ensures marked { IsFalse result → IsSome self.new.failure }
        ensures refused { IsSome self.old.failure
            → IsFalse result × (self.new.failure ≡ self.old.failure) }
        ensures access { self.new.reads_only ≡ self.old.reads_only }
    {
        if self.failure.is_none() {
            self.failure = self.sync_file().err();
        }
        self.failure.is_none()
    }

    /// Has the system bring to the disk what was written. A file that isn't there has nothing to bring, and a file system
    /// that takes no writes may have no sync.
    fn sync_file(&self) -> io::Result<()> {
        let Some(file) = &self.file else {
            return Ok(());
        };
        match file.sync_data() {
            Err(error) if self.reads_only && error.kind() == io::ErrorKind::InvalidInput => Ok(()),
            done => done,
        }
    }
}

/// The same file under a descriptor above those of the standard streams: what is meant for a stream that was closed must
/// not land in it.
fn above_streams(file: File) -> io::Result<File> {
    if file.as_raw_fd() > 2 {
        return Ok(file);
    }
    file.try_clone()
}

/// The files `left` and `right` of a folder, under a lock that is kept until the volume is dropped: one process may write,
/// or several may read.
///
/// Its type says nothing of what the files hold (`tells` is false). Lengths are counted from those at opening on, and a
/// read that comes short of them fails. Once a write or a sync of a file failed, each later one fails, until the folder
/// is opened again.
pub struct FileVolume {
    left: DataFile,
    right: DataFile,
    /// It keeps the lock.
    folder: File,
    failures: u64,
}

impl Drop for FileVolume {
    fn drop(self) {
        let Self {
            left: _,
            right: _,
            folder: _,
            failures: _,
        } = self;
    }
}

impl FileVolume {
    ghost use Rattle.fw_disk.specs.Files.{view_of, failure_of, reads_only};

    /// The largest length of a file, in bytes.
    pub const LIMIT: u64 = 1 << 40;

    /// Opens the files of a folder, which has to be there, and makes those that are missing. `InUse` comes where another
    /// process has the folder open, `TooLong` where a file is past the limit, `Io` where a call of the system fails. The
    /// folder is synced, so that files which were made are there after a crash.
    pub fn open(rt: &HostRuntime, folder: &str) -> Result<FileVolume, FolderFault>
        ensures start { IfOk result (λ volume. (view_of volume).failures ≡ 0) }
        ensures works { IfOk result (λ volume. (s : Side) → failure_of volume s ≡ None) }
        ensures writes { IfOk result (λ volume. (s : Side) → reads_only volume s ≡ false) }
    {
        let lock = above_streams(File::open(rt, folder)?)?;
        lock.try_lock()?;
        let left = DataFile::open(rt, format!(in rt.alloc(); "{folder}/left")?.as_str())?;
        let right = DataFile::open(rt, format!(in rt.alloc(); "{folder}/right")?.as_str())?;
        lock.sync_all()?;
        Ok(FileVolume {
            left,
            right,
            folder: lock,
            failures: 0,
        })
    }

    /// Opens the files of a folder, which has to be there, to read them. Nothing is made, and a file that is missing has no
    /// byte. Each write fails. Other processes may read the folder meanwhile: `InUse` comes where one has it open to write.
    /// `TooLong` and `Io` come as from [`FileVolume::open`].
    pub fn open_to_read(rt: &HostRuntime, folder: &str) -> Result<FileVolume, FolderFault>
        ensures start { IfOk result (λ volume. (view_of volume).failures ≡ 0) }
        ensures works { IfOk result (λ volume. (s : Side) → failure_of volume s ≡ None) }
        ensures reads { IfOk result (λ volume. (s : Side) → reads_only volume s ≡ true) }
    {
        let lock = above_streams(File::open(rt, folder)?)?;
        lock.try_lock_shared()?;
        let left = format!(in rt.alloc(); "{folder}/left")?;
        let right = format!(in rt.alloc(); "{folder}/right")?;
        Ok(FileVolume {
            left: DataFile::open_to_read(rt, left.as_str())?,
            right: DataFile::open_to_read(rt, right.as_str())?,
            folder: lock,
            failures: 0,
        })
    }

    /// Why the first write or sync of a file failed, in the system's words; none where none has. Each later one fails too.
    pub fn failure(&self, side: Side) -> Option<io::Error>
        ensures { result ≡ failure_of self.now side }
    {
        match side {
            Side::Left => self.left.failure,
            Side::Right => self.right.failure,
        }
    }
}

impl Volume for FileVolume {
    ghost use Rattle.fw_disk.specs.Files.{view_of, sizes_within, limit_bounded, none_told, failure_of, reads_only, Marks};

    ghost tells = { false };

    ghost view = { view_of };

    ghost sized = { λ v told s. none_told told };

    ghost within = { sizes_within };

    ghost bounded = { limit_bounded };

    ghost stays = { λ v told. tt };

    ghost counts_now = { λ v t c le now. tt };

    ghost only_now = { λ v c left. tt };

    fn limit(&self) -> u64 {
        FileVolume::LIMIT
    }

    fn len(&self, side: Side) -> u64 {
        match side {
            Side::Left => self.left.len,
            Side::Right => self.right.len,
        }
    }

    /// `Io` comes where the file gives fewer bytes than were counted, too.
    fn read(&mut self, side: Side, at: u64, into: &mut [u8]) -> Result<(), VolumeFault>
        requires { at + length into.old ≤ (view_of self.old).size side }
        ensures sizes { SameSizes (view_of self.old) (view_of self.new) }
        ensures cause { HasCause (view_of self.old) (view_of self.new) result }
        ensures fits { IsErrOf result TooLarge → ⊥ }
        ensures works { (s : Side) → failure_of self.new s ≡ failure_of self.old s }
        ensures access { (s : Side) → reads_only self.new s ≡ reads_only self.old s }
    {
        let read = match side {
            Side::Left => self.left.read(at, into),
            Side::Right => self.right.read(at, into),
        };
        if !read {
            return Err(count_failure(&mut self.failures));
        }
        Ok(())
    }

    /// `Io` comes where the system writes fewer bytes, too, and where the folder was opened to be read.
    fn write_at(&mut self, side: Side, at: u64, bytes: &[u8]) -> Result<(), VolumeFault>
        requires { at ≤ (view_of self.old).size side }
        ensures sizes { Grows side at (length bytes.now) (view_of self.old)
            (view_of self.new) result }
        ensures cause { HasCause (view_of self.old) (view_of self.new) result }
        ensures too_large { IsErrOf result TooLarge
            ↔ ((view_of self.old).limit < at + length bytes.now) }
        ensures unchanged { IsErrOf result TooLarge → self.new ≡ self.old }
        ensures marks { at + length bytes.now ≤ (view_of self.old).limit
            → Marks side self.old self.new result }
        ensures denied { reads_only self.old side ≡ true
            → at + length bytes.now ≤ (view_of self.old).limit → IsErrOf result Io }
        ensures access { (s : Side) → reads_only self.new s ≡ reads_only self.old s }
    {
        if bytes.len() as u64 > FileVolume::LIMIT - at {
            return Err(VolumeFault::TooLarge);
        }
        let done = match side {
            Side::Left => self.left.write(at, bytes),
            Side::Right => self.right.write(at, bytes),
        };
        if !done {
            return Err(count_failure(&mut self.failures));
        }
        Ok(())
    }

    fn sync(&mut self, side: Side) -> Result<(), VolumeFault>
        ensures sizes { SameSizes (view_of self.old) (view_of self.new) }
        ensures cause { HasCause (view_of self.old) (view_of self.new) result }
        ensures fits { IsErrOf result TooLarge → ⊥ }
        ensures marks { Marks side self.old self.new result }
        ensures access { (s : Side) → reads_only self.new s ≡ reads_only self.old s }
    {
        let done = match side {
            Side::Left => self.left.sync(),
            Side::Right => self.right.sync(),
        };
        if !done {
            return Err(count_failure(&mut self.failures));
        }
        Ok(())
    }
}
