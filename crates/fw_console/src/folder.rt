//! The folder of a warehouse.
ghost use Rattle.std.specs.Prelude.{◌≡◌};

use crate::fault::{Fault, FileFailure};
use crate::house::{House, Place};
use fw_disk::{FileVolume, FolderFault, Side, Volume};
use fw_recover::{Store, StoreFault};
use fw_rows::Currency;
use fw_serve::reopen;
use std::alloc::Global;
use std::{fs, io};

/// When a folder's warehouse is made.
#[derive(Clone, Copy, Drop)]
pub enum Creates {
    /// Never: there has to be one. Where there is none, no file is made either.
    Never,
    /// Where there is none: with the first post, of this currency. The folder is made then too, if it isn't there.
    IfMissing(Currency),
    /// At once, of this currency: there must be none, and the folder has to be there.
    New(Currency),
}

/// Opens the warehouse of a folder, or makes it. Where one may be made that isn't there, neither it nor its folder is made yet.
pub fn open_folder(rt: &HostRuntime, folder: &str, creates: Creates) -> Result<House, Fault> {
    match creates {
        Creates::Never => found(rt, folder, creates),
        Creates::IfMissing(currency) if is_missing(rt, folder) => {
            in_missing(rt.alloc(), folder, currency)
        }
        Creates::IfMissing(_) => found(rt, folder, creates),
        Creates::New(currency) => made(rt, folder, currency),
    }
}

/// Opens the warehouse of a folder. A folder without one has none afterwards either, and no file is made there.
pub fn open_warehouse(rt: &HostRuntime, folder: &str) -> Result<Store<FileVolume>, Fault> {
    open_folder(rt, folder, Creates::Never)?.into_store()
}

/// Opens the warehouse of a folder to ask it. Nothing is made or written there, and others may ask it meanwhile.
pub fn open_to_ask(rt: &HostRuntime, folder: &str) -> Result<Store<FileVolume>, Fault> {
    match reopen(rt.alloc(), FileVolume::open_to_read(rt, folder)?) {
        Ok(store) => Ok(store),
        Err((volume, fault)) => Err(store_fault(&volume, fault)),
    }
}

// The warehouse of a folder, or the place of one that is to be made there. Where one of its files is missing, it is looked for before that is
// made: without a warehouse it stays missing.
fn found(rt: &HostRuntime, folder: &str, creates: Creates) -> Result<House, Fault> {
    if lacks_a_file(rt, folder)? {
        match (open_to_ask(rt, folder), creates) {
            (Ok(store), _) => let_go(store, ()),
            (Err(Fault::Store(StoreFault::NoHouse)), Creates::IfMissing(currency)) => {
                return in_folder(rt.alloc(), folder, currency);
            }
            (Err(fault), _) => return Err(fault),
        }
    }
    reopened(rt, folder, creates)
}

// The warehouse of a folder whose files are made where they are missing, or the place of one that is to be made there.
fn reopened(rt: &HostRuntime, folder: &str, creates: Creates) -> Result<House, Fault> {
    match reopen(rt.alloc(), FileVolume::open(rt, folder)?) {
        Ok(store) => Ok(House::of(store)),
        Err((volume, fault)) => not_opened(volume, fault, creates),
    }
}

// The place of a warehouse on a volume that couldn't be opened, if it has none and one is to be made.
fn not_opened(volume: FileVolume, fault: StoreFault, creates: Creates) -> Result<House, Fault> {
    match (fault, creates) {
        (StoreFault::NoHouse, Creates::IfMissing(currency)) => {
            Ok(House::in_place(Place::Files(volume), currency))
        }
        _ => Err(store_fault(&volume, fault)),
    }
}

// The place of a warehouse in a folder that isn't there.
fn in_missing(alloc: Global, folder: &str, currency: Currency) -> Result<House, Fault> {
    let place = Place::Missing(String::from_str(alloc, folder)?);
    Ok(House::in_place(place, currency))
}

// The place of a warehouse in a folder that is there, where a file of it isn't.
fn in_folder(alloc: Global, folder: &str, currency: Currency) -> Result<House, Fault> {
    let place = Place::Named(String::from_str(alloc, folder)?);
    Ok(House::in_place(place, currency))
}

// A new warehouse in a folder.
fn made(rt: &HostRuntime, folder: &str, currency: Currency) -> Result<House, Fault> {
    let store = created(rt.alloc(), FileVolume::open(rt, folder)?, currency)?;
    Ok(House::of(store))
}

/// A new warehouse on a volume.
pub(crate) fn created(
    alloc: Global,
    volume: FileVolume,
    currency: Currency,
) -> Result<Store<FileVolume>, Fault> {
    match Store::create(alloc, volume, currency) {
        Ok(store) => Ok(store),
        Err((volume, fault)) => Err(store_fault(&volume, fault)),
    }
}

/// What was done with a warehouse, which is closed. Where a write or a sync of a file failed, that is the fault.
pub fn closed<T>(store: Store<FileVolume>, done: Result<T, Fault>) -> Result<T, Fault> {
    match done {
        Err(Fault::Store(fault)) => Err(store_fault(&store.close(), fault)),
        done => done,
    }
}

/// What was done with a warehouse that is let go of.
pub fn let_go<V: Volume + Drop, T>(_store: Store<V>, done: T) -> T
    ensures { result ≡ done }
{
    done
}

// A fault of a store on a volume: where a write or a sync of a file failed, that.
fn store_fault(volume: &FileVolume, fault: StoreFault) -> Fault {
    match (fault, file_failure(volume)) {
        (StoreFault::Device, Some(failure)) => Fault::File(failure),
        _ => Fault::Store(fault),
    }
}

/// Which file's write or sync failed, and what the system said; none where no such call failed.
pub(crate) fn file_failure(volume: &FileVolume) -> Option<FileFailure> {
    for side in [Side::Left, Side::Right] {
        if let Some(error) = volume.failure(side) {
            return Some(FileFailure { side, error });
        }
    }
    None
}

// Whether one of the files of a folder's warehouse isn't there.
fn lacks_a_file(rt: &HostRuntime, folder: &str) -> Result<bool, Fault> {
    let left = format!(in rt.alloc(); "{folder}/left")?;
    let right = format!(in rt.alloc(); "{folder}/right")?;
    Ok(!is_there(rt, left.as_str())? || !is_there(rt, right.as_str())?)
}

// Whether there is a file or a folder of this name.
fn is_there(rt: &HostRuntime, name: &str) -> Result<bool, Fault> {
    match fs::metadata(rt, name) {
        Ok(_) => Ok(true),
        Err(error) if error.kind() == io::ErrorKind::NotFound => Ok(false),
        Err(error) => Err(Fault::from(FolderFault::from(error))),
    }
}

// Whether there is no file and no folder of this name.
fn is_missing(rt: &HostRuntime, name: &str) -> bool {
    match fs::metadata(rt, name) {
        Ok(_) => false,
        Err(error) => error.kind() == io::ErrorKind::NotFound,
    }
}

/// Whether there is a folder of this name.
pub fn is_folder(rt: &HostRuntime, name: &str) -> bool {
    match fs::metadata(rt, name) {
        Ok(found) => found.is_dir(),
        Err(_) => false,
    }
}
