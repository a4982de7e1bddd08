//! The warehouse of a folder: one that there is, or one that the first post makes.
use crate::fault::Fault;
use crate::folder::{closed, created};
use fw_disk::{FileVolume, FolderFault};
use fw_recover::{Store, StoreFault};
use fw_rows::Currency;
use fw_snapshot::State;
use std::fs::{self, File};
use std::process::ExitCode;

/// A warehouse, or the place of one that is to be made.
#[derive(Drop)]
pub struct House {
    // the warehouse, once there is one
    store: Option<Store<FileVolume>>,
    // where it is to be made, until there is one
    place: Option<Place>,
    currency: Currency,
}

/// Where a warehouse is to be made.
#[derive(Drop)]
pub(crate) enum Place {
    /// In the files of a folder, which are there.
    Files(FileVolume),
    /// In a folder of this name, which is there, in files that are to be made.
    Named(String),
    /// In a folder of this name, which is to be made too.
    Missing(String),
}

impl House {
    /// A warehouse that there is.
    pub(crate) fn of(store: Store<FileVolume>) -> House {
        let currency = store.state().state().currency();
        House {
            store: Some(store),
            place: None,
            currency,
        }
    }

    /// The warehouse that is to be made in a place, of this currency.
    pub(crate) fn in_place(place: Place, currency: Currency) -> House {
        House {
            store: None,
            place: Some(place),
            currency,
        }
    }

    /// Makes the warehouse, and its folder where that isn't there, if there is none yet.
    pub fn make(&mut self, rt: &HostRuntime) -> Result<(), Fault> {
        let Some(place) = self.place.take() else {
            return Ok(());
        };
        self.store = Some(created(rt.alloc(), volume_of(rt, place)?, self.currency)?);
        Ok(())
    }

    /// Whether there is no warehouse yet.
    pub fn is_new(&self) -> bool {
        self.store.is_none()
    }

    /// The warehouse, once there is one.
    pub fn store(&mut self) -> Option<&mut Store<FileVolume>> {
        self.store.as_mut()
    }

    /// The warehouse, if there is one.
    pub fn into_store(self) -> Result<Store<FileVolume>, Fault> {
        let House { store, .. } = self;
        match store {
            Some(store) => Ok(store),
            None => Err(Fault::Store(StoreFault::NoHouse)),
        }
    }

    /// What was done with the warehouse, which is closed. Where a write or a sync of a file failed, that is the fault.
    pub fn close(self, done: Result<ExitCode, Fault>) -> Result<ExitCode, Fault> {
        let House { store, .. } = self;
        match store {
            Some(store) => closed(store, done),
            None => done,
        }
    }

    /// What is in the warehouse, once there is one.
    pub fn state(&self) -> Option<&State> {
        match &self.store {
            Some(store) => Some(store.state().state()),
            None => None,
        }
    }

    /// The currency of the warehouse, also of one that is to be made.
    pub fn currency(&self) -> Currency {
        self.currency
    }

    /// How many rows were ever posted.
    pub fn rows_posted(&self) -> u64 {
        match self.state() {
            Some(state) => state.rows_posted() as u64,
            None => 0,
        }
    }

    /// How many rows count.
    pub fn rows(&self) -> u64 {
        match self.state() {
            Some(state) => state.rows() as u64,
            None => 0,
        }
    }
}

// The volume of a place. A folder that isn't there is made.
fn volume_of(rt: &HostRuntime, place: Place) -> Result<FileVolume, Fault> {
    match place {
        Place::Files(volume) => Ok(volume),
        Place::Named(folder) => Ok(FileVolume::open(rt, folder.as_str())?),
        Place::Missing(folder) => Ok(in_new_folder(rt, folder.as_str())?),
    }
}

// The volume of a folder that is made, and that is there after a crash too.
fn in_new_folder(rt: &HostRuntime, folder: &str) -> Result<FileVolume, FolderFault> {
    fs::create_dir(rt, folder)?;
    let above = format!(in rt.alloc(); "{folder}/..")?;
    let above = File::open(rt, above.as_str())?;
    above.sync_all()?;
    FileVolume::open(rt, folder)
}
