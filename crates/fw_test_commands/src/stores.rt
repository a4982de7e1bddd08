//! Warehouses in memory.
use fw_charge::Currency;
use fw_disk::{Choice, FaultVolume, MemVolume, Mode};
use fw_recover::{Store, StoreFault};
use std::alloc::Global;

/// A volume in memory, some calls of which fail.
pub(crate) type Faulty = FaultVolume<MemVolume>;

/// How many device calls creating a warehouse takes.
pub(crate) const CREATING: u64 = 8;

/// A plan by which no call fails.
pub(crate) const NEVER: u64 = u64::MAX;

/// How long the files of a warehouse may be.
pub(crate) const ROOM: u64 = 1 << 30;

/// A warehouse in dollars that has accepted nothing, whose files may be so long. So many calls of its device pass, and then each fails or
/// one does.
pub(crate) fn created(
    alloc: Global,
    limit: u64,
    pass: u64,
    mode: Mode,
) -> Result<Box<Store<Faulty>>, StoreFault> {
    let Some(currency) = Currency::new(b"USD") else {
        return Err(StoreFault::NoMemory);
    };
    let memory = MemVolume::new(alloc, limit.min(ROOM), Choice::Old);
    match Store::create(alloc, FaultVolume::new(memory, pass, mode), currency) {
        Ok(store) => boxed(alloc, store),
        Err((_, fault)) => Err(fault),
    }
}

// A store behind a box: what is let go at an exit is then a box.
fn boxed(alloc: Global, store: Store<Faulty>) -> Result<Box<Store<Faulty>>, StoreFault> {
    match Box::new(alloc, store) {
        Ok(store) => Ok(store),
        Err(_) => Err(StoreFault::NoMemory),
    }
}
