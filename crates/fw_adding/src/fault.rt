//! Why a document was not added.
ghost use Rattle.std.specs.Prelude.{◌≡◌};
ghost use Rattle.fw_adding.specs.declared.fault.AddFault.TheVariants.{NoMemory};

use fw_entry::EntryFault;
use fw_recover::StoreFault;
use fw_snapshot::Conflict;
use std::alloc::AllocError;

/// Why a document was not added. The warehouse shows none of it.
#[derive(Clone, Copy, Debug, Drop, PartialEq, Eq)]
pub enum AddFault {
    /// It makes no entry of this origin.
    Entry(EntryFault),
    /// It doesn't go with what was accepted before.
    Conflict(Conflict),
    /// The origin has no further number.
    NoNumber,
    /// The store refused the entry, or its device failed.
    Store(StoreFault),
    /// Memory ran out.
    NoMemory,
}

impl From<AllocError> for AddFault {
    ghost from_gives = { λ _ fault. fault ≡ NoMemory };

    fn from(_refused: AllocError) -> AddFault {
        AddFault::NoMemory
    }
}

impl AddFault {
    /// The fault of parts that make no entry.
    pub(crate) fn of_entry(fault: EntryFault) -> AddFault {
        match fault {
            EntryFault::NoMemory => AddFault::NoMemory,
            other => AddFault::Entry(other),
        }
    }

    /// The fault of a store.
    pub(crate) fn of_store(fault: StoreFault) -> AddFault {
        match fault {
            StoreFault::NoMemory => AddFault::NoMemory,
            other => AddFault::Store(other),
        }
    }
}
