//! Why a part was not imported.
use fw_entry::EntryFault;
use fw_recover::StoreFault;
use fw_rows::RowFault;
use fw_snapshot::Conflict;
use std::alloc::AllocError;

/// Why a part was not imported. The warehouse shows none of it.
#[derive(Clone, Copy, Debug, Drop)]
pub enum ImportFault {
    /// The text has a fault: the first one.
    Rows(RowFault),
    /// The rows make no entry of this origin and number.
    Entry(EntryFault),
    /// The rows don't go with what was accepted before.
    Conflict(Conflict),
    /// Something else was accepted from this origin under this number.
    Differs,
    /// The post that was accepted from this origin under this number was withdrawn: its rows count no more.
    Withdrawn,
    /// An entry before this one is missing: the origin's next number is `expected`.
    Gap { expected: u64 },
    /// The store refused the entry, or its device failed.
    Store(StoreFault),
    /// Memory ran out.
    NoMemory,
}

impl From<AllocError> for ImportFault {
    fn from(_refused: AllocError) -> ImportFault {
        ImportFault::NoMemory
    }
}
