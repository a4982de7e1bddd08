//! Why files were not loaded to their end.
use fw_recover::StoreFault;
use fw_threads::{CommitFault, SplitFault};
use std::alloc::{AllocError, AllocFailed};

/// Why files were not loaded to their end. The text of each is its code and its name, or `NoMemory`.
#[derive(Clone, Copy, Debug, Drop, PartialEq, Eq, thiserror::Error)]
pub enum LoadFault {
    /// The store could not be shared among threads. Nothing was posted.
    #[error("{0}")]
    Split(SplitFault),
    /// The store refused a group, or its device failed. Entries that were accepted before stay.
    #[error("{0}")]
    Store(StoreFault),
    /// A group was stored and could not be published: it is there when the warehouse is opened again.
    #[error("G3 Unpublished")]
    Unpublished,
    /// The answers could not be written. The entries stay.
    #[error("F2 Write")]
    Write,
    /// Out of memory. Entries that were accepted before stay.
    #[error("NoMemory")]
    NoMemory,
}

impl From<AllocError> for LoadFault {
    fn from(_refused: AllocError) -> LoadFault {
        LoadFault::NoMemory
    }
}

impl<T: Drop> From<AllocFailed<T>> for LoadFault {
    fn from(_refused: AllocFailed<T>) -> LoadFault {
        LoadFault::NoMemory
    }
}

impl From<SplitFault> for LoadFault {
    fn from(fault: SplitFault) -> LoadFault {
        match fault {
            SplitFault::NoMemory => LoadFault::NoMemory,
            _ => LoadFault::Split(fault),
        }
    }
}

impl From<CommitFault> for LoadFault {
    fn from(fault: CommitFault) -> LoadFault {
        match fault {
            CommitFault::Store(StoreFault::NoMemory) => LoadFault::NoMemory,
            CommitFault::Store(fault) => LoadFault::Store(fault),
            CommitFault::Unpublished => LoadFault::Unpublished,
        }
    }
}
