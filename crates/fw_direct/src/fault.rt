//! Why a text is no direct report.
use std::alloc::{AllocError, AllocFailed};

/// Why a text is no direct report.
#[derive(Clone, Copy, Debug, Drop, PartialEq, Eq)]
pub enum DocumentFault {
    /// It is no text of JSON.
    Syntax,
    /// A member isn't what it must be.
    Member {
        /// The name of the member.
        name: &'static str,
        /// What it must be, in words that can stand behind "expected".
        expected: &'static str,
    },
    /// Memory ran out.
    NoMemory,
}

impl From<AllocError> for DocumentFault {
    fn from(_refused: AllocError) -> DocumentFault {
        DocumentFault::NoMemory
    }
}

impl<T: Drop> From<AllocFailed<T>> for DocumentFault {
    fn from(_refused: AllocFailed<T>) -> DocumentFault {
        DocumentFault::NoMemory
    }
}
