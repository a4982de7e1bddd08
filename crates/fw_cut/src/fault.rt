//! Why a text can't be cut.
ghost use Rattle.std.specs.Prelude.{◌≡◌};
ghost use Rattle.fw_cut.specs.declared.fault.CutFault.TheVariants.{NoMemory};

use std::alloc::AllocError;
use std::io;
use thiserror::Error;

/// Why a text can't be cut.
#[derive(Clone, Copy, Debug, Drop, Error)]
pub enum CutFault {
    /// A read failed, for this reason.
    #[error("a read failed: {0}")]
    Read(io::Error),
    /// The text ends within its first record, the header, or has no record.
    #[error("no record follows the header")]
    NoRecord,
    /// A record has more than 4 MiB. Often a quote that isn't closed is the cause.
    #[error("a record is longer than 4 MiB")]
    TooLong,
    /// The header has more than 2 MiB. Often a quote that isn't closed is the cause.
    #[error("the header is longer than 2 MiB")]
    LongHeader,
    /// Memory ran out.
    #[error("out of memory")]
    NoMemory,
}

impl From<AllocError> for CutFault {
    ghost from_gives = { λ _ fault. fault ≡ NoMemory };

    fn from(_refused: AllocError) -> CutFault {
        CutFault::NoMemory
    }
}
