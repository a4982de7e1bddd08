//! Why reports aren't added up.
ghost use Rattle.std.specs.Prelude.{◌≡◌};
ghost use Rattle.fw_shards.specs.declared.fault.AddFault.TheVariants.{NoMemory};

use std::alloc::{AllocError, AllocFailed};
use thiserror::Error;

/// Why reports aren't added up.
#[derive(Debug, Error)]
pub enum AddFault {
    /// The absolute billed costs of all entries, or their absolute direct costs, come to more than 10^37 nanos. It is looked at first.
    #[error("the costs of the reports pass 10^37 nanos")]
    OutOfRange,
    /// The absolute direct costs of the groups, summed up in byte order of the groups, pass 10^19 nanos. This group is the first at which
    /// they do.
    #[error("the costs up to the group {group:?} pass 10^19 nanos")]
    TotalTooLarge { group: String },
    /// Memory ran out.
    #[error("out of memory")]
    NoMemory,
}

impl Drop for AddFault {
    fn drop(self) {
        match self {
            Self::OutOfRange | Self::TotalTooLarge { group: _ } | Self::NoMemory => {}
        }
    }
}

impl From<AllocError> for AddFault {
    ghost from_gives = { λ _ fault. fault ≡ NoMemory };

    fn from(_refused: AllocError) -> AddFault {
        AddFault::NoMemory
    }
}

impl<T: Drop> From<AllocFailed<T>> for AddFault {
    ghost from_gives = { λ _ fault. fault ≡ NoMemory };

    fn from(_refused: AllocFailed<T>) -> AddFault {
        AddFault::NoMemory
    }
}
