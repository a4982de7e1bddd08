//! Why there is no report.
ghost use Rattle.std.specs.Prelude.{◌≡◌};
ghost use Rattle.fw_query.specs.declared.fault.QueryFault.TheVariants.{NoMemory};

use std::alloc::{AllocError, AllocFailed};
use thiserror::Error;

/// Why there is no report. A range is looked at first.
#[derive(Debug, Drop, Error)]
pub enum QueryFault {
    /// The range has no hour, or more than 26,304.
    #[error("the range has no hour, or more than 26,304")]
    Range,
    /// The absolute direct costs of the groups, summed up in byte order of the groups, pass 10^19 nanos. This group is the first at which
    /// they do.
    #[error("the costs up to the group {group:?} pass 10^19 nanos")]
    TotalTooLarge { group: String },
    /// Memory ran out.
    #[error("out of memory")]
    NoMemory,
}

impl From<AllocError> for QueryFault {
    ghost from_gives = { λ _ fault. fault ≡ NoMemory };

    fn from(_refused: AllocError) -> QueryFault {
        QueryFault::NoMemory
    }
}

impl<T: Drop> From<AllocFailed<T>> for QueryFault {
    ghost from_gives = { λ _ fault. fault ≡ NoMemory };

    fn from(_refused: AllocFailed<T>) -> QueryFault {
        QueryFault::NoMemory
    }
}
