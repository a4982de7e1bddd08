//! Why a script was not served to its end.
ghost use Rattle.std.specs.Prelude.{◌≡◌};
ghost use Rattle.fw_serve.specs.declared.fault.ServeFault.TheVariants.{NoMemory};

use std::alloc::AllocError;

/// Why a script was not served to its end.
#[derive(Clone, Copy, Debug, Drop, PartialEq, Eq, thiserror::Error)]
pub enum ServeFault {
    /// The reader failed. No command was run.
    #[error("F1 Read")]
    Read,
    /// The writer failed. The commands before were run, and stay so.
    #[error("F2 Write")]
    Write,
    /// The script has more than 2^30 bytes. No command was run.
    #[error("F3 TooLong")]
    TooLong,
    /// Out of memory while reading the script. No command was run.
    #[error("NoMemory")]
    NoMemory,
}

impl From<AllocError> for ServeFault {
    ghost from_gives = { λ _ fault. fault ≡ NoMemory };

    fn from(_refused: AllocError) -> ServeFault {
        ServeFault::NoMemory
    }
}
