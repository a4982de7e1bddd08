//! Why a call of the log was refused.
use std::alloc::AllocError;
use thiserror::Error;

/// Why a call of the log was refused.
#[derive(Clone, Copy, Debug, Drop, PartialEq, Eq, Error)]
pub enum LogFault {
    /// A read, a write or a sync of the volume has failed.
    #[error("the device has failed")]
    Device,
    /// No log stands there: a gate or a frame lies past the end of the file, or a length is out of range. `at` is
    /// the offset in the file, in bytes, of that gate.
    #[error("the log is broken at byte {at}")]
    Corrupt { at: u64 },
    /// An append has failed before, so the log takes no more.
    #[error("an earlier append has failed")]
    Failed,
    /// The frame would end past the volume's limit.
    #[error("the volume has no room for the frame")]
    TooLarge,
    /// The allocator refused a growth.
    #[error("out of memory")]
    NoMemory,
}

impl From<AllocError> for LogFault {
    ghost use Rattle.fw_journal.specs.declared.fault.LogFault.TheVariants.{NoMemory};
    ghost use Rattle.std.specs.Prelude.{◌≡◌};

    ghost from_gives = { λ _ fault. fault ≡ NoMemory };

    fn from(_: AllocError) -> LogFault {
        LogFault::NoMemory
    }
}
