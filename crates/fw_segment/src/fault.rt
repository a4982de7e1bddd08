//! Why bytes could not be decoded.
ghost use Rattle.std.specs.Prelude.{◌≡◌};
ghost use Rattle.fw_segment.specs.FaultPlace.{fault_of};

use fw_bytes::ReadError;
use thiserror::Error;

/// Why bytes could not be decoded.
#[derive(Clone, Copy, Debug, Drop, PartialEq, Eq, Error)]
pub enum DecodeFault {
    /// There is no memory for what is kept of the bytes.
    #[error("out of memory")]
    NoMemory,
    /// The bytes are no spelling: the first fault stands at this offset.
    #[error("corrupt at byte {at}")]
    Corrupt { at: usize },
}

impl DecodeFault {
    /// The fault of bytes of which there are so many in all.
    pub(crate) fn of(total: usize, e: ReadError) -> DecodeFault
        ensures { result ≡ fault_of total e }
    {
        match e {
            ReadError::NoMemory => DecodeFault::NoMemory,
            ReadError::Corrupt(left) => DecodeFault::Corrupt {
                at: total.saturating_sub(left),
            },
        }
    }
}
