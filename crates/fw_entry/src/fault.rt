//! Why there is no such entry.
ghost use Rattle.std.specs.Prelude.{◌≡◌};
ghost use Rattle.fw_entry.specs.declared.fault.EntryFault.TheVariants.{NoMemory};

use std::alloc::AllocError;
use thiserror::Error;

/// Why there is no entry of some parts: the first of these that holds.
#[derive(Clone, Copy, Debug, Drop, PartialEq, Eq, Error)]
pub enum EntryFault {
    /// The origin isn't made of 1 to 64 ASCII letters, digits, `-`, `_` and `.`.
    #[error("the origin isn't 1 to 64 ASCII letters, digits, `-`, `_` and `.`")]
    Origin,
    /// The number is 0: the entries of an origin are counted from 1.
    #[error("the number is 0, and entries are counted from 1")]
    Seq,
    /// The entry would be written in more than 4,194,304 bytes.
    #[error("the entry has more than 4,194,304 bytes")]
    TooLarge,
    /// Out of memory. It may come in place of any answer.
    #[error("out of memory")]
    NoMemory,
}

impl From<AllocError> for EntryFault {
    ghost from_gives = { λ _ fault. fault ≡ NoMemory };

    fn from(_refused: AllocError) -> EntryFault {
        EntryFault::NoMemory
    }
}
