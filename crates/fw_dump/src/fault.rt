//! Why a warehouse was not dumped to its end.
ghost use Rattle.std.specs.Prelude.{◌≡◌};
ghost use Rattle.fw_dump.specs.declared.fault.TextFault.TheVariants.{NoMemory};

use std::alloc::AllocError;
use std::io::ErrorKind;
use thiserror::Error;

/// Why there is no text of an entry.
#[derive(Clone, Copy, Debug, Drop, PartialEq, Eq, Error)]
pub enum TextFault {
    /// Its content has more than 1,000,000 lines, which no command of a script has. It has as many line feeds in its texts.
    #[error("D1 TooManyLines")]
    TooManyLines,
    /// What was written of it doesn't read as the same entry: it has a value that no text reads as, or what writes texts has a defect.
    #[error("D2 Differs")]
    Differs,
    /// Memory ran out.
    #[error("NoMemory")]
    NoMemory,
}

impl From<AllocError> for TextFault {
    ghost from_gives = { λ _ fault. fault ≡ NoMemory };

    fn from(_refused: AllocError) -> TextFault {
        TextFault::NoMemory
    }
}

/// Why a warehouse was not dumped to its end. The texts of the entries before were written.
#[derive(Clone, Copy, Debug, Drop)]
pub enum DumpFault {
    /// There is no text of an entry; `number` counts the entries of the warehouse from 1.
    Entry { number: u64, why: TextFault },
    /// The writer failed.
    Write(ErrorKind),
    /// Memory ran out.
    NoMemory,
}

impl From<AllocError> for DumpFault {
    fn from(_refused: AllocError) -> DumpFault {
        DumpFault::NoMemory
    }
}
