//! Why a text is no tags.
ghost use Rattle.std.specs.Prelude.{◌≡◌};
ghost use Rattle.fw_tags.specs.declared.fault.TagFault.TheVariants.{NoMemory};

use std::alloc::{AllocError, AllocFailed};
use thiserror::Error;

/// Why a text is not read as tags, in the order in which the rules are checked.
#[derive(Clone, Copy, Debug, Drop, PartialEq, Eq, Error)]
pub enum TagFault {
    /// The text is no JSON object, or a member is a number, an array or an object.
    #[error("the tags are no JSON object of texts, booleans and nulls")]
    NotTags,
    /// A key or a value has more than 1,024 bytes, or there are more than 256 tags.
    #[error("a tag is longer than 1,024 bytes, or there are more than 256 tags")]
    TooLong,
    /// Memory ran out.
    #[error("out of memory")]
    NoMemory,
}

impl From<AllocError> for TagFault {
    ghost from_gives = { λ _ fault. fault ≡ NoMemory };

    fn from(_refused: AllocError) -> TagFault {
        TagFault::NoMemory
    }
}

impl<T: Drop> From<AllocFailed<T>> for TagFault {
    ghost from_gives = { λ _ fault. fault ≡ NoMemory };

    fn from(_refused: AllocFailed<T>) -> TagFault {
        TagFault::NoMemory
    }
}
