//! Why a text is no commitment, and no purchase that is added to one.
ghost use Rattle.std.specs.Prelude.{◌≡◌};
ghost use Rattle.fw_commitment.specs.declared.fault.CommitmentFault.TheVariants.{NoMemory};

use std::alloc::{AllocError, AllocFailed};
use thiserror::Error;

/// The fields of a commitment, and of a purchase that is added to one, in the order in which they are checked.
#[derive(Clone, Copy, Debug, Drop, PartialEq, Eq)]
pub enum CommitmentField {
    /// `id` of a commitment, a text; a purchase that is added names its commitment so.
    Id,
    /// `category`, the text `Usage` or `Spend`.
    Category,
    /// `start`, a text that is the time of a whole hour from 1970 on.
    Start,
    /// `hours`, an integer.
    Hours,
    /// `capacity`, a text that is a number.
    Capacity,
    /// `unit` of a `Usage` commitment, a text.
    Unit,
    /// `skus` of a `Usage` commitment, an array of texts, none of them twice.
    Skus,
    /// `rates` of a `Spend` commitment, a table of integers.
    Rates,
    /// `sub_account`, a text; it may be absent.
    SubAccount,
    /// `tags`, a table of texts; it may be absent.
    Tags,
    /// `purchase`, an array of tables that have `at`, a text that is a time, and `billed`, a text that is a number, and nothing else.
    Purchase,
    /// `at` of a purchase that is added, a text that is a time from 1970 on.
    At,
    /// `billed` of a purchase that is added, a text that is a number.
    Billed,
    /// A name that doesn't belong there: it is none of these, or another one's.
    Unknown,
}

impl CommitmentField {
    ghost use Rattle.fw_commitment.specs.FieldNames.{name_of};

    /// The name that stands in the text; that of a name that doesn't belong there is `unknown`.
    pub fn name(self) -> &'static str
        ensures { result.now ≡ name_of self }
    {
        match self {
            CommitmentField::Id => "id",
            CommitmentField::Category => "category",
            CommitmentField::Start => "start",
            CommitmentField::Hours => "hours",
            CommitmentField::Capacity => "capacity",
            CommitmentField::Unit => "unit",
            CommitmentField::Skus => "skus",
            CommitmentField::Rates => "rates",
            CommitmentField::SubAccount => "sub_account",
            CommitmentField::Tags => "tags",
            CommitmentField::Purchase => "purchase",
            CommitmentField::At => "at",
            CommitmentField::Billed => "billed",
            CommitmentField::Unknown => "unknown",
        }
    }
}

/// The first fault of a text.
#[derive(Clone, Copy, Debug, Drop, PartialEq, Eq, Error)]
pub enum CommitmentFault {
    /// The text is not UTF-8, or no TOML document.
    #[error("the text is no TOML document")]
    Syntax,
    /// The field is missing, or of the wrong kind, or it can't be read.
    #[error("the field {} is missing or is not what it must be", .0.name())]
    Field(CommitmentField),
    /// What the field says is out of its limits.
    #[error("the field {} is out of its limits", .0.name())]
    Limit(CommitmentField),
    /// Memory ran out.
    #[error("out of memory")]
    NoMemory,
}

impl From<AllocError> for CommitmentFault {
    ghost from_gives = { λ _ fault. fault ≡ NoMemory };

    fn from(_refused: AllocError) -> CommitmentFault {
        CommitmentFault::NoMemory
    }
}

impl<T: Drop> From<AllocFailed<T>> for CommitmentFault {
    ghost from_gives = { λ _ fault. fault ≡ NoMemory };

    fn from(_refused: AllocFailed<T>) -> CommitmentFault {
        CommitmentFault::NoMemory
    }
}
