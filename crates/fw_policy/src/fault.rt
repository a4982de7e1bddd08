//! Why a text is no policy.
ghost use Rattle.std.specs.Prelude.{◌≡◌};
ghost use Rattle.fw_policy.specs.declared.fault.PolicyFault.TheVariants.{NoMemory};

use std::alloc::{AllocError, AllocFailed};
use thiserror::Error;

/// The fields of a policy's document.
#[derive(Clone, Copy, Debug, Drop, PartialEq, Eq, Error)]
pub enum PolicyField {
    /// The tag key whose values are the groups.
    #[error("key")]
    Key,
    /// The rules, and what a rule gives.
    #[error("rule")]
    Rule,
    /// The group that gives its cost away.
    #[error("from")]
    From,
    /// The groups that it is given to, with their weights.
    #[error("to")]
    To,
    /// Whether it is given in proportion to costs.
    #[error("proportional")]
    Proportional,
    /// A field that is none of these where it stands.
    #[error("unknown")]
    Unknown,
}

impl PolicyField {
    ghost use Rattle.fw_policy.specs.FieldNames.{name_of};

    /// The name that stands in the text; that of a name that doesn't belong there is `unknown`.
    pub fn name(self) -> &'static str
        ensures { result.now ≡ name_of self }
    {
        match self {
            PolicyField::Key => "key",
            PolicyField::Rule => "rule",
            PolicyField::From => "from",
            PolicyField::To => "to",
            PolicyField::Proportional => "proportional",
            PolicyField::Unknown => "unknown",
        }
    }
}

/// The first fault of a text.
#[derive(Clone, Copy, Debug, Drop, PartialEq, Eq, Error)]
pub enum PolicyFault {
    /// The text is not UTF-8, or no TOML document.
    #[error("the text is no TOML document")]
    Syntax,
    /// A field is missing or of another kind; a rule has both or neither of `to` and `proportional`; or there is an unknown field.
    #[error("the field {0} is missing, of another kind or unknown")]
    Field(PolicyField),
    /// A field is too small or too large.
    #[error("the field {0} is too small or too large")]
    Limit(PolicyField),
    /// A group is the `from` of two rules.
    #[error("a group gives its cost away twice")]
    DoubleFrom,
    /// A group that is given to is a rule's `from`.
    #[error("a group that is given to gives its cost away")]
    TargetIsFrom,
    /// Memory ran out.
    #[error("out of memory")]
    NoMemory,
}

impl From<AllocError> for PolicyFault {
    ghost from_gives = { λ _ fault. fault ≡ NoMemory };

    fn from(_refused: AllocError) -> PolicyFault {
        PolicyFault::NoMemory
    }
}

impl<T: Drop> From<AllocFailed<T>> for PolicyFault {
    ghost from_gives = { λ _ fault. fault ≡ NoMemory };

    fn from(_refused: AllocFailed<T>) -> PolicyFault {
        PolicyFault::NoMemory
    }
}
