//! The options that say which hours a question covers.
ghost use Rattle.std.specs.Prelude.{◌≡◌, ◌∷◌, [], false, map, codes};

use crate::ids::{FROM, LAST, MONTH, TO};
use crate::options::time_option;
use crate::parameter::{Parameter, Takes};

/// The option that says when the range of a question begins.
pub(crate) fn from_option() -> Parameter
    ensures { result.is_needed ≡ false }
{
    time_option(
        FROM,
        "When the range begins; without it, at the first hour that has a row",
    )
}

/// The option that says when the range of a question ends.
pub(crate) fn to_option() -> Parameter
    ensures { result.is_needed ≡ false }
{
    time_option(
        TO,
        "When the range ends; the hour that begins then is not in it. Without it, behind the last hour that has a row",
    )
}

// What says otherwise which hours a month's range has.
const APART_FROM_MONTH: [&str; 3] = [FROM, TO, LAST];

/// The option that names the month of a range.
pub(crate) fn month_option() -> Parameter
    ensures { map (λ id. id.now) result.apart.now
        ≡ (codes "from" ∷ codes "to" ∷ codes "last" ∷ []) }
{
    Parameter::option(MONTH, "MONTH", "The range is this month, as 2024-09").apart_from(
        APART_FROM_MONTH.as_slice(),
    )
}

/// What help calls the values of `--last`.
const LAST_VALUES: [&str; 2] = ["N", "UNIT"];

// What says otherwise which hours the last ones are.
const APART_FROM_LAST: [&str; 2] = [FROM, TO];

/// The option that takes so many hours, days or months at the end of the rows.
pub(crate) fn last_option() -> Parameter
    ensures { map (λ id. id.now) result.apart.now ≡ (codes "from" ∷ codes "to" ∷ []) }
{
    Parameter::option(
        LAST,
        "N",
        "The range is the last N hours, days or months that have rows, as 3 months",
    )
    .taking(Takes::Named(LAST_VALUES.as_slice()))
    .apart_from(APART_FROM_LAST.as_slice())
}
