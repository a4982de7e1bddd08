//! The option that names the form that exports have.
ghost use Rattle.std.specs.Prelude.{◌≡◌, false};

use crate::ids::DIALECT;
use crate::parameter::Parameter;

/// The forms, each by its name.
const DIALECTS: [&str; 1] = ["gcp"];

/// The option that names the form that exports have, where that isn't the one of FOCUS.
pub(crate) fn dialect_option() -> Parameter
    ensures { result.is_needed ≡ false }
{
    Parameter::option(
        DIALECT,
        "NAME",
        "Reads times and tags in the form of a provider: gcp, that of BigQuery's exports",
    )
    .one_of(DIALECTS.as_slice())
}
