//! The option that asks a warehouse as it was.
ghost use Rattle.std.specs.Prelude.{◌≡◌, false, codes};

use crate::ids::AS_OF;
use crate::parameter::Parameter;

/// The option that asks as of the first so many entries.
pub(crate) fn as_of_option() -> Parameter
    ensures id { result.id.now ≡ codes "as-of" }
    ensures needed { result.is_needed ≡ false }
{
    Parameter::option(
        AS_OF,
        "N",
        "Asks as of the first N entries: how it was when focusd status said N entries",
    )
}
