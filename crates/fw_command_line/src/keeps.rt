//! The option that keeps columns as tags.
ghost use Rattle.std.specs.Prelude.{◌≡◌};
ghost use Rattle.clap.specs.declared.builder.action.ArgAction.TheVariants.{Append};

use crate::ids::KEEP;
use crate::parameter::Parameter;

/// The option that names a column that is kept as a tag, which may be given several times.
pub(crate) fn keep_option() -> Parameter
    ensures { result.action ≡ Append }
{
    Parameter::option(
        KEEP,
        "COLUMN[=TAG]",
        "Keeps the texts of a column as a tag of the rows, which has the name of the column or is TAG",
    )
    .again()
}
