//! The argument of the commands that take exports.
ghost use Rattle.std.specs.Prelude.{◌≡◌, true};

use crate::options::files_argument;
use crate::parameter::Parameter;

/// What an argument that names exports takes.
const EXPORTS: &str =
    "A CSV with the columns of FOCUS 1.0, a folder of such files, or `-` for standard input";

/// The argument that names an export or more.
pub(crate) fn exports_argument() -> Parameter
    ensures { result.is_needed ≡ true }
{
    files_argument("FILE", EXPORTS)
}
