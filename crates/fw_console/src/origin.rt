//! Who sends entries.
ghost use Rattle.std.specs.Prelude.{◌≡◌};
ghost use Rattle.std.specs.Process.{exit_status};
ghost use Rattle.fw_console.specs.Statuses.{wrong_use_status};

use crate::fault::WRONG_USE;
use std::process::ExitCode;

/// Says that the value of `--origin` is no name of an origin.
pub fn wrong_origin(rt: &HostRuntime, origin: &str) -> ExitCode
    ensures { exit_status result ≡ wrong_use_status }
{
    let _ = eprintln!(rt;
        "focusd: --origin: {origin:?} is not 1 to 64 ASCII letters, digits, `-`, `_` and `.`, e.g. aws-2024-01"
    );
    ExitCode::from(WRONG_USE)
}
