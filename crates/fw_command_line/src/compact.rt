//! `focusd compact`: a warehouse of the entries that count.
ghost use Rattle.std.specs.Prelude.{◌≡◌, true};

use crate::ids::INTO;
use crate::options::{command_with, folder_option, quiet_option};
use crate::parameter::Parameter;
use clap::Command;
use std::alloc::{AllocError, Global};

const HELP: &str =
    "Rows that were withdrawn stay in a warehouse, and count towards the most rows that it can have: 4,194,304. This makes a new warehouse
in the folder NEW of the entries that count: all but withdrawn posts and what withdrew them, in their order and under the same
origins. The numbers of an origin begin at 1 again, without gaps. Every report, list of lines and coverage is the same.

NEW must hold no warehouse; where it isn't there, it is made. The warehouse in DIR stays as it is. Where the command was stopped,
remove NEW, and run it again. Then put NEW in the place of DIR.

Example:
  focusd compact --dir costs --into costs-new

Exit status: 0 where the new warehouse is there, 1 where one of the two was refused or failed, 2 where the command line is wrong.";

// The option that names the folder of the new warehouse.
fn into_option() -> Parameter
    ensures { result.is_needed ≡ true }
{
    Parameter::option(INTO, "NEW", "The folder of the new warehouse").needed()
}

/// The command's part of the command line.
pub(crate) fn command<'a>(alloc: Global) -> Result<Command<'a>, AllocError> {
    let parameters = [folder_option(), into_option(), quiet_option()];
    command_with(
        alloc,
        "compact",
        "Makes a warehouse of the entries that count",
        HELP,
        &parameters,
    )
}
