//! `focusd policy`: which policies a warehouse accepted.
ghost use Rattle.std.specs.Prelude.{◌≡◌, true};

use crate::ids::LISTED;
use crate::options::{command_with, folder_option};
use crate::parameter::{Parameter, Takes};
use clap::Command;
use std::alloc::{AllocError, Global};

const EXAMPLE: &str =
    "Prints a line for each policy that the warehouse accepted, in order: the number of its entry among all entries, who sent it
with which number, the tag that it shares costs by, and how many rules it has. The last one applies to all reports, also of
earlier hours; `focusd report --as-of N` asks how it was when the warehouse had N entries.

Example:
  focusd policy list --dir costs";

/// What can be listed.
const LISTS: [&str; 1] = ["list"];

// The argument that says what to do.
fn list_argument() -> Parameter
    ensures { result.is_needed ≡ true }
{
    Parameter::argument(LISTED, Takes::One("WHAT"), "What to do: list the policies")
        .needed()
        .one_of(LISTS.as_slice())
}

/// The command's part of the command line.
pub(crate) fn command<'a>(alloc: Global) -> Result<Command<'a>, AllocError> {
    let parameters = [list_argument(), folder_option()];
    command_with(
        alloc,
        "policy",
        "Lists the policies that a warehouse accepted",
        EXAMPLE,
        &parameters,
    )
}
