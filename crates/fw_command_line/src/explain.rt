//! `focusd explain`: what a code means, and what to do.
ghost use Rattle.std.specs.Prelude.{◌≡◌, false};

use crate::ids::CODE;
use crate::options::command_with;
use crate::parameter::{Parameter, Takes};
use clap::Command;
use std::alloc::{AllocError, Global};

const EXAMPLE: &str = "Without a CODE it prints a line for each code.

Example: what `refused V5 Cost 17` means
  focusd explain V5";

// The argument that is a code.
fn code_argument() -> Parameter
    ensures { result.is_needed ≡ false }
{
    Parameter::argument(
        CODE,
        Takes::One("CODE"),
        "A code that focusd printed: a letter and a number, as V5, or NoMemory",
    )
}

/// The command's part of the command line.
pub(crate) fn command<'a>(alloc: Global) -> Result<Command<'a>, AllocError> {
    let parameters = [code_argument()];
    command_with(
        alloc,
        "explain",
        "Says what a code means, and what to do about it",
        EXAMPLE,
        &parameters,
    )
}
