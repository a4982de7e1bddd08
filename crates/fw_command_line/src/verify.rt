//! `focusd verify`: whether the files of a warehouse are sound.
ghost use Rattle.std.specs.Prelude.{◌≡◌, false};
ghost use Rattle.clap.specs.declared.builder.action.ArgAction.TheVariants.{SetTrue};

use crate::ids::{DIGEST, EXPECT};
use crate::options::{command_with, folder_option, summary_option};
use crate::parameter::Parameter;
use clap::Command;
use std::alloc::{AllocError, Global};

const EXAMPLE: &str =
    "Reads both headers, and the body and the log in use to their ends, and judges each entry again after those before
it. Nothing is changed. Prints `sound` and what the warehouse holds, with status 0; or, with status 1, what is
wrong: `focusd: S2 Corrupt` and on the next line the file and the byte of the first fault.

A sound file isn't always the one that was written: where a byte of an amount was changed, the row has another amount
and keeps all rules. --digest finds that. It prints the SHA-256 of the currency and of all entries in order, as
64 hex digits: the same before and after a checkpoint, in a copy of the folder, and in the warehouse that a dump makes.
Each entry that is added changes it. --expect compares: where the digest is another one, both are named, with status 1.

For programs, --summary json prints one line in place of that: {\"command\":\"verify\",\"ok\":true,\"entries\":12}, with
\"digest\" where one is printed or compared.

Examples:
  focusd verify --dir costs
  what was written, and whether it is still there
    focusd verify --dir costs --digest > costs.digest
    focusd verify --dir costs --expect $(cat costs.digest)";

// The option that prints the digest.
fn digest_option() -> Parameter
    ensures { result.action ≡ SetTrue }
{
    Parameter::flag(DIGEST, "Prints the digest of all entries, and nothing else")
}

// The option that names the digest that the warehouse should have.
fn expect_option() -> Parameter
    ensures { result.is_needed ≡ false }
{
    Parameter::option(
        EXPECT,
        "HEX",
        "Compares the digest with this one, of 64 hex digits",
    )
}

/// The command's part of the command line.
pub(crate) fn command<'a>(alloc: Global) -> Result<Command<'a>, AllocError> {
    let parameters = [
        folder_option(),
        digest_option(),
        expect_option(),
        summary_option(),
    ];
    command_with(
        alloc,
        "verify",
        "Reads a warehouse whole, and says whether its files are sound",
        EXAMPLE,
        &parameters,
    )
}
