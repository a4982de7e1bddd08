//! `focusd add`: commitments, policies and purchases are taken from TOML files into a warehouse.
ghost use Rattle.std.specs.Prelude.{◌≡◌, true};

use crate::ids::ORIGIN;
use crate::options::{
    command_with, dry_run_option, files_argument, folder_option, summary_option, yes_option,
};
use crate::parameter::Parameter;
use clap::Command;
use std::alloc::{AllocError, Global};

const HELP: &str =
    "Each FILE is one commitment, one policy, or one purchase that is added to a commitment. Its top-level names say which it is:
`category`, `start`, `hours`, `capacity`, `unit`, `skus`, `rates` or `purchase` make it a commitment, `key` or `rule` a policy,
and `at` or `billed` without these a purchase. `-` is standard input.

All files are read and checked first. Where one has a fault, that is printed with its line, and nothing is added. Then each
file is added in turn, as the next entry of the origin NAME: 1 to 64 ASCII letters, digits, `-`, `_` and `.`.

A file that was added before is known again, and changes nothing. A commitment is never changed: one of the same id with other
terms is refused. A policy takes the place of the one that holds; where its key is another one, only with --yes. A purchase is
spread over the whole term of its commitment, so reports of hours that are over change too. Where the commitment has one of the
same instant and amount already, it is added again only with --yes.

With --dry-run nothing is written. It says what each file is, for a purchase what its commitment would cost with it, and for a
commitment how many rows of the warehouse it applies to, and why not to others of its SKUs. So a unit that is misspelled is seen
before the commitment is there for good.

Example: a commitment of two hours of use each hour, bought for September
  printf '%s\\n' 'id = \"cd-1\"' 'category = \"Usage\"' 'start = \"2024-09-01T00:00Z\"' 'hours = 720' \\
    'capacity = \"2\"' 'unit = \"Hours\"' 'skus = [\"vm\"]' '[[purchase]]' 'at = \"2024-09-01T00:00Z\"' 'billed = \"14.4\"' > cd-1.toml
  focusd add --dir costs --origin billing --dry-run cd-1.toml
  focusd add --dir costs --origin billing cd-1.toml

  prints
    cd-1.toml: commitment cd-1: entry 5 (billing 3)

For programs, --summary json prints one line in place of the words: {\"command\":\"add\",\"ok\":true,\"added\":1,\"same\":0}.

Exit status: 0 where each file was added or was there already, 1 where a file or the warehouse was refused or failed, 2 where the
command line is wrong.";

// The option that names who sends the files.
fn origin_option() -> Parameter
    ensures { result.is_needed ≡ true }
{
    Parameter::option(ORIGIN, "NAME", "Who sends the files").needed()
}

/// The command's part of the command line.
pub(crate) fn command<'a>(alloc: Global) -> Result<Command<'a>, AllocError> {
    let parameters = [
        folder_option(),
        origin_option(),
        dry_run_option("Writes nothing: says what each file is, and which rows it would apply to"),
        yes_option(
            "Lets a policy take the place of another key's, and adds an equal purchase again",
        ),
        summary_option(),
        files_argument(
            "FILE",
            "A TOML with a commitment, a policy or a purchase, or `-` for standard input",
        ),
    ];
    command_with(
        alloc,
        "add",
        "Takes commitments, policies and purchases from TOML files into a warehouse",
        HELP,
        &parameters,
    )
}
