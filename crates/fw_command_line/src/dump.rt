//! `focusd dump`: a warehouse as a script that makes it again.
use crate::options::folder_command;
use clap::Command;
use std::alloc::{AllocError, Global};

const EXAMPLE: &str =
    "Prints a script with each entry of the warehouse, in order, with its origin and its number: posts as CSV with the
columns that are kept, commitments and policies as TOML. `focusd run` makes the same warehouse of it, with the same
reports to the last byte. Each entry is read back before it is printed, by what reads scripts, and has to be the same.

Scripts name no currency: give the one that `focusd status` prints. A run takes a script of at most 2^30 bytes.
Nothing is changed. The status is 0 where all of it was printed, or where the reader stopped early, as `head` does.

Example: a copy of a warehouse in euros, made anew from its entries; and a backup
  mkdir copy
  focusd dump --dir costs | focusd run --dir copy --create --currency EUR
  focusd dump --dir costs | gzip > costs.script.gz";

/// The command's part of the command line.
pub(crate) fn command<'a>(alloc: Global) -> Result<Command<'a>, AllocError> {
    folder_command(
        alloc,
        "dump",
        "Prints a warehouse as a script that makes it again",
        EXAMPLE,
    )
}
