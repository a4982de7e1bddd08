//! `focusd status`: what a warehouse holds.
use crate::options::folder_command;
use clap::Command;
use std::alloc::{AllocError, Global};

const EXAMPLE: &str =
    "Prints the currency, the entries by origin, the rows and the first and last hour that they are of, the
commitments, the policy, how long the body and the log of the warehouse are, and whether a checkpoint pays.

The number of entries is the one to write down when a month is closed: `focusd report --as-of N` answers as of it.

Example:
  focusd status --dir costs";

/// The command's part of the command line.
pub(crate) fn command<'a>(alloc: Global) -> Result<Command<'a>, AllocError> {
    folder_command(alloc, "status", "Says what a warehouse holds", EXAMPLE)
}
