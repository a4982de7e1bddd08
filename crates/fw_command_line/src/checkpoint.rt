//! `focusd checkpoint`: the warehouse is written anew.
use crate::options::folder_command;
use clap::Command;
use std::alloc::{AllocError, Global};

const EXAMPLE: &str =
    "Writes the whole warehouse anew, so that opening it needn't read a long log. No answer changes. It costs as
much as writing the warehouse: make one when `focusd status` says that it pays.

Example:
  focusd checkpoint --dir costs";

/// The command's part of the command line.
pub(crate) fn command<'a>(alloc: Global) -> Result<Command<'a>, AllocError> {
    folder_command(
        alloc,
        "checkpoint",
        "Writes a warehouse anew, so that it opens without a long log",
        EXAMPLE,
    )
}
