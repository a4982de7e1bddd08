//! `focusd withdraw`: posts are taken out of all reports.
ghost use Rattle.std.specs.Prelude.{◌≡◌, false};
ghost use Rattle.clap.specs.declared.builder.action.ArgAction.TheVariants.{SetTrue};

use crate::ids::{ALL, SEQ};
use crate::options::{
    command_with, dry_run_option, folder_option, perhaps_from_option, perhaps_to_option,
    poster_option, yes_option,
};
use crate::parameter::Parameter;
use clap::Command;
use std::alloc::{AllocError, Global};

const HELP: &str =
    "A post that is withdrawn counts no more: its rows are in no report, and in no list of lines. It stays in the warehouse, and its
rows still count towards the most rows that a warehouse can have. It can't be taken back: to have rows count again, import them
under another origin, or run `focusd replace`.

Say which posts of the origin NAME: one by its number with --seq, those whose rows all begin in a range with --from and --to, or
all with --all. A post that has rows both in the range and outside of it is named, and then nothing is done.

The posts are listed first, with their rows, hours and costs. Where standard input is a terminal you are asked whether to go on;
elsewhere --yes says so. All are withdrawn at once where they are 64 at most, else 64 at a time; run the command again if it was
stopped. `focusd replace` withdraws and imports in one step.

Example: a month that was imported twice
  focusd withdraw --dir costs --origin aws-again --all

Exit status: 0 where the posts are withdrawn, or none was left to withdraw, 1 where the warehouse refused or failed or you said
no, 2 where the command line is wrong or --yes is missing.";

// The option that names a post by its number.
fn seq_option() -> Parameter
    ensures { result.is_needed ≡ false }
{
    Parameter::option(
        SEQ,
        "N",
        "The post of this number among the origin's entries, from 1 on",
    )
}

// The option that takes all posts.
fn all_option() -> Parameter
    ensures { result.action ≡ SetTrue }
{
    Parameter::flag(ALL, "All posts of the origin")
}

/// The command's part of the command line.
pub(crate) fn command<'a>(alloc: Global) -> Result<Command<'a>, AllocError> {
    let parameters = [
        folder_option(),
        poster_option(),
        seq_option(),
        perhaps_from_option(),
        perhaps_to_option(),
        all_option(),
        dry_run_option("Writes nothing: lists the posts alone"),
        yes_option("Withdraws without asking"),
    ];
    command_with(
        alloc,
        "withdraw",
        "Takes posts out of all reports",
        HELP,
        &parameters,
    )
}
