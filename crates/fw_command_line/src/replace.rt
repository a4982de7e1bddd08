//! `focusd replace`: what an origin sent is replaced by an export that was sent again.
use crate::dialects::dialect_option;
use crate::exports::exports_argument;
use crate::keeps::keep_option;
use crate::options::{
    command_with, dry_run_option, folder_option, perhaps_from_option, perhaps_to_option,
    poster_option, quiet_option, summary_option,
};
use clap::Command;
use std::alloc::{AllocError, Global};

const HELP: &str =
    "Providers send a month again until it is closed. The rows of the FILEs take the place of those that the origin NAME sent, or, with
--from and --to, of those that it sent for this range. `-` is standard input. A folder stands for its files whose names end in
`.csv`, in the byte order of their names. The warehouse has to be there.

All files are read first, and where one has a fault nothing is done. They are cut into posts as `focusd import` cuts them. A post
of the origin that has the same rows stays; the others are withdrawn; and what the files have more is posted. So a month whose
file grows each day costs what it grew by. Where a post has rows both in the range and outside of it, or a file has rows outside
of it, they are named, and nothing is done.

`--keep` adds a tag to each row: the text that the record has in the column, as `focusd import` adds it. Rows are compared with their
tags: so say the same `--keep` as the import did, else all of its posts are replaced.

`--dialect gcp` reads files as BigQuery exports Google's costs, as `focusd import` does.

A replacement of up to 64 posts, and 8 MiB of them, is one step: a report shows the rows before it or those after. A larger one
takes several. Where it is stopped between them, `focusd status` and `focusd report` say so; run the same command again, and it
ends as if it had not been stopped.

Example: an origin for each month, and one for all of them
  focusd replace --dir costs --origin aws-2024-09 september.csv
  focusd replace --dir costs --origin aws --from 2024-09 --to 2024-10 september.csv
  focusd replace --dir costs --origin aws-2024-09 --keep ServiceName=service september.csv

  prints
    10,803 rows replaced by 10,803; billed -73.80; effective -1.12

For programs, --summary json prints one line in place of the words: {\"command\":\"replace\",\"ok\":true,\"rowsBefore\":10803,
\"rowsAfter\":10803}.

Exit status: 0 where the rows of the files are what counts, 1 where a file or the warehouse was refused or failed, 2 where the
command line is wrong.";

/// The command's part of the command line.
pub(crate) fn command<'a>(alloc: Global) -> Result<Command<'a>, AllocError> {
    let parameters = [
        folder_option(),
        poster_option(),
        perhaps_from_option(),
        perhaps_to_option(),
        keep_option(),
        dialect_option(),
        dry_run_option("Writes nothing: says what would change"),
        summary_option(),
        quiet_option(),
        exports_argument(),
    ];
    command_with(
        alloc,
        "replace",
        "Replaces what an origin sent by an export that was sent again",
        HELP,
        &parameters,
    )
}
