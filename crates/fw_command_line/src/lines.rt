//! `focusd lines`: each line behind the costs of a range of time.
use crate::options::{command_with, folder_option};
use crate::past::as_of_option;
use crate::ranges::{from_option, last_option, month_option, to_option};
use clap::Command;
use std::alloc::{AllocError, Global};

const EXAMPLE: &str =
    "T is a month (2024-01), a date (2024-01-31) or a time on a whole hour (2024-01-31T14:00Z), in UTC, and
stands for the hour at which it begins. The range has the hours from --from up to, not including, --to, at
most 26,304 of them: --month 2024-01 is --from 2024-01 --to 2024-02. Without these options it has all hours from
the first row to the last one, and --last 3 months is the last three months of these; no clock is read. Rows of
posts that were withdrawn don't count. Where the range comes from the rows, it is said on standard error.

The answer is a CSV: a record for each purchase, each row as it was given, each part of a row that a commitment
covered (Used) and did not cover, and each part of a commitment that nothing used (Unused). Hour is counted
from 1970; costs are exact, to the nano.

With --as-of N the answer is as of the first N entries of the warehouse: how it was when focusd status said that it had N entries.

Example: what one day cost, line by line
  focusd lines --dir costs --from 2024-01-31 --to 2024-02-01 > lines.csv";

/// The command's part of the command line.
pub(crate) fn command<'a>(alloc: Global) -> Result<Command<'a>, AllocError> {
    let parameters = [
        folder_option(),
        from_option(),
        to_option(),
        month_option(),
        last_option(),
        as_of_option(),
    ];
    command_with(
        alloc,
        "lines",
        "Lists what a range of time cost, line by line, as CSV",
        EXAMPLE,
        &parameters,
    )
}
