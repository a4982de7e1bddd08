//! `focusd coverage`: how well commitments were used in a range of time.
use crate::options::{command_with, folder_option, format_option};
use crate::past::as_of_option;
use crate::ranges::{from_option, last_option, month_option, to_option};
use clap::Command;
use std::alloc::{AllocError, Global};

const EXAMPLE: &str =
    "T is a month (2024-01), a date (2024-01-31) or a time on a whole hour (2024-01-31T14:00Z), in UTC, and
stands for the hour at which it begins. The range has the hours from --from up to, not including, --to, at
most 26,304 of them: --month 2024-01 is --from 2024-01 --to 2024-02. Without these options it has all hours from
the first row to the last one, and --last 3 months is the last three months of these; no clock is read. Rows of
posts that were withdrawn don't count. Where the range comes from the rows, it is said on standard error.

Each line is a commitment that runs in the range, or was paid for there. Capacity is its capacity of each hour
of its term in the range, in its unit, or in the currency where it is one to a cost; Used is what rows used of
it, and Share is Used in percent of Capacity. UsedCost and UnusedCost are the EffectiveCost of the commitment's
Used and Unused lines: what its purchases cost, spread over its term. BilledCost is what was paid for it in the
range. A table shows hundredths and cents, rounded from the exact sums; csv is exact, to the nano.

With --as-of N the answer is as of the first N entries of the warehouse: how it was when focusd status said that it had N entries.

Example: which commitments were paid for and not used in January 2024
  focusd coverage --dir costs --month 2024-01";

/// The formats of a coverage.
const FORMATS: [&str; 2] = ["table", "csv"];

/// The command's part of the command line.
pub(crate) fn command<'a>(alloc: Global) -> Result<Command<'a>, AllocError> {
    let parameters = [
        folder_option(),
        from_option(),
        to_option(),
        month_option(),
        last_option(),
        as_of_option(),
        format_option(FORMATS.as_slice(), "table", "How the coverage is written"),
    ];
    command_with(
        alloc,
        "coverage",
        "Shows how well commitments were used in a range of time",
        EXAMPLE,
        &parameters,
    )
}
