//! `focusd export`: the lines behind the costs of a range of time, as rows for other tools.
use crate::options::{command_with, folder_option, format_option};
use crate::past::as_of_option;
use crate::ranges::{from_option, last_option, month_option, to_option};
use clap::Command;
use std::alloc::{AllocError, Global};

const EXAMPLE: &str =
    "T is a month (2024-01), a date (2024-01-31) or a time on a whole hour (2024-01-31T14:00Z), in UTC, and
stands for the hour at which it begins. The range has the hours from --from up to, not including, --to, at
most 26,304 of them: --month 2024-01 is --from 2024-01 --to 2024-02. Without these options it has all hours from
the first row to the last one, and --last 3 months is the last three months of these; no clock is read. Rows of
posts that were withdrawn don't count. Where the range comes from the rows, it is said on standard error. With --as-of N
the rows are those of the warehouse as of its first N entries, as focusd status numbered them: a closed month stays closed.

Each line behind a report becomes a row in the columns of FOCUS 1.0 that the warehouse keeps. Its costs are those
that a report sums. Its period, class and unit are those of the row that it is of; a purchase, and what a commitment left
unused, has the hour that it is of as its period. Tags are an object of JSON. Costs and quantities are exact, with nine
digits after the point. The rows come hour by hour, as they are made, and end well where their reader has had enough.

csv has the names of the columns first, and an empty field for what is null. jsonl has an object of JSON on each
line; costs and quantities are texts there, so that no tool rounds them.

Examples:
  the rows of January 2024 as a table of SQLite
    focusd export --dir costs --month 2024-01 > rows.csv
    sqlite3 costs.db '.import --csv rows.csv rows'
  what each team cost, by jq
    focusd export --dir costs --month 2024-01 --format jsonl | jq -r '[.Tags.team, .EffectiveCost] | @tsv'";

/// The formats of an export.
const FORMATS: [&str; 2] = ["csv", "jsonl"];

/// The command's part of the command line.
pub(crate) fn command<'a>(alloc: Global) -> Result<Command<'a>, AllocError> {
    let parameters = [
        folder_option(),
        from_option(),
        to_option(),
        month_option(),
        last_option(),
        as_of_option(),
        format_option(FORMATS.as_slice(), "csv", "How the rows are written"),
    ];
    command_with(
        alloc,
        "export",
        "Writes what a range of time cost as rows of FOCUS 1.0, for other tools",
        EXAMPLE,
        &parameters,
    )
}
