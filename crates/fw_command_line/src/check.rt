//! `focusd check`: all faults of CSV exports, and what is in them.
ghost use Rattle.std.specs.Prelude.{◌≡◌, false};

use crate::dialects::dialect_option;
use crate::exports::exports_argument;
use crate::ids::CURRENCY;
use crate::keeps::keep_option;
use crate::options::{command_with, format_option, quiet_option, summary_option};
use crate::parameter::Parameter;
use clap::Command;
use std::alloc::{AllocError, Global};

const HELP: &str =
    "Each record is checked as a post's record is. Of a record with several faults each one is found: a field at fault is taken
for a harmless one, and the record is checked again. Faults are grouped by code and column, each group with its first three
places. Rows, hours, sums and tags are those of the records without a fault.

`-` is standard input. A folder stands for its files whose names end in `.csv`, in the byte order of their names; folders in it are
passed over.

No warehouse is read. So it doesn't say what `focusd import` warns of or refuses: rows of hours and sub-accounts that another
origin has too, posts behind those of the files, rows that won't fit, and ids of commitments of the warehouse.

`--keep` checks as an import with it reads: a record whose Tags has the tag already is a fault, and so is a header that doesn't have
the column once. Of each kept column it prints how many rows have the tag, how many values it has, and the ten that most rows have.

A row that repeats an earlier one of its file, with the same values of all that is read and of kept columns, is no fault. Behind
the counts a warning says how many do, with the first ten and the record that each repeats. They are found by two hashes of 64 bits:
24 bytes of memory for each row, and no row is missed.

`--format json` prints all of that, one line for each file. `--summary json` prints one line for all files in its place, with counts
alone: {\"command\":\"check\",\"ok\":false,\"files\":2,\"records\":5,\"badRecords\":1,\"faults\":1}.

`--dialect gcp` reads files as BigQuery exports Google's costs: times such as `2024-09-01 00:00:00 UTC`, and Tags that are a list,
`[{\"key\":\"team\",\"value\":\"web\"}]`. Where a file looks so and the option is missing, that is said behind the faults.

Example:
  focusd check january.csv
  focusd check --dialect gcp focus-000000000000.csv
  focusd check --keep ServiceName=service january.csv

Exit status: 0 where no file has a fault, 1 where one has or can't be read, 2 where the command line is wrong.";

/// The formats of the answer.
const FORMATS: [&str; 2] = ["text", "json"];

// The option that names the currency of all costs.
fn cost_currency() -> Parameter
    ensures { result.is_needed ≡ false }
{
    Parameter::option(
        CURRENCY,
        "CUR",
        "The currency that all costs must have: three capital letters",
    )
    .or("USD")
}

/// The command's part of the command line.
pub(crate) fn command<'a>(alloc: Global) -> Result<Command<'a>, AllocError> {
    let parameters = [
        format_option(FORMATS.as_slice(), "text", "How the answer is written"),
        cost_currency(),
        keep_option(),
        dialect_option(),
        summary_option(),
        quiet_option(),
        exports_argument(),
    ];
    command_with(
        alloc,
        "check",
        "Lists all faults of CSV exports, and what is in them",
        HELP,
        &parameters,
    )
}
