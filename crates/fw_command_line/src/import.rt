//! `focusd import`: CSV exports of any length are taken into a warehouse.
ghost use Rattle.std.specs.Prelude.{◌≡◌, true};

use crate::dialects::dialect_option;
use crate::exports::exports_argument;
use crate::ids::ORIGIN;
use crate::keeps::keep_option;
use crate::options::{
    command_with, create_option, currency_option, folder_option, quiet_option, summary_option,
    workers_option,
};
use crate::parameter::Parameter;
use clap::Command;
use std::alloc::{AllocError, Global};

const HELP: &str =
    "The records of each FILE are posted in order, as many as a post can have: 4,096 rows, and 2 MiB of the file. `-` is
standard input. A file's first record is its header, which may be another one in each file. A folder stands for its files whose
names end in `.csv`, in the byte order of their names; folders in it are passed over.

ORIGIN names the sender: 1 to 64 ASCII letters, digits, `-`, `_` and `.`. The posts of its files are its entries 1, 2, 3 ..
in the order of the files. So give each export an origin of its own, or list all files of an origin, from the first one on.

An import that was stopped goes on where it stopped: run it again with the same files. Each post that is there already is
compared with the file; where they differ, as when a file has changed, the import stops and says so. A post is taken whole
or not at all, and it is on the disk, by the word of the system, before the next one is read.

`--keep` adds a tag to each row: the text that the record has in the column. An empty text adds none. A record whose Tags has the
tag already is a fault, and so is a header that doesn't have the column once. The tags are part of the rows that are compared: so
run an import again with the same `--keep` options, else it says that the rows differ.

`--dialect gcp` reads files as BigQuery exports Google's costs: times such as `2024-09-01 00:00:00 UTC`, and Tags that are a list,
`[{\"key\":\"team\",\"value\":\"web\"}]`. Fields in the form of FOCUS may stand beside these. Those of neither form are faults, and
so is a list in which a key stands twice.

Where the rows won't fit into the warehouse, that is said, and nothing is imported. Two warnings change no status. One names an
hour and a sub-account of the new rows of which another origin has rows too: the same export may have been imported before. One
says how many posts that count the origin has behind those of the files: an export may have shrunk, or a file is missing.

`--workers N` reads the next N posts while one is stored: with 4 an import of a long file takes half as long by the clock, where there
are so many processors. Each worker takes some 5 MB more.

For programs, `--summary json` prints one line in place of the words: {\"command\":\"import\",\"ok\":true,\"rowsAdded\":3,\"rowsThere\":0,
\"posts\":1,\"repeatedHeaders\":0}. It is printed also where the import stopped: what is counted then is in the warehouse.

Progress is printed to standard error where that is a terminal: the rows, the megabytes, and of files also the share that was
read and the time that is left.

Example: an export into a new warehouse, and one that is compressed
  focusd import --dir costs --create --origin aws-2024-01 january.csv
  zcat february.csv.gz | focusd import --dir costs --origin aws-2024-02 -

Example: the name of the service as the tag `service`, and the region as the tag `RegionId`
  focusd import --dir costs --origin aws-2024-03 --keep ServiceName=service --keep RegionId march.csv

Example: Google's costs, as BigQuery exports them
  focusd import --dir costs --origin gcp-2024-03 --dialect gcp focus-000000000000.csv

Exit status: 0 where all rows are in the warehouse, 1 where a file or the warehouse was refused or failed, 2 where the command
line is wrong.";

// The option that names who sends the rows.
fn origin_option() -> Parameter
    ensures { result.is_needed ≡ true }
{
    Parameter::option(ORIGIN, "NAME", "Who sends the rows").needed()
}

/// The command's part of the command line.
pub(crate) fn command<'a>(alloc: Global) -> Result<Command<'a>, AllocError> {
    let parameters = [
        folder_option(),
        create_option(
            "Creates a warehouse where the folder holds none, and the folder where there is none",
        ),
        currency_option(),
        origin_option(),
        keep_option(),
        dialect_option(),
        workers_option(
            "How many workers read the posts ahead of the one that is stored: 1 to 64; what is stored stays the same",
        ),
        summary_option(),
        quiet_option(),
        exports_argument(),
    ];
    command_with(
        alloc,
        "import",
        "Takes CSV exports of any length into a warehouse",
        HELP,
        &parameters,
    )
}
