//! `focusd load`: files are loaded side by side.
ghost use Rattle.std.specs.Prelude.{◌≡◌, false};
ghost use Rattle.fw_command_line.specs.declared.parameter.Value.TheVariants.{Number};

use crate::ids::{ANALYSTS, ORIGIN};
use crate::options::{
    command_with, create_option, currency_option, dir_option, files_argument, strict_option,
};
use crate::parameter::Parameter;
use clap::Command;
use std::alloc::{AllocError, Global};

const HELP: &str =
    "Each FILE is a CSV of at most 4,096 charge rows, and is posted whole, from a thread of its own. What waits together is stored as one
group, with one sync for all of it. There are at most 64 files.

File number I is entry 1 of the origin ORIGIN.I. So files that are loaded again are answered `already 1`: give a later load
another --origin.

It prints for each file, in their order, its number and `accepted`, or what else became of it: `already L`, `gap E`, `refused CODE NAME`,
`unknown` where the disk failed while the file's group was written, `closed` where nothing of it is stored, `no memory`. Then `stale N`: analysts
view the warehouse meanwhile, and N counts the views that lacked an accepted file that the analyst knew of. N is 0. The last line has the counts
of entries, rows and commitments, and whether a policy holds. Meanwhile the number of stored files is shown where standard error is a terminal.

Example: three files into a new warehouse, then two more
  focusd load --dir costs --create --origin aws-2024-01 one.csv two.csv three.csv
  focusd load --dir costs --origin aws-2024-02 four.csv five.csv

Exit status: 0 where each file was answered, also by `refused`; 1 where the disk failed or had no room; 2 where the command line is wrong;
3 with --strict where a file was answered neither `accepted` nor `already`.";

// The option that says how many analysts there are.
fn analysts_option() -> Parameter
    ensures { result.value ≡ Number 16 }
{
    Parameter::option(
        ANALYSTS,
        "N",
        "How many analysts view the warehouse meanwhile: 1 to 16",
    )
    .or("1")
    .up_to(16)
}

// The option that names the origins.
fn origin_option() -> Parameter
    ensures { result.is_needed ≡ false }
{
    Parameter::option(ORIGIN, "NAME", "The first part of the names of the origins").or("f")
}

/// The command's part of the command line.
pub(crate) fn command<'a>(alloc: Global) -> Result<Command<'a>, AllocError> {
    let parameters = [
        currency_option(),
        dir_option().saying(
            "Keeps the warehouse in this folder, which has to be there; without it the warehouse is in memory",
        ),
        create_option("Creates the warehouse in the folder; without --dir it changes nothing"),
        analysts_option(),
        origin_option(),
        strict_option(),
        files_argument("FILE", "A CSV with the columns of FOCUS 1.0"),
    ];
    command_with(
        alloc,
        "load",
        "Takes up to 64 CSV files into a warehouse side by side",
        HELP,
        &parameters,
    )
}
