//! `focusd split`: CSV exports are cut into parts by time and SKU.
ghost use Rattle.std.specs.Prelude.{◌≡◌, true, false};
ghost use Rattle.clap.specs.declared.builder.action.ArgAction.TheVariants.{Append, SetTrue};

use crate::exports::exports_argument;
use crate::ids::{BY, COMMITMENTS, INTO, NO_SYNC, OUT};
use crate::options::{STEPS, command_with, format_option, quiet_option};
use crate::parameter::Parameter;
use clap::Command;
use std::alloc::{AllocError, Global};

const HELP: &str =
    "The rows of the FILEs are dealt to parts by the hour, day or month in which ChargePeriodStart lies, in UTC. A part is an export
with the header of the FILEs and the records as they are, in their order: 2024-09-01T00.csv, 2024-09-01.csv or 2024-09.csv in the
folder of --out, which is made where it isn't there. `-` is standard input. A folder as FILE stands for its files whose names end in
`.csv`, in the byte order of their names.

With --into N each period is dealt to up to N piles, as 2024-09-01.1.csv. SKUs that one commitment lists stay together: name the
commitments by --commitments. Rows of other SKUs go to the pile with the fewest rows. The same commitments, in the same order, give
the same piles in each period and run. --format json lists the parts, and in which pile each commitment belongs.

Of a record only the number of its fields, ChargePeriodStart and, with --into, SkuId are read. Any other fault is found where its part
is imported: `focusd check` lists the faults of the FILEs. No file is overwritten. The parts have their names once all FILEs are read;
until then, and where a run was stopped, they end in `.part`. A fault removes them.

Example: a year of exports by day, for warehouses of a day each
  focusd split --by day --out days 2024-*.csv

Exit status: 0 where all parts are there, 1 where a file has a fault or can't be read or written, 2 where the command line is wrong.";

/// The formats of the answer.
const FORMATS: [&str; 2] = ["text", "json"];

// The option that says by what rows are dealt.
fn period_option() -> Parameter
    ensures { result.is_needed ≡ false }
{
    Parameter::option(BY, "PERIOD", "A part for each hour, day or month")
        .or("day")
        .one_of(STEPS.as_slice())
}

// The option that says how many piles there are.
fn into_option() -> Parameter
    ensures { result.is_needed ≡ false }
{
    Parameter::option(
        INTO,
        "N",
        "How many piles the rows of a period are dealt to: 1 to 1,000, where it isn't given 1",
    )
}

// The option that names commitments.
fn commitments_option() -> Parameter
    ensures { result.action ≡ Append }
{
    Parameter::option(
        COMMITMENTS,
        "FILE",
        "The TOML of a commitment, whose SKUs stay together; can be given again",
    )
    .again()
}

// The option that names the folder of the parts.
fn out_option() -> Parameter
    ensures { result.is_needed ≡ true }
{
    Parameter::option(OUT, "DIR", "The folder of the parts").needed()
}

// The option that leaves it to the system when the parts are on the disk.
fn no_sync_option() -> Parameter
    ensures { result.action ≡ SetTrue }
{
    Parameter::flag(
        NO_SYNC,
        "Doesn't wait until the parts are on the disk: where the machine stops, cut again",
    )
}

/// The command's part of the command line.
pub(crate) fn command<'a>(alloc: Global) -> Result<Command<'a>, AllocError> {
    let parameters = [
        period_option(),
        into_option(),
        commitments_option(),
        out_option(),
        no_sync_option(),
        format_option(FORMATS.as_slice(), "text", "How the answer is written"),
        quiet_option(),
        exports_argument(),
    ];
    command_with(
        alloc,
        "split",
        "Cuts CSV exports into parts by time and SKU",
        HELP,
        &parameters,
    )
}
