//! `focusd charge`: direct reports of several warehouses are added up, and charged under a policy.
ghost use Rattle.std.specs.Prelude.{◌≡◌, false};

use crate::ids::POLICY;
use crate::options::{
    by_option, command_with, files_argument, perhaps_from_option, perhaps_to_option,
    report_format_option, tag_option, top_option,
};
use crate::parameter::Parameter;
use clap::Command;
use std::alloc::{AllocError, Global};

const HELP: &str =
    "A REPORT is what `focusd report --direct` printed of a warehouse that holds some of the rows, with the commitments that apply
to them: a shard. A file has one report, or several, each on a line of its own; `-` is standard input. The reports are added up
by group and period, and then the policy is applied. The answer is what `focusd report` prints of one warehouse with all rows.

All reports have the same tag and currency. Each of their periods has to lie in one period that is asked for: reports by hour can
be charged by hour, day or month, or as a whole. The range is that of the reports; --from and --to make it wider.

Each report counts once for each time that it is named: name no report twice.

Example: two shards, and the bill of September by day
  focusd report --dir shard-1 --tag team --from 2024-09 --to 2024-10 --by day --direct > 1.json
  focusd report --dir shard-2 --tag team --from 2024-09 --to 2024-10 --by day --direct > 2.json
  focusd charge --policy policy.toml --by day --format csv 1.json 2.json

Exit status: 0 where the report was printed, 1 where a file can't be read, is no such report or doesn't go with the others, 2 where
the command line is wrong.";

// The option that names the policy.
fn policy_option() -> Parameter
    ensures { result.is_needed ≡ false }
{
    Parameter::option(
        POLICY,
        "FILE",
        "The TOML of the policy; without one each group is charged what it cost",
    )
}

/// The command's part of the command line.
pub(crate) fn command<'a>(alloc: Global) -> Result<Command<'a>, AllocError> {
    let parameters = [
        tag_option().saying("The tag that the reports must have"),
        policy_option(),
        perhaps_from_option(),
        perhaps_to_option(),
        by_option(),
        top_option(),
        report_format_option(),
        files_argument(
            "REPORT",
            "What focusd report --direct printed, or `-` for standard input",
        ),
    ];
    command_with(
        alloc,
        "charge",
        "Adds direct reports of several warehouses, and charges them under a policy",
        HELP,
        &parameters,
    )
}
