//! `focusd compare`: what each group cost in a range of time and in the one before, and the differences.
ghost use Rattle.std.specs.Prelude.{◌≡◌, Some, false, codes, option_map};

use crate::ids::{BEFORE, BEFORE_TO, BY};
use crate::options::{
    command_with, folder_option, format_option, report_workers_option, time_option, top_option,
};
use crate::parameter::Parameter;
use crate::past::as_of_option;
use crate::ranges::{from_option, last_option, month_option, to_option};
use crate::selection::{column_option, map_option, tags_option, where_not_option, where_option};
use crate::what_if::compared_policy_option;
use clap::Command;
use std::alloc::{AllocError, Global};

const EXAMPLE: &str =
    "The range is chosen as that of focusd report. It is compared with the hours just before it: as many months where it has whole
months, else as many hours. --before T compares it with the hours from T on, as many again, and --before-to T ends them elsewhere.
Which hours these are is said on standard error.

There is a line for each group that one of the two ranges has; what a range hasn't cost nothing there. The line with the largest
rise of ChargedCost goes first, then smaller rises, then what fell, the largest fall last; groups of one difference stand in the
order of their names. Share is the part of the whole difference, in percent with one digit, the nearest, a tie away from 0; it has
a minus where a group went the other way, and there is none where the whole difference is 0. A table shows cents, rounded from the
exact sums; csv and json are exact, to the nano. The differences of all groups sum to the difference of the sums.

With several --tag, --column or with --by, groups are those of several values: so the SKUs are found that make a difference. Such
groups have no ChargedCost, since a policy shares the costs of a whole range by one tag, and are ordered by EffectiveCost. --where,
--where-not, --map and --as-of do what they do in a report, and so does --policy: both ranges are charged under the policy of FILE.

With --top N the first N lines are shown; one line, (others), has the sums of all others.

Examples:
  what each team cost in September, beside August
    focusd compare --dir costs --tag team --month 2024-09
  the five teams that rose most, beside September a year before
    focusd compare --dir costs --tag team --month 2024-09 --before 2023-09 --top 5
  the SKUs that make the difference of one team
    focusd compare --dir costs --tag team --by SkuId --where team=search --month 2024-09
  for a program
    focusd compare --dir costs --tag team --from 2024-09 --to 2024-10 --before 2024-08 --format json | jq '.total.difference'";

/// The formats of a comparison.
const FORMATS: [&str; 3] = ["table", "csv", "json"];

// The option that names one more key.
fn key_option() -> Parameter
    ensures { result.is_needed ≡ false }
{
    Parameter::option(
        BY,
        "KEY",
        "One more key of the groups, a column or a tag: what makes the differences, as SkuId",
    )
}

// The option that says when the hours before begin.
fn before_option() -> Parameter
    ensures { result.is_needed ≡ false }
{
    time_option(
        BEFORE,
        "When the hours begin that the range is compared with; without it, they end where it begins",
    )
}

// The option that says when the hours before end.
fn before_to_option() -> Parameter
    ensures { option_map (λ id. id.now) result.beside ≡ Some (codes "before") }
{
    time_option(
        BEFORE_TO,
        "When these hours end; without it, they are as long as the range",
    )
    .beside(BEFORE)
}

/// The command's part of the command line.
pub(crate) fn command<'a>(alloc: Global) -> Result<Command<'a>, AllocError> {
    let parameters = [
        folder_option(),
        tags_option(),
        column_option(),
        key_option(),
        where_option(),
        where_not_option(),
        map_option(),
        from_option(),
        to_option(),
        month_option(),
        last_option(),
        before_option(),
        before_to_option(),
        top_option().saying("Shows the first N lines, and the sums of all others: 1 to 1,000"),
        as_of_option(),
        compared_policy_option(),
        format_option(FORMATS.as_slice(), "table", "How the comparison is written"),
        report_workers_option(),
    ];
    command_with(
        alloc,
        "compare",
        "Compares the costs of a range of time with those of the range before",
        EXAMPLE,
        &parameters,
    )
}
