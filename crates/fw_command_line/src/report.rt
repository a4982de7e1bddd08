//! `focusd report`: what each group of a tag cost in a range of time.
ghost use Rattle.std.specs.Prelude.{◌≡◌, ◌∷◌, [], false, map, codes};
ghost use Rattle.clap.specs.declared.builder.action.ArgAction.TheVariants.{SetTrue};

use crate::ids::{COLUMN, DIRECT, FORMAT, MAP, ONLY, SUM, TOP, TOTAL_ONLY, WHERE, WHERE_NOT};
use crate::options::{
    by_option, command_with, folder_option, report_format_option, report_workers_option, top_option,
};
use crate::parameter::Parameter;
use crate::past::as_of_option;
use crate::ranges::{from_option, last_option, month_option, to_option};
use crate::selection::{
    column_option, map_option, sum_option, tags_option, total_only_option, where_not_option,
    where_option,
};
use crate::what_if::other_policy_option;
use clap::Command;
use std::alloc::{AllocError, Global};

const EXAMPLE: &str =
    "T is a month (2024-01), a date (2024-01-31) or a time on a whole hour (2024-01-31T14:00Z), in UTC, and
stands for the hour at which it begins. The range has the hours from --from up to, not including, --to, at
most 26,304 of them: --month 2024-01 is --from 2024-01 --to 2024-02. Without these options it has all hours from
the first row to the last one, and --last 3 months is the last three months of these; no clock is read. Rows of
posts that were withdrawn don't count. Where the range comes from the rows, it is said on standard error.

Each group is a value of the tag. BilledCost is what was billed; EffectiveCost spreads what commitments cost
over the hours and rows that used them; ChargedCost shares common costs by the policy. A table and a page
(html) show cents, rounded from the exact sums; csv and json are exact, to the nano.

With --by the range is cut where a new hour, day or month begins, and each period has a report of its own.
BilledCost and EffectiveCost of a group sum to those of the whole range; its ChargedCost can differ by a few
nanos, since shares of common costs are rounded in each period. The sum over all groups doesn't differ.

Where no row and no commitment of the range has the tag, or the policy is for another one, that is said on standard
error.

With several --tag and --column, four at most, a group is a list of values, one of each. --where KEY=VALUE counts the
lines alone on which KEY is VALUE; given several times for one KEY, it is one of the VALUEs. --where-not KEY=VALUE leaves
such lines out. All filters have to hold. KEY is a tag, or one of the columns SkuId, SubAccountId, ChargeCategory,
CommitmentDiscountId and CommitmentDiscountStatus; tag:KEY is always a tag. An empty VALUE is a line without KEY.
--map FILE has other texts stand for values, before filters and groups see them:
    [[map]]
    key = \"environment\"
    fold = true
    empty = \"unknown\"
    values = { prod = \"production\", prd = \"production\" }
Such a report has no ChargedCost: a policy shares the costs of a whole range by one tag.

With --sum TAG a column named TAG stands behind the costs: the exact sum of the amounts that the rows of a group have in that
tag, a column such as ListCost or ContractedCost that focusd import --keep kept. Each row counts once, as it was given:
commitments split its costs, and not its amount. Rows that have no amount there add nothing, and how many they are is said
on standard error. Such a report has no ChargedCost, and is no page.

With --top N only the N groups that are charged most over the whole range have lines of their own; one line,
(others), has the sums of all others.

With --only GROUP the report is of one value of the tag, for its owner, and has nothing of the other groups: no name, and no
sum in which their costs are. \"\" is the costs without the tag. Beside what the group cost stands what it was charged in the
hours before: as many months where the range or period has whole months, else as many hours. The difference and its part
of that follow, in percent with one digit. A group that the range hasn't costs nothing there, which is said.

With --as-of N the answer is as of the first N entries of the warehouse: how it was when focusd status said that it had N
entries. Posts that were withdrawn later count in it; purchases, rows and policies that were added later don't. Whatever is
accepted later, that answer stays the same. So write the number down when a month is closed. focusd compact makes
a warehouse of other entries.

With --policy FILE the report is the one under the policy of FILE, a TOML text as focusd add takes it: what the groups would be
charged, or what they were by an earlier policy. Nothing is written, and the policy of the warehouse stays what it is. The tag
of that policy has to be the one --tag. On standard error stands which policy a report applied.

With --direct the sums of BilledCost and EffectiveCost are printed before the policy, in nanos, as one document of JSON. Such
documents of several warehouses, which hold together what one would, are added by `focusd charge`.

Examples:
  what each team cost, in all hours that have rows
    focusd report --dir costs --tag team
  the five teams that cost most in January 2024, day by day
    focusd report --dir costs --tag team --month 2024-01 --by day --top 5
  a page of half a year with a chart, to open in a browser
    focusd report --dir costs --tag team --last 6 months --by month --format html > costs.html
  what teams spend on production, by account
    focusd report --dir costs --tag team --column SubAccountId --where environment=production
  what teams would have spent at list prices, which an import kept
    focusd import --dir costs --origin aws --keep ListCost aws.csv
    focusd report --dir costs --tag team --sum ListCost --month 2024-01
  a page for the owner of one team, with nothing of the others
    focusd report --dir costs --tag team --only search --month 2024-01 --format html > search.html
  January as it was when the warehouse had 1,204 entries
    focusd report --dir costs --tag team --month 2024-01 --as-of 1204
  January under a policy that isn't accepted yet
    focusd report --dir costs --tag team --month 2024-01 --policy new-policy.toml
  the sums by team, for a program
    focusd report --dir costs --tag team --from 2024-01 --to 2024-02 --format json | jq '.total'";

// What shows other groups, or has no group of one tag.
const APART_FROM_ONLY: [&str; 7] = [TOP, DIRECT, COLUMN, WHERE, WHERE_NOT, MAP, SUM];

// The option that shows one group alone.
fn only_option() -> Parameter
    ensures id { result.id.now ≡ codes "only" }
    ensures needed { result.is_needed ≡ false }
    ensures apart { map (λ id. id.now) result.apart.now
        ≡ (codes "top" ∷ codes "direct" ∷ codes "column" ∷ codes "where" ∷ codes "where-not"
        ∷ codes "map" ∷ codes "sum" ∷ []) }
{
    Parameter::option(
        ONLY,
        "GROUP",
        "Shows this value of the tag alone, beside the hours before, and nothing of others",
    )
    .apart_from(APART_FROM_ONLY.as_slice())
}

// What is written otherwise, or has no sums by one tag.
const APART_FROM_DIRECT: [&str; 8] = [TOP, FORMAT, COLUMN, WHERE, WHERE_NOT, MAP, SUM, TOTAL_ONLY];

// The option that leaves the policy out.
fn direct_option() -> Parameter
    ensures action { result.action ≡ SetTrue }
    ensures apart { map (λ id. id.now) result.apart.now
        ≡ (codes "top" ∷ codes "format" ∷ codes "column" ∷ codes "where" ∷ codes "where-not"
        ∷ codes "map" ∷ codes "sum" ∷ codes "total-only" ∷ []) }
{
    Parameter::flag(
        DIRECT,
        "Prints the costs before the policy as a document, which focusd charge adds to others",
    )
    .apart_from(APART_FROM_DIRECT.as_slice())
}

/// The command's part of the command line.
pub(crate) fn command<'a>(alloc: Global) -> Result<Command<'a>, AllocError> {
    let parameters = [
        folder_option(),
        tags_option(),
        column_option(),
        where_option(),
        where_not_option(),
        map_option(),
        sum_option(),
        total_only_option(),
        from_option(),
        to_option(),
        month_option(),
        last_option(),
        by_option(),
        top_option(),
        only_option(),
        as_of_option(),
        other_policy_option(),
        report_format_option(),
        report_workers_option(),
        direct_option(),
    ];
    command_with(
        alloc,
        "report",
        "Sums the costs of a range of time by the values of a tag",
        EXAMPLE,
        &parameters,
    )
}
