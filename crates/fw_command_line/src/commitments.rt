//! `focusd commitments`: what commitments cost, covered and saved in a range of time.
ghost use Rattle.std.specs.Prelude.{◌≡◌, false};

use crate::ids::PRICE_TAG;
use crate::options::{by_option, command_with, folder_option, format_option};
use crate::parameter::Parameter;
use crate::past::as_of_option;
use crate::ranges::{from_option, last_option, month_option, to_option};
use crate::selection::{column_option, tags_option};
use clap::Command;
use std::alloc::{AllocError, Global};

const EXAMPLE: &str =
    "T is a month (2024-01), a date (2024-01-31) or a time on a whole hour (2024-01-31T14:00Z), in UTC, and
stands for the hour at which it begins. The range has the hours from --from up to, not including, --to, at
most 26,304 of them: --month 2024-01 is --from 2024-01 --to 2024-02. Without these options it has all hours from
the first row to the last one, and --last 3 months is the last three months of these; no clock is read. Rows of
posts that were withdrawn don't count. Where the range comes from the rows, it is said on standard error.

Each line is a commitment; with --tag and --column, four at most, it is a value of each. Keeper says whose the
commitments are: own ones were added to the warehouse, which spreads their purchases; those of a provider are named
by rows, which have their amortized cost in EffectiveCost already.

AmortizedCost is the EffectiveCost of what was used and of what was left unused; UnusedCost is the second part.
Utilization is what was used in percent of AmortizedCost. CoveredCost is what was used at the rows' own prices: the
part of the EffectiveCost of each row that the commitment took. EligibleCost is what could have been covered: the
EffectiveCost of the rows to which a commitment applies. Coverage is CoveredCost in percent of EligibleCost,
Savings is CoveredCost less AmortizedCost, and SavingsRate is Savings in percent of EligibleCost. A row to which two
commitments apply is eligible for both, and counts once in the total. Prices of a provider's rows aren't known, so
these stay empty, unless --price-tag names the tag that has them: a column such as ListCost or ContractedCost that was
kept by focusd import --keep. Then CoveredCost of a provider's commitments is the sum of that tag's amounts over the rows
whose CommitmentDiscountStatus is Used, Savings is CoveredCost less AmortizedCost, and SavingsRate is Savings in percent
of CoveredCost. What they could have covered stays unknown. Rows of these that have no amount there add nothing to
CoveredCost; they are counted, in UnpricedRows of csv, in unpricedRows of json and below a table.

The quantities of own commitments are in a table of their own, unit by unit: the capacity, what rows used of it, and
what they could have used. There Utilization and Coverage are what was used in percent of the one and of the other. The
unit of a commitment to a cost is the currency. A row counts once in a unit, and a group has no capacity of its own.

A table and a page (html) show cents, and percent with one digit after the point, rounded from the exact sums; csv and json
are exact, to the nano, and have both parts of each rate. With --by the range is cut where a new hour, day or month begins.
A page has all figures, and with --by a chart too.

With --as-of N the answer is as of the first N entries of the warehouse: how it was when focusd status said that it had N entries.

Examples:
  what commitments saved in January 2024, each and all together
    focusd commitments --dir costs --month 2024-01
  which teams used them, month by month
    focusd commitments --dir costs --tag team --last 6 months --by month
  what providers' commitments saved against the list price, which an import kept
    focusd import --dir costs --origin aws --keep ListCost aws.csv
    focusd commitments --dir costs --month 2024-01 --price-tag ListCost
  a page of half a year with a chart, to open in a browser
    focusd commitments --dir costs --last 6 months --by month --format html > commitments.html
  the unused cost of all own commitments, for a program
    focusd commitments --dir costs --month 2024-01 --format json | jq -r '.records[] | select(.kind == \"total\") | .unusedCost'";

/// The formats of the figures.
const FORMATS: [&str; 4] = ["table", "csv", "json", "html"];

// The option that names the tag that has prices.
fn price_tag_option() -> Parameter
    ensures { result.is_needed ≡ false }
{
    Parameter::option(
        PRICE_TAG,
        "TAG",
        "The tag that has what a provider's covered rows would have cost, such as ListCost",
    )
}

/// The command's part of the command line.
pub(crate) fn command<'a>(alloc: Global) -> Result<Command<'a>, AllocError> {
    let parameters = [
        folder_option(),
        tags_option(),
        column_option(),
        price_tag_option(),
        from_option(),
        to_option(),
        month_option(),
        last_option(),
        by_option(),
        as_of_option(),
        format_option(FORMATS.as_slice(), "table", "How the figures are written"),
    ];
    command_with(
        alloc,
        "commitments",
        "Shows what commitments cost, covered and saved in a range of time",
        EXAMPLE,
        &parameters,
    )
}
