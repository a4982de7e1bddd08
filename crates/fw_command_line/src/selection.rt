//! The options of a report by several keys, under filters and maps.
ghost use Rattle.std.specs.Prelude.{◌≡◌, ◌∷◌, [], false, map, codes};
ghost use Rattle.clap.specs.declared.builder.action.ArgAction.TheVariants.{Append, SetTrue};

use crate::ids::{COLUMN, MAP, SUM, TAG, TOP, TOTAL_ONLY, WHERE, WHERE_NOT};
use crate::options::tag_option;
use crate::parameter::Parameter;

/// The option that names a tag, which may be given several times.
pub(crate) fn tags_option() -> Parameter
    ensures { result.action ≡ Append }
{
    tag_option()
        .saying("The tag whose values are the groups; several times, for groups of several values")
        .again()
}

/// The columns that lines keep.
const COLUMNS: [&str; 5] = [
    "SkuId",
    "SubAccountId",
    "ChargeCategory",
    "CommitmentDiscountId",
    "CommitmentDiscountStatus",
];

/// The option that names a column whose texts are groups, which may be given several times.
pub(crate) fn column_option() -> Parameter
    ensures { result.action ≡ Append }
{
    Parameter::option(
        COLUMN,
        "COLUMN",
        "A column whose texts are groups, beside the tags or in their place",
    )
    .one_of(COLUMNS.as_slice())
    .again()
}

/// The option that takes the lines on which a key has a value.
pub(crate) fn where_option() -> Parameter
    ensures { result.action ≡ Append }
{
    Parameter::option(
        WHERE,
        "KEY=VALUE",
        "Counts the lines alone on which the tag or column KEY is VALUE, or one of several VALUEs",
    )
    .again()
}

/// The option that leaves out the lines on which a key has a value.
pub(crate) fn where_not_option() -> Parameter
    ensures { result.action ≡ Append }
{
    Parameter::option(
        WHERE_NOT,
        "KEY=VALUE",
        "Leaves out the lines on which the tag or column KEY is VALUE",
    )
    .again()
}

/// The option that names the file of maps.
pub(crate) fn map_option() -> Parameter
    ensures { result.is_needed ≡ false }
{
    Parameter::option(
        MAP,
        "FILE",
        "Renames and joins values by the maps of a TOML file, - for standard input",
    )
}

/// The option that names the tag whose amounts are summed.
pub(crate) fn sum_option() -> Parameter
    ensures { result.is_needed ≡ false }
{
    Parameter::option(
        SUM,
        "TAG",
        "Sums the amounts of rows in this tag too, such as ListCost, which an import kept",
    )
}

// What makes groups.
const APART_FROM_TOTAL_ONLY: [&str; 3] = [TAG, COLUMN, TOP];

/// The option that sums all groups.
pub(crate) fn total_only_option() -> Parameter
    ensures action { result.action ≡ SetTrue }
    ensures apart { map (λ id. id.now) result.apart.now
        ≡ (codes "tag" ∷ codes "column" ∷ codes "top" ∷ []) }
{
    Parameter::flag(
        TOTAL_ONLY,
        "Prints the sums of all lines that count, without groups",
    )
    .apart_from(APART_FROM_TOTAL_ONLY.as_slice())
}
