//! The names that may stand in a commitment.
ghost use Rattle.std.specs.Prelude.{◌↔◌, IsTrue};
ghost use Rattle.fw_toml.specs.Tree.{stated, HasOnly};
ghost use Rattle.fw_commitment.specs.FieldNames.{names_of};

use fw_charge::DiscountKind;
use fw_toml::{Table, has_only};

/// Whether a table has no name but those of a commitment of the kind.
pub(crate) fn has_only_known(table: &Table, kind: DiscountKind) -> bool
    ensures { IsTrue result ↔ HasOnly (names_of kind) (stated table.now) }
{
    match kind {
        DiscountKind::Usage => has_only(
            table,
            &[
                "id",
                "category",
                "start",
                "hours",
                "capacity",
                "unit",
                "skus",
                "sub_account",
                "tags",
                "purchase",
            ],
        ),
        DiscountKind::Spend => has_only(
            table,
            &[
                "id",
                "category",
                "start",
                "hours",
                "capacity",
                "rates",
                "sub_account",
                "tags",
                "purchase",
            ],
        ),
    }
}
