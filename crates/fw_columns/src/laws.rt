//! Proof-only functions: they say something of the crate's constants, and do nothing.
ghost use Rattle.std.specs.Prelude.{◌≡◌};
ghost use Rattle.fw_row_table.specs.Table.{most_column_rows};

use crate::columns::Columns;

/// The constant is the limit that the contracts name.
pub fn limits_agree()
    ensures { Columns.MOST_ROWS ≡ most_column_rows }
{}
