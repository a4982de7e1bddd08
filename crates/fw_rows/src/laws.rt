//! Each text has one reading, and kept columns add tags alone.
ghost use Rattle.std.specs.Prelude.{◌≡◌, ◌≢◌, List, Result, Ok, Err};
ghost use Rattle.fw_charge.specs.Charge.{Charge};
ghost use Rattle.fw_rows.specs.Columns.{Record, text_in};
ghost use Rattle.fw_rows.specs.Kept.{RecordKept, kept_texts, row_with, tags_kept};
ghost use Rattle.fw_rows.specs.Rows.{RowsRead};
ghost use Rattle.fw_rows.specs.Rules.{Stands};
ghost use Rattle.fw_rows.specs.declared.fault.RowFault.{RowFault};
ghost use Rattle.fw_rows.specs.declared.fault.RowFault.TheVariants.{NoMemory};

use crate::keep::Keep;
use fw_charge::Currency;

/// Under a currency a text has one list of rows or one first fault, unless memory runs out.
pub fn rows_read_as_one(text: &[u8], currency: Currency)
    ensures { (r s : Result (List Charge) RowFault) → r ≢ Err NoMemory → s ≢ Err NoMemory
        → RowsRead currency text.now r → RowsRead currency text.now s → r ≡ s }
{}

/// A row that a record reads as with kept columns is the row for which the record stands without them, with the tags
/// added that the texts of these columns are.
pub fn kept_columns_add_tags(keeps: &[Keep], currency: Currency)
    ensures { (header fields : Record) (row : Charge)
        → RecordKept currency keeps.now header fields (Ok row)
        → (plain : Charge) × Stands (text_in header fields) plain
        × (row ≡ row_with (tags_kept keeps.now (kept_texts keeps.now header fields)) plain) }
{}
