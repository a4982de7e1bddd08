//! How selections are written.
ghost use Rattle.std.specs.Prelude.{◌≡◌, IfOk};
ghost use Rattle.fw_selections.specs.CsvText.{IsCsvText};
ghost use Rattle.fw_selections.specs.JsonText.{IsJsonText};
ghost use Rattle.fw_selections.specs.TableText.{key_text};
ghost use Rattle.fw_selections.specs.declared.sheet.SheetFormat.TheVariants.{Csv, Json, Table};
ghost use Rattle.fw_table.specs.Shown.{AreShownLines};

use crate::csv_text::csv_text;
use crate::json::json_text;
use crate::parts::Selections;
use crate::table::table_of;
use fw_calendar::{Period, Step};
use std::alloc::{AllocError, Global};

/// What stands for the groups that have no row of their own.
pub(crate) const OTHERS: &str = "(others)";

/// The name of a key.
#[derive(Clone, Copy, Debug)]
pub struct KeyName<'n> {
    /// The name.
    pub name: &'n str,
    /// Whether the key is a tag; else it is a column.
    pub is_tag: bool,
}

impl<'n> KeyName<'n> {
    // What people see of a text of the key.
    pub(crate) fn shown<'t>(&self, text: &'t str) -> &'t str
        ensures { result.now ≡ key_text self.now.is_tag text.now }
    {
        if !text.is_empty() {
            text
        } else if self.is_tag {
            "(untagged)"
        } else {
            "(none)"
        }
    }
}

/// How selections are written.
#[derive(Clone, Copy, Debug, Drop, PartialEq, Eq)]
pub enum SheetFormat {
    /// Columns that line up, in cents.
    Table,
    /// Records, exact to the nano.
    Csv,
    /// One object, exact to the nano.
    Json,
}

/// What was asked, as it is written beside the answer.
#[derive(Clone, Copy, Debug)]
pub struct Sheet<'s, 'n, 'c> {
    /// The names of the keys; none where only the sums are asked for.
    pub keys: &'s [KeyName<'n>],
    /// The currency of all costs.
    pub currency: &'c str,
    /// The hours of the range.
    pub hours: Period,
    /// What the range is cut by, where it is.
    pub step: Option<Step>,
    /// How many groups have a row of their own; where there is none, all have.
    pub top: Option<usize>,
    /// The tag whose amounts the groups have beside their costs, where they have some.
    pub sum: Option<&'n str>,
}

/// Selections in a format. The one error is that memory ran out, or that a sum of groups passes 128 bits.
pub fn written(
    alloc: Global,
    selections: &Selections,
    sheet: &Sheet<'_, '_, '_>,
    format: SheetFormat,
) -> Result<Vec<u8>, AllocError>
    ensures table { format ≡ Table → IfOk result (λ text. AreShownLines text.items) }
    ensures csv { format ≡ Csv
        → IfOk result (λ text. IsCsvText selections.now sheet.now text.items) }
    ensures json { format ≡ Json
        → IfOk result (λ text. IsJsonText selections.now sheet.now text.items) }
{
    match format {
        SheetFormat::Table => {
            let text = table_of(alloc, selections, sheet)?;
            Ok(text.into_bytes())
        }
        SheetFormat::Csv => csv_text(alloc, selections, sheet),
        SheetFormat::Json => {
            let text = json_text(alloc, selections, sheet)?;
            Ok(text.into_bytes())
        }
    }
}
