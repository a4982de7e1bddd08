//! Columns that are kept as tags, and the values of these tags.
ghost use Rattle.std.specs.Prelude.{◌≡◌, [], map, IfOk, OnOk};
ghost use Rattle.fw_row_table.specs.Lending.{tags_lent};
ghost use Rattle.fw_check.specs.Kept.{kept_value, nothing_kept, with_tags};

use crate::statistics::count_text;
use fw_columns::LentTags;
use fw_rows::Keep;
use indexmap::IndexMap;
use std::alloc::{AllocError, Global};

/// A column that is kept as a tag, and the values of the tag.
pub struct KeptColumn {
    /// The name of the column.
    pub column: String,
    /// The key of the tag.
    pub key: String,
    /// The values in the order in which they first come, each with the number of rows that have it. An empty text is none.
    pub values: IndexMap<String, u64>,
}

impl Drop for KeptColumn {
    fn drop(self) {
        let Self {
            column: _,
            key: _,
            values: _,
        } = self;
    }
}

impl KeptColumn {
    // A column of which no row was seen.
    fn new(alloc: Global, keep: &Keep) -> Result<KeptColumn, AllocError>
        ensures { IfOk result (λ kept. kept_value kept ≡ nothing_kept keep.now) }
    {
        Ok(KeptColumn {
            column: String::from_str(alloc, keep.column())?,
            key: String::from_str(alloc, keep.key())?,
            values: IndexMap::new(alloc),
        })
    }

    // Counts the value of a row with these tags, if it has one.
    #[tactic(auto, unfolding(crate::specs::Kept::with_text))]
    fn add(&mut self, alloc: Global, tags: LentTags<'_>) -> Result<(), AllocError>
        ensures { OnOk result (kept_value self.new
            ≡ with_tags (tags_lent tags.entry) (kept_value self.old)) }
    {
        let value = tags.group(self.key.as_str());
        if value.is_empty() {
            return Ok(());
        }
        count_text(alloc, &mut self.values, value, 1)?;
        Ok(())
    }
}

/// Columns of which no row was seen.
pub(crate) fn columns_of(alloc: Global, keeps: &[Keep]) -> Result<Vec<KeptColumn>, AllocError>
    ensures { IfOk result (λ columns. map kept_value columns.items ≡ map nothing_kept keeps.now) }
{
    let mut columns = Vec::new(alloc);
    for keep in keeps {
        columns.push(KeptColumn::new(alloc, keep)?)?;
    }
    Ok(columns)
}

/// Counts the value of a row with these tags in each column.
pub(crate) fn count_kept(
    alloc: Global,
    columns: &mut [KeptColumn],
    tags: LentTags<'_>,
) -> Result<(), AllocError>
    ensures { OnOk result (map kept_value columns.new
        ≡ map (with_tags (tags_lent tags.entry)) (map kept_value columns.old)) }
{
    match columns.split_first_mut() {
        Some((column, rest)) => {
            column.add(alloc, tags)?;
            count_kept(alloc, rest, tags)?;
            Ok(())
        }
        None => Ok(()),
    }
}
