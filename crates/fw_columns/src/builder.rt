//! Columns that are made row by row.
ghost use Rattle.std.specs.Prelude.{◌≡◌, ◌<◌, ◌≤◌, ◌++◌, [], ◌∷◌, length, OnErr, OnOk, IfOk};
ghost use Rattle.fw_charge.specs.Charge.{IsCharge};
ghost use Rattle.fw_row_table.specs.Lending.{charge_with, tags_lent};
ghost use Rattle.fw_columns.specs.Rows.{tags_at};
ghost use Rattle.fw_row_table.specs.Table.{most_column_rows};

use crate::adding::{add_row, add_row_like};
use crate::columns::Columns;
use fw_charge::{Row, Tags};
use fw_row_table::{LentRow, LentTags, RowView, Table};
use std::alloc::{AllocError, Global};
use std::marker::Model;
use std::mem::swap;

/// Columns to which rows are added one by one, at most [`Columns::MOST_ROWS`]. A contract sees the list of the rows.
#[derive(Drop)]
pub struct ColumnsBuilder {
    table: Table,
    /// Where the places of a row's tags are put together.
    list: Vec<u32>,
    /// The places of the tags of the row before that had a list put together.
    like: Vec<u32>,
}

impl Model for ColumnsBuilder {
    ghost use Rattle.std.specs.Prelude.{List};
    ghost use Rattle.fw_charge.specs.Charge.{Charge};
    ghost use Rattle.fw_row_table.specs.Table.{rows_of, AreColumns};

    ghost Value = { List Charge };

    ghost view = { λ b. rows_of b.table };

    ghost invariant = { λ b. AreColumns b.table (rows_of b.table) };
}

impl ColumnsBuilder {
    /// No rows yet. It takes no memory.
    pub fn new(alloc: Global) -> ColumnsBuilder
        ensures { result ≡ [] }
    {
        ColumnsBuilder {
            table: Table::empty(alloc),
            list: Vec::new(alloc),
            like: Vec::new(alloc),
        }
    }

    /// How many rows there are: at most [`Columns::MOST_ROWS`].
    pub fn len(&self) -> usize
        ensures count { result ≡ length self.now }
        ensures few { result ≤ most_column_rows }
    {
        self.table.billed.len()
    }

    /// Adds a row with these values and these tags, which together keep the rules of a row. Where memory is refused, no rows are left.
    pub fn push(&mut self, row: &RowView<'_>, tags: &Tags) -> Result<(), AllocError>
        requires few { length self.old < most_column_rows }
        requires valid { IsCharge (charge_with row.now tags.now) }
        ensures added { OnOk result (self.new ≡ self.old ++ charge_with row.now tags.now ∷ []) }
        ensures refused { OnErr result (self.new ≡ []) }
    {
        self.push_parts(row, LentTags::of_tags(tags))
    }

    // Adds a row with these values and these tags.
    fn push_parts(&mut self, row: &RowView<'_>, tags: LentTags<'_>) -> Result<(), AllocError>
        requires few { length self.old < most_column_rows }
        requires valid { IsCharge (charge_with row.now (tags_lent tags)) }
        ensures added { OnOk result (self.new ≡ self.old
            ++ charge_with row.now (tags_lent tags.entry) ∷ []) }
        ensures refused { OnErr result (self.new ≡ []) }
    {
        swap(&mut self.list, &mut self.like);
        let like = self.like.as_slice();
        match add_row(&mut self.table, like, &mut self.list, row, tags) {
            Ok(()) => Ok(()),
            Err(refused) => {
                self.table = Table::empty(*self.list.allocator());
                Err(refused)
            }
        }
    }

    /// Adds a row with these values and the tags of the row at a place, counted from 0, which together keep the rules of a row. No text of a tag is
    /// looked at. Where memory is refused, no rows are left.
    pub fn push_like(&mut self, row: &RowView<'_>, place: usize) -> Result<(), AllocError>
        requires few { length self.old < most_column_rows }
        requires place { place < length self.old }
        requires valid { IsCharge (charge_with row.now (tags_at self.old place)) }
        ensures added { OnOk result (self.new ≡ self.old
            ++ charge_with row.now (tags_at self.old place) ∷ []) }
        ensures refused { OnErr result (self.new ≡ []) }
    {
        match add_row_like(&mut self.table, row, place) {
            Ok(()) => Ok(()),
            Err(refused) => {
                self.table = Table::empty(*self.list.allocator());
                Err(refused)
            }
        }
    }

    /// Adds a row. Where memory is refused, no rows are left.
    pub fn push_row(&mut self, row: &Row) -> Result<(), AllocError>
        requires { length self.old < most_column_rows }
        ensures added { OnOk result (self.new ≡ self.old ++ row.now ∷ []) }
        ensures refused { OnErr result (self.new ≡ []) }
    {
        self.push_lent(&LentRow::of_row(row))
    }

    /// Adds a row that is lent, as by other columns. Where memory is refused, no rows are left.
    pub fn push_lent(&mut self, row: &LentRow<'_>) -> Result<(), AllocError>
        requires { length self.old < most_column_rows }
        ensures added { OnOk result (self.new ≡ self.old ++ row.now ∷ []) }
        ensures refused { OnErr result (self.new ≡ []) }
    {
        self.push_parts(&row.values(), row.tags())
    }

    /// The columns of the rows, of which there is one at least.
    pub fn finish(self) -> Result<Columns, AllocError>
        requires { 0 < length self }
        ensures { IfOk result (λ columns. columns ≡ self) }
    {
        let alloc = *self.list.allocator();
        let table = self.table;
        let columns = Columns::of_table(alloc, table)?;
        Ok(columns)
    }
}
