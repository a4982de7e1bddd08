//! Rows kept by column.
ghost use Rattle.std.specs.Prelude.{◌≡◌, ◌<◌, ◌≤◌, ◌+◌, ◌-◌, ◌*◌, ◌↔◌, ◌++◌, ℕ, Some, length, map, nat_abs, option_map, pos, slice_get, slice_index, slice_range, All, Contains, IfOk, IfSome};
ghost use Rattle.std.specs.List.{flat_map};
ghost use Rattle.std.specs.List.Sorted.{IsStrictlyIncreasing};
ghost use Rattle.fw_charge.specs.Charge.{Charge, hour_of};
ghost use Rattle.fw_charge.specs.Spelling.{row, IsRow};
ghost use Rattle.fw_money.specs.Amount.{most_nanos};
ghost use Rattle.fw_row_table.specs.Table.{most_column_rows, rows_of, AreColumns};
ghost use Rattle.fw_row_table.specs.Codes.{text_code};
ghost use Rattle.fw_row_table.specs.Texts.{names_of};
ghost use Rattle.fw_charge.specs.Codes.{category_code, class_code};
ghost use Rattle.fw_columns.specs.ByHour.{AreByHour};
ghost use Rattle.fw_columns.specs.BySku.{AreSkusByHour, places_of_sku, skus_of_hour};
ghost use Rattle.fw_columns.specs.Codes.{tag_code, AgreeWithGroups};
ghost use Rattle.fw_columns.specs.Hours.{hours_of, places_of_hour};

use crate::builder::ColumnsBuilder;
use crate::by_hour::RowsByHour;
use crate::by_sku::SkusByHour;
use crate::grouping::group_codes;
use crate::joining::joined;
use fw_charge::Row;
use fw_row_table::{Lengths, LentRow, Names, Table, fields_at, lent_row, lent_tags};
use std::alloc::{AllocError, Global};
use std::marker::Model;
use std::sync::Arc;

/// 1 to [`Columns::MOST_ROWS`] charge rows kept by column, each of their texts and each of their lists of tags once. A contract sees the list of the rows.
///
/// Columns are never changed, so a [copy](Columns::copy) shares them, and the order of the rows by hour, the SKUs of each hour with the places of their rows,
/// and the length of the rows in bytes are found once.
pub struct Columns {
    shared: Arc<Kept>,
    /// What the rows are spelled as, where that was made beforehand.
    spelling: Option<Vec<u8>>,
}

impl Drop for Columns {
    fn drop(self) {
        let Self {
            shared: _,
            spelling: _,
        } = self;
    }
}

/// What the copies of columns share.
struct Kept {
    table: Table,
    by_hour: RowsByHour,
    by_sku: SkusByHour,
    lengths: Lengths,
    /// How many bytes the rows are written in.
    encoded_len: usize,
}

impl Drop for Kept {
    fn drop(self) {
        let Self {
            table: _,
            by_hour: _,
            by_sku: _,
            lengths: _,
            encoded_len: _,
        } = self;
    }
}

impl Model for Columns {
    ghost use Rattle.std.specs.Prelude.{◌≡◌, ◌<◌, List, length, All, IfSome};
    ghost use Rattle.std.specs.List.{flat_map};
    ghost use Rattle.fw_charge.specs.Charge.{Charge};
    ghost use Rattle.fw_charge.specs.Spelling.{row, IsRow};
    ghost use Rattle.fw_row_table.specs.Table.{rows_of, AreColumns};
    ghost use Rattle.fw_columns.specs.ByHour.{AreByHour};
    ghost use Rattle.fw_row_table.specs.Lengths.{AreLengths};
    ghost use Rattle.fw_columns.specs.BySku.{AreSkusByHour};

    ghost Value = { List Charge };

    ghost view = { λ c. rows_of c.shared.value.table };

    ghost invariant = { λ c. (0 < length (rows_of c.shared.value.table))
        × AreColumns c.shared.value.table (rows_of c.shared.value.table)
        × AreByHour c.shared.value.by_hour (rows_of c.shared.value.table)
        × AreSkusByHour c.shared.value.by_sku (rows_of c.shared.value.table)
        × (c.shared.value.encoded_len ≡ length (flat_map row (rows_of c.shared.value.table)))
        × All IsRow (rows_of c.shared.value.table)
        × AreLengths c.shared.value.lengths c.shared.value.table
        × IfSome c.spelling (λ s. s.items ≡ flat_map row (rows_of c.shared.value.table)) };
}

impl Columns {
    /// The most rows of columns.
    pub const MOST_ROWS: usize = 65_536;

    /// The columns of the rows of a table, of which there is one at least. All columns are made here, of a table that is
    /// shrunk first.
    pub(crate) fn of_table(alloc: Global, table: Table) -> Result<Columns, AllocError>
        requires some { 0 < length (rows_of table) }
        requires columns { AreColumns table (rows_of table) }
        ensures { IfOk result (λ columns. columns ≡ rows_of table) }
    {
        let mut table = table;
        table.shrink();
        let by_hour = RowsByHour::of_starts(alloc, table.starts.as_slice())?;
        let by_sku = SkusByHour::of_rows(alloc, &by_hour, table.skus.as_slice())?;
        let lengths = Lengths::of_table(alloc, &table)?;
        let encoded_len = lengths.of_rows(&table, 0, table.billed.len());
        Ok(Columns {
            shared: Arc::new(
                alloc,
                Kept {
                    table,
                    by_hour,
                    by_sku,
                    lengths,
                    encoded_len,
                },
            )?,
            spelling: None,
        })
    }

    /// The columns as they are kept.
    pub(crate) fn table(&self) -> &Table
        ensures rows { rows_of result.now ≡ self.now }
        ensures columns { AreColumns result.now (rows_of result.now) }
        ensures some { 0 < length self.now }
    {
        &self.shared.table
    }

    /// The rows by hour.
    fn by_hour(&self) -> &RowsByHour
        ensures by_hour { AreByHour result.now self.now }
        ensures some { 0 < length self.now }
    {
        &self.shared.by_hour
    }

    /// The SKUs by hour, and the places of their rows.
    fn by_sku(&self) -> &SkusByHour
        ensures { AreSkusByHour result.now self.now }
    {
        &self.shared.by_sku
    }

    /// The same rows, shared, without a [spelling](Columns::with_spelling). It takes no memory. The error comes only where the columns have as many owners as can be counted.
    pub fn copy(&self) -> Result<Columns, AllocError>
        ensures { IfOk result (λ copy. copy ≡ self.now) }
    {
        Ok(Columns {
            shared: Arc::try_clone(&self.shared)?,
            spelling: None,
        })
    }

    /// The columns of 1 to [`Columns::MOST_ROWS`] rows.
    pub fn from_rows(alloc: Global, rows: &[Row]) -> Result<Columns, AllocError>
        requires some { 0 < length rows.now }
        requires few { length rows.now ≤ most_column_rows }
        ensures { IfOk result (λ columns. columns ≡ rows.now) }
    {
        let mut builder = ColumnsBuilder::new(alloc);
        for row in rows {
            builder.push_row(row)?;
        }
        let columns = builder.finish()?;
        Ok(columns)
    }

    /// How many rows there are: 1 to [`Columns::MOST_ROWS`].
    pub fn len(&self) -> usize
        ensures count { result ≡ length self.now }
        ensures some { 0 < result }
        ensures few { result ≤ most_column_rows }
    {
        self.table().billed.len()
    }

    /// How many bytes the rows have where they are written, together: at most 527,429 each. Each row has a spelling.
    pub fn encoded_len(&self) -> usize
        ensures value { result ≡ length (flat_map row self.now) }
        ensures few { result ≤ 527429 * length self.now }
        ensures valid { All IsRow self.now }
    {
        self.shared.encoded_len
    }

    /// The same columns, with the bytes that their rows are written as, one row after the other: whoever writes them copies these. A
    /// [copy](Columns::copy) hasn't them.
    pub fn with_spelling(self, spelling: Vec<u8>) -> Columns
        requires { spelling.items ≡ flat_map row self }
        ensures { result ≡ self }
    {
        let Columns {
            shared,
            spelling: _before,
        } = self;
        Columns {
            shared,
            spelling: Some(spelling),
        }
    }

    /// The bytes that the rows are written as, one row after the other, where they were [made beforehand](Columns::with_spelling).
    pub fn spelling(&self) -> Option<&[u8]>
        ensures { IfSome result (λ spelling. spelling.now ≡ flat_map row self.now) }
    {
        self.spelling.as_deref()
    }

    /// How many bytes the rows have where they are written, together, from the place `first` on and before the place `end`: at most 527,429 each. No text
    /// and no tag is looked at.
    pub fn rows_len(&self, first: usize, end: usize) -> usize
        requires order { first ≤ end }
        requires within { end ≤ length self.now }
        ensures value { result ≡ length (flat_map row (slice_range self.now first end)) }
        ensures few { result ≤ 527429 * (end - first) }
        ensures valid { All IsRow self.now }
    {
        self.shared.lengths.of_rows(&self.shared.table, first, end)
    }

    /// The row at a place, counted from 0.
    pub fn row(&self, place: usize) -> Result<Row, AllocError>
        requires { place < length self.now }
        ensures { IfOk result (λ row. slice_get self.now place ≡ Some row) }
    {
        let kept = self.table();
        let alloc = *kept.billed.allocator();
        Ok(Row::of_fields(fields_at(alloc, kept, place)?))
    }

    /// The row at a place, counted from 0, with its texts and tags lent. It takes no memory. It is compiled into its callers, so that one that looks at a
    /// single field pays for this field alone.
    #[inline(always)]
    pub fn lent(&self, place: usize) -> LentRow<'_>
        requires { place < length self.now }
        ensures { slice_get self.now place ≡ Some result }
    {
        let kept = self.table();
        let tags = lent_tags(kept, place);
        lent_row(kept, tags, place)
    }

    /// The texts of the rows, each once, in the order in which it first occurs when the rows are read in turn, and in each row its
    /// CommitmentDiscountId, its ConsumedUnit, its SkuId, its SubAccountId and then its tags in turn, key before value.
    pub fn names(&self) -> &Names
        ensures { result.now ≡ names_of self.now }
    {
        &self.table().names
    }

    /// BilledCost of each row, in nanos.
    pub fn billed(&self) -> &[i64]
        ensures costs { result.now ≡ map (λ c. c.billed) self.now }
        ensures amounts { All (λ n. nat_abs n ≤ most_nanos) result.now }
    {
        self.table().billed.as_slice()
    }

    /// EffectiveCost of each row, in nanos.
    pub fn effective(&self) -> &[i64]
        ensures costs { result.now ≡ map (λ c. c.effective) self.now }
        ensures amounts { All (λ n. nat_abs n ≤ most_nanos) result.now }
    {
        self.table().effective.as_slice()
    }

    /// The first second of each row's period, counted from 1970.
    pub fn starts(&self) -> &[i64]
        ensures { result.now ≡ map (λ c. pos c.start) self.now }
    {
        self.table().starts.as_slice()
    }

    /// The hours in which the rows' periods start, counted from 1970: in rising order, each once, at least one.
    pub fn hours(&self) -> &[u32]
        ensures hours { result.now ≡ hours_of self.now }
        ensures rising { IsStrictlyIncreasing result.now }
        ensures each { (hour : ℕ) → Contains result.now hour
            ↔ Contains (map (λ c. hour_of c.start) self.now) hour }
        ensures some { 0 < length result.now }
    {
        self.by_hour().hours()
    }

    /// The places, counted from 0, of the rows whose periods start in an hour, in rising order, at least one. The hour is that at the place
    /// `number` of the [hours](Columns::hours).
    pub fn places_in(&self, number: usize) -> &[u16]
        requires { number < length (hours_of self.now) }
        ensures places { result.now ≡ places_of_hour
            (slice_index (hours_of self.now) number) self.now }
        ensures within { All (λ place. place < length self.now) result.now }
        ensures some { 0 < length result.now }
    {
        self.by_hour().places_in(number)
    }

    /// The codes of the SKUs of the rows whose periods start in an hour, each once, in the order in which it first occurs among these rows. Where one of them
    /// has no SKU, 0 is among the codes. The hour is that at the place `number` of the [hours](Columns::hours).
    pub fn skus_in(&self, number: usize) -> &[u32]
        requires { number < length (hours_of self.now) }
        ensures { result.now ≡ skus_of_hour (slice_index (hours_of self.now) number) self.now }
    {
        self.by_sku().codes_in(number)
    }

    /// The places, counted from 0, of the rows of an hour that have a SKU, in rising order. The hour is that at the place `number` of the
    /// [hours](Columns::hours), and the SKU's code that at the place `which` of the [codes](Columns::skus_in) of the hour. At code 0 they are of the rows that
    /// have no SKU.
    pub fn places_of_sku(&self, number: usize, which: usize) -> &[u16]
        requires hour { number < length (hours_of self.now) }
        requires sku { which < length (skus_of_hour
            (slice_index (hours_of self.now) number) self.now) }
        ensures places { result.now ≡ places_of_sku (slice_index (hours_of self.now) number)
            (slice_index (skus_of_hour (slice_index (hours_of self.now) number) self.now) which)
            self.now }
        ensures within { All (λ place. place < length self.now) result.now }
    {
        self.by_sku().places_of(number, which)
    }

    /// The code of each row's category, as `Category::code` returns it.
    pub fn categories(&self) -> &[u8]
        ensures { result.now ≡ map (λ c. category_code c.category) self.now }
    {
        self.table().categories.as_slice()
    }

    /// The code of each row's class, as `class_code` returns it: 1 for a correction, 0 for none.
    pub fn classes(&self) -> &[u8]
        ensures { result.now ≡ map (λ c. class_code c.is_correction) self.now }
    {
        self.table().classes.as_slice()
    }

    /// The code of each row's SKU: 0 where it is null, else 1 more than its place among the names.
    pub fn sku_codes(&self) -> &[u32]
        ensures { result.now ≡ map (λ c. text_code (names_of self.now) c.sku) self.now }
    {
        self.table().skus.as_slice()
    }

    /// The code of the id of each row's commitment discount: 0 where there is no discount, else 1 more than the id's place among the names.
    pub fn discount_codes(&self) -> &[u32]
        ensures { result.now ≡ map (λ c. text_code (names_of self.now)
            (option_map (λ d. d.id) c.discount)) self.now }
    {
        self.table().discounts.as_slice()
    }

    /// The rows of one and then those of another, together at most [`Columns::MOST_ROWS`].
    pub fn concat(alloc: Global, first: &Columns, second: &Columns) -> Result<Columns, AllocError>
        requires { length first.now + length second.now ≤ most_column_rows }
        ensures { IfOk result (λ columns. columns ≡ first.now ++ second.now) }
    {
        let joined = joined(alloc, &[first, second])?;
        let columns = Columns::of_table(alloc, joined)?;
        Ok(columns)
    }

    /// The rows of each in turn, together at most [`Columns::MOST_ROWS`]. There is one at least; the rows of one alone are shared.
    pub fn concat_all(alloc: Global, parts: &[&Columns]) -> Result<Columns, AllocError>
        requires some { 0 < length parts.now }
        requires few { length (flat_map (λ part. part.now) parts.now) ≤ most_column_rows }
        ensures { IfOk result (λ columns. columns ≡ flat_map (λ part. part.now) parts.now) }
    {
        if parts.len() == 1 {
            return parts[0].copy();
        }
        let joined = joined(alloc, parts)?;
        let columns = Columns::of_table(alloc, joined)?;
        Ok(columns)
    }

    /// The code of each row's group under a tag key: 0 where the group is the empty text, else 1 more than the group's place in the
    /// names. Two rows have one code exactly where they have one group. Each list of tags is searched once, however many rows have it.
    pub fn tag_codes(&self, key: &str) -> Result<Vec<u32>, AllocError>
        ensures codes { IfOk result (λ codes. codes.items
            ≡ map (tag_code key.now (names_of self.now)) self.now) }
        ensures agree { IfOk result (λ codes. AgreeWithGroups key.now self.now codes.items) }
    {
        let kept = self.table();
        let codes = group_codes(*kept.billed.allocator(), kept, key)?;
        Ok(codes)
    }
}
