//! The rows of columns.
ghost use Rattle.std.specs.Prelude.{◌≡◌, ◌<◌, ◌≤◌, length, pos, nat_abs, slice_index_or, All, IfOk};
ghost use Rattle.fw_money.specs.Amount.{most_nanos};
ghost use Rattle.fw_charge.specs.Tags.{IsTags};
ghost use Rattle.fw_charge.specs.ChargeView.{charge_of};
ghost use Rattle.fw_row_table.specs.Table.{charge_at, category_at, class_at, tags_of};
ghost use Rattle.fw_row_table.specs.Reading.{HasRow};

use crate::codes::{discount_of, quantity_of, tag_of, text_of};
use crate::names::Names;
use crate::table::Table;
use fw_charge::{Category, RowFields, Tags, class_from_code};
use fw_money::Nanos;
use std::alloc::{AllocError, Global};

/// The fields of the row at a place.
pub fn fields_at(alloc: Global, table: &Table, place: usize) -> Result<RowFields, AllocError>
    requires { HasRow table.now place }
    ensures { IfOk result (λ fields. charge_of fields ≡ charge_at table.now place) }
{
    let names = &table.names;
    let id = text_of(alloc, names, table.discounts[place])?;
    let unit = text_of(alloc, names, table.units[place])?;
    let sku = text_of(alloc, names, table.skus[place])?;
    let sub_account = text_of(alloc, names, table.sub_accounts[place])?;
    let tags = tags_of(alloc, names, table.lists.list(table.tags[place]))?;
    Ok(RowFields {
        billed: amount_at(table.billed.as_slice(), place),
        effective: amount_at(table.effective.as_slice(), place),
        category: category_at(table.categories.as_slice(), place),
        is_correction: class_at(table.classes.as_slice(), place),
        start: second_at(table.starts.as_slice(), place),
        end: table.ends[place],
        discount: discount_of(id, table.kinds[place], table.statuses[place]),
        quantity: quantity_of(
            table.has_quantity[place],
            amount_at(table.quantities.as_slice(), place),
        ),
        unit,
        sku,
        sub_account,
        tags,
    })
}

/// The amount at a place.
pub fn amount_at(column: &[i64], place: usize) -> Nanos
    requires within { place < length column.now }
    requires in_range { nat_abs (slice_index_or column.now place (pos 0)) ≤ most_nanos }
    ensures { result ≡ slice_index_or column.now place (pos 0) }
{
    Nanos::of_fields(column[place])
}

/// The category at a place. The column has the codes of categories alone; any other code counts as an adjustment.
pub fn category_at(column: &[u8], place: usize) -> Category
    requires { place < length column.now }
    ensures { result ≡ category_at (slice_index_or column.now place 0) }
{
    Category::from_code(column[place]).unwrap_or(Category::Adjustment)
}

/// Whether the class at a place is that of a correction. The column has the codes of classes alone; any other code counts as none.
pub fn class_at(column: &[u8], place: usize) -> bool
    requires { place < length column.now }
    ensures { result ≡ class_at (slice_index_or column.now place 0) }
{
    class_from_code(column[place]).unwrap_or(false)
}

/// The second at a place.
pub fn second_at(column: &[i64], place: usize) -> u64
    requires { place < length column.now }
    ensures { result ≡ nat_abs (slice_index_or column.now place (pos 0)) }
{
    column[place].unsigned_abs()
}

/// The tags that are kept as a list of places.
fn tags_of(alloc: Global, names: &Names, list: &[u32]) -> Result<Tags, AllocError>
    requires within { All (λ place. place < length names.now) list.now }
    requires tags { IsTags (tags_of names.now list.now) }
    ensures { IfOk result (λ tags. tags ≡ tags_of names.now list.now) }
{
    let mut tags = Vec::with_capacity(alloc, list.len() / 2)?;
    let mut rest = list;
    while let [key, value, after @ ..] = rest {
        let tag = tag_of(alloc, names, *key, *value)?;
        tags.push(tag)?;
        rest = after;
    }
    Ok(Tags::of_fields(tags))
}
