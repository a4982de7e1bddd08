//! One more row in columns.
ghost use Rattle.std.specs.Prelude.{◌≡◌, ◌^◌, ◌<◌, ◌≤◌, ◌+◌, ◌++◌, [], ◌∷◌, length, option_copied, option_map, option_to_list, IfOk, OnOk};
ghost use Rattle.fw_charge.specs.Charge.{IsCharge, last_second};
ghost use Rattle.fw_row_table.specs.Codes.{text_code};
ghost use Rattle.fw_row_table.specs.Texts.{with_texts};
ghost use Rattle.fw_row_table.specs.Lending.{charge_with, tags_lent};
ghost use Rattle.fw_columns.specs.Rows.{tags_at};
ghost use Rattle.fw_columns.specs.Adding.{texts_of_view, AreCodesOf, HasMore};
ghost use Rattle.fw_row_table.specs.Table.{most_column_rows, rows_of, AreColumns};

use crate::codes::{kind_kept, quantity_kept, status_kept};
use fw_charge::class_code;
use fw_row_table::{LentTags, Names, RowView, Table, see_tags};
use std::alloc::AllocError;

/// The codes of the texts of a row: 0 where a text is null, else 1 more than its place in the names.
#[derive(Clone, Copy, Drop)]
pub struct TextCodes {
    pub discount: u32,
    pub unit: u32,
    pub sku: u32,
    pub sub_account: u32,
}

/// Adds a row with these tags, whose texts' places go into a list that is kept for that. The list of another row's tags saves looking up the texts
/// that stand at the same place there.
pub fn add_row(
    table: &mut Table,
    like: &[u32],
    list: &mut Vec<u32>,
    row: &RowView<'_>,
    tags: LentTags<'_>,
) -> Result<(), AllocError>
    requires columns { AreColumns table.old (rows_of table.old) }
    requires few { length (rows_of table.old) < most_column_rows }
    requires valid { IsCharge (charge_with row.now (tags_lent tags)) }
    ensures { OnOk result (AreColumns table.new
        (rows_of table.old ++ charge_with row.now (tags_lent tags.entry) ∷ [])) }
{
    let last = codes_at(table, table.tags.len().wrapping_sub(1));
    let codes = see_texts(&mut table.names, last, row)?;
    see_tags(&mut table.names, like, tags, list)?;
    let place = table.lists.code(list.as_slice())?;
    push_values(table, row, codes, place)?;
    Ok(())
}

/// Adds a row with the tags of the row at a place. Rows with the same tags mostly have their other texts in common too.
pub fn add_row_like(table: &mut Table, row: &RowView<'_>, place: usize) -> Result<(), AllocError>
    requires columns { AreColumns table.old (rows_of table.old) }
    requires few { length (rows_of table.old) < most_column_rows }
    requires place { place < length (rows_of table.old) }
    requires valid { IsCharge (charge_with row.now (tags_at (rows_of table.old) place)) }
    ensures { OnOk result (AreColumns table.new
        (rows_of table.old ++ charge_with row.now (tags_at (rows_of table.old) place) ∷ [])) }
{
    let other = codes_at(table, place);
    let codes = see_texts(&mut table.names, other, row)?;
    let list = table.tags[place];
    push_values(table, row, codes, list)?;
    Ok(())
}

/// The codes of the texts of the row at a place; of null texts where there is no such row.
fn codes_at(table: &Table, place: usize) -> TextCodes {
    TextCodes {
        discount: code_at(table.discounts.as_slice(), place),
        unit: code_at(table.units.as_slice(), place),
        sku: code_at(table.skus.as_slice(), place),
        sub_account: code_at(table.sub_accounts.as_slice(), place),
    }
}

/// The code at a place of a column, 0 where it has no such place.
fn code_at(column: &[u32], place: usize) -> u32 {
    column.get(place).copied().unwrap_or(0)
}

/// Adds the texts of a row that are new, but those of its tags, and returns the codes of all. A text that a row like it has too isn't looked up.
fn see_texts(names: &mut Names, like: TextCodes, row: &RowView<'_>) -> Result<TextCodes, AllocError>
    requires { length names.old + 4 ≤ 2 ^ 30 }
    ensures seen { OnOk result (names.new ≡ with_texts names.old (texts_of_view row.now)) }
    ensures codes { IfOk result (λ codes. AreCodesOf names.new row.now codes) }
    ensures few { OnOk result (length names.new ≤ length names.old + 4) }
{
    let discount = see_code(names, like.discount, row.discount)?;
    let unit = see_code(names, like.unit, row.unit)?;
    let sku = see_code(names, like.sku, row.sku)?;
    let sub_account = see_code(names, like.sub_account, row.sub_account)?;
    Ok(TextCodes {
        discount,
        unit,
        sku,
        sub_account,
    })
}

/// Adds a text that is there and new. Returns its code, which is looked up only where it isn't that of a row like it.
#[tactic(auto, unfolding(fw_row_table::specs::Texts::with_texts, fw_row_table::specs::Codes::text_code))]
fn see_code(names: &mut Names, like: u32, text: Option<&str>) -> Result<u32, AllocError>
    requires { length names.old + 1 ≤ 2 ^ 30 }
    ensures seen { OnOk result (names.new ≡ with_texts names.old
        (option_to_list (option_copied text.entry))) }
    ensures code { IfOk result (λ code. code ≡ text_code names.new (option_copied text.entry)) }
    ensures grown { OnOk result (length names.old ≤ length names.new) }
    ensures few { OnOk result (length names.new ≤ length names.old + 1) }
{
    let Some(text) = text else {
        return Ok(0);
    };
    Ok(names.code_near(like.checked_sub(1), text)? + 1)
}

/// Adds a value to each column.
fn push_values(
    table: &mut Table,
    row: &RowView<'_>,
    codes: TextCodes,
    list: u32,
) -> Result<(), AllocError>
    requires { row.now.start ≤ last_second }
    ensures { OnOk result (HasMore table.old table.new row.now codes list) }
{
    table.billed.push(row.billed.count())?;
    table.effective.push(row.effective.count())?;
    table.categories.push(row.category.code())?;
    table.classes.push(class_code(row.is_correction))?;
    table.starts.push(row.start as i64)?;
    table.ends.push(row.end)?;
    table.discounts.push(codes.discount)?;
    table.kinds.push(kind_kept(row.discount, row.kind))?;
    table.statuses.push(status_kept(row.discount, row.status))?;
    table.quantities.push(quantity_kept(row.quantity))?;
    table.has_quantity.push(row.quantity.is_some())?;
    table.units.push(codes.unit)?;
    table.skus.push(codes.sku)?;
    table.sub_accounts.push(codes.sub_account)?;
    table.tags.push(list)?;
    Ok(())
}
