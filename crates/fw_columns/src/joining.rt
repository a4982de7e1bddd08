//! Tables of the rows of several, in turn.
ghost use Rattle.std.specs.Prelude.{◌≡◌, ◌≤◌, ◌<◌, ◌+◌, ◌++◌, ◌^◌, length, map, All, IfOk, OnOk};
ghost use Rattle.fw_row_table.specs.Names.{place_of};
ghost use Rattle.fw_row_table.specs.Texts.{with_texts};
ghost use Rattle.fw_row_table.specs.Table.{most_column_rows, rows_of, AreColumns};
ghost use Rattle.std.specs.List.{flat_map};
ghost use Rattle.fw_columns.specs.Joining.{replaced, replaced_code, AreCodesBelow, HasAll};

use crate::columns::Columns;
use fw_row_table::{Lists, Table, see_names};
use std::alloc::{AllocError, Global};

/// The table of the rows of each in turn. Those of the first come first, and the others go behind them: the codes of what is there stay, and each row is
/// copied once.
pub fn joined(alloc: Global, parts: &[&Columns]) -> Result<Table, AllocError>
    requires some { 0 < length parts.now }
    requires few { length (flat_map (λ part. part.now) parts.now) ≤ most_column_rows }
    ensures rows { IfOk result (λ table.
        rows_of table ≡ flat_map (λ part. part.now) parts.now) }
    ensures some { IfOk result (λ table. 0 < length (rows_of table)) }
    ensures columns { IfOk result (λ table. AreColumns table (rows_of table)) }
{
    let mut table = Table::empty(alloc);
    for part in parts {
        append(alloc, &mut table, part.table())?;
    }
    Ok(table)
}

/// Adds the rows of another table.
fn append(alloc: Global, table: &mut Table, other: &Table) -> Result<(), AllocError>
    requires first { AreColumns table.old (rows_of table.old) }
    requires second { AreColumns other.now (rows_of other.now) }
    requires few { length (rows_of table.old) + length (rows_of other.now) ≤ most_column_rows }
    ensures { OnOk result (AreColumns table.new (rows_of table.old ++ rows_of other.now)) }
{
    let texts = see_names(alloc, &mut table.names, &other.names)?;
    let lists = see_lists(alloc, &mut table.lists, &other.lists, texts.as_slice())?;
    push_columns(table, other, texts.as_slice(), lists.as_slice())?;
    Ok(())
}

/// Adds those of other lists that are new, by the places that their texts have now. Returns the place of each.
fn see_lists(
    alloc: Global,
    lists: &mut Lists,
    other: &Lists,
    places: &[u32],
) -> Result<Vec<u32>, AllocError>
    requires few { length lists.old + length other.now ≤ 2 ^ 30 }
    requires within { All (λ list. All (λ place. place < length places.now) list) other.now }
    ensures seen { OnOk result (lists.new ≡ with_texts lists.old
        (map (replaced places.now) other.now)) }
    ensures few { OnOk result (length lists.new ≤ length lists.old + length other.now) }
    ensures codes { IfOk result (λ codes. codes.items
        ≡ map (place_of lists.new) (map (replaced places.now) other.now)) }
{
    let mut codes = Vec::with_capacity(alloc, other.len())?;
    let mut moved = Vec::new(alloc);
    for place in 0..other.len() as u32 {
        moved.clear();
        push_replaced(&mut moved, other.list(place), places)?;
        let code = lists.code(moved.as_slice())?;
        codes.push(code)?;
    }
    Ok(codes)
}

/// Adds places, as they are now: for each place the value there.
pub fn push_replaced(column: &mut Vec<u32>, list: &[u32], places: &[u32]) -> Result<(), AllocError>
    requires { All (λ place. place < length places.now) list.now }
    ensures { OnOk result (column.new.items ≡ column.old.items ++ replaced places.now list.now) }
{
    for place in list {
        column.push(places[*place as usize])?;
    }
    Ok(())
}

/// Adds the values of another table to each column: the codes of texts and the places of lists as they are now.
fn push_columns(
    table: &mut Table,
    other: &Table,
    texts: &[u32],
    lists: &[u32],
) -> Result<(), AllocError>
    requires codes { AreCodesBelow other.now (length texts.now) }
    requires texts { All (λ place. place ≤ 2 ^ 30) texts.now }
    requires lists { All (λ place. place < length lists.now) other.now.tags.items }
    ensures { OnOk result (HasAll table.old table.new other.now texts.now lists.now) }
{
    table.billed.extend_from_slice(&other.billed)?;
    table.effective.extend_from_slice(&other.effective)?;
    table.categories.extend_from_slice(&other.categories)?;
    table.classes.extend_from_slice(&other.classes)?;
    table.starts.extend_from_slice(&other.starts)?;
    table.ends.extend_from_slice(&other.ends)?;
    push_codes(&mut table.discounts, &other.discounts, texts)?;
    table.kinds.extend_from_slice(&other.kinds)?;
    table.statuses.extend_from_slice(&other.statuses)?;
    table.quantities.extend_from_slice(&other.quantities)?;
    table.has_quantity.extend_from_slice(&other.has_quantity)?;
    push_codes(&mut table.units, &other.units, texts)?;
    push_codes(&mut table.skus, &other.skus, texts)?;
    push_codes(&mut table.sub_accounts, &other.sub_accounts, texts)?;
    push_replaced(&mut table.tags, &other.tags, lists)?;
    Ok(())
}

/// Adds codes, by the places that their names have now.
fn push_codes(column: &mut Vec<u32>, codes: &[u32], places: &[u32]) -> Result<(), AllocError>
    requires codes { All (λ code. code ≤ length places.now) codes.now }
    requires places { All (λ place. place ≤ 2 ^ 30) places.now }
    ensures { OnOk result (column.new.items
        ≡ column.old.items ++ map (replaced_code places.now) codes.now) }
{
    for code in codes {
        column.push(replaced_code(places, *code))?;
    }
    Ok(())
}

/// A code, by the place that its name has now.
#[tactic(auto, unfolding(crate::specs::Joining::replaced_code))]
fn replaced_code(places: &[u32], code: u32) -> u32
    requires code { code ≤ length places.now }
    requires places { All (λ place. place ≤ 2 ^ 30) places.now }
    ensures { result ≡ replaced_code places.now code }
{
    match code.checked_sub(1) {
        Some(place) => places[place as usize] + 1,
        None => 0,
    }
}
