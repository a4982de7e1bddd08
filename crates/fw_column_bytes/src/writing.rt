//! The writers of columns, at the end of a buffer.
//!
//! Each has one error, [`AllocError`] where the buffer can't grow; then nothing is promised of what the buffer holds.
ghost use Rattle.std.specs.Prelude.{◌≡◌, ◌≤◌, ◌^◌, ◌+◌, ◌++◌, map, All, OnOk};
ghost use Rattle.std.specs.List.{flat_map};
ghost use Rattle.fw_bytes.specs.Spelling.{number32, number64, signed64, listed, text};
ghost use Rattle.fw_row_table.specs.Texts.{names_of};
ghost use Rattle.fw_column_bytes.specs.Spelling.{amounts, columns, discounts, flag, periods, quantities, tags, texts};

use fw_bytes::{put_byte, put_text, put_u32};
use fw_columns::Columns;
use fw_row_table::Packed;
use std::alloc::AllocError;

/// Writes numbers of eight bytes, with a sign.
fn put_signed(out: &mut Vec<u8>, column: &[i64]) -> Result<(), AllocError>
    ensures { OnOk result (out.new.items ≡ out.old.items ++ flat_map signed64 column.now) }
{
    let start = out.len();
    out.resize(start + 8 * column.len(), 0)?;
    for index in 0..column.len() {
        let at = start + 8 * index;
        out[at..at + 8].copy_from_slice(&column[index].to_le_bytes());
    }
    Ok(())
}

/// Writes numbers of eight bytes.
fn put_wide(out: &mut Vec<u8>, column: &[u64]) -> Result<(), AllocError>
    ensures { OnOk result (out.new.items ≡ out.old.items ++ flat_map number64 column.now) }
{
    let start = out.len();
    out.resize(start + 8 * column.len(), 0)?;
    for index in 0..column.len() {
        let at = start + 8 * index;
        out[at..at + 8].copy_from_slice(&column[index].to_le_bytes());
    }
    Ok(())
}

/// Writes numbers of four bytes.
fn put_codes(out: &mut Vec<u8>, column: &[u32]) -> Result<(), AllocError>
    ensures { OnOk result (out.new.items ≡ out.old.items ++ flat_map number32 column.now) }
{
    let start = out.len();
    out.resize(start + 4 * column.len(), 0)?;
    for index in 0..column.len() {
        let at = start + 4 * index;
        out[at..at + 4].copy_from_slice(&column[index].to_le_bytes());
    }
    Ok(())
}

/// Writes flags, a byte each: 1 for one that is set.
fn put_flags(out: &mut Vec<u8>, column: &[bool]) -> Result<(), AllocError>
    ensures { OnOk result (out.new.items ≡ out.old.items ++ map flag column.now) }
{
    for is_set in column {
        put_byte(out, flag_code(*is_set))?;
    }
    Ok(())
}

#[tactic(auto, unfolding(crate::specs::Spelling::flag))]
fn flag_code(is_set: bool) -> u8
    ensures { result ≡ flag is_set }
{
    if is_set { 1 } else { 0 }
}

/// Writes the names: their number, and each in turn.
fn put_names(out: &mut Vec<u8>, rows: &Columns) -> Result<(), AllocError>
    ensures { OnOk result (out.new.items ≡ out.old.items ++ listed text (names_of rows.now)) }
{
    let count = rows.name_count() as u32;
    let names = rows.names();
    put_u32(out, count)?;
    for place in 0..count {
        put_text(out, names.text(place))?;
    }
    Ok(())
}

/// Writes costs, categories and classes.
fn put_amounts(out: &mut Vec<u8>, rows: &Columns) -> Result<(), AllocError>
    ensures { OnOk result (out.new.items ≡ out.old.items ++ amounts rows.now) }
{
    put_signed(out, rows.billed())?;
    put_signed(out, rows.effective())?;
    out.extend_from_slice(rows.categories())?;
    out.extend_from_slice(rows.classes())?;
    Ok(())
}

/// Writes the periods.
fn put_periods(out: &mut Vec<u8>, rows: &Columns) -> Result<(), AllocError>
    ensures { OnOk result (out.new.items ≡ out.old.items ++ periods rows.now) }
{
    put_signed(out, rows.starts())?;
    put_wide(out, rows.ends())?;
    Ok(())
}

/// Writes the discounts.
fn put_discounts(out: &mut Vec<u8>, rows: &Columns) -> Result<(), AllocError>
    ensures { OnOk result (out.new.items
        ≡ out.old.items ++ discounts (names_of rows.now) rows.now) }
{
    put_codes(out, rows.discounts())?;
    out.extend_from_slice(rows.kinds())?;
    out.extend_from_slice(rows.statuses())?;
    Ok(())
}

/// Writes the quantities.
fn put_quantities(out: &mut Vec<u8>, rows: &Columns) -> Result<(), AllocError>
    ensures { OnOk result (out.new.items ≡ out.old.items ++ quantities rows.now) }
{
    put_flags(out, rows.has_quantity())?;
    put_signed(out, rows.quantities())?;
    Ok(())
}

/// Writes units, SKUs and sub-accounts.
fn put_texts(out: &mut Vec<u8>, rows: &Columns) -> Result<(), AllocError>
    ensures { OnOk result (out.new.items ≡ out.old.items ++ texts (names_of rows.now) rows.now) }
{
    put_codes(out, rows.units())?;
    put_codes(out, rows.skus())?;
    put_codes(out, rows.sub_accounts())?;
    Ok(())
}

/// Writes the codes of the texts at these places.
fn put_places(out: &mut Vec<u8>, places: &[u32]) -> Result<(), AllocError>
    requires { All (λ place. place ≤ 2 ^ 30) places.now }
    ensures { OnOk result (out.new.items
        ≡ out.old.items ++ flat_map (λ place. number32 (1 + place)) places.now) }
{
    for place in places {
        put_u32(out, 1 + *place)?;
    }
    Ok(())
}

/// Writes the tags of each row. Rows with the same tags have the same bytes, which are made once and then copied.
fn put_tags(out: &mut Vec<u8>, rows: &Columns) -> Result<(), AllocError>
    ensures { OnOk result (out.new.items ≡ out.old.items ++ tags (names_of rows.now) rows.now) }
{
    let _count = rows.name_count();
    let mut spelled = Packed::new(*out.allocator());
    for place in 0..rows.len() {
        let code = rows.tag_list_code(place) as usize;
        if code < spelled.len() {
            out.extend_from_slice(spelled.list(code))?;
        } else {
            let start = out.len();
            let places = rows.tag_places(place);
            put_u32(out, (places.len() / 2) as u32)?;
            put_places(out, places)?;
            if code == spelled.len() {
                spelled = spelled.with(&out[start..])?;
            }
        }
    }
    Ok(())
}

/// Writes rows by column, at the end of the buffer: the layout, the number of rows, the names, and the columns one after another.
///
/// # Errors
/// [`AllocError`] where the buffer can't grow. Then nothing is promised of what the buffer holds.
pub fn put_columns(out: &mut Vec<u8>, rows: &Columns) -> Result<(), AllocError>
    ensures { OnOk result (out.new.items ≡ out.old.items ++ columns rows.now) }
{
    put_byte(out, 2)?;
    put_u32(out, rows.len() as u32)?;
    put_names(out, rows)?;
    put_amounts(out, rows)?;
    put_periods(out, rows)?;
    put_discounts(out, rows)?;
    put_quantities(out, rows)?;
    put_texts(out, rows)?;
    put_tags(out, rows)?;
    Ok(())
}
