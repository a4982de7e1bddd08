//! The writers of rows, at the end of a buffer.
//!
//! Each has one error, [`AllocError`] where the buffer can't grow; then nothing is promised of what the buffer holds.
ghost use Rattle.std.specs.Prelude.{◌≡◌, ◌++◌, All, OnOk};
ghost use Rattle.std.specs.List.{flat_map};
ghost use Rattle.fw_bytes.specs.Spelling.{listed};
ghost use Rattle.fw_charge.specs.Tags.{IsTags, IsTagSized};
ghost use Rattle.fw_charge.specs.Spelling.{tag, tags, amounts, period, discount, consumed, row, IsRow};
ghost use Rattle.fw_row_table.specs.Lending.{tags_lent};

use fw_bytes::{put_byte, put_u32, put_u64};
use fw_charge::class_code;
use fw_columns::{Columns, LentRow, LentTags};
use fw_fields::{put_nanos, put_optional_nanos, put_optional_text, put_tag};
use fw_row_table::Packed;
use std::alloc::{AllocError, Global};

/// Writes each tag in turn.
fn put_each_tag(out: &mut Vec<u8>, all: LentTags<'_>) -> Result<(), AllocError>
    requires { All IsTagSized (tags_lent all) }
    ensures { OnOk result (out.new.items ≡ out.old.items ++ flat_map tag (tags_lent all.entry)) }
{
    match all.split_first() {
        Some((first, rest)) => {
            put_tag(out, first.key, first.value)?;
            put_each_tag(out, rest)?;
            Ok(())
        }
        None => Ok(()),
    }
}

/// Writes tags: their number, and each in turn.
fn put_tags(out: &mut Vec<u8>, all: LentTags<'_>) -> Result<(), AllocError>
    requires { IsTags (tags_lent all) }
    ensures { OnOk result (out.new.items ≡ out.old.items ++ tags (tags_lent all.entry)) }
{
    put_u32(out, all.len() as u32)?;
    put_each_tag(out, all)?;
    Ok(())
}

/// Writes costs, category and class.
#[tactic(auto, unfolding(fw_charge::specs::Spelling::amounts))]
fn put_amounts(out: &mut Vec<u8>, one: &LentRow<'_>) -> Result<(), AllocError>
    ensures { OnOk result (out.new.items ≡ out.old.items ++ amounts one.now) }
{
    put_nanos(out, one.billed())?;
    put_nanos(out, one.effective())?;
    put_byte(out, one.category().code())?;
    put_byte(out, class_code(one.is_correction()))?;
    Ok(())
}

/// Writes the period.
#[tactic(auto, unfolding(fw_charge::specs::Spelling::period))]
fn put_period(out: &mut Vec<u8>, one: &LentRow<'_>) -> Result<(), AllocError>
    ensures { OnOk result (out.new.items ≡ out.old.items ++ period one.now) }
{
    put_u64(out, one.start())?;
    put_u64(out, one.end())?;
    Ok(())
}

/// Writes the discount: id, kind and status, all three null where there is none.
#[tactic(auto, unfolding(fw_charge::specs::Spelling::discount, fw_charge::specs::Codes::kind_code, fw_charge::specs::Codes::status_code))]
fn put_discount(out: &mut Vec<u8>, one: &LentRow<'_>) -> Result<(), AllocError>
    ensures { OnOk result (out.new.items ≡ out.old.items ++ discount one.now.discount) }
{
    match one.discount() {
        None => {
            put_optional_text(out, None)?;
            put_byte(out, 0)?;
            put_byte(out, 0)?;
            Ok(())
        }
        Some(discount) => {
            put_optional_text(out, Some(discount.id))?;
            put_byte(out, discount.kind.code())?;
            put_byte(out, discount.status.map_or(0, |status| status.code()))?;
            Ok(())
        }
    }
}

/// Writes quantity, unit, SKU and sub-account.
#[tactic(auto, unfolding(fw_charge::specs::Spelling::consumed))]
fn put_consumed(out: &mut Vec<u8>, one: &LentRow<'_>) -> Result<(), AllocError>
    ensures { OnOk result (out.new.items ≡ out.old.items ++ consumed one.now) }
{
    // Proves that the texts are short.
    let _start = one.start();
    put_optional_nanos(out, one.quantity())?;
    put_optional_text(out, one.unit())?;
    put_optional_text(out, one.sku())?;
    put_optional_text(out, one.sub_account())?;
    Ok(())
}

/// Writes a row but for its tags, which are to follow.
#[tactic(auto, unfolding(fw_charge::specs::Spelling::row))]
fn put_untagged(out: &mut Vec<u8>, one: &LentRow<'_>) -> Result<(), AllocError>
    ensures { OnOk result (out.new.items ++ tags one.now.tags ≡ out.old.items ++ row one.now) }
{
    put_amounts(out, one)?;
    put_period(out, one)?;
    put_discount(out, one)?;
    put_consumed(out, one)?;
    Ok(())
}

/// Writes a row at the end of the buffer.
///
/// # Errors
/// [`AllocError`] where the buffer can't grow. Then nothing is promised of what the buffer holds.
#[tactic(auto, unfolding(fw_charge::specs::Spelling::row))]
pub fn put_row(out: &mut Vec<u8>, one: &LentRow<'_>) -> Result<(), AllocError>
    ensures { OnOk result (out.new.items ≡ out.old.items ++ row one.now) }
{
    put_untagged(out, one)?;
    put_tags(out, one.tags())?;
    Ok(())
}

/// Writes rows in turn. Rows with the same tags have the same bytes of tags, which are made once and then copied.
fn put_each_row(out: &mut Vec<u8>, rows: &Columns) -> Result<(), AllocError>
    ensures { OnOk result (out.new.items ≡ out.old.items ++ flat_map row rows.now) }
{
    let mut spelled = Packed::new(*out.allocator());
    for place in 0..rows.len() {
        let one = rows.lent(place);
        put_untagged(out, &one)?;
        let code = rows.tag_list_code(place) as usize;
        if code < spelled.len() {
            out.extend_from_slice(spelled.list(code))?;
        } else {
            let start = out.len();
            put_tags(out, one.tags())?;
            if code == spelled.len() {
                spelled = spelled.with(&out[start..])?;
            }
        }
    }
    Ok(())
}

/// The same columns, with the bytes that their rows are written as, so that [`put_rows`] copies these: one thread can make them while another one writes
/// other rows. Where memory is refused for them, the columns come back without.
pub fn spelled(alloc: Global, rows: Columns) -> Columns
    ensures { result ≡ rows }
{
    let mut spelling = Vec::new(alloc);
    match put_each_row(&mut spelling, &rows) {
        Ok(()) => rows.with_spelling(spelling),
        Err(AllocError) => rows,
    }
}

/// Writes rows at the end of the buffer: their number, and each in turn, as [`spelled`] made them where it did. Each row has a spelling.
///
/// # Errors
/// [`AllocError`] where the buffer can't grow. Then nothing is promised of what the buffer holds.
#[tactic(auto, unfolding(fw_bytes::specs::Spelling::listed))]
pub fn put_rows(out: &mut Vec<u8>, rows: &Columns) -> Result<(), AllocError>
    ensures spelled { OnOk result (out.new.items ≡ out.old.items ++ listed row rows.now) }
    ensures valid { OnOk result (All IsRow rows.now) }
{
    // Proves that each row has a spelling.
    let _len = rows.encoded_len();
    put_u32(out, rows.len() as u32)?;
    match rows.spelling() {
        Some(spelling) => out.extend_from_slice(spelling),
        None => put_each_row(out, rows),
    }
}
