//! The reader of rows by column.
ghost use Rattle.std.specs.Prelude.{◌≤◌, map, string_bytes};
ghost use Rattle.fw_bytes.specs.Reading.{Gives};
ghost use Rattle.fw_column_bytes.specs.Reading.{amounts_at, body_at, byte_at, discounts_at, front_at, parts_at, periods_at, quantities_at, row_count_at, texts_at};
ghost use Rattle.fw_column_bytes.specs.Spelling.{layout};
ghost use Rattle.fw_row_table.specs.Table.{most_column_rows};
ghost use Rattle.fw_column_bytes.specs.PartsView.{amounts_view, body_view, discounts_view, front_view, parts_view, periods_view, quantities_view, texts_view};

use crate::fields::{
    amounts_after, bytes_after, names_of, row_lists_after, seconds_after, text_codes_after,
};
use fw_bytes::{ReadError, u32_at};
use fw_charge::Category;
use fw_columns::{Columns, RowLists};
use std::alloc::Global;

/// How many rows there are, and the names.
#[derive(Drop)]
pub struct FrontRead {
    pub count: u32,
    pub names: Vec<String>,
}

/// Costs, and the codes of categories and classes.
#[derive(Drop)]
pub struct AmountsRead {
    pub billed: Vec<i64>,
    pub effective: Vec<i64>,
    pub categories: Vec<u8>,
    pub classes: Vec<u8>,
}

/// The first seconds, and the seconds after the periods.
#[derive(Drop)]
pub struct PeriodsRead {
    pub starts: Vec<u64>,
    pub ends: Vec<u64>,
}

/// The codes of ids, kinds and statuses.
#[derive(Drop)]
pub struct DiscountsRead {
    pub ids: Vec<u32>,
    pub kinds: Vec<u8>,
    pub statuses: Vec<u8>,
}

/// 1 where there is a quantity, and the quantities.
#[derive(Drop)]
pub struct QuantitiesRead {
    pub are_there: Vec<u8>,
    pub counts: Vec<i64>,
}

/// The codes of units, SKUs and sub-accounts.
#[derive(Drop)]
pub struct TextsRead {
    pub units: Vec<u32>,
    pub skus: Vec<u32>,
    pub sub_accounts: Vec<u32>,
}

/// The columns, each value in its range, and each list of tags once.
#[derive(Drop)]
pub struct BodyRead {
    pub amounts: AmountsRead,
    pub periods: PeriodsRead,
    pub discounts: DiscountsRead,
    pub quantities: QuantitiesRead,
    pub texts: TextsRead,
    pub tags: RowLists,
}

/// What was read, each field in its range.
#[derive(Drop)]
pub struct PartsRead {
    pub front: FrontRead,
    pub body: BodyRead,
}

#[tactic(auto, unfolding(crate::specs::Reading::row_count_at, fw_bytes::specs::Reading::checked))]
fn row_count_of(bytes: &[u8]) -> Result<(u32, &[u8]), ReadError>
    ensures { Gives (λ x. (x.0, x.1.now)) result (row_count_at bytes.now) }
{
    let (count, rest) = u32_at(bytes)?;
    if count < 1 || count > Columns::MOST_ROWS as u32 {
        return Err(ReadError::Corrupt(bytes.len()));
    }
    Ok((count, rest))
}

#[tactic(auto, unfolding(crate::specs::Reading::byte_at, fw_bytes::specs::Reading::checked, fw_bytes::specs::Reading::code_at))]
fn layout_of(bytes: &[u8]) -> Result<(u8, &[u8]), ReadError>
    ensures { Gives (λ x. (layout, x.1.now)) result (byte_at layout layout bytes.now) }
{
    let (byte, rest) = bytes.split_first().ok_or(ReadError::Corrupt(0))?;
    if *byte != 2 {
        return Err(ReadError::Corrupt(bytes.len()));
    }
    Ok((*byte, rest))
}

#[tactic(auto, unfolding(crate::specs::Reading::front_at, fw_bytes::specs::Reading::both))]
fn front_of(alloc: Global, bytes: &[u8]) -> Result<(FrontRead, &[u8]), ReadError>
    ensures { Gives (λ x. (front_view x.0, x.1.now)) result (front_at bytes.now) }
{
    let (_layout, rest) = layout_of(bytes)?;
    let (count, rest) = row_count_of(rest)?;
    let (names, rest) = names_of(alloc, rest)?;
    Ok((FrontRead { count, names }, rest))
}

#[tactic(auto, unfolding(crate::specs::Reading::amounts_at, fw_bytes::specs::Reading::both))]
fn amounts_of(alloc: Global, count: u32, bytes: &[u8]) -> Result<(AmountsRead, &[u8]), ReadError>
    ensures { Gives (λ x. (amounts_view x.0, x.1.now)) result (amounts_at count bytes.now) }
{
    let (billed, rest) = amounts_after(alloc, count, bytes)?;
    let (effective, rest) = amounts_after(alloc, count, rest)?;
    let (categories, rest) = bytes_after(alloc, 1, Category::LAST_CODE, count, rest)?;
    let (classes, rest) = bytes_after(alloc, 0, 1, count, rest)?;
    let amounts = AmountsRead {
        billed,
        effective,
        categories,
        classes,
    };
    Ok((amounts, rest))
}

#[tactic(auto, unfolding(crate::specs::Reading::periods_at, fw_bytes::specs::Reading::both))]
fn periods_of(alloc: Global, count: u32, bytes: &[u8]) -> Result<(PeriodsRead, &[u8]), ReadError>
    ensures { Gives (λ x. (periods_view x.0, x.1.now)) result (periods_at count bytes.now) }
{
    let (starts, rest) = seconds_after(alloc, count, bytes)?;
    let (ends, rest) = seconds_after(alloc, count, rest)?;
    Ok((PeriodsRead { starts, ends }, rest))
}

#[tactic(auto, unfolding(crate::specs::Reading::discounts_at, fw_bytes::specs::Reading::both))]
fn discounts_of<'a>(
    alloc: Global,
    names: &[String],
    count: u32,
    bytes: &'a [u8],
) -> Result<(DiscountsRead, &'a [u8]), ReadError>
    ensures { Gives (λ x. (discounts_view x.0, x.1.now)) result
        (discounts_at (map string_bytes names.now) count bytes.now) }
{
    let (ids, rest) = text_codes_after(alloc, names, count, bytes)?;
    let (kinds, rest) = bytes_after(alloc, 0, 2, count, rest)?;
    let (statuses, rest) = bytes_after(alloc, 0, 2, count, rest)?;
    let discounts = DiscountsRead {
        ids,
        kinds,
        statuses,
    };
    Ok((discounts, rest))
}

#[tactic(auto, unfolding(crate::specs::Reading::quantities_at, fw_bytes::specs::Reading::both))]
fn quantities_of(
    alloc: Global,
    count: u32,
    bytes: &[u8],
) -> Result<(QuantitiesRead, &[u8]), ReadError>
    ensures { Gives (λ x. (quantities_view x.0, x.1.now)) result (quantities_at count bytes.now) }
{
    let (are_there, rest) = bytes_after(alloc, 0, 1, count, bytes)?;
    let (counts, rest) = amounts_after(alloc, count, rest)?;
    Ok((QuantitiesRead { are_there, counts }, rest))
}

#[tactic(auto, unfolding(crate::specs::Reading::texts_at, fw_bytes::specs::Reading::both))]
fn texts_of<'a>(
    alloc: Global,
    names: &[String],
    count: u32,
    bytes: &'a [u8],
) -> Result<(TextsRead, &'a [u8]), ReadError>
    ensures { Gives (λ x. (texts_view x.0, x.1.now)) result
        (texts_at (map string_bytes names.now) count bytes.now) }
{
    let (units, rest) = text_codes_after(alloc, names, count, bytes)?;
    let (skus, rest) = text_codes_after(alloc, names, count, rest)?;
    let (sub_accounts, rest) = text_codes_after(alloc, names, count, rest)?;
    let texts = TextsRead {
        units,
        skus,
        sub_accounts,
    };
    Ok((texts, rest))
}

#[tactic(auto, unfolding(crate::specs::Reading::body_at, fw_bytes::specs::Reading::both))]
fn body_of<'a>(
    alloc: Global,
    names: &[String],
    count: u32,
    bytes: &'a [u8],
) -> Result<(BodyRead, &'a [u8]), ReadError>
    requires { count ≤ most_column_rows }
    ensures { Gives (λ x. (body_view x.0, x.1.now)) result
        (body_at (map string_bytes names.now) count bytes.now) }
{
    let (amounts, rest) = amounts_of(alloc, count, bytes)?;
    let (periods, rest) = periods_of(alloc, count, rest)?;
    let (discounts, rest) = discounts_of(alloc, names, count, rest)?;
    let (quantities, rest) = quantities_of(alloc, count, rest)?;
    let (texts, rest) = texts_of(alloc, names, count, rest)?;
    let (tags, rest) = row_lists_after(alloc, names, count, rest)?;
    let body = BodyRead {
        amounts,
        periods,
        discounts,
        quantities,
        texts,
        tags,
    };
    Ok((body, rest))
}

/// All fields of rows by column.
#[tactic(auto, unfolding(crate::specs::Reading::parts_at))]
pub fn parts_of(alloc: Global, bytes: &[u8]) -> Result<(PartsRead, &[u8]), ReadError>
    ensures { Gives (λ x. (parts_view x.0, x.1.now)) result (parts_at bytes.now) }
{
    let (front, rest) = front_of(alloc, bytes)?;
    let (body, rest) = body_of(alloc, front.names.as_slice(), front.count, rest)?;
    Ok((PartsRead { front, body }, rest))
}
