//! What the codes of texts, discounts, quantities and tags stand for.
ghost use Rattle.std.specs.Prelude.{◌≡◌, ◌<◌, ◌≤◌, length, option_map, string_bytes, IfOk};
ghost use Rattle.fw_row_table.specs.Table.{text_of, text_at, discount_of, quantity_of, tag_of};

use crate::names::Names;
use fw_charge::{Discount, DiscountKind, DiscountStatus, Tag};
use fw_money::Nanos;
use std::alloc::{AllocError, Global};

/// The text of a code.
#[tactic(auto, unfolding(crate::specs::Table::text_of, crate::specs::Table::text_at))]
pub fn text_of(alloc: Global, names: &Names, code: u32) -> Result<Option<String>, AllocError>
    requires { code ≤ length names.now }
    ensures { IfOk result (λ text. option_map string_bytes text ≡ text_of names.now code) }
{
    match code.checked_sub(1) {
        Some(place) => Ok(Some(String::from_str(alloc, names.text(place))?)),
        None => Ok(None),
    }
}

/// The discount with an id that may be null, and with the codes of its kind and of its status. A code that is no kind's counts as a kind of use.
#[tactic(auto, unfolding(crate::specs::Table::discount_of))]
pub fn discount_of(id: Option<String>, kind: u8, status: u8) -> Option<Discount>
    ensures { result ≡ discount_of (option_map string_bytes id) kind status }
{
    match id {
        Some(id) => Some(Discount::of_fields(
            id,
            DiscountKind::from_code(kind).unwrap_or(DiscountKind::Usage),
            DiscountStatus::from_code(status),
        )),
        None => None,
    }
}

/// A quantity that may be null, from its amount and whether it is there.
#[tactic(auto, unfolding(crate::specs::Table::quantity_of))]
pub fn quantity_of(is_there: bool, quantity: Nanos) -> Option<Nanos>
    ensures { result ≡ quantity_of is_there quantity }
{
    if is_there { Some(quantity) } else { None }
}

/// The tag with the places of its key and of its value.
#[tactic(auto, unfolding(crate::specs::Table::tag_of, crate::specs::Table::text_at))]
pub fn tag_of(alloc: Global, names: &Names, key: u32, value: u32) -> Result<Tag, AllocError>
    requires key { key < length names.now }
    requires value { value < length names.now }
    ensures { IfOk result (λ tag. tag ≡ tag_of names.now key value) }
{
    let key = String::from_str(alloc, names.text(key))?;
    let value = String::from_str(alloc, names.text(value))?;
    Ok(Tag::of_fields(key, value))
}
