//! Whether rows are equal.
ghost use Rattle.std.specs.Prelude.{◌≡◌, ◌↔◌, IsTrue, option_map};
ghost use Rattle.std.specs.Option.{option_copied};
ghost use Rattle.fw_row_table.specs.Lending.{discount_lent, tag_lent, tags_lent};
ghost use Rattle.fw_stored_rows.specs.Comparing.{AgreeBesideTags, AgreeInNumbers, AgreeInTexts};

use fw_columns::{LentDiscount, LentRow, LentTag, LentTags};
use fw_money::Nanos;

/// Whether two rows are equal.
pub fn is_same_row(one: &LentRow<'_>, other: &LentRow<'_>) -> bool
    ensures { IsTrue result ↔ (one.now ≡ other.now) }
{
    agree_beside_tags(one, other) && are_same_tags(one.tags(), other.tags())
}

/// Whether two rows agree in all but their tags.
pub(crate) fn agree_beside_tags(one: &LentRow<'_>, other: &LentRow<'_>) -> bool
    ensures { IsTrue result ↔ AgreeBesideTags one.now other.now }
{
    agree_in_numbers(one, other)
        && agree_in_texts(one, other)
        && is_same_discount(one.discount(), other.discount())
}

// Whether two rows agree in costs, times, category, class and quantity.
fn agree_in_numbers(one: &LentRow<'_>, other: &LentRow<'_>) -> bool
    ensures { IsTrue result ↔ AgreeInNumbers one.now other.now }
{
    one.start() == other.start()
        && one.billed().count() == other.billed().count()
        && one.end() == other.end()
        && one.effective().count() == other.effective().count()
        && one.category() == other.category()
        && one.is_correction() == other.is_correction()
        && is_same_amount(one.quantity(), other.quantity())
}

// Whether two rows agree in unit, SKU and sub-account.
fn agree_in_texts(one: &LentRow<'_>, other: &LentRow<'_>) -> bool
    ensures { IsTrue result ↔ AgreeInTexts one.now other.now }
{
    is_same_text(one.unit(), other.unit())
        && is_same_text(one.sku(), other.sku())
        && is_same_text(one.sub_account(), other.sub_account())
}

// Whether two amounts are equal, or both null.
fn is_same_amount(one: Option<Nanos>, other: Option<Nanos>) -> bool
    ensures { IsTrue result ↔ (one ≡ other) }
{
    match (one, other) {
        (Some(first), Some(second)) => first.count() == second.count(),
        (None, None) => true,
        (Some(_), None) | (None, Some(_)) => false,
    }
}

// Whether two texts are equal, or both null.
fn is_same_text(one: Option<&str>, other: Option<&str>) -> bool
    ensures { IsTrue result ↔ (option_copied one.entry ≡ option_copied other.entry) }
{
    match (one, other) {
        (Some(first), Some(second)) => first == second,
        (None, None) => true,
        (Some(_), None) | (None, Some(_)) => false,
    }
}

// Whether two discounts are equal, or there is none in both.
fn is_same_discount(one: Option<LentDiscount<'_>>, other: Option<LentDiscount<'_>>) -> bool
    ensures { IsTrue result
        ↔ (option_map discount_lent one.entry ≡ option_map discount_lent other.entry) }
{
    match (one, other) {
        (Some(first), Some(second)) => {
            first.id == second.id && first.kind == second.kind && first.status == second.status
        }
        (None, None) => true,
        (Some(_), None) | (None, Some(_)) => false,
    }
}

// Whether two tags are equal.
fn is_same_tag(one: LentTag<'_>, other: LentTag<'_>) -> bool
    ensures { IsTrue result ↔ (tag_lent one.entry ≡ tag_lent other.entry) }
{
    one.key == other.key && one.value == other.value
}

/// Whether two lists have the same tags.
pub(crate) fn are_same_tags(one: LentTags<'_>, other: LentTags<'_>) -> bool
    ensures { IsTrue result ↔ (tags_lent one.entry ≡ tags_lent other.entry) }
{
    match (one.split_first(), other.split_first()) {
        (Some((first, rest)), Some((second, others))) => {
            is_same_tag(first, second) && are_same_tags(rest, others)
        }
        (None, None) => true,
        (Some(_), None) | (None, Some(_)) => false,
    }
}
