//! Rows whose texts and tags are lent: nothing is copied.
ghost use Rattle.std.specs.Prelude.{◌≡◌, ◌≤◌, length, option_copied, option_map};
ghost use Rattle.fw_charge.specs.Charge.{IsCharge};
ghost use Rattle.fw_charge.specs.Tags.{group_of, IsTags};
ghost use Rattle.fw_row_table.specs.Lending.{charge_with, discount_lent, discount_with, tags_lent, tags_split};
ghost use Rattle.fw_row_table.specs.Reading.{HasRow};
ghost use Rattle.fw_row_table.specs.Table.{charge_at, list_at, tags_of, text_at, text_of};

use crate::codes::quantity_of;
use crate::names::Names;
use crate::reading::{amount_at, category_at, class_at, second_at};
use crate::table::Table;
use fw_charge::{Category, DiscountKind, DiscountStatus, Row, Tag, Tags, hour_of};
use fw_money::Nanos;
use std::marker::Model;

/// The commitment discount of a lent row.
#[derive(Clone, Copy, Debug, Drop)]
pub struct LentDiscount<'a> {
    /// CommitmentDiscountId.
    pub id: &'a str,
    /// CommitmentDiscountCategory.
    pub kind: DiscountKind,
    /// CommitmentDiscountStatus, or `None` where it is null.
    pub status: Option<DiscountStatus>,
}

/// A tag of a lent row: a key, and the text under it.
#[derive(Clone, Copy, Debug, Drop)]
pub struct LentTag<'a> {
    /// The key.
    pub key: &'a str,
    /// The text under the key.
    pub value: &'a str,
}

/// The tags of a lent row, in rising order of the bytes of their keys.
#[derive(Clone, Copy, Debug, Drop)]
pub enum LentTags<'a> {
    /// Tags that are kept as they are.
    Whole(&'a [Tag]),
    /// Tags that columns keep: the place of each key in the names, and behind it that of its value.
    Listed { names: &'a Names, list: &'a [u32] },
}

/// The values of a charge row but its tags. Its texts are lent. An `Option` is `None` where the column is null.
#[derive(Clone, Copy, Debug, Drop)]
pub struct RowView<'a> {
    /// BilledCost, in nanos.
    pub billed: Nanos,
    /// EffectiveCost, in nanos.
    pub effective: Nanos,
    /// ChargeCategory.
    pub category: Category,
    /// ChargeClass: whether the row corrects a charge of an earlier billing period.
    pub is_correction: bool,
    /// ChargePeriodStart: the first second of the charge period, counted from 1970.
    pub start: u64,
    /// ChargePeriodEnd: the second after the charge period, counted from 1970.
    pub end: u64,
    /// CommitmentDiscountId: the commitment discount that the row belongs to.
    pub discount: Option<&'a str>,
    /// CommitmentDiscountCategory. It counts only where there is a discount.
    pub kind: DiscountKind,
    /// CommitmentDiscountStatus. It counts only where there is a discount.
    pub status: Option<DiscountStatus>,
    /// ConsumedQuantity, in nanos of its unit.
    pub quantity: Option<Nanos>,
    /// ConsumedUnit.
    pub unit: Option<&'a str>,
    /// SkuId.
    pub sku: Option<&'a str>,
    /// SubAccountId.
    pub sub_account: Option<&'a str>,
}

impl<'a> RowView<'a> {
    // The same values. Each is named, which the borrow checker asks for of what is lent.
    #[inline(always)]
    fn again(&self) -> RowView<'a>
        ensures { result ≡ self.now }
    {
        RowView {
            billed: self.billed,
            effective: self.effective,
            category: self.category,
            is_correction: self.is_correction,
            start: self.start,
            end: self.end,
            discount: self.discount,
            kind: self.kind,
            status: self.status,
            quantity: self.quantity,
            unit: self.unit,
            sku: self.sku,
            sub_account: self.sub_account,
        }
    }
}

/// A charge row whose texts and tags are lent. A contract sees the row, as it does that of a [`Row`].
#[derive(Debug, Drop)]
pub struct LentRow<'a> {
    values: RowView<'a>,
    tags: LentTags<'a>,
}

impl<'a> Model for LentRow<'a> {
    ghost use Rattle.fw_charge.specs.Charge.{Charge, IsCharge};
    ghost use Rattle.fw_row_table.specs.Lending.{charge_with, tags_lent};

    ghost Value = { Charge };

    ghost view = { λ r. charge_with r.values (tags_lent r.tags) };

    ghost invariant = { λ r. IsCharge (charge_with r.values (tags_lent r.tags)) };
}

impl<'a> LentRow<'a> {
    ghost use Rattle.fw_charge.specs.Charge.{IsCharge, hour_of};

    /// The row with these values and these tags, which together keep the rules of a row.
    #[inline(always)]
    pub(crate) fn of_parts(values: &RowView<'a>, tags: LentTags<'a>) -> LentRow<'a>
        requires { IsCharge (charge_with values.now (tags_lent tags)) }
        ensures { result ≡ charge_with values.now (tags_lent tags.entry) }
    {
        LentRow {
            values: values.again(),
            tags,
        }
    }

    /// A row, lent.
    pub fn of_row(row: &'a Row) -> LentRow<'a>
        ensures { result ≡ row.now }
    {
        match row.discount() {
            Some(discount) => {
                LentRow::with_discount(row, Some(discount.id()), discount.kind(), discount.status())
            }
            None => LentRow::with_discount(row, None, DiscountKind::Usage, None),
        }
    }

    // A row whose discount is this one, lent.
    fn with_discount(
        row: &'a Row,
        id: Option<&'a str>,
        kind: DiscountKind,
        status: Option<DiscountStatus>,
    ) -> LentRow<'a>
        requires { discount_with id kind status ≡ row.now.discount }
        ensures { result ≡ row.now }
    {
        let values = RowView {
            billed: row.billed(),
            effective: row.effective(),
            category: row.category(),
            is_correction: row.is_correction(),
            start: row.start(),
            end: row.end(),
            discount: id,
            kind,
            status,
            quantity: row.quantity(),
            unit: row.unit(),
            sku: row.sku(),
            sub_account: row.sub_account(),
        };
        LentRow::of_parts(&values, LentTags::of_tags(row.tags()))
    }

    /// The values of the row but its tags.
    pub fn values(&self) -> RowView<'a>
        ensures row { charge_with result self.now.tags ≡ self.now }
        ensures valid { IsCharge self.now }
    {
        self.values.again()
    }

    /// BilledCost: the cost that is the basis of an invoice, in nanos.
    pub fn billed(&self) -> Nanos
        ensures { result ≡ self.now.billed }
    {
        self.values.billed
    }

    /// EffectiveCost: the cost with prepaid purchases spread over what they paid for, in nanos.
    pub fn effective(&self) -> Nanos
        ensures { result ≡ self.now.effective }
    {
        self.values.effective
    }

    /// ChargeCategory: what kind of charge the row is.
    pub fn category(&self) -> Category
        ensures { result ≡ self.now.category }
    {
        self.values.category
    }

    /// ChargeClass: whether the row corrects a charge of an earlier billing period.
    pub fn is_correction(&self) -> bool
        ensures { result ≡ self.now.is_correction }
    {
        self.values.is_correction
    }

    /// ChargePeriodStart: the first second of the charge period, counted from 1970.
    pub fn start(&self) -> u64
        ensures value { result ≡ self.now.start }
        ensures valid { IsCharge self.now }
    {
        self.values.start
    }

    /// ChargePeriodEnd: the second after the charge period, counted from 1970.
    pub fn end(&self) -> u64
        ensures value { result ≡ self.now.end }
        ensures valid { IsCharge self.now }
    {
        self.values.end
    }

    /// The hour of the row: that of its first second. Hour 0 begins with 1970.
    #[tactic(auto, unfolding(fw_charge::specs::Charge::hour_of))]
    pub fn hour(&self) -> u32
        ensures { result ≡ hour_of self.now.start }
    {
        hour_of(self.values.start) as u32
    }

    /// The commitment discount that the row belongs to.
    pub fn discount(&self) -> Option<LentDiscount<'a>>
        ensures value { option_map discount_lent result ≡ self.now.discount }
        ensures valid { IsCharge self.now }
    {
        match self.values.discount {
            Some(id) => Some(LentDiscount {
                id,
                kind: self.values.kind,
                status: self.values.status,
            }),
            None => None,
        }
    }

    /// ConsumedQuantity: how much was consumed, in nanos of its unit, or `None` where it is null or out of range.
    pub fn quantity(&self) -> Option<Nanos>
        ensures { result ≡ self.now.quantity }
    {
        self.values.quantity
    }

    /// ConsumedUnit: the unit of the quantity.
    pub fn unit(&self) -> Option<&'a str>
        ensures { option_copied result ≡ self.now.unit }
    {
        self.values.unit
    }

    /// SkuId: what was sold.
    pub fn sku(&self) -> Option<&'a str>
        ensures { option_copied result ≡ self.now.sku }
    {
        self.values.sku
    }

    /// SubAccountId: the part of the account that the charge falls to.
    pub fn sub_account(&self) -> Option<&'a str>
        ensures { option_copied result ≡ self.now.sub_account }
    {
        self.values.sub_account
    }

    /// Tags: the keys and texts that the customer gave.
    pub fn tags(&self) -> LentTags<'a>
        ensures value { tags_lent result ≡ self.now.tags }
        ensures valid { IsCharge self.now }
    {
        self.tags
    }
}

impl<'a> LentTags<'a> {
    /// Tags, lent.
    pub fn of_tags(tags: &'a Tags) -> LentTags<'a>
        ensures value { tags_lent result ≡ tags.now }
        ensures valid { IsTags tags.now }
    {
        LentTags::Whole(tags.as_slice())
    }

    /// How many tags there are. It takes no memory.
    pub fn len(self) -> usize
        ensures { result ≡ length (tags_lent self.entry) }
    {
        match self {
            LentTags::Whole(tags) => tags.len(),
            LentTags::Listed { names: _, list } => list.len() / 2,
        }
    }

    /// The first tag and the tags behind it; `None` where there is no tag. It takes no memory.
    pub fn split_first(self) -> Option<(LentTag<'a>, LentTags<'a>)>
        ensures { tags_lent self.entry ≡ tags_split result }
    {
        match self {
            LentTags::Whole(tags) => first_whole(tags),
            LentTags::Listed { names, list } => first_listed(names, list),
        }
    }

    /// The group under a key: the text under it, or the empty text where the key isn't there.
    pub fn group(self, key: &str) -> &'a str
        ensures { result.now ≡ group_of key.now (tags_lent self.entry) }
    {
        if let LentTags::Listed { names, list } = self {
            return group_listed(names, list, key);
        }
        let mut rest = self;
        while let Some((tag, after)) = rest.split_first() {
            if tag.key == key {
                return tag.value;
            }
            rest = after;
        }
        ""
    }
}

// The group under a key of tags that columns keep: the text under it, or the empty text. A text that is under another key isn't looked up.
fn group_listed<'a>(names: &'a Names, list: &'a [u32], key: &str) -> &'a str
    ensures { result.now ≡ group_of key.now (tags_of names.now list.now) }
{
    for tag in 0..list.len() / 2 {
        if text_at(names, list[2 * tag]) == key {
            return text_at(names, list[2 * tag + 1]);
        }
    }
    ""
}

// The first of tags that are kept as they are, and those behind it.
#[tactic(auto, unfolding(crate::specs::Lending::tags_split))]
fn first_whole(tags: &[Tag]) -> Option<(LentTag<'_>, LentTags<'_>)>
    ensures { tags.now ≡ tags_split result }
{
    match tags {
        [first, rest @ ..] => {
            let tag = LentTag {
                key: first.key(),
                value: first.value(),
            };
            Some((tag, LentTags::Whole(rest)))
        }
        [] => None,
    }
}

// The first of tags that columns keep, and those behind it.
#[tactic(auto, unfolding(crate::specs::Lending::tags_split))]
fn first_listed<'a>(names: &'a Names, list: &'a [u32]) -> Option<(LentTag<'a>, LentTags<'a>)>
    ensures { tags_of names.now list.now ≡ tags_split result }
{
    match list {
        [key, value, rest @ ..] => {
            let tag = LentTag {
                key: text_at(names, *key),
                value: text_at(names, *value),
            };
            Some((tag, LentTags::Listed { names, list: rest }))
        }
        _ => None,
    }
}

// The text of a place, or the empty text where no name has the place.
#[tactic(auto, unfolding(crate::specs::Table::text_at))]
fn text_at(names: &Names, place: u32) -> &str
    ensures { result.now ≡ text_at names.now place }
{
    if (place as usize) < names.len() {
        names.text(place)
    } else {
        ""
    }
}

// The text of a code, lent.
#[tactic(auto, unfolding(crate::specs::Table::text_of, crate::specs::Table::text_at))]
fn text_lent(names: &Names, code: u32) -> Option<&str>
    requires { code ≤ length names.now }
    ensures { option_copied result ≡ text_of names.now code }
{
    match code.checked_sub(1) {
        Some(place) => Some(names.text(place)),
        None => None,
    }
}

/// The tags of the row at a place, lent.
#[inline(always)]
pub fn lent_tags(table: &Table, place: usize) -> LentTags<'_>
    requires { HasRow table.now place }
    ensures { tags_lent result ≡ tags_of table.now.names (list_at table.now place) }
{
    LentTags::Listed {
        names: &table.names,
        list: table.lists.list(table.tags[place]),
    }
}

/// The row at a place, whose tags are these, lent. It is compiled into its callers, as few of them look at each field.
#[inline(always)]
pub fn lent_row<'a>(table: &'a Table, tags: LentTags<'a>, place: usize) -> LentRow<'a>
    requires row { HasRow table.now place }
    requires charge { IsCharge (charge_at table.now place) }
    requires tags { tags_lent tags ≡ tags_of table.now.names (list_at table.now place) }
    ensures { result ≡ charge_at table.now place }
{
    let names = &table.names;
    let values = RowView {
        billed: amount_at(table.billed.as_slice(), place),
        effective: amount_at(table.effective.as_slice(), place),
        category: category_at(table.categories.as_slice(), place),
        is_correction: class_at(table.classes.as_slice(), place),
        start: second_at(table.starts.as_slice(), place),
        end: table.ends[place],
        discount: text_lent(names, table.discounts[place]),
        kind: DiscountKind::from_code(table.kinds[place]).unwrap_or(DiscountKind::Usage),
        status: DiscountStatus::from_code(table.statuses[place]),
        quantity: quantity_of(
            table.has_quantity[place],
            amount_at(table.quantities.as_slice(), place),
        ),
        unit: text_lent(names, table.units[place]),
        sku: text_lent(names, table.skus[place]),
        sub_account: text_lent(names, table.sub_accounts[place]),
    };
    LentRow::of_parts(&values, tags)
}
