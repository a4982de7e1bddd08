//! A charge row.
ghost use Rattle.std.specs.Prelude.{◌≡◌, string_bytes, option_map, option_copied, IfOk};

use crate::category::Category;
use crate::discount::Discount;
use crate::tags::Tags;
use crate::time::hour_of;
use fw_money::Nanos;
use std::alloc::{AllocError, Global};
use std::marker::Model;

/// The most rows of a post: rows that are sent together, and are accepted or refused together.
pub const MOST_POST_ROWS: usize = 4_096;

/// The fields of a charge row. An `Option` is `None` where the column is null.
#[derive(Debug)]
pub struct RowFields {
    /// BilledCost: the cost that is the basis of an invoice, in nanos.
    pub billed: Nanos,
    /// EffectiveCost: the cost with prepaid purchases spread over what they paid for, in nanos.
    pub effective: Nanos,
    /// ChargeCategory: what kind of charge the row is.
    pub category: Category,
    /// ChargeClass: whether the row corrects a charge of an earlier billing period.
    pub is_correction: bool,
    /// ChargePeriodStart: the first second of the charge period, counted from 1970.
    pub start: u64,
    /// ChargePeriodEnd: the second after the charge period, counted from 1970.
    pub end: u64,
    /// The commitment discount that the row belongs to.
    pub discount: Option<Discount>,
    /// ConsumedQuantity: how much was consumed, in nanos of its unit. One out of the range of `Nanos` is `None` too.
    pub quantity: Option<Nanos>,
    /// ConsumedUnit: the unit of the quantity.
    pub unit: Option<String>,
    /// SkuId: what was sold.
    pub sku: Option<String>,
    /// SubAccountId: the part of the account that the charge falls to.
    pub sub_account: Option<String>,
    /// Tags: the keys and texts that the customer gave.
    pub tags: Tags,
}

impl Drop for RowFields {
    fn drop(self) {
        let Self {
            billed: _,
            effective: _,
            category: _,
            is_correction: _,
            start: _,
            end: _,
            discount: _,
            quantity: _,
            unit: _,
            sku: _,
            sub_account: _,
            tags: _,
        } = self;
    }
}

/// A charge row. Its period doesn't end before it starts, and ends within the year 9999; a discount of a usage row has a status; a
/// discount's id, a unit, a SKU and a sub-account have 1 to 256 bytes each.
#[derive(Debug)]
pub struct Row {
    fields: RowFields,
}

impl Drop for Row {
    fn drop(self) {
        let Self { fields: _ } = self;
    }
}

impl Model for Row {
    ghost use Rattle.fw_charge.specs.Charge.{Charge, IsCharge};

    ghost Value = { Charge };

    ghost use Rattle.fw_charge.specs.ChargeView.{charge_of};

    ghost view = { λ r. charge_of r.fields };

    ghost invariant = { λ r. IsCharge (charge_of r.fields) };
}

impl Row {
    ghost use Rattle.fw_charge.specs.Charge.{IsCharge, hour_of};
    ghost use Rattle.fw_charge.specs.ChargeView.{charge_of};

    /// The row with these fields, which keep the rules of a row.
    pub fn of_fields(fields: RowFields) -> Row
        requires { IsCharge (charge_of fields) }
        ensures { result ≡ charge_of fields }
    {
        Row { fields }
    }

    /// BilledCost: the cost that is the basis of an invoice, in nanos.
    pub fn billed(&self) -> Nanos
        ensures { result ≡ self.now.billed }
    {
        self.fields.billed
    }

    /// EffectiveCost: the cost with prepaid purchases spread over what they paid for, in nanos.
    pub fn effective(&self) -> Nanos
        ensures { result ≡ self.now.effective }
    {
        self.fields.effective
    }

    /// ChargeCategory: what kind of charge the row is.
    pub fn category(&self) -> Category
        ensures { result ≡ self.now.category }
    {
        self.fields.category
    }

    /// ChargeClass: whether the row corrects a charge of an earlier billing period.
    pub fn is_correction(&self) -> bool
        ensures { result ≡ self.now.is_correction }
    {
        self.fields.is_correction
    }

    /// ChargePeriodStart: the first second of the charge period, counted from 1970.
    pub fn start(&self) -> u64
        ensures value { result ≡ self.now.start }
        ensures valid { IsCharge self.now }
    {
        self.fields.start
    }

    /// ChargePeriodEnd: the second after the charge period, counted from 1970.
    pub fn end(&self) -> u64
        ensures value { result ≡ self.now.end }
        ensures valid { IsCharge self.now }
    {
        self.fields.end
    }

    /// The hour of the row: that of its first second. Hour 0 begins with 1970.
    #[tactic(auto, unfolding(crate::specs::Charge::hour_of))]
    pub fn hour(&self) -> u32
        ensures { result ≡ hour_of self.now.start }
    {
        hour_of(self.fields.start) as u32
    }

    /// The commitment discount that the row belongs to.
    pub fn discount(&self) -> Option<&Discount>
        ensures value { option_copied result ≡ self.now.discount }
        ensures valid { IsCharge self.now }
    {
        self.fields.discount.as_ref()
    }

    /// ConsumedQuantity: how much was consumed, in nanos of its unit, or `None` where it is null or out of range.
    pub fn quantity(&self) -> Option<Nanos>
        ensures { result ≡ self.now.quantity }
    {
        self.fields.quantity
    }

    /// ConsumedUnit: the unit of the quantity.
    pub fn unit(&self) -> Option<&str>
        ensures { option_copied result ≡ self.now.unit }
    {
        self.fields.unit.as_deref()
    }

    /// SkuId: what was sold.
    pub fn sku(&self) -> Option<&str>
        ensures { option_copied result ≡ self.now.sku }
    {
        self.fields.sku.as_deref()
    }

    /// SubAccountId: the part of the account that the charge falls to.
    pub fn sub_account(&self) -> Option<&str>
        ensures { option_copied result ≡ self.now.sub_account }
    {
        self.fields.sub_account.as_deref()
    }

    /// Tags: the keys and texts that the customer gave.
    pub fn tags(&self) -> &Tags
        ensures value { result.now ≡ self.now.tags }
        ensures valid { IsCharge self.now }
    {
        &self.fields.tags
    }

    /// An equal row.
    pub fn copy(&self, alloc: Global) -> Result<Row, AllocError>
        ensures { IfOk result (λ copy. copy ≡ self.now) }
    {
        Ok(Row {
            fields: self.fields.copy(alloc)?,
        })
    }
}

impl RowFields {
    ghost use Rattle.fw_charge.specs.ChargeView.{charge_of};

    /// Equal fields.
    fn copy(&self, alloc: Global) -> Result<RowFields, AllocError>
        ensures { IfOk result (λ copy. charge_of copy ≡ charge_of self.now) }
    {
        let discount = copy_discount(alloc, self.discount.as_ref())?;
        let unit = copy_text(self.unit.as_ref())?;
        let sku = copy_text(self.sku.as_ref())?;
        let sub_account = copy_text(self.sub_account.as_ref())?;
        let tags = self.tags.copy(alloc)?;
        Ok(RowFields {
            billed: self.billed,
            effective: self.effective,
            category: self.category,
            is_correction: self.is_correction,
            start: self.start,
            end: self.end,
            discount,
            quantity: self.quantity,
            unit,
            sku,
            sub_account,
            tags,
        })
    }
}

/// An equal discount, if there is one.
fn copy_discount(alloc: Global, discount: Option<&Discount>) -> Result<Option<Discount>, AllocError>
    ensures { IfOk result (λ copy. copy ≡ option_copied discount.entry) }
{
    match discount {
        Some(discount) => Ok(Some(discount.copy(alloc)?)),
        None => Ok(None),
    }
}

/// An equal text, if there is one.
fn copy_text(text: Option<&String>) -> Result<Option<String>, AllocError>
    ensures { IfOk result (λ copy. option_map string_bytes copy
        ≡ option_map (λ t. string_bytes t.now) text.entry) }
{
    match text {
        Some(text) => Ok(Some(text.clone()?)),
        None => Ok(None),
    }
}
