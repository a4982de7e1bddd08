//! A line of an hour.
ghost use Rattle.std.specs.Prelude.{◌≡◌, option_map, option_copied};
ghost use Rattle.fw_row_table.specs.Lending.{tags_lent};

use fw_charge::{Category, DiscountKind, DiscountStatus};
use fw_money::Nanos;
use fw_row_table::LentTags;
use std::marker::Model;

/// Where a line comes from.
#[derive(Clone, Copy, Debug, Drop, PartialEq, Eq)]
pub enum LineKind {
    /// A purchase of a commitment.
    Purchase,
    /// A row that no commitment may cover, as it was given.
    Given,
    /// What a commitment covered of a row.
    Used,
    /// What a commitment left unused.
    Unused,
    /// What is left of a row that commitments may cover.
    Rest,
}

/// The commitment discount that a line belongs to.
#[derive(Clone, Copy, Debug, Drop)]
pub struct LineDiscount<'a> {
    /// CommitmentDiscountId.
    pub id: &'a str,
    /// CommitmentDiscountCategory.
    pub kind: DiscountKind,
    /// CommitmentDiscountStatus, or `None` where it is null.
    pub status: Option<DiscountStatus>,
}

/// The fields of a line. An `Option` is `None` where the column is null.
#[derive(Clone, Copy, Debug, Drop)]
pub struct LineFields<'a> {
    /// The hour of the line, counted from 1970.
    pub hour: u32,
    /// Where the line comes from.
    pub kind: LineKind,
    /// ChargeCategory: what kind of charge the line is.
    pub category: Category,
    /// The commitment discount that the line belongs to.
    pub commitment: Option<LineDiscount<'a>>,
    /// BilledCost: the cost that is the basis of an invoice, in nanos.
    pub billed: Nanos,
    /// EffectiveCost: the cost with prepaid purchases spread over what they paid for, in nanos.
    pub effective: Nanos,
    /// ConsumedQuantity: how much was consumed, in nanos of its unit.
    pub quantity: Option<Nanos>,
    /// SkuId: what was sold.
    pub sku: Option<&'a str>,
    /// SubAccountId: the part of the account that the charge falls to.
    pub sub_account: Option<&'a str>,
    /// Tags: the keys and texts that the customer gave.
    pub tags: LentTags<'a>,
}

/// A line of an hour. Its texts and tags are lent by the row or the commitment that it comes from.
#[derive(Debug, Drop)]
pub struct Line<'a> {
    fields: LineFields<'a>,
}

impl<'a> Model for Line<'a> {
    ghost use Rattle.fw_amortise.specs.LineValue.{LineValue};

    ghost Value = { LineValue };

    ghost use Rattle.fw_amortise.specs.LineView.{line_of};

    ghost view = { λ l. line_of l.fields };
}

impl<'a> Line<'a> {
    ghost use Rattle.fw_amortise.specs.LineView.{discount_of, line_of};

    /// The line with these fields.
    pub fn of_fields(fields: LineFields<'a>) -> Line<'a>
        ensures { result ≡ line_of fields.entry }
    {
        Line {
            fields: LineFields {
                hour: fields.hour,
                kind: fields.kind,
                category: fields.category,
                commitment: fields.commitment,
                billed: fields.billed,
                effective: fields.effective,
                quantity: fields.quantity,
                sku: fields.sku,
                sub_account: fields.sub_account,
                tags: fields.tags,
            },
        }
    }

    /// An equal line. It lends the same texts and tags, and takes no memory.
    pub fn copy(&self) -> Line<'a>
        ensures { result ≡ self.now }
    {
        Line {
            fields: LineFields {
                hour: self.fields.hour,
                kind: self.fields.kind,
                category: self.fields.category,
                commitment: self.fields.commitment,
                billed: self.fields.billed,
                effective: self.fields.effective,
                quantity: self.fields.quantity,
                sku: self.fields.sku,
                sub_account: self.fields.sub_account,
                tags: self.fields.tags,
            },
        }
    }

    /// The hour of the line, counted from 1970.
    pub fn hour(&self) -> u32
        ensures { result ≡ self.now.hour }
    {
        self.fields.hour
    }

    /// Where the line comes from.
    pub fn kind(&self) -> LineKind
        ensures { result ≡ self.now.kind }
    {
        self.fields.kind
    }

    /// ChargeCategory: what kind of charge the line is.
    pub fn category(&self) -> Category
        ensures { result ≡ self.now.category }
    {
        self.fields.category
    }

    /// The commitment discount that the line belongs to.
    pub fn commitment(&self) -> Option<LineDiscount<'a>>
        ensures { option_map discount_of result ≡ self.now.commitment }
    {
        self.fields.commitment
    }

    /// BilledCost: the cost that is the basis of an invoice, in nanos.
    pub fn billed(&self) -> Nanos
        ensures { result ≡ self.now.billed }
    {
        self.fields.billed
    }

    /// EffectiveCost: the cost with prepaid purchases spread over what they paid for, in nanos.
    pub fn effective(&self) -> Nanos
        ensures { result ≡ self.now.effective }
    {
        self.fields.effective
    }

    /// ConsumedQuantity: how much was consumed, in nanos of its unit, or `None` where it is null.
    pub fn quantity(&self) -> Option<Nanos>
        ensures { result ≡ self.now.quantity }
    {
        self.fields.quantity
    }

    /// SkuId: what was sold.
    pub fn sku(&self) -> Option<&'a str>
        ensures { option_copied result ≡ self.now.sku }
    {
        self.fields.sku
    }

    /// SubAccountId: the part of the account that the charge falls to.
    pub fn sub_account(&self) -> Option<&'a str>
        ensures { option_copied result ≡ self.now.sub_account }
    {
        self.fields.sub_account
    }

    /// Tags: the keys and texts that the customer gave.
    pub fn tags(&self) -> LentTags<'a>
        ensures { tags_lent result ≡ self.now.tags }
    {
        self.fields.tags
    }
}
