//! What is charged for: discount, quantity and tags of a record, each checked against its rules.
ghost use Rattle.std.specs.Prelude.{◌≡◌, [], ◌↔◌, Some, IsTrue};
ghost use Rattle.fw_charge.specs.Codes.{category_word};
ghost use Rattle.fw_charge.specs.Tags.{IsTags};
ghost use Rattle.fw_rows.specs.Judged.{Judged, JudgedWithin};
ghost use Rattle.fw_rows.specs.Parts.{texts_of, detail_rules, discount_rules, DetailsStand, NamedOrNull, TagsAnswer, TextsAreShort};
ghost use Rattle.fw_rows.specs.Rules.{AreShort, IsShort, KindReads, StatusReads, QuantityReads, kind_rules, length_rules, quantity_rules, status_rules, tags_stated};
ghost use Rattle.fw_rows.specs.declared.column.Column.TheVariants as column;

use crate::cells::Cells;
use crate::column::Column;
use crate::fault::{RecordFault, Refusal};
use crate::known::KnownTags;
use crate::values::quantity_of;
use fw_charge::{Category, DiscountKind, DiscountStatus, LONGEST_SHORT_TEXT, Tags};
use fw_money::Nanos;
use fw_tags::{TagFault, read_tags};
use std::alloc::Global;

/// The commitment discount that a record names.
#[derive(Clone, Copy, Drop)]
pub struct NamedDiscount<'a> {
    pub id: &'a str,
    pub kind: DiscountKind,
    pub status: Option<DiscountStatus>,
}

/// What it is charged for: discount, quantity and tags.
#[derive(Drop)]
pub(crate) struct Details<'a> {
    pub(crate) discount: Option<NamedDiscount<'a>>,
    pub(crate) quantity: Option<Nanos>,
    pub(crate) tags: Tags,
}

impl<'a> Cells<'a> {
    /// Whether a column is null.
    fn is_null(&self, column: Column) -> bool
        ensures { IsTrue result ↔ (texts_of self.now column ≡ []) }
    {
        self.text(column).is_empty()
    }

    /// The kind of the commitment discount, which is null exactly where its id is.
    fn kind(&self) -> Result<Option<DiscountKind>, RecordFault>
        ensures { let at = texts_of self.now
            in Judged (kind_rules at) (KindReads (at column.CommitmentDiscountId)
            (at column.CommitmentDiscountCategory)) result }
    {
        if self.is_null(Column::CommitmentDiscountId) {
            return if self.is_null(Column::CommitmentDiscountCategory) {
                Ok(None)
            } else {
                Err(RecordFault::Commitment)
            };
        }
        match DiscountKind::from_word(self.text(Column::CommitmentDiscountCategory)) {
            Some(kind) => Ok(Some(kind)),
            None => Err(RecordFault::Commitment),
        }
    }

    /// Whether it is a usage row.
    fn is_usage(&self) -> bool
        ensures { IsTrue result ↔ (texts_of self.now column.ChargeCategory
            ≡ category_word Category.Usage) }
    {
        self.text(Column::ChargeCategory) == Category::Usage.word()
    }

    /// The status of the commitment discount, which stands beside its id alone, and must in a usage row with an id.
    fn status(&self) -> Result<Option<DiscountStatus>, RecordFault>
        ensures { let at = texts_of self.now
            in Judged (status_rules at)
            (StatusReads (at column.ChargeCategory) (at column.CommitmentDiscountId)
            (at column.CommitmentDiscountStatus)) result }
    {
        if self.is_null(Column::CommitmentDiscountId) {
            return if self.is_null(Column::CommitmentDiscountStatus) {
                Ok(None)
            } else {
                Err(RecordFault::Status)
            };
        }
        if self.is_null(Column::CommitmentDiscountStatus) {
            return if self.is_usage() {
                Err(RecordFault::Status)
            } else {
                Ok(None)
            };
        }
        match DiscountStatus::from_word(self.text(Column::CommitmentDiscountStatus)) {
            Some(status) => Ok(Some(status)),
            None => Err(RecordFault::Status),
        }
    }

    /// The commitment discount.
    pub fn discount(&self) -> Result<Option<NamedDiscount<'a>>, RecordFault>
        ensures { let at = texts_of self.now in Judged (discount_rules at) (NamedOrNull at) result }
    {
        let kind = self.kind()?;
        let status = self.status()?;
        match kind {
            Some(kind) => Ok(Some(NamedDiscount {
                id: self.text(Column::CommitmentDiscountId),
                kind,
                status,
            })),
            None => Ok(None),
        }
    }

    /// The quantity.
    pub fn quantity(&self) -> Result<Option<Nanos>, RecordFault>
        ensures { let at = texts_of self.now
            in Judged (quantity_rules at) (QuantityReads (at column.ConsumedQuantity)) result }
    {
        match quantity_of(self.text(Column::ConsumedQuantity)) {
            Some(quantity) => Ok(quantity),
            None => Err(RecordFault::Quantity),
        }
    }

    /// The tags.
    pub(crate) fn tags(&self, alloc: Global) -> Result<Tags, TagFault>
        ensures { TagsAnswer (texts_of self.now column.Tags) result }
    {
        if self.is_null(Column::Tags) {
            return Ok(Tags::empty(alloc));
        }
        read_tags(alloc, self.text(Column::Tags))
    }

    /// Whether the text in a column is short enough.
    fn is_short(&self, column: Column) -> bool
        ensures { IsTrue result ↔ IsShort (texts_of self.now column) }
    {
        self.text(column).len() <= LONGEST_SHORT_TEXT
    }

    /// Whether id, unit, SKU and sub-account are short enough.
    pub fn are_short(&self) -> bool
        ensures { IsTrue result ↔ TextsAreShort (texts_of self.now) }
    {
        self.is_short(Column::CommitmentDiscountId)
            && self.is_short(Column::ConsumedUnit)
            && self.is_short(Column::SkuId)
            && self.is_short(Column::SubAccountId)
    }

    /// The tags, where all texts are short enough.
    pub fn short_tags(&self, alloc: Global) -> Result<Tags, Refusal>
        ensures { let at = texts_of self.now
            in JudgedWithin (length_rules at)
            (λ tags. (tags_stated (at column.Tags) ≡ Some tags) × AreShort at × IsTags tags)
            result }
    {
        self.beside_short_texts(self.tags(alloc))
    }

    // What reading the tags answered, where all texts are short enough.
    fn beside_short_texts(&self, tags: Result<Tags, TagFault>) -> Result<Tags, Refusal>
        requires { TagsAnswer (texts_of self.now column.Tags) tags }
        ensures { let at = texts_of self.now
            in JudgedWithin (length_rules at)
            (λ tags. (tags_stated (at column.Tags) ≡ Some tags) × AreShort at × IsTags tags)
            result }
    {
        let tags = tags?;
        prove!(tags.as_slice().len() <= Tags::MOST);
        if !self.are_short() {
            return Err(Refusal::Broken(RecordFault::TooLong));
        }
        Ok(tags)
    }

    /// What it is charged for.
    pub(crate) fn details(
        &self,
        alloc: Global,
        known: &mut KnownTags,
    ) -> Result<Details<'a>, Refusal>
        ensures { let at = texts_of self.now
            in JudgedWithin (detail_rules at) (DetailsStand at) result }
    {
        let discount = self.discount()?;
        let quantity = self.quantity()?;
        let tags = self.beside_short_texts(known.tags(alloc, self))?;
        Ok(Details {
            discount,
            quantity,
            tags,
        })
    }
}
