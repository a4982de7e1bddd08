//! The row that the texts of a record stand for.
ghost use Rattle.std.specs.Prelude.{◌≡◌, IfOk};
ghost use Rattle.fw_rows.specs.Judged.{JudgedWithin};
ghost use Rattle.fw_rows.specs.Parts.{texts_of, ChargedStands, DetailsStand, NamedOrNull, discount_text};
ghost use Rattle.fw_rows.specs.Rules.{Stands, text_rules};

use crate::cells::Cells;
use crate::charged::{Charged, PeriodReaders};
use crate::column::Column;
use crate::details::{Details, NamedDiscount};
use crate::fault::Refusal;
use crate::known::KnownTags;
use crate::values::copy_of;
use fw_charge::{Currency, Discount, Row, RowFields};
use std::alloc::{AllocError, Global};

/// A discount of its own, if one is named.
fn discount_of(
    alloc: Global,
    named: Option<NamedDiscount<'_>>,
) -> Result<Option<Discount>, AllocError>
    ensures { IfOk result (λ discount. discount ≡ discount_text named.entry) }
{
    let Some(named) = named else {
        return Ok(None);
    };
    let id = String::from_str(alloc, named.id)?;
    Ok(Some(Discount::of_fields(id, named.kind, named.status)))
}

impl<'a> Cells<'a> {
    /// The row of what is charged and what it is charged for.
    fn made(&self, alloc: Global, charged: Charged, details: Details<'a>) -> Result<Row, AllocError>
        requires charged { ChargedStands (texts_of self.now) charged }
        requires details { DetailsStand (texts_of self.now) details }
        ensures { IfOk result (Stands (texts_of self.now)) }
    {
        let discount = discount_of(alloc, details.discount)?;
        let unit = copy_of(alloc, self.text(Column::ConsumedUnit))?;
        let sku = copy_of(alloc, self.text(Column::SkuId))?;
        let sub_account = copy_of(alloc, self.text(Column::SubAccountId))?;
        Ok(Row::of_fields(RowFields {
            billed: charged.costs.billed,
            effective: charged.costs.effective,
            category: charged.words.category,
            is_correction: charged.words.is_correction,
            start: charged.period.start,
            end: charged.period.end,
            discount,
            quantity: details.quantity,
            unit,
            sku,
            sub_account,
            tags: details.tags,
        }))
    }

    /// The row that the texts stand for, or the first rule that is broken.
    pub(crate) fn row(
        &self,
        alloc: Global,
        known: &mut KnownTags,
        periods: &mut PeriodReaders,
        currency: Currency,
    ) -> Result<Row, Refusal>
        ensures { let at = texts_of self.now
            in JudgedWithin (text_rules currency at) (Stands at) result }
    {
        let charged = self.charged(currency, periods)?;
        let details = self.details(alloc, known)?;
        Ok(self.made(alloc, charged, details)?)
    }
}
