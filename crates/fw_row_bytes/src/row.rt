//! The reader of a row.
ghost use Rattle.std.specs.Prelude.{◌≡◌};
ghost use Rattle.fw_bytes.specs.Reading.{Gives};
ghost use Rattle.fw_charge.specs.Spelling.{IsRow};
ghost use Rattle.fw_fields.specs.Row.{discount_agrees, fields_agree, discount_from, row_from};
ghost use Rattle.fw_row_bytes.specs.Reading.{amounts_at, period_at, discount_at, consumed_at, fields_at, row_at};
ghost use Rattle.fw_row_bytes.specs.FieldView.{amounts_view, discount_view, consumed_view, fields_view};

use fw_bytes::ReadError;
use fw_charge::{Category, Discount, DiscountKind, DiscountStatus, Row, RowFields, Tag, Tags};
use fw_fields::{
    category_of, class_of, discount_agrees, keys_rise, kind_of, nanos_of, optional_nanos_of,
    optional_text_of, second_of, status_of, tags_of,
};
use fw_money::Nanos;
use std::alloc::Global;

/// Costs, category and class.
#[derive(Drop)]
struct AmountFields {
    billed: i64,
    effective: i64,
    category: Category,
    is_correction: bool,
}

/// The parts of a discount, each of which may be null.
#[derive(Drop)]
struct DiscountFields {
    id: Option<String>,
    kind: Option<DiscountKind>,
    status: Option<DiscountStatus>,
}

/// What was consumed, and by whom.
#[derive(Drop)]
struct ConsumedFields {
    quantity: Option<i64>,
    unit: Option<String>,
    sku: Option<String>,
    sub_account: Option<String>,
}

/// The fields of a row, each in its range; they may break the rules over several of them.
#[derive(Drop)]
struct ReadFields {
    amounts: AmountFields,
    period: (u64, u64),
    discount: DiscountFields,
    consumed: ConsumedFields,
    tags: Vec<Tag>,
}

#[tactic(auto, unfolding(crate::specs::Reading::amounts_at, fw_bytes::specs::Reading::both))]
fn amounts_of(bytes: &[u8]) -> Result<(AmountFields, &[u8]), ReadError>
    ensures { Gives (λ x. (amounts_view x.0, x.1.now)) result (amounts_at bytes.now) }
{
    let (billed, rest) = nanos_of(bytes)?;
    let (effective, rest) = nanos_of(rest)?;
    let (category, rest) = category_of(rest)?;
    let (is_correction, rest) = class_of(rest)?;
    let amounts = AmountFields {
        billed,
        effective,
        category,
        is_correction,
    };
    Ok((amounts, rest))
}

#[tactic(auto, unfolding(crate::specs::Reading::period_at, fw_bytes::specs::Reading::both))]
fn period_of(bytes: &[u8]) -> Result<((u64, u64), &[u8]), ReadError>
    ensures { Gives (λ x. ((x.0.0, x.0.1), x.1.now)) result (period_at bytes.now) }
{
    let (start, rest) = second_of(bytes)?;
    let (end, rest) = second_of(rest)?;
    Ok(((start, end), rest))
}

#[tactic(auto, unfolding(crate::specs::Reading::discount_at, fw_bytes::specs::Reading::both))]
fn discount_of(alloc: Global, bytes: &[u8]) -> Result<(DiscountFields, &[u8]), ReadError>
    ensures { Gives (λ x. (discount_view x.0, x.1.now)) result (discount_at bytes.now) }
{
    let (id, rest) = optional_text_of(alloc, bytes)?;
    let (kind, rest) = kind_of(rest)?;
    let (status, rest) = status_of(rest)?;
    Ok((DiscountFields { id, kind, status }, rest))
}

#[tactic(auto, unfolding(crate::specs::Reading::consumed_at, fw_bytes::specs::Reading::both))]
fn consumed_of(alloc: Global, bytes: &[u8]) -> Result<(ConsumedFields, &[u8]), ReadError>
    ensures { Gives (λ x. (consumed_view x.0, x.1.now)) result (consumed_at bytes.now) }
{
    let (quantity, rest) = optional_nanos_of(bytes)?;
    let (unit, rest) = optional_text_of(alloc, rest)?;
    let (sku, rest) = optional_text_of(alloc, rest)?;
    let (sub_account, rest) = optional_text_of(alloc, rest)?;
    let consumed = ConsumedFields {
        quantity,
        unit,
        sku,
        sub_account,
    };
    Ok((consumed, rest))
}

#[tactic(auto, unfolding(crate::specs::Reading::fields_at, fw_bytes::specs::Reading::both))]
fn fields_of(alloc: Global, bytes: &[u8]) -> Result<(ReadFields, &[u8]), ReadError>
    ensures { Gives (λ x. (fields_view x.0, x.1.now)) result (fields_at bytes.now) }
{
    let (amounts, rest) = amounts_of(bytes)?;
    let (period, rest) = period_of(rest)?;
    let (discount, rest) = discount_of(alloc, rest)?;
    let (consumed, rest) = consumed_of(alloc, rest)?;
    let (tags, rest) = tags_of(alloc, rest)?;
    let fields = ReadFields {
        amounts,
        period,
        discount,
        consumed,
        tags,
    };
    Ok((fields, rest))
}

impl DiscountFields {
    /// Whether the parts agree in a row of the category: a null id has neither kind nor status; an id has a kind, and in a usage row a
    /// status.
    fn agree_in(&self, category: Category) -> bool
        ensures { result ≡ discount_agrees category (discount_view self.now) }
    {
        discount_agrees(category, self.id.as_deref(), self.kind, self.status)
    }

    /// The discount of parts that agree.
    fn into_discount(self) -> Option<Discount>
        ensures { result ≡ discount_from (discount_view self) }
    {
        match (self.id, self.kind) {
            (Some(id), Some(kind)) => Some(Discount::of_fields(id, kind, self.status)),
            _ => None,
        }
    }
}

impl ReadFields {
    /// Whether the rules over several fields hold.
    fn agree(&self) -> bool
        ensures { result ≡ fields_agree (fields_view self.now) }
    {
        self.period.0 <= self.period.1
            && self.discount.agree_in(self.amounts.category)
            && keys_rise(self.tags.as_slice())
    }

    /// The row of fields that agree.
    fn into_row(self) -> Row
        requires { IsRow (row_from (fields_view self)) }
        ensures { result ≡ row_from (fields_view self) }
    {
        let quantity = match self.consumed.quantity {
            Some(count) => Some(Nanos::of_fields(count)),
            None => None,
        };
        Row::of_fields(RowFields {
            billed: Nanos::of_fields(self.amounts.billed),
            effective: Nanos::of_fields(self.amounts.effective),
            category: self.amounts.category,
            is_correction: self.amounts.is_correction,
            start: self.period.0,
            end: self.period.1,
            discount: self.discount.into_discount(),
            quantity,
            unit: self.consumed.unit,
            sku: self.consumed.sku,
            sub_account: self.consumed.sub_account,
            tags: Tags::of_fields(self.tags),
        })
    }
}

/// A row, and the bytes after it.
///
/// # Errors
/// [`ReadError::Corrupt`] at the first field that is cut off or out of its range; where there is none, at the row's first byte where its
/// period ends before it starts, where a null id of a discount stands beside a kind or a status, where an id has no kind or, in a usage
/// row, no status, or where the keys of the tags don't rise. [`ReadError::NoMemory`] where there is no memory for the row, reported where it
/// runs out: a fault of a later field isn't looked for.
pub fn row_of(alloc: Global, bytes: &[u8]) -> Result<(Row, &[u8]), ReadError>
    ensures { Gives (λ x. (x.0, x.1.now)) result (row_at bytes.now) }
{
    let (fields, rest) = fields_of(alloc, bytes)?;
    if !fields.agree() {
        return Err(ReadError::Corrupt(bytes.len()));
    }
    Ok((fields.into_row(), rest))
}
