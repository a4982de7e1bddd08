//! Copies of what a commitment holds.
ghost use Rattle.std.specs.Prelude.{◌≡◌, ◌<◌, [], ◌∷◌, ◌++◌, length, map, option_map, string_bytes, IfOk};
ghost use Rattle.fw_terms.specs.Commitment.{most_purchases, with_purchase};
ghost use Rattle.fw_terms.specs.Commitment.TermsValue.{usage};
ghost use Rattle.fw_terms.specs.CommitmentView.{commitment_of};
ghost use Rattle.fw_terms.specs.TermsView.{terms_view};

use crate::commitment::{CommitmentFields, Purchase, Rate, Terms};
use std::alloc::{AllocError, Global};

/// Equal SKUs, in order.
fn copy_skus(alloc: Global, skus: &[String]) -> Result<Vec<String>, AllocError>
    ensures { IfOk result (λ copies. map string_bytes copies.items ≡ map string_bytes skus.now) }
{
    let mut copies = Vec::with_capacity(alloc, skus.len())?;
    for sku in skus {
        copies.push(sku.clone()?)?;
    }
    Ok(copies)
}

/// Equal rates, in order.
fn copy_rates(alloc: Global, rates: &[Rate]) -> Result<Vec<Rate>, AllocError>
    ensures { IfOk result (λ copies. copies.items ≡ rates.now) }
{
    let mut copies = Vec::with_capacity(alloc, rates.len())?;
    for rate in rates {
        copies.push(rate.copy(alloc)?)?;
    }
    Ok(copies)
}

impl Terms {
    /// Equal terms. The error comes where memory ran out.
    pub fn copy(&self, alloc: Global) -> Result<Terms, AllocError>
        ensures { IfOk result (λ t. terms_view t ≡ terms_view self.now) }
    {
        match self {
            Terms::Usage { unit, skus } => copy_usage(alloc, unit, skus),
            Terms::Spend { rates } => Ok(Terms::Spend {
                rates: copy_rates(alloc, rates)?,
            }),
        }
    }
}

/// The terms of a commitment to a quantity, of an equal unit and equal SKUs.
fn copy_usage(alloc: Global, unit: &str, skus: &[String]) -> Result<Terms, AllocError>
    ensures { IfOk result (λ t. terms_view t ≡ usage unit.now (map string_bytes skus.now)) }
{
    let unit = String::from_str(alloc, unit)?;
    let skus = copy_skus(alloc, skus)?;
    Ok(Terms::Usage { unit, skus })
}

/// An equal text, if there is one.
fn copy_text(text: Option<&String>) -> Result<Option<String>, AllocError>
    ensures { IfOk result (λ copy. option_map string_bytes copy
        ≡ option_map (λ t. string_bytes t.now) text.entry) }
{
    match text {
        Some(text) => Ok(Some(text.clone()?)),
        None => Ok(None),
    }
}

/// Equal purchases, in order, and one more behind them.
fn purchases_and(
    alloc: Global,
    purchases: &[Purchase],
    last: &Purchase,
) -> Result<Vec<Purchase>, AllocError>
    requires { length purchases.now < most_purchases }
    ensures { IfOk result (λ all. all.items ≡ purchases.now ++ last.now ∷ []) }
{
    let mut all = Vec::with_capacity(alloc, purchases.len() + 1)?;
    for purchase in purchases {
        all.push(purchase.copy())?;
    }
    all.push(last.copy())?;
    Ok(all)
}

/// Equal fields, with one purchase more behind the others.
pub(crate) fn with_one_more(
    alloc: Global,
    fields: &CommitmentFields,
    purchase: &Purchase,
) -> Result<CommitmentFields, AllocError>
    requires { length fields.now.purchases.items < most_purchases }
    ensures value { IfOk result (λ f. commitment_of f
        ≡ with_purchase (commitment_of fields.now) purchase.now) }
    ensures capacity { IfOk result (λ f. f.capacity ≡ fields.now.capacity) }
{
    let id = fields.id.clone()?;
    let terms = fields.terms.copy(alloc)?;
    let sub_account = copy_text(fields.sub_account.as_ref())?;
    let tags = fields.tags.copy(alloc)?;
    let purchases = purchases_and(alloc, &fields.purchases, purchase)?;
    Ok(CommitmentFields {
        id,
        terms,
        sub_account,
        tags,
        start: fields.start,
        hours: fields.hours,
        capacity: fields.capacity,
        purchases,
    })
}
