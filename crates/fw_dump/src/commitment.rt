//! A commitment, and a purchase that is added to one, as TOML.
use crate::values::{
    QUOTE, push_amount, push_comma, push_number, push_quoted, push_second, push_tags, push_text,
};
use fw_charge::SECONDS_PER_HOUR;
use fw_columns::LentTags;
use fw_terms::{AddedPurchase, Commitment, Purchase, Rate, Terms};
use std::alloc::AllocError;

/// Appends the TOML of a commitment.
pub(crate) fn push_commitment(
    out: &mut Vec<u8>,
    commitment: &Commitment,
) -> Result<(), AllocError> {
    push_text_field(out, "id", commitment.id())?;
    push_text_field(out, "category", commitment.kind().word())?;
    push_text(out, "start = \"")?;
    push_second(out, u64::from(commitment.start()) * SECONDS_PER_HOUR)?;
    push_text(out, "\"\nhours = ")?;
    push_number(out, u64::from(commitment.hours()))?;
    push_text(out, "\ncapacity = \"")?;
    push_amount(out, commitment.capacity())?;
    push_text(out, "\"\n")?;
    push_terms(out, commitment.terms())?;
    push_billing(out, commitment)
}

/// Appends the TOML of a purchase that is added to a commitment.
pub(crate) fn push_added(out: &mut Vec<u8>, added: &AddedPurchase) -> Result<(), AllocError> {
    push_text_field(out, "id", added.id())?;
    push_paid(out, added.purchase())
}

// Appends a field that is a text.
fn push_text_field(out: &mut Vec<u8>, name: &str, text: &str) -> Result<(), AllocError> {
    push_text(out, name)?;
    push_text(out, " = ")?;
    push_quoted(out, text, QUOTE)?;
    push_text(out, "\n")
}

// Appends the fields that commitments of one kind alone have.
fn push_terms(out: &mut Vec<u8>, terms: &Terms) -> Result<(), AllocError> {
    match terms {
        Terms::Usage { unit, skus } => {
            push_text_field(out, "unit", unit.as_str())?;
            push_skus(out, skus.as_slice())
        }
        Terms::Spend { rates } => push_rates(out, rates.as_slice()),
    }
}

// Appends the SKUs as an array.
fn push_skus(out: &mut Vec<u8>, skus: &[String]) -> Result<(), AllocError> {
    push_text(out, "skus = [")?;
    let mut is_first = true;
    for sku in skus {
        push_comma(out, is_first)?;
        is_first = false;
        push_quoted(out, sku.as_str(), QUOTE)?;
    }
    push_text(out, "]\n")
}

// Appends the rates as a table.
fn push_rates(out: &mut Vec<u8>, rates: &[Rate]) -> Result<(), AllocError> {
    push_text(out, "rates = {")?;
    let mut is_first = true;
    for rate in rates {
        push_comma(out, is_first)?;
        is_first = false;
        push_quoted(out, rate.sku(), QUOTE)?;
        push_text(out, "=")?;
        push_number(out, u64::from(rate.ppm()))?;
    }
    push_text(out, "}\n")
}

// Appends the account and the tags, where there are any, and the purchases.
fn push_billing(out: &mut Vec<u8>, commitment: &Commitment) -> Result<(), AllocError> {
    if let Some(account) = commitment.sub_account() {
        push_text_field(out, "sub_account", account)?;
    }
    if !commitment.tags().as_slice().is_empty() {
        push_text(out, "tags = ")?;
        push_tags(out, LentTags::of_tags(commitment.tags()), b'=', QUOTE)?;
        push_text(out, "\n")?;
    }
    for purchase in commitment.purchases() {
        push_purchase(out, purchase)?;
    }
    Ok(())
}

// Appends a purchase of a commitment.
fn push_purchase(out: &mut Vec<u8>, purchase: &Purchase) -> Result<(), AllocError> {
    push_text(out, "[[purchase]]\n")?;
    push_paid(out, purchase)
}

// Appends when was paid, and how much.
fn push_paid(out: &mut Vec<u8>, purchase: &Purchase) -> Result<(), AllocError> {
    push_text(out, "at = \"")?;
    push_second(out, purchase.at())?;
    push_text(out, "\"\nbilled = \"")?;
    push_amount(out, purchase.billed())?;
    push_text(out, "\"\n")
}
