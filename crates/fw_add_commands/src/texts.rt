//! What a document is, in words.
use fw_adding::policy_entry;
use fw_calendar::hour_text;
use fw_charge::{Currency, SECONDS_PER_HOUR};
use fw_documents::Document;
use fw_money::Nanos;
use fw_snapshot::State;
use fw_table::{count_text, shown_text};
use fw_terms::{AddedPurchase, Commitment, Policy, Terms};
use std::alloc::{AllocError, Global};

/// A document of a file, and what messages call both.
#[derive(Drop)]
pub(crate) struct Given<'a> {
    /// The name of the file, as a terminal may show it.
    pub(crate) file: &'a str,
    pub(crate) document: &'a Document,
    /// The name of the document.
    pub(crate) name: &'a str,
    /// Whether what becomes of it isn't said in words.
    pub(crate) is_silent: bool,
}

/// The name of a document: what it is, and the id of a commitment, the key of a policy or the id of the commitment that a
/// purchase is added to.
pub(crate) fn name_text(alloc: Global, document: &Document) -> Result<String, AllocError> {
    match document {
        Document::Commitment(commitment) => named(alloc, "commitment ", commitment.id(), ""),
        Document::Policy(policy) => named(alloc, "policy by \"", policy.key(), "\""),
        Document::Purchase(added) => named(alloc, "purchase for commitment ", added.id(), ""),
    }
}

// A name of others between two texts.
fn named(alloc: Global, before: &str, name: &str, behind: &str) -> Result<String, AllocError> {
    let shown = shown_text(alloc, name)?;
    format!(in alloc; "{before}{shown}{behind}")
}

/// What is added to the name of a policy where one holds, whose place it takes; else the empty text.
pub(crate) fn replaced_text(
    alloc: Global,
    state: &State,
    document: &Document,
) -> Result<String, AllocError> {
    match (document, state.policy(), policy_entry(state)) {
        (Document::Policy(_), Some(held), Some(entry)) => {
            let key = shown_text(alloc, held.key())?;
            format!(in alloc; " takes the place of the policy by \"{key}\" (entry {entry})")
        }
        _ => Ok(String::new(alloc)),
    }
}

/// What a document is: its name, and of a commitment the category, the term, the capacity and what it was bought for, of a
/// policy the number of its rules, of a purchase how much was paid when.
pub(crate) fn document_text(
    alloc: Global,
    currency: Currency,
    given: &Given<'_>,
) -> Result<String, AllocError> {
    let mut text = String::from_str(alloc, given.name)?;
    match given.document {
        Document::Commitment(commitment) => {
            put_commitment(alloc, &mut text, currency, commitment)?;
        }
        Document::Policy(policy) => put_policy(&mut text, policy)?,
        Document::Purchase(added) => put_purchase(alloc, &mut text, currency, added)?,
    }
    Ok(text)
}

// Writes what a purchase is, behind its name.
fn put_purchase(
    alloc: Global,
    text: &mut String,
    currency: Currency,
    added: &AddedPurchase,
) -> Result<(), AllocError> {
    text.push_str(": ")?;
    text.push_str(cost_text(alloc, currency, added.purchase().billed())?.as_str())?;
    text.push_str(" paid at ")?;
    text.push_str(instant_text(alloc, added.purchase().at())?.as_str())?;
    Ok(())
}

/// An amount and its currency.
pub(crate) fn cost_text(
    alloc: Global,
    currency: Currency,
    amount: Nanos,
) -> Result<String, AllocError> {
    let code = str::from_utf8(currency.code()).unwrap_or("");
    let amount = exact_text(alloc, amount)?;
    format!(in alloc; "{amount} {code}")
}

// The instant of a second since 1970, as `2024-01-31T14:00Z`, and with its second where that isn't the first of a minute.
fn instant_text(alloc: Global, second: u64) -> Result<String, AllocError> {
    let hour = hour_text(alloc, second / SECONDS_PER_HOUR)?;
    let front = hour.as_str().strip_suffix("00Z").unwrap_or("");
    let (minute, second) = (second % SECONDS_PER_HOUR / 60, second % 60);
    if second == 0 {
        format!(in alloc; "{front}{minute:02}Z")
    } else {
        format!(in alloc; "{front}{minute:02}:{second:02}Z")
    }
}

// Writes what a policy is, behind its name.
fn put_policy(text: &mut String, policy: &Policy) -> Result<(), AllocError> {
    let count = policy.rules().len();
    let rules = if count == 1 { "rule" } else { "rules" };
    write!(text, ", {count} {rules}")?;
    Ok(())
}

// Writes what a commitment is, behind its name.
fn put_commitment(
    alloc: Global,
    text: &mut String,
    currency: Currency,
    commitment: &Commitment,
) -> Result<(), AllocError> {
    let category = commitment.kind().word();
    write!(text, " ({category}): ")?;
    put_term(alloc, text, commitment)?;
    text.push_str("; ")?;
    put_capacity(alloc, text, currency, commitment)?;
    text.push_str(" each hour; bought for ")?;
    text.push_str(cost_text(alloc, currency, commitment.cost())?.as_str())?;
    Ok(())
}

// Writes the capacity of a commitment, and what it is counted in.
fn put_capacity(
    alloc: Global,
    text: &mut String,
    currency: Currency,
    commitment: &Commitment,
) -> Result<(), AllocError> {
    let code = str::from_utf8(currency.code()).unwrap_or("");
    text.push_str(exact_text(alloc, commitment.capacity())?.as_str())?;
    text.push_str(" ")?;
    text.push_str(shown_text(alloc, unit_of(commitment.terms(), code))?.as_str())?;
    Ok(())
}

// What the capacity of terms is counted in: their unit, or the currency.
fn unit_of<'t>(terms: &'t Terms, currency: &'t str) -> &'t str {
    match terms {
        Terms::Usage { unit, .. } => unit.as_str(),
        Terms::Spend { .. } => currency,
    }
}

// Writes the first hour of a term, the hour after its last one, and how many hours it has.
fn put_term(alloc: Global, text: &mut String, commitment: &Commitment) -> Result<(), AllocError> {
    let start = u64::from(commitment.start());
    let count = u64::from(commitment.hours());
    let word = if count == 1 { " hour" } else { " hours" };
    text.push_str(hour_text(alloc, start)?.as_str())?;
    text.push_str(" to ")?;
    text.push_str(hour_text(alloc, start.saturating_add(count))?.as_str())?;
    text.push_str(", ")?;
    text.push_str(count_text(alloc, count)?.as_str())?;
    text.push_str(word)
}

// An amount, exact and without the zeros at its end.
fn exact_text(alloc: Global, amount: Nanos) -> Result<String, AllocError> {
    let text = fw_money::text(alloc, i128::from(amount.count()))?;
    let short = text.as_str().trim_end_matches('0').trim_end_matches('.');
    String::from_str(alloc, short)
}
