//! What a commitment was bought for, in words.
use crate::printing::print_line;
use crate::texts::{Given, cost_text};
use fw_adding::{Outcome, Tried, registered};
use fw_charge::Currency;
use fw_console::Fault;
use fw_documents::Document;
use fw_snapshot::State;
use fw_table::shown_text;
use fw_terms::Commitment;
use std::alloc::{AllocError, Global};

/// Says how many purchases the commitment that a purchase is added to would have, or has where it has this one already, and
/// what they cost together. Of other documents nothing is said.
pub(crate) fn print_bought(
    rt: &HostRuntime,
    given: &Given<'_>,
    tried: &Tried,
) -> Result<(), Fault> {
    let Document::Purchase(added) = given.document else {
        return Ok(());
    };
    let after = &tried.after;
    match registered(after.commitment_list(), added.id()) {
        Some(commitment) => {
            let line = bought_text(rt.alloc(), after.currency(), commitment, tried.outcome)?;
            print_line(rt, given, line.as_str())
        }
        None => Ok(()),
    }
}

// How many purchases a commitment would have or has, and what they cost.
fn bought_text(
    alloc: Global,
    currency: Currency,
    commitment: &Commitment,
    outcome: Outcome,
) -> Result<String, AllocError> {
    let verb = match outcome {
        Outcome::Added => " would have ",
        Outcome::Same => " has ",
    };
    let count = commitment.purchases().len();
    let word = if count == 1 { "purchase" } else { "purchases" };
    let mut text = String::from_str(alloc, "commitment ")?;
    text.push_str(shown_text(alloc, commitment.id())?.as_str())?;
    write!(text, "{verb}{count} {word}, for ")?;
    text.push_str(cost_text(alloc, currency, commitment.cost())?.as_str())?;
    Ok(text)
}

/// Why a commitment can't have a purchase too: it has as many as a commitment may have, or they would cost too much.
pub(crate) fn limit_text(
    alloc: Global,
    state: &State,
    document: &Document,
) -> Result<String, AllocError> {
    let Document::Purchase(added) = document else {
        return Ok(String::new(alloc));
    };
    match registered(state.commitment_list(), added.id()) {
        Some(commitment) => full_text(alloc, state.currency(), commitment),
        None => Ok(String::new(alloc)),
    }
}

// Why a commitment takes no further purchase.
fn full_text(
    alloc: Global,
    currency: Currency,
    commitment: &Commitment,
) -> Result<String, AllocError> {
    if commitment.purchases().len() >= Commitment::MOST_PURCHASES {
        return String::from_str(alloc, "it has 64");
    }
    let cost = cost_text(alloc, currency, commitment.cost())?;
    format!(in alloc; "those that it has cost {cost}")
}
