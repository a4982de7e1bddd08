//! What of a document a warehouse has already.
ghost use Rattle.std.specs.Prelude.{◌≡◌, ◌↔◌, false, IfOk, IfSome, Contains, Some, IsTrue};
ghost use Rattle.std.specs.Option.{option_copied};
ghost use Rattle.fw_documents.specs.Documents.{command_of};
ghost use Rattle.fw_entry.specs.Spelling.{HasRowCount};
ghost use Rattle.fw_entry.specs.View.{command_view};
ghost use Rattle.fw_snapshot.specs.Heads.ContentValue.{committed_to};
ghost use Rattle.fw_snapshot.specs.History.{committed_of};
ghost use Rattle.fw_adding.specs.Adding.{HasPurchase, IsPaid, IsThere, Repeats};
ghost use Rattle.fw_adding.specs.declared.adding.Outcome.TheVariants as outcome;

use crate::fault::AddFault;
use crate::fields::is_same_purchase;
use fw_documents::Document;
use fw_entry::{Command, Entry};
use fw_import::same_entry;
use fw_snapshot::{Content, Head, State};
use fw_terms::{AddedPurchase, Commitment, Policy, Purchase};
use std::alloc::Global;

/// The commitment of an id, if it is among these.
pub fn registered<'a>(commitments: &'a [Commitment], id: &str) -> Option<&'a Commitment>
    ensures among { IfSome result (λ c. Contains commitments.now c.now) }
    ensures id { IfSome result (λ c. c.now.id ≡ id.now) }
{
    for commitment in commitments {
        if commitment.id() == id {
            return Some(commitment);
        }
    }
    None
}

/// The commitment of an id as it was committed to, without the purchases that were added to it, if there is one. It reads
/// the heads of the entries up to the one that brought it.
pub fn committed<'a>(state: &'a State, id: &str) -> Option<&'a Commitment>
    ensures among { IfSome result (λ c. Contains (committed_of state.now.entries) c.now) }
    ensures id { IfSome result (λ c. c.now.id ≡ id.now) }
{
    for place in 0..state.entries() {
        if let Some(commitment) = brought(state.head(place), id) {
            return Some(commitment);
        }
    }
    None
}

// The commitment that an entry brought, if it has this id.
fn brought<'a>(head: &'a Head, id: &str) -> Option<&'a Commitment>
    ensures content { IfSome result (λ c. head.now.content ≡ committed_to c.now) }
    ensures id { IfSome result (λ c. c.now.id ≡ id.now) }
{
    match head.content() {
        Content::Commit(commitment) if commitment.id() == id => Some(commitment),
        Content::Commit(_)
        | Content::Post { .. }
        | Content::SetPolicy(_)
        | Content::Withdraw(_)
        | Content::AddPurchase(_) => None,
    }
}

/// The number of the entry that brought the policy which holds, among all entries of the warehouse, counted from 1;
/// `None` where no policy was set. It reads the heads of the entries from the last one on.
pub fn policy_entry(state: &State) -> Option<u64> {
    let heads = state.heads();
    let mut found = None;
    for place in 0..heads.len() {
        if let Content::SetPolicy(_) = heads.get(place).content() {
            found = Some((place as u64).saturating_add(1));
        }
    }
    found
}

/// Whether an equal commitment is in a warehouse, or an equal policy holds, or a commitment has an equal purchase and it
/// isn't to be added again.
#[tactic(auto, unfolding(crate::specs::Adding::IsThere, crate::specs::Adding::IsNewPurchase, crate::specs::Adding::IsNoPurchase))]
pub(crate) fn is_there(
    alloc: Global,
    state: &State,
    document: &Document,
    again: bool,
) -> Result<bool, AddFault>
    ensures there { IfOk result (λ there. IsTrue there
        → IsThere (command_of document.now) state.now.entries) }
    ensures same { IfOk result (λ there. IsTrue there
        → Repeats again outcome.Same (command_of document.now) state.now.entries) }
    ensures new { IfOk result (λ there. there ≡ false
        → Repeats again outcome.Added (command_of document.now) state.now.entries) }
{
    match document {
        Document::Commitment(one) => has_commitment(alloc, state, one),
        Document::Policy(one) => is_policy(alloc, state.policy(), one),
        Document::Purchase(one) => Ok(!again && has_purchase(state.commitment_list(), one)),
    }
}

// Whether an equal commitment was committed to.
fn has_commitment(alloc: Global, state: &State, one: &Commitment) -> Result<bool, AddFault>
    ensures { IfOk result (λ there. IsTrue there
        → Contains (committed_of state.now.entries) one.now) }
{
    match committed(state, one.id()) {
        Some(other) => same_commitment(alloc, one, other),
        None => Ok(false),
    }
}

// Whether the commitment that a purchase is added to has an equal one, its own or one that was added.
fn has_purchase(commitments: &[Commitment], added: &AddedPurchase) -> bool
    ensures { IsTrue result ↔ HasPurchase added.now commitments.now }
{
    commitments
        .iter()
        .any(|commitment| is_paid(commitment, added))
}

// Whether a commitment is the one that a purchase is added to, and has an equal one.
fn is_paid(commitment: &Commitment, added: &AddedPurchase) -> bool
    ensures { IsTrue result ↔ IsPaid added.now commitment.now }
{
    commitment.id() == added.id() && is_among(commitment.purchases(), added.purchase())
}

// Whether an equal purchase is among these.
fn is_among(purchases: &[Purchase], one: &Purchase) -> bool
    ensures { IsTrue result ↔ Contains purchases.now one.now }
{
    purchases.iter().any(|other| is_same_purchase(other, one))
}

// Whether the policy that holds, if one does, is equal.
fn is_policy(alloc: Global, held: Option<&Policy>, one: &Policy) -> Result<bool, AddFault>
    ensures { IfOk result (λ there. IsTrue there → option_copied held.entry ≡ Some one.now) }
{
    match held {
        Some(other) => same_policy(alloc, one, other),
        None => Ok(false),
    }
}

// Whether two commitments are equal.
fn same_commitment(alloc: Global, one: &Commitment, other: &Commitment) -> Result<bool, AddFault>
    ensures { IfOk result (λ same. IsTrue same → one.now ≡ other.now) }
{
    let one = command_entry(alloc, Command::Commit(one.copy()?))?;
    let other = command_entry(alloc, Command::Commit(other.copy()?))?;
    Ok(same_entry(alloc, &one, &other)?)
}

// Whether two policies are equal.
fn same_policy(alloc: Global, one: &Policy, other: &Policy) -> Result<bool, AddFault>
    ensures { IfOk result (λ same. IsTrue same → one.now ≡ other.now) }
{
    let one = command_entry(alloc, Command::SetPolicy(one.copy(alloc)?))?;
    let other = command_entry(alloc, Command::SetPolicy(other.copy(alloc)?))?;
    Ok(same_entry(alloc, &one, &other)?)
}

// A command as an entry that is compared, and sent nowhere.
fn command_entry(alloc: Global, command: Command) -> Result<Entry, AddFault>
    requires { HasRowCount (command_view command) }
    ensures { IfOk result (λ entry. entry.command ≡ command_view command) }
{
    match Entry::new(alloc, b"compared", 1, command) {
        Ok(entry) => Ok(entry),
        Err(fault) => Err(AddFault::of_entry(fault)),
    }
}
