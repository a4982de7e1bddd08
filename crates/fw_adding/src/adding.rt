//! A document as the next entry of an origin.
ghost use Rattle.std.specs.Prelude.{◌≡◌, ◌∷◌, [], IfOk, IfSome, OnErr};
ghost use Rattle.fw_import.specs.Importing.{MayStop};
ghost use Rattle.fw_snapshot.specs.Judging.{judged};
ghost use Rattle.fw_snapshot.specs.Verdicts.{with_more};
ghost use Rattle.fw_snapshot.specs.declared.verdict.Verdict.TheVariants.{Accept};
ghost use Rattle.fw_adding.specs.Adding.{entry_of, next_entry, next_number, Becomes, Follows, Repeats};
ghost use Rattle.fw_documents.specs.Documents.{command_of};

use crate::fault::AddFault;
use crate::standing::is_there;
use fw_disk::Volume;
use fw_documents::Document;
use fw_entry::Entry;
use fw_recover::Store;
use fw_snapshot::{State, Verdict, a_gap_names_the_next_number, judge};
use std::alloc::Global;

/// What became of a document.
#[derive(Clone, Copy, Debug, Drop, PartialEq, Eq)]
pub enum Outcome {
    /// It was added as the next entry of the origin.
    Added,
    /// An equal commitment is there, an equal policy holds, or the commitment has an equal purchase.
    Same,
}

/// What a warehouse would become.
#[derive(Drop)]
pub struct Tried {
    /// What would become of the document.
    pub outcome: Outcome,
    /// The number of the origin's next entry.
    pub number: u64,
    /// The warehouse then.
    pub after: State,
}

/// A document as an entry of an origin and a number.
fn entry_of(
    alloc: Global,
    origin: &str,
    number: u64,
    document: &Document,
) -> Result<Entry, AddFault>
    ensures { IfOk result (λ entry. entry ≡ entry_of origin.now number (command_of document.now)) }
{
    let command = document.command(alloc)?;
    match Entry::new(alloc, origin.as_bytes(), number, command) {
        Ok(entry) => Ok(entry),
        Err(fault) => Err(AddFault::of_entry(fault)),
    }
}

/// The number of the next entry of an origin, where an entry of it with the greatest number would leave a gap; `None`
/// where that is the next one, or was accepted.
#[tactic(auto, unfolding(crate::specs::Adding::next_number))]
fn next_number(state: &State, greatest: &Entry) -> Option<u64>
    ensures { IfSome result (λ number.
        number ≡ next_number greatest.now.origin state.now.entries) }
{
    a_gap_names_the_next_number();
    match judge(state, greatest) {
        Verdict::Gap { expected } => Some(expected),
        Verdict::Already { .. } | Verdict::Accept | Verdict::Refused(_) => None,
    }
}

/// A document as the next entry of an origin.
fn next_entry(
    alloc: Global,
    state: &State,
    origin: &str,
    document: &Document,
) -> Result<Entry, AddFault>
    ensures { IfOk result (λ entry.
        entry ≡ next_entry origin.now (command_of document.now) state.now.entries) }
{
    let greatest = entry_of(alloc, origin, u64::MAX, document)?;
    match next_number(state, &greatest) {
        Some(number) => entry_of(alloc, origin, number, document),
        None => Err(AddFault::NoNumber),
    }
}

/// What a warehouse of this state would become by a document that is added as the next entry of an origin. Nothing
/// changes. A purchase of which an equal one is there would be added `again`, or not.
///
/// # Errors
/// `Entry` where the name of the origin or the size is out of range; `Conflict`; `NoNumber`; `NoMemory`.
pub fn try_document(
    alloc: Global,
    state: &State,
    origin: &str,
    document: &Document,
    again: bool,
) -> Result<Tried, AddFault>
    ensures after { IfOk result (λ tried.
        Follows tried.outcome origin.now (command_of document.now) state.now tried.after) }
    ensures again { IfOk result (λ tried.
        Repeats again tried.outcome (command_of document.now) state.now.entries) }
{
    let entry = next_entry(alloc, state, origin, document)?;
    if is_there(alloc, state, document, again)? {
        return unchanged(state, entry.seq());
    }
    match judge(state, &entry) {
        Verdict::Accept => accepted(state, &entry),
        Verdict::Refused(why) => Err(AddFault::Conflict(why)),
        Verdict::Gap { .. } | Verdict::Already { .. } => Err(AddFault::NoNumber),
    }
}

// A warehouse that stays as it is.
fn unchanged(state: &State, number: u64) -> Result<Tried, AddFault>
    ensures same { IfOk result (λ tried. tried.outcome ≡ Outcome.Same) }
    ensures after { IfOk result (λ tried. tried.after ≡ state.now) }
{
    Ok(Tried {
        outcome: Outcome::Same,
        number,
        after: state.copy()?,
    })
}

// A warehouse after an entry that it accepts.
fn accepted(state: &State, entry: &Entry) -> Result<Tried, AddFault>
    requires { judged state.now.entries entry.now ≡ Accept }
    ensures added { IfOk result (λ tried. tried.outcome ≡ Outcome.Added) }
    ensures after { IfOk result (λ tried. tried.after ≡ with_more state.now (entry.now ∷ [])) }
{
    Ok(Tried {
        outcome: Outcome::Added,
        number: entry.seq(),
        after: state.apply(entry)?,
    })
}

/// Adds a document to a store, as the next entry of an origin. It is on the volume, synced, before this returns
/// `Added`. Where an equal commitment is there, or an equal policy holds, nothing changes, and the answer is `Same`. A
/// purchase of which an equal one is there is added `again`, or not, and then the answer is `Same` too.
///
/// # Errors
/// `Entry` where the name of the origin or the size is out of range; `Conflict`; `NoNumber`; `Store`; `NoMemory`. None
/// changes what the store shows.
pub fn add_document<V: Volume>(
    alloc: Global,
    store: &mut Store<V>,
    origin: &str,
    document: &Document,
    again: bool,
) -> Result<Outcome, AddFault>
    ensures done { IfOk result (λ outcome.
        Becomes outcome origin.now (command_of document.now) store.old store.new) }
    ensures again { IfOk result (λ outcome.
        Repeats again outcome (command_of document.now) store.old.history.entries) }
    ensures refused { OnErr result (store.new.history ≡ store.old.history) }
    ensures any_moment { MayStop V.tells V.view store.old store.new }
{
    let state = store.state().state();
    if is_there(alloc, state, document, again)? {
        return Ok(Outcome::Same);
    }
    let entry = next_entry(alloc, state, origin, document)?;
    submit(alloc, store, &entry)
}

// Adds an entry to a store.
fn submit<V: Volume>(
    alloc: Global,
    store: &mut Store<V>,
    entry: &Entry,
) -> Result<Outcome, AddFault>
    ensures done { IfOk result (λ outcome. (outcome ≡ Outcome.Added)
        × (store.new.history ≡ with_more store.old.history (entry.now ∷ []))) }
    ensures refused { OnErr result (store.new.history ≡ store.old.history) }
    ensures any_moment { MayStop V.tells V.view store.old store.new }
{
    let verdict = match store.commit(alloc, entry) {
        Ok(verdict) => verdict,
        Err(fault) => return Err(AddFault::of_store(fault)),
    };
    match verdict {
        Verdict::Accept => Ok(Outcome::Added),
        Verdict::Refused(conflict) => Err(AddFault::Conflict(conflict)),
        Verdict::Already { .. } | Verdict::Gap { .. } => Err(AddFault::NoNumber),
    }
}
