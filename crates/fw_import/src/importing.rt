//! A part of a text as the post of an origin.
ghost use Rattle.std.specs.Prelude.{◌≡◌, false, length, Contains, IfOk, OnErr};
ghost use Rattle.fw_snapshot.specs.History.{is_withdrawn, posted};
ghost use Rattle.fw_import.specs.Importer.{Knows};
ghost use Rattle.fw_import.specs.Importing.{Becomes, IsPartThere, IsPostOf, IsTaken, IsThere};
ghost use Rattle.fw_import.specs.Importing.{MayStop};

use crate::fault::ImportFault;
use crate::importer::Importer;
use fw_disk::Volume;
use fw_entry::{Command, Entry, EntryFault};
use fw_recover::Store;
use fw_replace::own_posts_are_entries;
use fw_rows::Currency;
use fw_snapshot::{State, Verdict};
use std::alloc::Global;

/// What became of a part.
#[derive(Clone, Copy, Debug, Drop, PartialEq, Eq)]
pub enum Outcome {
    /// Its rows were added as a post.
    Added,
    /// The post of the origin under this number has the same rows, and wasn't withdrawn.
    Same,
}

/// A part that was taken.
#[derive(Clone, Copy, Debug, Drop, PartialEq, Eq)]
pub struct Taken {
    /// What became of it.
    pub outcome: Outcome,
    /// How many rows it has.
    pub rows: u64,
}

/// Takes the rows of a CSV text into a store, as the post of the importer's origin under a number. It is on the volume, synced, before this
/// returns `Added`. A post that was accepted before under this number has to have the same rows, else the answer is `Differs`; where it was
/// withdrawn, the answer is `Withdrawn`, whatever rows it has.
///
/// The importer is one that took each part before into this store, or a new one, and nothing else has changed the warehouse since its last
/// part, unless it [forgot](Importer::forget_posts) its posts.
///
/// # Errors
/// `Rows` where the text has a fault, the first one; `Entry` where the name of the origin, the number or the size is out of range; `Gap`
/// where the number isn't the origin's next one; `Differs`; `Withdrawn`; `Conflict`; `Store`; `NoMemory`. None changes what the store shows.
pub fn import_part<V: Volume>(
    alloc: Global,
    store: &mut Store<V>,
    importer: &mut Importer<'_>,
    number: u64,
    text: &[u8],
) -> Result<Taken, ImportFault>
    ensures done { IfOk result (λ taken.
        IsTaken importer.old.origin number text.now taken store.old store.new) }
    ensures there { Knows importer.old store.old.history.entries
        → IfOk result (λ taken. IsPartThere store.old.history.currency importer.old.origin
        number text.now taken.outcome store.old.history.entries) }
    ensures refused { OnErr result (store.new.history ≡ store.old.history) }
    ensures any_moment { MayStop V.tells V.view store.old store.new }
    ensures knows { Knows importer.old store.old.history.entries
        → Knows importer.new store.new.history.entries }
    ensures origin { importer.new.origin ≡ importer.old.origin }
{
    let currency = store.state().state().currency();
    let entry = read_part(alloc, importer, currency, number, text)?;
    let rows = row_count(&entry);
    let outcome = submit(alloc, store, importer, &entry)?;
    Ok(Taken { outcome, rows })
}

// How many rows an entry posts.
pub(crate) fn row_count(entry: &Entry) -> u64
    ensures { result ≡ length (posted entry.now.command) }
{
    match entry.command() {
        Command::Post(rows) => rows.len() as u64,
        Command::Commit(_)
        | Command::SetPolicy(_)
        | Command::Withdraw(_)
        | Command::AddPurchase(_) => 0,
    }
}

/// The rows of a CSV text as the post of the importer's origin under a number. A text of tags that the importer read before isn't read again, and
/// neither is a part that was read [before its turn](Importer::give).
///
/// # Errors
/// `Rows` where the text has a fault, the first one; `Entry` where the name of the origin, the number or the size is out of range;
/// `NoMemory`.
pub fn read_part(
    alloc: Global,
    importer: &mut Importer<'_>,
    currency: Currency,
    number: u64,
    text: &[u8],
) -> Result<Entry, ImportFault>
    ensures post { IfOk result (IsPostOf currency importer.old.origin number text.now) }
    ensures same { importer.new ≡ importer.old }
{
    let read = importer.rows_of(alloc, text, currency);
    let origin = importer.origin().as_bytes();
    match read {
        Ok(rows) => match Entry::new(alloc, origin, number, Command::Post(rows)) {
            Ok(entry) => Ok(entry),
            Err(EntryFault::NoMemory) => Err(ImportFault::NoMemory),
            Err(fault) => Err(ImportFault::Entry(fault)),
        },
        Err(fault) => Err(ImportFault::Rows(fault)),
    }
}

// Adds an entry of the importer's origin, or compares it with the one that was accepted under its number.
pub(crate) fn submit<V: Volume>(
    alloc: Global,
    store: &mut Store<V>,
    importer: &mut Importer<'_>,
    entry: &Entry,
) -> Result<Outcome, ImportFault>
    requires origin { entry.now.origin ≡ importer.old.origin }
    ensures done { IfOk result (λ outcome. Becomes outcome entry.now store.old store.new) }
    ensures there { Knows importer.old store.old.history.entries
        → IfOk result (λ outcome. IsThere outcome entry.now store.old.history.entries) }
    ensures refused { OnErr result (store.new.history ≡ store.old.history) }
    ensures any_moment { MayStop V.tells V.view store.old store.new }
    ensures knows { Knows importer.old store.old.history.entries
        → Knows importer.new store.new.history.entries }
    ensures same_origin { importer.new.origin ≡ importer.old.origin }
{
    let verdict = match store.commit(alloc, entry) {
        Ok(verdict) => verdict,
        Err(fault) => return Err(ImportFault::Store(fault)),
    };
    match verdict {
        Verdict::Accept => {
            importer.forget_posts();
            Ok(Outcome::Added)
        }
        Verdict::Already { .. } => {
            compare(alloc, store.state().state(), importer, entry)?;
            Ok(Outcome::Same)
        }
        Verdict::Gap { expected } => Err(ImportFault::Gap { expected }),
        Verdict::Refused(conflict) => Err(ImportFault::Conflict(conflict)),
    }
}

// Compares an entry of the importer's origin with the one that was accepted under its number, which has to count.
fn compare(
    alloc: Global,
    state: &State,
    importer: &mut Importer<'_>,
    entry: &Entry,
) -> Result<(), ImportFault>
    requires origin { entry.now.origin ≡ importer.old.origin }
    ensures counts { IfOk result (λ _.
        is_withdrawn state.now.entries entry.now.origin entry.now.seq ≡ false) }
    ensures there { Knows importer.old state.now.entries
        → IfOk result (λ _. Contains state.now.entries entry.now) }
    ensures knows { Knows importer.old state.now.entries → Knows importer.new state.now.entries }
    ensures same_origin { importer.new.origin ≡ importer.old.origin }
{
    if state.is_withdrawn(entry.origin(), entry.seq()) {
        return Err(ImportFault::Withdrawn);
    }
    own_posts_are_entries();
    let Command::Post(rows) = entry.command() else {
        return Err(ImportFault::Differs);
    };
    if importer.has_part(alloc, state, entry.seq(), rows)? {
        Ok(())
    } else {
        Err(ImportFault::Differs)
    }
}
