//! A part of a text as the post of an origin, with columns kept as tags.
ghost use Rattle.std.specs.Prelude.{◌≡◌, IfOk, OnErr};
ghost use Rattle.fw_import.specs.Importer.{Knows};
ghost use Rattle.fw_import.specs.Importing.{MayStop};
ghost use Rattle.fw_import.specs.Keeping.{IsKeptTaken, IsKeptThere, IsPostKept};

use crate::fault::ImportFault;
use crate::importer::Importer;
use crate::importing::{Taken, row_count, submit};
use fw_disk::Volume;
use fw_entry::{Command, Entry, EntryFault};
use fw_recover::Store;
use fw_rows::{Currency, Keeper};
use std::alloc::Global;

/// Takes the rows of a CSV text into a store, as [`crate::import_part`] does, with columns kept as tags: the text of a
/// record in such a column is a tag of its row, unless it is empty. A post that was accepted before under the number has
/// to have the same rows with the same tags, else the answer is `Differs`.
///
/// # Errors
/// Those of [`crate::import_part`]; a record may have the fault `TagTwice` too.
pub fn import_part_keeping<V: Volume>(
    alloc: Global,
    store: &mut Store<V>,
    importer: &mut Importer<'_>,
    keeper: &mut Keeper,
    number: u64,
    text: &[u8],
) -> Result<Taken, ImportFault>
    ensures done { IfOk result (λ taken. IsKeptTaken keeper.old.keeps importer.old.origin
        number text.now taken store.old store.new) }
    ensures there { Knows importer.old store.old.history.entries
        → IfOk result (λ taken. IsKeptThere store.old.history.currency keeper.old.keeps
        importer.old.origin number text.now taken.outcome store.old.history.entries) }
    ensures refused { OnErr result (store.new.history ≡ store.old.history) }
    ensures any_moment { MayStop V.tells V.view store.old store.new }
    ensures knows { Knows importer.old store.old.history.entries
        → Knows importer.new store.new.history.entries }
    ensures origin { importer.new.origin ≡ importer.old.origin }
    ensures keeps { keeper.new.keeps ≡ keeper.old.keeps }
{
    let currency = store.state().state().currency();
    let entry = read_part_keeping(alloc, importer, keeper, currency, number, text)?;
    let rows = row_count(&entry);
    let outcome = submit(alloc, store, importer, &entry)?;
    Ok(Taken { outcome, rows })
}

/// The rows of a CSV text as the post of the importer's origin under a number, with columns kept as tags.
///
/// # Errors
/// `Rows` where the text has a fault, the first one; `Entry` where the name of the origin, the number or the size is out
/// of range; `NoMemory`.
pub fn read_part_keeping(
    alloc: Global,
    importer: &mut Importer<'_>,
    keeper: &mut Keeper,
    currency: Currency,
    number: u64,
    text: &[u8],
) -> Result<Entry, ImportFault>
    ensures post { IfOk result (IsPostKept currency keeper.old.keeps importer.old.origin
        number text.now) }
    ensures same { importer.new ≡ importer.old }
    ensures keeps { keeper.new.keeps ≡ keeper.old.keeps }
{
    let read = importer.rows_keeping(alloc, text, currency, keeper);
    let origin = importer.origin().as_bytes();
    match read {
        Ok(rows) => match Entry::new(alloc, origin, number, Command::Post(rows)) {
            Ok(entry) => Ok(entry),
            Err(EntryFault::NoMemory) => Err(ImportFault::NoMemory),
            Err(fault) => Err(ImportFault::Entry(fault)),
        },
        Err(fault) => Err(ImportFault::Rows(fault)),
    }
}
