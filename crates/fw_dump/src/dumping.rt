//! The entries of a warehouse, written as a script.
ghost use Rattle.std.specs.Prelude.{◌≡◌, ℕ, IfOk, List, OnOk, Some, slice_get};
ghost use Rattle.std.specs.Io.KnownBytes.{Appends};
ghost use Rattle.fw_dump.specs.Dumps.{IsDumpOf, IsTextOf};
ghost use Rattle.fw_entry.specs.Entry.{EntryValue};

use crate::fault::{DumpFault, TextFault};
use crate::spelled::SpelledTags;
use crate::texts::{entry_text_after, post_text};
use fw_charge::Currency;
use fw_column_rows::KnownTexts;
use fw_entries::EntriesLeft;
use fw_snapshot::{Content, Head, State};
use std::alloc::Global;
use std::io::Write;

/// Writes the entries of a warehouse in their order, each as the command of a script that sends it, and nothing else: also
/// posts that were withdrawn, with their rows, and what withdraws them. The
/// currency stands in no command: a script is served by a warehouse that was made in it. Beside the warehouse it holds one entry at a
/// time: its text, and what is read from that; texts of tags that were read, with their tags; and the texts of a segment's tags.
///
/// # Errors
/// `Entry` where an entry has no text, `Write` where the writer failed, `NoMemory`. The texts of the entries before were written, and where
/// the writer failed a part of the next one may have been.
pub fn dump<W: Write>(alloc: Global, state: &State, writer: &mut W) -> Result<(), DumpFault>
    ensures { OnOk result ((text : List ℕ)
        × IsDumpOf state.now.currency state.now.entries text
        × Appends (W.contents writer.old) (W.contents writer.new) text) }
{
    let currency = state.currency();
    let mut known = KnownTexts::new(alloc);
    let mut tags = SpelledTags::new(alloc);
    let mut left = EntriesLeft::of(state);
    let mut number: u64 = 0;
    while let Some(head) = left.head() {
        number = number.saturating_add(1);
        match text_of_next(alloc, currency, &left, head, &mut tags, &mut known) {
            Ok(text) => write_text(writer, text.as_slice())?,
            Err(why) => return Err(fault_of(number, why)),
        }
        left.skip();
    }
    Ok(())
}

// The text of the next entry that is left, whose head this is.
fn text_of_next(
    alloc: Global,
    currency: Currency,
    left: &EntriesLeft<'_>,
    head: &Head,
    tags: &mut SpelledTags,
    known: &mut KnownTexts,
) -> Result<Vec<u8>, TextFault>
    ensures { IfOk result (λ text. (entry : EntryValue)
        × (slice_get left.now 0 ≡ Some entry)
        × IsTextOf currency text.items entry) }
{
    if let Content::Post { .. } = head.content() {
        return post_text(alloc, currency, left, head, tags, known);
    }
    match left.first(alloc)? {
        Some(entry) => entry_text_after(alloc, currency, &entry, known),
        // A head has its entry.
        None => Err(TextFault::Differs),
    }
}

// Why the entry of a number has no text.
fn fault_of(number: u64, why: TextFault) -> DumpFault {
    match why {
        TextFault::NoMemory => DumpFault::NoMemory,
        TextFault::TooManyLines | TextFault::Differs => DumpFault::Entry { number, why },
    }
}

// Writes a text whole.
fn write_text<W: Write>(writer: &mut W, text: &[u8]) -> Result<(), DumpFault>
    ensures { OnOk result (Appends (W.contents writer.old) (W.contents writer.new) text.now) }
{
    match writer.write_all(text) {
        Ok(()) => Ok(()),
        Err(error) => Err(DumpFault::Write(error.kind())),
    }
}
