//! The text of an entry: the command of a script that sends it.
ghost use Rattle.std.specs.Prelude.{◌≡◌, IfOk, Some, slice_get};
ghost use Rattle.fw_entry.specs.Entry.{EntryValue};
ghost use Rattle.fw_dump.specs.Dumps.{IsTextOf};

use crate::commitment::{push_added, push_commitment};
use crate::fault::TextFault;
use crate::policy::push_policy;
use crate::rows::{rows_csv, runs_csv};
use crate::sending::entry_sent;
use crate::spelled::SpelledTags;
use crate::values::{push_number, push_text};
use fw_charge::Currency;
use fw_column_rows::KnownTexts;
use fw_entries::EntriesLeft;
use fw_entry::{Command, Entry};
use fw_import::same_entry;
use fw_script::EntryKind;
use fw_snapshot::Head;
use memchr::memchr_iter;
use std::alloc::{AllocError, Global};

/// The most lines of a command's content, as a script has them.
const MOST_LINES: usize = 1_000_000;

/// The text of an entry in a warehouse of this currency: a script's command that sends it, and no other. Whatever follows the text in a
/// script, the command is the same, and what follows is left.
///
/// # Errors
/// `TooManyLines` and `Differs`, as [`TextFault`] says; `NoMemory`.
pub fn entry_text(alloc: Global, currency: Currency, entry: &Entry) -> Result<Vec<u8>, TextFault>
    ensures { IfOk result (λ text. IsTextOf currency text.items entry.now) }
{
    entry_text_after(alloc, currency, entry, &mut KnownTexts::new(alloc))
}

/// The text of an entry, as [`entry_text`] has it. A text of tags that was read of the text of an earlier entry isn't read again.
pub(crate) fn entry_text_after(
    alloc: Global,
    currency: Currency,
    entry: &Entry,
    known: &mut KnownTexts,
) -> Result<Vec<u8>, TextFault>
    ensures { IfOk result (λ text. IsTextOf currency text.items entry.now) }
{
    let text = written(alloc, currency, entry)?;
    match entry_sent(alloc, currency, text.as_slice(), known)? {
        Some(sent) if same_entry(alloc, entry, &sent)? => Ok(text),
        _ => Err(TextFault::Differs),
    }
}

/// The text of the next entry that is left of a warehouse of this currency, if it is a post, whose head this is. Its rows are written, and
/// compared with what was read, where they stand.
///
/// # Errors
/// As [`entry_text`] has them.
pub(crate) fn post_text(
    alloc: Global,
    currency: Currency,
    left: &EntriesLeft<'_>,
    head: &Head,
    tags: &mut SpelledTags,
    known: &mut KnownTexts,
) -> Result<Vec<u8>, TextFault>
    ensures { IfOk result (λ text. (entry : EntryValue)
        × (slice_get left.now 0 ≡ Some entry)
        × IsTextOf currency text.items entry) }
{
    let content = runs_csv(alloc, currency, left.runs(), tags)?;
    let front = Front {
        kind: EntryKind::Post,
        origin: head.origin(),
        seq: head.seq(),
    };
    let text = with_line(alloc, front, None, content)?;
    match entry_sent(alloc, currency, text.as_slice(), known)? {
        Some(sent) if left.starts_with_post(alloc, &sent) => Ok(text),
        _ => Err(TextFault::Differs),
    }
}

/// What the line of an entry begins with.
#[derive(Clone, Copy, Drop)]
struct Front<'a> {
    kind: EntryKind,
    origin: &'a str,
    seq: u64,
}

// What is written of an entry: its line, and its content, of which a withdrawal has none.
fn written(alloc: Global, currency: Currency, entry: &Entry) -> Result<Vec<u8>, TextFault> {
    let command = entry.command();
    let content = content_of(alloc, currency, command)?;
    let front = Front {
        kind: kind_of(command),
        origin: entry.origin(),
        seq: entry.seq(),
    };
    with_line(alloc, front, target_of(command), content)
}

// The post that a withdrawal takes back.
fn target_of(command: &Command) -> Option<u64> {
    match command {
        Command::Withdraw(target) => Some(*target),
        Command::Post(_) | Command::Commit(_) | Command::SetPolicy(_) | Command::AddPurchase(_) =>
            None,
    }
}

// A content behind its line, which ends with the number of a post, or else of the lines of the content.
fn with_line(
    alloc: Global,
    front: Front<'_>,
    target: Option<u64>,
    content: Vec<u8>,
) -> Result<Vec<u8>, TextFault> {
    let lines = line_feeds(content.as_slice());
    if lines > MOST_LINES {
        return Err(TextFault::TooManyLines);
    }
    let mut text = line_of(alloc, front, target.unwrap_or(lines as u64))?;
    text.extend_from_slice(content.as_slice())?;
    Ok(text)
}

// The line of an entry, which this number ends.
fn line_of(alloc: Global, front: Front<'_>, last: u64) -> Result<Vec<u8>, AllocError> {
    let mut line = Vec::new(alloc);
    push_text(&mut line, front.kind.word())?;
    push_text(&mut line, " ")?;
    push_text(&mut line, front.origin)?;
    push_text(&mut line, " ")?;
    push_number(&mut line, front.seq)?;
    push_text(&mut line, " ")?;
    push_number(&mut line, last)?;
    push_text(&mut line, "\n")?;
    Ok(line)
}

// The kind of a command of a script that sends such an entry.
fn kind_of(command: &Command) -> EntryKind {
    match command {
        Command::Post(_) => EntryKind::Post,
        Command::Commit(_) => EntryKind::Commit,
        Command::SetPolicy(_) => EntryKind::Policy,
        Command::Withdraw(_) => EntryKind::Withdraw,
        Command::AddPurchase(_) => EntryKind::AddPurchase,
    }
}

// The content of an entry: CSV or TOML, each line with its line feed; nothing of a withdrawal.
fn content_of(alloc: Global, currency: Currency, command: &Command) -> Result<Vec<u8>, AllocError> {
    match command {
        Command::Post(rows) => rows_csv(alloc, currency, rows),
        Command::Commit(commitment) => {
            let mut content = Vec::new(alloc);
            push_commitment(&mut content, commitment)?;
            Ok(content)
        }
        Command::SetPolicy(policy) => {
            let mut content = Vec::new(alloc);
            push_policy(&mut content, policy)?;
            Ok(content)
        }
        Command::Withdraw(_) => Ok(Vec::new(alloc)),
        Command::AddPurchase(added) => {
            let mut content = Vec::new(alloc);
            push_added(&mut content, added)?;
            Ok(content)
        }
    }
}

// How many line feeds a text has.
fn line_feeds(text: &[u8]) -> usize {
    let mut count: usize = 0;
    for _place in memchr_iter(b'\n', text) {
        count = count.saturating_add(1);
    }
    count
}
