//! What entry a text sends that is one command: it is read as a script is that is served.
ghost use Rattle.std.specs.Prelude.{IfOk, IfSome, Ok};
ghost use Rattle.fw_dump.specs.Dumps.{IsTextOf};
ghost use Rattle.fw_entry.specs.Spelling.{HasRowCount};
ghost use Rattle.fw_entry.specs.View.{command_view};
ghost use Rattle.fw_script.specs.Plain as plain;
ghost use Rattle.fw_script.specs.Plain.{plain_command};
ghost use Rattle.fw_serve.specs.Contents.{ContentReads};
ghost use Rattle.fw_serve.specs.Runs.{Sends};

use fw_charge::Currency;
use fw_column_rows::{KnownTexts, read_columns_after};
use fw_commitment::{CommitmentFault, read_commitment, read_purchase};
use fw_entry::{Command as EntryCommand, Entry, EntryFault};
use fw_policy::{PolicyFault, read_policy};
use fw_rows::RowFault;
use fw_script::{Command, EntryKind, Script, sequence_number};
use std::alloc::{AllocError, Global};

/// The entry that a text sends to a warehouse of this currency; `None` where it isn't one command that sends one, or doesn't end with a line
/// feed.
pub(crate) fn entry_sent(
    alloc: Global,
    currency: Currency,
    text: &[u8],
    known: &mut KnownTexts,
) -> Result<Option<Entry>, AllocError>
    ensures { IfOk result (λ sent. IfSome sent (λ entry. IsTextOf currency text.now entry)) }
{
    let Some((last, _)) = text.split_last() else {
        return Ok(None);
    };
    if *last != b'\n' {
        return Ok(None);
    }
    let mut script = Script::new(text);
    let Some(command) = script.next_command() else {
        return Ok(None);
    };
    match script.next_command() {
        None => sent_by(alloc, currency, command, known),
        Some(_) => Ok(None),
    }
}

// The entry that a command sends.
fn sent_by(
    alloc: Global,
    currency: Currency,
    command: Command<'_>,
    known: &mut KnownTexts,
) -> Result<Option<Entry>, AllocError>
    ensures { IfOk result (λ sent. IfSome sent (λ entry.
        Sends currency (plain_command command.entry) entry)) }
{
    match command {
        Command::Entry {
            kind,
            origin,
            sequence,
            content,
        } => sent_as(alloc, currency, kind, origin, sequence, content, known),
        _ => Ok(None),
    }
}

// The entry that the command of an entry's kind sends, with this origin, sequence number and content.
fn sent_as(
    alloc: Global,
    currency: Currency,
    kind: EntryKind,
    origin: &[u8],
    sequence: &[u8],
    content: &[u8],
    known: &mut KnownTexts,
) -> Result<Option<Entry>, AllocError>
    ensures { IfOk result (λ sent. IfSome sent (λ entry.
        Sends currency (plain.entry kind origin.now sequence.now content.now) entry)) }
{
    let Some(number) = sequence_number(sequence) else {
        return Ok(None);
    };
    let Some(command) = read_content(alloc, currency, kind, content, known)? else {
        return Ok(None);
    };
    match Entry::new(alloc, origin, number, command) {
        Ok(read) => {
            // Proves that it keeps its limits.
            let _seq = read.seq();
            Ok(Some(read))
        }
        Err(EntryFault::NoMemory) => Err(AllocError),
        Err(_) => Ok(None),
    }
}

// What the content of a command of an entry's kind brings, or `None` where it can't be read.
fn read_content(
    alloc: Global,
    currency: Currency,
    kind: EntryKind,
    content: &[u8],
    known: &mut KnownTexts,
) -> Result<Option<EntryCommand>, AllocError>
    ensures reads { IfOk result (λ read. IfSome read (λ command.
        ContentReads kind currency content.now (Ok (command_view command)))) }
    ensures sized { IfOk result (λ read. IfSome read (λ command.
        HasRowCount (command_view command))) }
{
    match kind {
        EntryKind::Post => match read_columns_after(alloc, content, currency, known) {
            Ok(rows) => Ok(Some(EntryCommand::Post(rows))),
            Err(RowFault::NoMemory) => Err(AllocError),
            Err(_) => Ok(None),
        },
        EntryKind::Commit => match read_commitment(alloc, content) {
            Ok(commitment) => Ok(Some(EntryCommand::Commit(commitment))),
            Err(CommitmentFault::NoMemory) => Err(AllocError),
            Err(_) => Ok(None),
        },
        EntryKind::Policy => match read_policy(alloc, content) {
            Ok(policy) => Ok(Some(EntryCommand::SetPolicy(policy))),
            Err(PolicyFault::NoMemory) => Err(AllocError),
            Err(_) => Ok(None),
        },
        EntryKind::Withdraw => match sequence_number(content) {
            Some(target) => Ok(Some(EntryCommand::Withdraw(target))),
            None => Ok(None),
        },
        EntryKind::AddPurchase => match read_purchase(alloc, content) {
            Ok(added) => Ok(Some(EntryCommand::AddPurchase(added))),
            Err(CommitmentFault::NoMemory) => Err(AllocError),
            Err(_) => Ok(None),
        },
    }
}
