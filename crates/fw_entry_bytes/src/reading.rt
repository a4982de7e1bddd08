//! The reader of an entry.
ghost use Rattle.std.specs.Prelude.{string_bytes};
ghost use Rattle.fw_bytes.specs.Reading.{Gives};
ghost use Rattle.fw_entry.specs.View.{command_view};
ghost use Rattle.fw_entry_bytes.specs.Reading.{brought_at, command_at, fields_at, entry_at};

use crate::fields::{kind_of, origin_of, seq_of};
use crate::form::Form;
use fw_bytes::{ReadError, u64_at};
use fw_charge::MOST_POST_ROWS;
use fw_entry::{Command, CommandKind, Entry};
use fw_row_bytes::rows_of;
use fw_terms_bytes::{added_of, commitment_of, policy_of};
use std::alloc::Global;

/// What a command of this kind brings.
#[tactic(auto, unfolding(crate::specs::Reading::brought_at, crate::specs::Reading::rows_at, fw_bytes::specs::Reading::seen))]
fn brought_of(alloc: Global, kind: CommandKind, bytes: &[u8]) -> Result<(Command, &[u8]), ReadError>
    ensures { Gives (λ x. (command_view x.0, x.1.now)) result (brought_at kind bytes.now) }
{
    match kind {
        CommandKind::Post => match rows_of(alloc, MOST_POST_ROWS as u32, bytes) {
            Ok((rows, rest)) => Ok((Command::Post(rows), rest)),
            Err(e) => Err(e),
        },
        CommandKind::Commit => match commitment_of(alloc, bytes) {
            Ok((commitment, rest)) => Ok((Command::Commit(commitment), rest)),
            Err(e) => Err(e),
        },
        CommandKind::SetPolicy => match policy_of(alloc, bytes) {
            Ok((policy, rest)) => Ok((Command::SetPolicy(policy), rest)),
            Err(e) => Err(e),
        },
        CommandKind::Withdraw => match u64_at(bytes) {
            Ok((seq, rest)) => Ok((Command::Withdraw(seq), rest)),
            Err(e) => Err(e),
        },
        CommandKind::AddPurchase => match added_of(alloc, bytes) {
            Ok((added, rest)) => Ok((Command::AddPurchase(added), rest)),
            Err(e) => Err(e),
        },
    }
}

/// What an entry asks for: its kind, which the form has, and what a command of this kind brings.
#[tactic(auto, unfolding(crate::specs::Reading::command_at, fw_terms_bytes::specs::Reading::of_kind))]
fn command_of(alloc: Global, form: Form, bytes: &[u8]) -> Result<(Command, &[u8]), ReadError>
    ensures { Gives (λ x. (command_view x.0, x.1.now)) result (command_at form bytes.now) }
{
    let (kind, rest) = kind_of(form, bytes)?;
    brought_of(alloc, kind, rest)
}

/// The fields of an entry, each in its range.
#[derive(Drop)]
struct Fields {
    origin: String,
    seq: u64,
    command: Command,
}

/// The fields of an entry, in order.
#[tactic(auto, unfolding(crate::specs::Reading::fields_at, fw_bytes::specs::Reading::both))]
fn fields_of(alloc: Global, form: Form, bytes: &[u8]) -> Result<(Fields, &[u8]), ReadError>
    ensures { Gives (λ x. ((string_bytes x.0.origin, (x.0.seq, command_view x.0.command)), x.1.now))
        result (fields_at form bytes.now) }
{
    let (origin, rest) = origin_of(alloc, bytes)?;
    let (seq, rest) = seq_of(rest)?;
    match command_of(alloc, form, rest) {
        Ok((command, rest)) => Ok((
            Fields {
                origin,
                seq,
                command,
            },
            rest,
        )),
        Err(e) => Err(e),
    }
}

/// An entry of the form, and the bytes after it.
///
/// Memory is taken as texts and items are read. A length prefix or a count is never trusted.
///
/// # Errors
/// [`ReadError::Corrupt`] at the first fault. A field that is cut off or out of its range is a fault where the field starts, a kind that the
/// form doesn't have is one at its byte, and the rules over several fields of a row, of a commitment or of a policy are kept or broken where
/// it starts; where there is no such fault, an entry of more than 4,194,304 bytes is one at its own first byte. [`ReadError::NoMemory`]
/// where there is no memory for what is kept of the bytes, reported where it runs out: a fault of a later field isn't looked for.
pub fn entry_of(alloc: Global, form: Form, bytes: &[u8]) -> Result<(Entry, &[u8]), ReadError>
    ensures { Gives (λ x. (x.0, x.1.now)) result (entry_at form bytes.now) }
{
    match fields_of(alloc, form, bytes) {
        Ok((fields, rest)) => {
            let len = bytes.len() - rest.len();
            if len > Entry::MOST_BYTES {
                return Err(ReadError::Corrupt(bytes.len()));
            }
            Ok((
                Entry::of_measured(fields.origin, fields.seq, fields.command, len),
                rest,
            ))
        }
        Err(e) => Err(e),
    }
}
