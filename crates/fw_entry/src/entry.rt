//! Entries and their commands.
ghost use Rattle.std.specs.Prelude.{◌≡◌, ◌≤◌, ◌<◌, ◌^◌, ◌-◌, length, All, IfOk, IfErr, string_bytes};
ghost use Rattle.fw_bytes.specs.Spelling.{listed, number64};
ghost use Rattle.std.specs.List.{list_all};
ghost use Rattle.fw_charge.specs.Spelling.{row, IsRow};
ghost use Rattle.fw_entry.specs.Entry.{is_origin, is_origin_byte};
ghost use Rattle.fw_entry.specs.Refusals.{IsRefused};
ghost use Rattle.fw_entry.specs.Spelling.{entry, HasRowCount, IsEntry};
ghost use Rattle.fw_entry.specs.View.{command_view};
ghost use Rattle.fw_charge.specs.Charge.{most_post_rows};

use crate::fault::EntryFault;
use crate::kind::CommandKind;
use fw_columns::Columns;
use fw_terms::{
    AddedPurchase, Commitment, Policy, added_has_spelling, added_len, commitment_has_spelling,
    commitment_len, policy_has_spelling, policy_len,
};
use std::alloc::{AllocError, Global};
use std::marker::Model;

/// What an entry asks for.
pub enum Command {
    /// These charge rows count from now on: 1 to 4,096 of them.
    Post(Columns),
    /// This is committed to.
    Commit(Commitment),
    /// This policy holds from now on.
    SetPolicy(Policy),
    /// The rows of the post with this number, of the same sender, count no more.
    Withdraw(u64),
    /// This was paid for a commitment that there is.
    AddPurchase(AddedPurchase),
}

impl Drop for Command {
    fn drop(self) {
        match self {
            Self::Post(_)
            | Self::Commit(_)
            | Self::SetPolicy(_)
            | Self::Withdraw(_)
            | Self::AddPurchase(_) => {}
        }
    }
}

impl Command {
    ghost use Rattle.fw_entry.specs.Kinds.{kind_of};
    ghost use Rattle.fw_entry.specs.Spelling.{command, HasRowCount, IsCommand};
    ghost use Rattle.fw_entry.specs.View.{command_view};

    /// The kind of the command.
    pub fn kind(&self) -> CommandKind
        ensures { result ≡ kind_of (command_view self.now) }
    {
        match self {
            Command::Post(_) => CommandKind::Post,
            Command::Commit(_) => CommandKind::Commit,
            Command::SetPolicy(_) => CommandKind::SetPolicy,
            Command::Withdraw(_) => CommandKind::Withdraw,
            Command::AddPurchase(_) => CommandKind::AddPurchase,
        }
    }

    /// An equal command. Rows are shared.
    pub fn copy(&self, alloc: Global) -> Result<Command, AllocError>
        ensures { IfOk result (λ copy. command_view copy ≡ command_view self.now) }
    {
        match self {
            Command::Post(rows) => Ok(Command::Post(rows.copy()?)),
            Command::Commit(commitment) => Ok(Command::Commit(commitment.copy()?)),
            Command::SetPolicy(policy) => Ok(Command::SetPolicy(policy.copy(alloc)?)),
            Command::Withdraw(seq) => Ok(Command::Withdraw(*seq)),
            Command::AddPurchase(added) => Ok(Command::AddPurchase(added.copy(alloc)?)),
        }
    }

    // How many bytes the command is written in.
    #[tactic(auto, unfolding(crate::specs::Spelling::command, crate::specs::Spelling::brought))]
    fn encoded_len(&self) -> usize
        requires { HasRowCount (command_view self.now) }
        ensures length { result ≡ length (command (command_view self.now)) }
        ensures short { result < 2 ^ 32 }
        ensures valid { IsCommand (command_view self.now) }
    {
        match self {
            Command::Post(rows) => 1 + rows_len(rows),
            Command::Commit(commitment) => {
                commitment_has_spelling(commitment);
                1 + commitment_len(commitment)
            }
            Command::SetPolicy(policy) => {
                policy_has_spelling(policy);
                1 + policy_len(policy)
            }
            Command::Withdraw(target) => 1 + number_len(*target),
            Command::AddPurchase(added) => {
                added_has_spelling(added);
                1 + added_len(added)
            }
        }
    }
}

// How many bytes a number is written in.
fn number_len(_number: u64) -> usize
    ensures length { result ≡ length (number64 _number) }
    ensures valid { _number < 2 ^ 64 }
{
    8
}

// How many bytes rows are written in, their number included.
fn rows_len(rows: &Columns) -> usize
    requires { length rows.now ≤ most_post_rows }
    ensures length { result ≡ length (listed row rows.now) }
    ensures short { result < 2 ^ 32 - 1 }
    ensures valid { All IsRow rows.now }
{
    4 + rows.encoded_len()
}

// Whether a byte may stand in the name of an origin.
fn is_origin_byte(byte: u8) -> bool
    ensures { result ≡ is_origin_byte byte }
{
    byte.is_ascii_alphanumeric() || byte == b'-' || byte == b'_' || byte == b'.'
}

// Whether each byte may stand in the name of an origin.
fn are_origin_bytes(bytes: &[u8]) -> bool
    ensures { result ≡ list_all is_origin_byte bytes.now }
{
    bytes.iter().all(|byte| is_origin_byte(*byte))
}

/// Whether bytes are the name of an origin: 1 to 64 ASCII letters, digits, `-`, `_` and `.`.
#[tactic(auto, unfolding(crate::specs::Entry::is_origin))]
pub fn is_origin(bytes: &[u8]) -> bool
    ensures { result ≡ is_origin bytes.now }
{
    !bytes.is_empty() && bytes.len() <= Entry::LONGEST_ORIGIN && are_origin_bytes(bytes)
}

// The name of the origin, and how many bytes the entry is written in, where the parts make one.
#[tactic(auto, unfolding(crate::specs::Spelling::entry))]
fn checked<'a>(
    origin: &'a [u8],
    seq: u64,
    command: &Command,
) -> Result<(&'a str, usize), EntryFault>
    requires { HasRowCount (command_view command.now) }
    ensures name { IfOk result (λ found. found.0.now ≡ origin.now) }
    ensures length { IfOk result (λ found. found.1
        ≡ length (entry (record {
          origin = origin.now;
          seq = seq;
          command = command_view command.now;
        }))) }
    ensures entry { IfOk result (λ _. IsEntry
        (record { origin = origin.now; seq = seq; command = command_view command.now })) }
    ensures fault { IfErr result (IsRefused origin.now seq (command_view command.now)) }
{
    if !is_origin(origin) {
        return Err(EntryFault::Origin);
    }
    if seq == 0 {
        return Err(EntryFault::Seq);
    }
    let len = 12 + origin.len() + command.encoded_len();
    if len > Entry::MOST_BYTES {
        return Err(EntryFault::TooLarge);
    }
    match str::from_utf8(origin) {
        Ok(name) => Ok((name, len)),
        Err(_) => Err(EntryFault::Origin),
    }
}

/// A command, the name of its sender, and its number among the commands of this sender: 1, 2, 3 and so on.
pub struct Entry {
    origin: String,
    seq: u64,
    command: Command,
    /// How many bytes it is written in.
    len: usize,
}

impl Drop for Entry {
    fn drop(self) {
        let Self {
            origin: _,
            seq: _,
            command: _,
            len: _,
        } = self;
    }
}

impl Model for Entry {
    ghost use Rattle.fw_entry.specs.Entry.{EntryValue};

    ghost Value = { EntryValue };

    ghost use Rattle.std.specs.Prelude.{◌≡◌, length};
    ghost use Rattle.fw_entry.specs.Spelling.{entry, IsEntry};
    ghost use Rattle.fw_entry.specs.View.{entry_view};

    ghost view = { entry_view };

    ghost invariant = { λ e. IsEntry (entry_view e) × (e.len ≡ length (entry (entry_view e))) };
}

impl Entry {
    ghost use Rattle.fw_entry.specs.Refusals.{IsRefused};
    ghost use Rattle.fw_entry.specs.Spelling.{entry, HasRowCount, IsEntry};
    ghost use Rattle.fw_entry.specs.View.{command_view};

    /// The most bytes of an origin's name.
    pub const LONGEST_ORIGIN: usize = 64;

    /// The most bytes that an entry is written in.
    pub const MOST_BYTES: usize = 4_194_304;

    /// The entry of this origin, number and command; a post has 1 to 4,096 rows. Where the parts break several limits, the fault is the first in the order of
    /// [`EntryFault`]; the command is dropped then.
    pub fn new(
        alloc: Global,
        origin: &[u8],
        seq: u64,
        command: Command,
    ) -> Result<Entry, EntryFault>
        requires { HasRowCount (command_view command) }
        ensures entry { IfOk result (λ e. e ≡ record
            { origin = origin.now; seq = seq; command = command_view command }) }
        ensures fault { IfErr result (IsRefused origin.now seq (command_view command)) }
    {
        let (name, len) = checked(origin, seq, &command)?;
        Ok(Entry {
            origin: String::from_str(alloc, name)?,
            seq,
            command,
            len,
        })
    }

    /// The entry of a name, a number and a command that keep the limits of an entry.
    #[tactic(auto, unfolding(crate::specs::Spelling::entry))]
    pub fn of_fields(origin: String, seq: u64, command: Command) -> Entry
        requires { IsEntry (record {
          origin = string_bytes origin;
          seq = seq;
          command = command_view
              command;
        }) }
        ensures { result ≡ record {
          origin = string_bytes origin;
          seq = seq;
          command = command_view
              command;
        } }
    {
        let len = 12 + origin.len() + command.encoded_len();
        Entry::of_measured(origin, seq, command, len)
    }

    /// The entry of a name, a number and a command that keep the limits of an entry and are written in so many bytes.
    pub fn of_measured(origin: String, seq: u64, command: Command, len: usize) -> Entry
        requires kept { IsEntry (record {
          origin = string_bytes origin;
          seq = seq;
          command = command_view command;
        }) }
        requires length { len ≡ length (entry (record
            { origin = string_bytes origin; seq = seq; command = command_view command })) }
        ensures { result ≡ record {
          origin = string_bytes origin;
          seq = seq;
          command = command_view
              command;
        } }
    {
        Entry {
            origin,
            seq,
            command,
            len,
        }
    }

    /// The name of who sent the entry: 1 to 64 ASCII letters, digits, `-`, `_` and `.`.
    pub fn origin(&self) -> &str
        ensures name { result.now ≡ self.now.origin }
        ensures valid { IsEntry self.now }
    {
        &self.origin
    }

    /// The entry's number among those of its origin, counted from 1.
    pub fn seq(&self) -> u64
        ensures number { result ≡ self.now.seq }
        ensures valid { IsEntry self.now }
    {
        self.seq
    }

    /// What the entry asks for.
    pub fn command(&self) -> &Command
        ensures command { command_view result.now ≡ self.now.command }
        ensures valid { IsEntry self.now }
    {
        &self.command
    }

    /// How many bytes the entry is written in: at most 4,194,304.
    pub fn encoded_len(&self) -> usize
        ensures { result ≡ length (entry self.now) }
    {
        self.len
    }

    /// An equal entry.
    pub fn copy(&self, alloc: Global) -> Result<Entry, AllocError>
        ensures { IfOk result (λ copy. copy ≡ self.now) }
    {
        Ok(Entry {
            origin: String::from_str(alloc, &self.origin)?,
            seq: self.seq,
            command: self.command.copy(alloc)?,
            len: self.len,
        })
    }
}
