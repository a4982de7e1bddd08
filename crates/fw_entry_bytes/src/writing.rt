//! The writer of an entry.
ghost use Rattle.std.specs.Prelude.{◌≡◌, ◌++◌, ◌≤◌, length, OnOk};
ghost use Rattle.fw_bytes.specs.Spelling.{listed};
ghost use Rattle.fw_charge.specs.Spelling.{row};
ghost use Rattle.fw_entry.specs.Spelling.{brought, command, entry, IsCommand, IsEntry};
ghost use Rattle.fw_entry.specs.View.{command_view};
ghost use Rattle.fw_charge.specs.Charge.{most_post_rows};

use fw_bytes::{put_byte, put_text, put_u32, put_u64};
use fw_entry::{Command, Entry};
use fw_row_bytes::put_rows;
use fw_terms_bytes::{put_added, put_commitment, put_policy};
use std::alloc::AllocError;

/// Writes what a command brings.
#[tactic(auto, unfolding(fw_entry::specs::Spelling::brought))]
fn put_brought(out: &mut Vec<u8>, one: &Command) -> Result<(), AllocError>
    requires { IsCommand (command_view one.now) }
    ensures { OnOk result (out.new.items ≡ out.old.items ++ brought (command_view one.now)) }
{
    match one {
        Command::Post(rows) => put_rows(out, rows),
        Command::Commit(commitment) => put_commitment(out, commitment),
        Command::SetPolicy(policy) => put_policy(out, policy),
        Command::Withdraw(seq) => put_u64(out, *seq),
        Command::AddPurchase(added) => put_added(out, added),
    }
}

/// Writes what an entry asks for: its kind, and what the command brings.
#[tactic(auto, unfolding(fw_entry::specs::Spelling::command))]
fn put_command(out: &mut Vec<u8>, one: &Command) -> Result<(), AllocError>
    requires { IsCommand (command_view one.now) }
    ensures { OnOk result (out.new.items ≡ out.old.items ++ command (command_view one.now)) }
{
    put_byte(out, one.kind().code())?;
    put_brought(out, one)
}

/// Writes an entry at the end of the buffer: its one spelling, in at most 4,194,304 bytes.
///
/// # Errors
/// [`AllocError`] where the buffer can't grow. Then nothing is promised of what the buffer holds.
#[tactic(auto, unfolding(fw_entry::specs::Spelling::entry))]
pub fn put_entry(out: &mut Vec<u8>, one: &Entry) -> Result<(), AllocError>
    ensures { OnOk result (out.new.items ≡ out.old.items ++ entry one.now) }
{
    put_text(out, one.origin())?;
    put_u64(out, one.seq())?;
    put_command(out, one.command())
}
