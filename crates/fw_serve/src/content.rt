//! The command of an entry, from its content.
ghost use Rattle.std.specs.Prelude.{MatchResult, IfOk, Ok, Err};
ghost use Rattle.fw_serve.specs.Contents.{ContentReads};
ghost use Rattle.fw_serve.specs.ReplyText.{reply_text};
ghost use Rattle.fw_entry.specs.Spelling.{HasRowCount};
ghost use Rattle.fw_entry.specs.View.{command_view};

use crate::refusals::{commitment_reply, policy_reply, row_reply};
use crate::reply::Reply;
use fw_ahead::Posts;
use fw_commitment::{read_commitment, read_purchase};
use fw_entry::Command;
use fw_policy::read_policy;
use fw_rows::Currency;
use fw_script::{EntryKind, sequence_number};
use std::alloc::Global;
use std::thread::Threads;

/// Reads the content of an entry of a kind, or answers why it can't be read. Whether a post was read ahead has no effect on the answer.
pub(crate) fn read_content(
    rt: &(impl Threads + Sync),
    alloc: Global,
    posts: &mut Posts,
    kind: EntryKind,
    content: &[u8],
    currency: Currency,
) -> Result<Command, Reply>
    ensures reads { MatchResult result (λ command.
        ContentReads kind currency content.now (Ok (command_view command))) (λ reply.
        ContentReads kind currency content.now (Err (reply_text reply))) }
    ensures sized { IfOk result (λ command. HasRowCount (command_view command)) }
{
    match kind {
        EntryKind::Post => match posts.rows_of(rt, alloc, content, currency) {
            Ok(rows) => Ok(Command::Post(rows)),
            Err(fault) => Err(row_reply(fault)),
        },
        EntryKind::Commit => match read_commitment(alloc, content) {
            Ok(commitment) => Ok(Command::Commit(commitment)),
            Err(fault) => Err(commitment_reply(fault)),
        },
        EntryKind::Policy => match read_policy(alloc, content) {
            Ok(policy) => Ok(Command::SetPolicy(policy)),
            Err(fault) => Err(policy_reply(fault)),
        },
        EntryKind::AddPurchase => match read_purchase(alloc, content) {
            Ok(added) => Ok(Command::AddPurchase(added)),
            Err(fault) => Err(commitment_reply(fault)),
        },
        EntryKind::Withdraw => match sequence_number(content) {
            Some(target) => Ok(Command::Withdraw(target)),
            None => Err(Reply::BadCommand),
        },
    }
}
