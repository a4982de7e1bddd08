//! Faults as replies.
ghost use Rattle.std.specs.Prelude.{◌≡◌, ◌++◌, length};
ghost use Rattle.fw_serve.specs.Replies.{row_fault_line, commitment_fault_line, policy_fault_line, entry_fault_line, conflict_line, query_fault_line, store_fault_line, verdict_line, refused};
ghost use Rattle.fw_serve.specs.ReplyText.{reply_text, detail_text};

use crate::reply::{Detail, Refusal, Reply};
use fw_commitment::CommitmentFault;
use fw_entry::EntryFault;
use fw_policy::PolicyFault;
use fw_query::QueryFault;
use fw_recover::StoreFault;
use fw_rows::RowFault;
use fw_snapshot::{Conflict, Snapshot, Verdict};

/// The reply to rows that have a fault.
#[tactic(auto, unfolding(crate::specs::Replies::row_fault_line, crate::specs::ReplyText::reply_text))]
pub fn row_reply(fault: RowFault) -> Reply
    ensures { reply_text result ≡ row_fault_line fault }
{
    match fault {
        RowFault::MissingColumn(column) => refused("H1 MissingColumn", Detail::Word(column.name())),
        RowFault::DoubleColumn(column) => refused("H2 DoubleColumn", Detail::Word(column.name())),
        RowFault::Record { number, fault } => refused(fault.name(), Detail::Number(number)),
        RowFault::NoRows => refused("V14 NoRows", Detail::None),
        RowFault::TooManyRows => refused("V15 TooManyRows", Detail::None),
        RowFault::NoMemory => Reply::NoMemory,
    }
}

/// The reply to a commitment, or to a purchase that is added to one, that has a fault.
#[tactic(auto, unfolding(crate::specs::Replies::commitment_fault_line, crate::specs::ReplyText::reply_text))]
pub(crate) fn commitment_reply(fault: CommitmentFault) -> Reply
    ensures { reply_text result ≡ commitment_fault_line fault }
{
    match fault {
        CommitmentFault::Syntax => refused("C1 Syntax", Detail::None),
        CommitmentFault::Field(field) => refused("C2 Field", Detail::Word(field.name())),
        CommitmentFault::Limit(field) => refused("C3 Limit", Detail::Word(field.name())),
        CommitmentFault::NoMemory => Reply::NoMemory,
    }
}

/// The reply to a policy that has a fault.
#[tactic(auto, unfolding(crate::specs::Replies::policy_fault_line, crate::specs::ReplyText::reply_text))]
pub(crate) fn policy_reply(fault: PolicyFault) -> Reply
    ensures { reply_text result ≡ policy_fault_line fault }
{
    match fault {
        PolicyFault::Syntax => refused("P1 Syntax", Detail::None),
        PolicyFault::Field(field) => refused("P2 Field", Detail::Word(field.name())),
        PolicyFault::Limit(field) => refused("P3 Limit", Detail::Word(field.name())),
        PolicyFault::DoubleFrom => refused("P4 DoubleFrom", Detail::None),
        PolicyFault::TargetIsFrom => refused("P5 TargetIsFrom", Detail::None),
        PolicyFault::NoMemory => Reply::NoMemory,
    }
}

/// The reply to parts that make no entry.
#[tactic(auto, unfolding(crate::specs::Replies::entry_fault_line, crate::specs::ReplyText::reply_text))]
pub fn entry_reply(fault: EntryFault) -> Reply
    ensures { reply_text result ≡ entry_fault_line fault }
{
    match fault {
        EntryFault::Origin => refused("E1 Origin", Detail::None),
        EntryFault::Seq => refused("E2 Seq", Detail::None),
        EntryFault::TooLarge => refused("E3 TooLarge", Detail::None),
        EntryFault::NoMemory => Reply::NoMemory,
    }
}

/// The reply to an entry with this verdict, after which this is the warehouse.
#[tactic(auto, unfolding(crate::specs::Replies::verdict_line, crate::specs::ReplyText::reply_text))]
pub fn verdict_reply(snapshot: &Snapshot, verdict: Verdict) -> Reply
    ensures { reply_text result ≡ verdict_line (length snapshot.now.entries) verdict }
{
    match verdict {
        Verdict::Accept => Reply::Accepted(snapshot.state().entries() as u64),
        Verdict::Already { last } => Reply::Already(last),
        Verdict::Gap { expected } => Reply::Gap(expected),
        Verdict::Refused(conflict) => conflict_reply(conflict),
    }
}

// The reply to an entry that doesn't go with what was accepted before.
#[tactic(auto, unfolding(crate::specs::Replies::conflict_line, crate::specs::ReplyText::reply_text))]
fn conflict_reply(conflict: Conflict) -> Reply
    ensures { reply_text result ≡ conflict_line conflict }
{
    match conflict {
        Conflict::Full => refused("J1 Full", Detail::None),
        Conflict::DoubleId => refused("J2 DoubleId", Detail::None),
        Conflict::IdInUse => refused("J3 IdInUse", Detail::None),
        Conflict::OwnCommitment => refused("J4 OwnCommitment", Detail::None),
        Conflict::TooManyCommitments => refused("J5 TooManyCommitments", Detail::None),
        Conflict::NoSuchPost => refused("J6 NoSuchPost", Detail::None),
        Conflict::Withdrawn => refused("J7 Withdrawn", Detail::None),
        Conflict::NoSuchCommitment => refused("J8 NoSuchCommitment", Detail::None),
        Conflict::PurchaseLimit => refused("J9 PurchaseLimit", Detail::None),
    }
}

/// The reply to a report or lines that can't be had.
#[tactic(auto, unfolding(crate::specs::Replies::query_fault_line, crate::specs::ReplyText::reply_text))]
pub(crate) fn query_reply(fault: &QueryFault) -> Reply
    ensures { reply_text result ≡ query_fault_line fault.now }
{
    match fault {
        QueryFault::Range => refused("Q1 Range", Detail::None),
        QueryFault::TotalTooLarge { group: _ } => refused("Q2 TotalTooLarge", Detail::None),
        QueryFault::NoMemory => Reply::NoMemory,
    }
}

/// The reply to what a store refuses, or in which it has failed.
#[tactic(auto, unfolding(crate::specs::Replies::store_fault_line, crate::specs::ReplyText::reply_text))]
pub(crate) fn store_reply(fault: StoreFault) -> Reply
    ensures { reply_text result ≡ store_fault_line fault }
{
    match fault {
        StoreFault::NoHouse => Reply::Store("S1 NoHouse"),
        StoreFault::Corrupt { side: _, at: _ } => Reply::Store("S2 Corrupt"),
        StoreFault::Device => Reply::Store("S3 Device"),
        StoreFault::Failed => Reply::Store("S4 Failed"),
        StoreFault::Generations => Reply::Store("S5 Generations"),
        StoreFault::TooLarge => Reply::Store("S6 TooLarge"),
        StoreFault::Exists => Reply::Store("S7 Exists"),
        StoreFault::OldSide => Reply::Store("S8 OldSide"),
        StoreFault::NoMemory => Reply::NoMemory,
    }
}

// The reply of a refusal with this name and detail.
#[tactic(auto, unfolding(crate::specs::ReplyText::reply_text, crate::specs::ReplyText::refusal_text))]
fn refused(name: &'static str, detail: Detail) -> Reply
    ensures { reply_text result ≡ refused (name.now ++ detail_text detail) }
{
    Reply::Refused(Refusal { name, detail })
}
