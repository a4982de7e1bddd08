//! The readers and the writer of heads.
ghost use Rattle.std.specs.Prelude.{◌≡◌, ◌++◌, ◌<◌, ◌≤◌, ◌^◌, length, map, IfOk, OnOk};
ghost use Rattle.fw_bytes.specs.Reading.{Gives, times};
ghost use Rattle.fw_snapshot.specs.HeadView as stored;
ghost use Rattle.fw_snapshot.specs.Heads.{row_count};
ghost use Rattle.fw_segment.specs.Heads.{content, head, brought_at, content_at, head_at, head_fields_at, heads_at, post_count_at, IsHead};
ghost use Rattle.fw_segment.specs.HeadView.{content_view, head_view};
ghost use Rattle.fw_charge.specs.Charge.{most_post_rows};

use fw_bytes::{ReadError, put_byte, put_text, put_u32, put_u64, u32_at, u64_at};
use fw_charge::MOST_POST_ROWS;
use fw_entry::{Command, CommandKind};
use fw_entry_bytes::{Form, kind_of, origin_of, seq_of};
use fw_snapshot::{Content, Head};
use fw_terms::{AddedPurchase, Commitment, Policy, added_len, commitment_len, policy_len};
use fw_terms_bytes::{added_of, commitment_of, policy_of, put_added, put_commitment, put_policy};
use std::alloc::{AllocError, Global};
use std::sync::Arc;

/// What an entry brought, as its head says.
#[derive(Drop)]
pub enum ReadContent {
    /// So many rows.
    Post(u32),
    /// A commitment.
    Commit(Commitment),
    /// A policy.
    SetPolicy(Policy),
    /// The number of a post of the same sender, which is withdrawn.
    Withdraw(u64),
    /// A purchase that is added to a commitment.
    AddPurchase(AddedPurchase),
}

impl ReadContent {
    /// What a state keeps of it.
    pub fn kept(self, alloc: Global) -> Result<Content, AllocError>
        ensures { IfOk result (λ content. stored.content_view content ≡ content_view self) }
    {
        match self {
            ReadContent::Post(rows) => Ok(Content::Post { rows }),
            ReadContent::Commit(commitment) => Ok(Content::Commit(commitment)),
            ReadContent::SetPolicy(policy) => Ok(Content::SetPolicy(Arc::new(alloc, policy)?)),
            ReadContent::Withdraw(target) => Ok(Content::Withdraw(target)),
            ReadContent::AddPurchase(added) => Ok(Content::AddPurchase(added)),
        }
    }
}

/// The head of an entry, as it was read.
#[derive(Drop)]
pub struct ReadHead {
    pub origin: String,
    pub seq: u64,
    pub content: ReadContent,
}

impl ReadHead {
    /// How many rows the entry has: at most 4,096.
    pub fn rows(&self) -> usize
        requires { IsHead (head_view self.now) }
        ensures count { result ≡ row_count (content_view self.now.content) }
        ensures few { result ≤ most_post_rows }
    {
        match &self.content {
            ReadContent::Post(count) => *count as usize,
            _ => 0,
        }
    }

    /// How many bytes the head is written in.
    #[tactic(auto, unfolding(crate::specs::Heads::head, crate::specs::Heads::content, crate::specs::Heads::brought))]
    pub fn encoded_len(&self) -> usize
        requires { IsHead (head_view self.now) }
        ensures { result ≡ length (head (head_view self.now)) }
    {
        let content = match &self.content {
            ReadContent::Post(_) => 4,
            ReadContent::Commit(commitment) => commitment_len(commitment),
            ReadContent::SetPolicy(policy) => policy_len(policy),
            ReadContent::Withdraw(_) => 8,
            ReadContent::AddPurchase(added) => added_len(added),
        };
        4 + self.origin.len() + 8 + 1 + content
    }
}

/// How many rows a post has.
#[tactic(auto, unfolding(crate::specs::Heads::post_count_at, fw_bytes::specs::Reading::checked))]
fn post_count_of(bytes: &[u8]) -> Result<(u32, &[u8]), ReadError>
    ensures { Gives (λ x. (x.0, x.1.now)) result (post_count_at bytes.now) }
{
    let (count, rest) = u32_at(bytes)?;
    if count == 0 || count > MOST_POST_ROWS as u32 {
        return Err(ReadError::Corrupt(bytes.len()));
    }
    Ok((count, rest))
}

/// What an entry of this kind brought.
#[tactic(auto, unfolding(crate::specs::Heads::brought_at, fw_bytes::specs::Reading::seen))]
fn brought_of(
    alloc: Global,
    kind: CommandKind,
    bytes: &[u8],
) -> Result<(ReadContent, &[u8]), ReadError>
    ensures { Gives (λ x. (content_view x.0, x.1.now)) result (brought_at kind bytes.now) }
{
    match kind {
        CommandKind::Post => {
            let (count, rest) = post_count_of(bytes)?;
            Ok((ReadContent::Post(count), rest))
        }
        CommandKind::Commit => match commitment_of(alloc, bytes) {
            Ok((commitment, rest)) => Ok((ReadContent::Commit(commitment), rest)),
            Err(e) => Err(e),
        },
        CommandKind::SetPolicy => match policy_of(alloc, bytes) {
            Ok((policy, rest)) => Ok((ReadContent::SetPolicy(policy), rest)),
            Err(e) => Err(e),
        },
        CommandKind::Withdraw => match u64_at(bytes) {
            Ok((target, rest)) => Ok((ReadContent::Withdraw(target), rest)),
            Err(e) => Err(e),
        },
        CommandKind::AddPurchase => match added_of(alloc, bytes) {
            Ok((added, rest)) => Ok((ReadContent::AddPurchase(added), rest)),
            Err(e) => Err(e),
        },
    }
}

/// What an entry brought: its kind, which the form has, and what an entry of this kind brings.
#[tactic(auto, unfolding(crate::specs::Heads::content_at, fw_terms_bytes::specs::Reading::of_kind))]
fn content_of(alloc: Global, form: Form, bytes: &[u8]) -> Result<(ReadContent, &[u8]), ReadError>
    ensures { Gives (λ x. (content_view x.0, x.1.now)) result (content_at form bytes.now) }
{
    let (kind, rest) = kind_of(form, bytes)?;
    brought_of(alloc, kind, rest)
}

/// A head, and the bytes after it.
#[tactic(auto, unfolding(crate::specs::Heads::head_at, crate::specs::Heads::head_fields_at, fw_bytes::specs::Reading::seen, fw_bytes::specs::Reading::both))]
fn head_of(alloc: Global, form: Form, bytes: &[u8]) -> Result<(ReadHead, &[u8]), ReadError>
    ensures { Gives (λ x. (head_view x.0, x.1.now)) result (head_at form bytes.now) }
{
    let (origin, rest) = origin_of(alloc, bytes)?;
    let (seq, rest) = seq_of(rest)?;
    match content_of(alloc, form, rest) {
        Ok((content, rest)) => Ok((
            ReadHead {
                origin,
                seq,
                content,
            },
            rest,
        )),
        Err(e) => Err(e),
    }
}

/// So many heads. Memory is taken as each head is read, not for the count.
fn heads_after(
    alloc: Global,
    form: Form,
    count: u64,
    bytes: &[u8],
) -> Result<(Vec<ReadHead>, &[u8]), ReadError>
    ensures { Gives (λ x. (map head_view x.0.items, x.1.now)) result
        (times (head_at form) count bytes.now) }
{
    let mut heads = Vec::new(alloc);
    let mut rest = bytes;
    for _ in 0..count {
        match head_of(alloc, form, rest) {
            Ok((head, after)) => {
                heads.push(head)?;
                rest = after;
            }
            Err(e) => return Err(e),
        }
    }
    Ok((heads, rest))
}

/// The heads behind their number.
#[tactic(auto, unfolding(crate::specs::Heads::heads_at))]
pub fn heads_of(
    alloc: Global,
    form: Form,
    bytes: &[u8],
) -> Result<(Vec<ReadHead>, &[u8]), ReadError>
    ensures { Gives (λ x. (map head_view x.0.items, x.1.now)) result (heads_at form bytes.now) }
{
    let (count, rest) = u64_at(bytes)?;
    heads_after(alloc, form, count, rest)
}

/// Writes what an entry brought: its kind, and what an entry of this kind brings.
#[tactic(auto, unfolding(crate::specs::Heads::content, crate::specs::Heads::brought))]
fn put_content(out: &mut Vec<u8>, one: &Content) -> Result<(), AllocError>
    ensures { OnOk result (out.new.items ≡ out.old.items ++ content (stored.content_view one.now)) }
{
    match one {
        Content::Post { rows } => {
            put_byte(out, CommandKind::Post.code())?;
            put_u32(out, *rows)
        }
        Content::Commit(commitment) => {
            put_byte(out, CommandKind::Commit.code())?;
            put_commitment(out, commitment)
        }
        Content::SetPolicy(policy) => {
            put_byte(out, CommandKind::SetPolicy.code())?;
            put_policy(out, policy)
        }
        Content::Withdraw(target) => {
            put_byte(out, CommandKind::Withdraw.code())?;
            put_u64(out, *target)
        }
        Content::AddPurchase(added) => {
            put_byte(out, CommandKind::AddPurchase.code())?;
            put_added(out, added)
        }
    }
}

/// Writes a head at the end of the buffer.
#[tactic(auto, unfolding(crate::specs::Heads::head))]
pub fn put_head(out: &mut Vec<u8>, one: &Head) -> Result<(), AllocError>
    requires { length one.now.origin < 2 ^ 32 }
    ensures { OnOk result (out.new.items ≡ out.old.items ++ head one.now) }
{
    put_text(out, one.origin())?;
    put_u64(out, one.seq())?;
    put_content(out, one.content())
}
