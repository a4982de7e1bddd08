//! The posts of an origin.
ghost use Rattle.std.specs.Prelude.{◌≡◌, [], IfOk, OnOk, map};
ghost use Rattle.fw_snapshot.specs.Heads.{head_of};
ghost use Rattle.fw_import.specs.Sending.{with_head, with_posts};

use fw_snapshot::{Content, Head, State};
use std::alloc::{AllocError, Global};

/// A post of an origin.
#[derive(Clone, Copy, Debug, Drop, PartialEq, Eq)]
pub struct Sent {
    /// Its number among the entries of the origin.
    pub number: u64,
    /// How many rows it has.
    pub rows: u64,
    /// Whether they count, which they do unless it was withdrawn.
    pub counts: bool,
}

/// The posts that were accepted from an origin, in order, with those that were withdrawn. It reads the heads of all entries.
pub fn posts_of(alloc: Global, state: &State, origin: &str) -> Result<Vec<Sent>, AllocError>
    ensures { IfOk result (λ posts. posts.items ≡
        with_posts state.now.entries origin.now (map head_of state.now.entries) []) }
{
    let mut posts = Vec::new(alloc);
    let heads = state.heads().references(alloc)?;
    push_posts(&mut posts, state, origin, heads.as_slice())?;
    Ok(posts)
}

// Adds the posts of an origin among heads.
fn push_posts(
    posts: &mut Vec<Sent>,
    state: &State,
    origin: &str,
    heads: &[&Head],
) -> Result<(), AllocError>
    ensures { OnOk result (posts.new.items ≡
        with_posts state.now.entries origin.now (map (λ h. h.now) heads.now) posts.old.items) }
{
    for head in heads {
        push_post(posts, state, origin, head)?;
    }
    Ok(())
}

// Adds an entry, if it is a post of the origin.
fn push_post(
    posts: &mut Vec<Sent>,
    state: &State,
    origin: &str,
    head: &Head,
) -> Result<(), AllocError>
    ensures { OnOk result (posts.new.items ≡
        with_head state.now.entries origin.now head.now posts.old.items) }
{
    if head.origin() != origin {
        return Ok(());
    }
    match head.content() {
        Content::Post { rows } => {
            posts.push(Sent {
                number: head.seq(),
                rows: u64::from(*rows),
                counts: !state.is_withdrawn(origin, head.seq()),
            })?;
            Ok(())
        }
        Content::Commit(_)
        | Content::SetPolicy(_)
        | Content::Withdraw(_)
        | Content::AddPurchase(_) => Ok(()),
    }
}
