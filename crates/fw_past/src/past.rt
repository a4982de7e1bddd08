//! The state of a warehouse after its first entries.
ghost use Rattle.std.specs.Prelude.{◌≡◌, ◌≤◌, [], IfOk, length, take};
ghost use Rattle.fw_past.specs.Past.{as_of};
ghost use Rattle.fw_posted.specs.Rows.{segment_rows};
ghost use Rattle.fw_snapshot.specs.HeadView.{content_view};
ghost use Rattle.fw_snapshot.specs.History.{rows_posted};

use crate::front::front_of;
use fw_entries::row_count;
use fw_snapshot::{Content, Snapshot, State, StateBuilder};
use std::alloc::{AllocError, Global};
use std::sync::Arc;

/// The warehouse as it was after so many entries: it had the first ones of those that it has now, or all where these are
/// fewer. Their rows stand in the segments of the warehouse, joined, and each entry is accepted again: it costs about what
/// opening a checkpoint with them costs. The one error is that memory ran out.
pub fn as_of(alloc: Global, state: &State, count: usize) -> Result<Snapshot, AllocError>
    ensures { IfOk result (λ past. past ≡ as_of count state.now) }
{
    let count = count.min(state.entries());
    let rows = rows_of_first(state, count);
    let joined = state.merged()?;
    let segments = front_of(alloc, joined.segments(), rows)?;
    let builder = StateBuilder::new(alloc, state.currency(), segments)?;
    let past = accepted_again(alloc, builder, state, count)?;
    Snapshot::settled(&past)
}

// How many rows the first entries posted.
fn rows_of_first(state: &State, count: usize) -> usize
    requires { count ≤ length state.now.entries }
    ensures { result ≡ length (rows_posted (take count state.now.entries)) }
{
    // Proves that there are few.
    let _all = state.rows_posted();
    let mut rows = 0;
    for place in 0..count {
        rows += row_count(state.head(place).content());
    }
    rows
}

// The state of the first entries of another one, by a builder that has their rows and no entry yet.
fn accepted_again(
    alloc: Global,
    builder: StateBuilder,
    state: &State,
    count: usize,
) -> Result<State, AllocError>
    requires within { count ≤ length state.now.entries }
    requires history { builder.history ≡ as_of 0 state.now }
    requires taken { builder.taken ≡ 0 }
    requires rows { segment_rows builder.segments ≡ rows_posted (take count state.now.entries) }
    ensures { IfOk result (λ past. past ≡ as_of count state.now) }
{
    // Proves that each entry keeps its limits, and was accepted after those before it.
    let _entries = state.entries();
    let mut builder = builder;
    for place in 0..count {
        let head = state.head(place);
        let content = copy_of(alloc, head.content())?;
        let _added = builder.add(head.origin(), head.seq(), content)?;
    }
    builder.finish()
}

// What an entry brought, once more. A policy is shared.
fn copy_of(alloc: Global, content: &Content) -> Result<Content, AllocError>
    ensures { IfOk result (λ copy. content_view copy ≡ content_view content.now) }
{
    match content {
        Content::Post { rows } => Ok(Content::Post { rows: *rows }),
        Content::Commit(commitment) => Ok(Content::Commit(commitment.copy()?)),
        Content::SetPolicy(policy) => Ok(Content::SetPolicy(Arc::try_clone(policy)?)),
        Content::Withdraw(seq) => Ok(Content::Withdraw(*seq)),
        Content::AddPurchase(added) => Ok(Content::AddPurchase(added.copy(alloc)?)),
    }
}
