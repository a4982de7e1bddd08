//! The parts of a state, and what each of them is after a command.
ghost use Rattle.std.specs.Prelude.{◌≡◌, ◌<◌, ◌≤◌, ◌+◌, ◌++◌, ◌∷◌, [], ◌&&◌, ℕ, List, false, length, map, nat_le, true, take, drop, replicate, slice_range, option_map, string_bytes, IfOk, IfSome, if◌then◌else◌};
ghost use Rattle.std.specs.List.{list_any};
ghost use Rattle.std.specs.Str.{bytes_eq};
ghost use Rattle.std.specs.Option.{option_copied, option_to_list};
ghost use Rattle.fw_entry.specs.View.{command_view};
ghost use Rattle.fw_persistent.specs.Counts.{count_of};
ghost use Rattle.fw_posted.specs.Marks.{without};
ghost use Rattle.fw_posted.specs.Rows.{segment_rows};
ghost use Rattle.fw_charge.specs.Charge.{most_post_rows};
ghost use Rattle.fw_snapshot.specs.Building.{rows_before, IsInside};
ghost use Rattle.fw_snapshot.specs.Heads.{command_of, content_of};
ghost use Rattle.fw_snapshot.specs.Posts.{counts_after, times_named};
ghost use Rattle.fw_snapshot.specs.HeadView.{content_view};
ghost use Rattle.fw_snapshot.specs.History.{posted, committed, policy_after};
ghost use Rattle.fw_snapshot.specs.Adding.{commitments_after, with_added_purchase, NoneRefuses};
ghost use Rattle.fw_snapshot.specs.Judging.{carries, has_id, refuses};
ghost use Rattle.fw_snapshot.specs.Uses.{commitments_with};
ghost use Rattle.fw_snapshot.specs.Held.{held_commitments, held_policy, held_rows};
ghost use Rattle.fw_row_table.specs.Table.{most_column_rows};

use crate::head::Content;
use crate::places::{Place, Run, next_run};
use crate::posts::Span;
use fw_columns::{Columns, LentRow};
use fw_entry::Command;
use fw_persistent::{Counters, Sequence};
use fw_posted::PostedRows;
use fw_terms::{AddedPurchase, Commitment, Policy};
use std::alloc::{AllocError, Global};
use std::sync::Arc;

/// The rows that a command posts, if it posts any.
pub(crate) fn posted(command: &Command) -> Option<&Columns>
    ensures { held_rows (option_copied result) ≡ posted (command_view command.now) }
{
    match command {
        Command::Post(rows) => Some(rows),
        Command::Commit(_)
        | Command::SetPolicy(_)
        | Command::Withdraw(_)
        | Command::AddPurchase(_) => None,
    }
}

/// How many rows there are.
pub(crate) fn row_count(rows: Option<&Columns>) -> usize
    ensures { result ≡ length (held_rows (option_copied rows.entry)) }
{
    match rows {
        Some(rows) => rows.len(),
        None => 0,
    }
}

/// The commitment that a command is, if it is one.
pub(crate) fn committed(command: &Command) -> Option<&Commitment>
    ensures { option_to_list (option_copied result) ≡ committed (command_view command.now) }
{
    match command {
        Command::Commit(commitment) => Some(commitment),
        Command::Post(_) | Command::SetPolicy(_) | Command::Withdraw(_) | Command::AddPurchase(_) =>
            None,
    }
}

/// What the head of a command keeps of it.
pub(crate) fn content_of(alloc: Global, command: &Command) -> Result<Content, AllocError>
    requires { length (posted (command_view command.now)) ≤ most_column_rows }
    ensures { IfOk result (λ content. content_view content
        ≡ content_of (command_view command.now)) }
{
    match command {
        Command::Post(rows) => Ok(Content::Post {
            rows: rows.len() as u32,
        }),
        Command::Commit(commitment) => Ok(Content::Commit(commitment.copy()?)),
        Command::SetPolicy(policy) => Ok(Content::SetPolicy(Arc::new(alloc, policy.copy(alloc)?)?)),
        Command::Withdraw(seq) => Ok(Content::Withdraw(*seq)),
        Command::AddPurchase(added) => Ok(Content::AddPurchase(added.copy(alloc)?)),
    }
}

/// The text that is kept already and equals this one, for all to share, or a new one where none is kept.
pub(crate) fn shared_text(
    alloc: Global,
    kept: Option<&Arc<String>>,
    text: &str,
) -> Result<Arc<String>, AllocError>
    requires { IfSome kept (λ same. string_bytes same.now.value ≡ text.now) }
    ensures { IfOk result (λ shared. string_bytes shared.value ≡ text.now) }
{
    match kept {
        Some(shared) => Arc::try_clone(shared),
        None => Ok(Arc::new(alloc, String::from_str(alloc, text)?)?),
    }
}

/// The rows after a command: these behind the others, if it posts any, or those of a span taken away, if it withdraws them.
pub(crate) fn posted_after(
    alloc: Global,
    posted: &PostedRows,
    rows: Option<&Columns>,
    named: Option<Span>,
) -> Result<PostedRows, AllocError>
    requires no_rows { IfSome named (λ _. held_rows (option_copied rows) ≡ []) }
    requires within { IfSome named (λ span. span.start + span.rows ≤ length posted.now.counts) }
    requires some { IfSome named (λ span. 0 < span.rows) }
    requires counting { IfSome named (λ span. take span.rows (drop span.start posted.now.counts)
        ≡ replicate span.rows true) }
    ensures rows { IfOk result (λ after. segment_rows after.segments
        ≡ segment_rows posted.now.segments ++ held_rows (option_copied rows.entry)) }
    ensures counts { IfOk result (λ after. after.counts
        ≡ counts_after named (length (held_rows (option_copied rows.entry))) posted.now.counts) }
{
    match named {
        Some(span) => posted.without(alloc, span.start, span.rows),
        None => posted_with(alloc, posted, rows),
    }
}

/// The rows with these behind them, if there are any.
fn posted_with(
    alloc: Global,
    posted: &PostedRows,
    rows: Option<&Columns>,
) -> Result<PostedRows, AllocError>
    ensures rows { IfOk result (λ after. segment_rows after.segments
        ≡ segment_rows posted.now.segments ++ held_rows (option_copied rows.entry)) }
    ensures counts { IfOk result (λ after. after.counts
        ≡ posted.now.counts ++ replicate (length (held_rows (option_copied rows.entry))) true) }
{
    match rows {
        Some(rows) => posted.push(alloc, rows),
        None => posted.copy(),
    }
}

/// How many withdrawn posts have a row that carries each id, with the post of this span more, if one is withdrawn.
pub(crate) fn withdrawn_after(
    alloc: Global,
    withdrawn: &Counters,
    posted: &PostedRows,
    named: Option<Span>,
) -> Result<Counters, AllocError>
    requires within { IfSome named (λ span. span.start + span.rows
        ≤ length (segment_rows posted.now.segments)) }
    requires some { IfSome named (λ span. 0 < span.rows) }
    requires few { IfSome named (λ span. span.rows ≤ most_post_rows) }
    ensures { IfOk result (λ after. (id : List ℕ)
        → count_of id after ≡ count_of id withdrawn.now
        + times_named id named (segment_rows posted.now.segments)) }
{
    let Some(span) = named else {
        return withdrawn.copy();
    };
    let (segment, row) = posted.find(span.start);
    let place = Place { segment, row };
    carried_by(alloc, withdrawn, posted.segments(), place, span.rows)
}

/// The counts with one post more, of so many rows behind a place.
fn carried_by(
    alloc: Global,
    before: &Counters,
    segments: &Sequence<Columns>,
    start: Place,
    count: usize,
) -> Result<Counters, AllocError>
    requires enough { rows_before segments.now start + count ≤ length (segment_rows segments.now) }
    requires inside { IsInside segments.now start }
    ensures { IfOk result (λ after. (id : List ℕ)
        → count_of id after ≡ count_of id before.now
        + (if carries id (take count
        (drop (rows_before segments.now start) (segment_rows segments.now))) then 1 else 0)) }
{
    let mut after = before.copy()?;
    let mut place = start;
    let mut done = 0;
    while done < count {
        let run = next_run(segments, place, count - done);
        let columns = segments.get(run.segment);
        after = carried_with_run(alloc, before, &after, columns, run)?;
        place = Place {
            segment: run.segment,
            row: run.end,
        };
        done += run.end - run.first;
    }
    Ok(after)
}

/// The commitments of a list that is there once there is one.
pub(crate) fn commitments_in(list: &Option<Arc<Vec<Commitment>>>) -> &[Commitment]
    ensures { result.now ≡ held_commitments list.now }
{
    match list {
        Some(list) => list.as_slice(),
        None => &[],
    }
}

/// The commitments after a command of this content: one more behind them, or one of them with a purchase more, which it takes.
pub(crate) fn commitments_after(
    alloc: Global,
    list: &Option<Arc<Vec<Commitment>>>,
    content: &Content,
) -> Result<Option<Arc<Vec<Commitment>>>, AllocError>
    requires { NoneRefuses (held_commitments list.now) (command_of (content_view content.now) []) }
    ensures { IfOk result (λ after. held_commitments after
        ≡ commitments_after (held_commitments list.now)
        (command_of (content_view content.now) [])) }
{
    match content {
        Content::Commit(more) => {
            let all = with_one_more(alloc, commitments_in(list), more)?;
            Ok(Some(Arc::new(alloc, all)?))
        }
        Content::AddPurchase(added) => {
            let all = with_purchase_more(alloc, commitments_in(list), added)?;
            Ok(Some(Arc::new(alloc, all)?))
        }
        Content::Post { .. } | Content::SetPolicy(_) | Content::Withdraw(_) => share_list(list),
    }
}

/// The same list, shared.
pub(crate) fn share_list(
    list: &Option<Arc<Vec<Commitment>>>,
) -> Result<Option<Arc<Vec<Commitment>>>, AllocError>
    ensures { IfOk result (λ same. held_commitments same ≡ held_commitments list.now) }
{
    match list {
        Some(list) => Ok(Some(Arc::try_clone(list)?)),
        None => Ok(None),
    }
}

/// Equal commitments, and one more.
fn with_one_more(
    alloc: Global,
    commitments: &[Commitment],
    more: &Commitment,
) -> Result<Vec<Commitment>, AllocError>
    ensures { IfOk result (λ all. all.items ≡ commitments.now ++ more.now ∷ []) }
{
    let mut all = Vec::with_capacity(alloc, commitments.len().saturating_add(1))?;
    for commitment in commitments {
        all.push(commitment.copy()?)?;
    }
    all.push(more.copy()?)?;
    Ok(all)
}

/// The same commitments, of which the one that is meant has this purchase more. The others are shared.
fn with_purchase_more(
    alloc: Global,
    commitments: &[Commitment],
    added: &AddedPurchase,
) -> Result<Vec<Commitment>, AllocError>
    requires { list_any (refuses added.now) commitments.now ≡ false }
    ensures { IfOk result (λ all. all.items ≡ map (with_added_purchase added.now) commitments.now) }
{
    let mut all = Vec::with_capacity(alloc, commitments.len())?;
    for commitment in commitments {
        all.push(with_purchase_if_meant(alloc, commitment, added)?)?;
    }
    Ok(all)
}

/// A commitment with this purchase more, where it is the one that is meant, and else the same, shared.
fn with_purchase_if_meant(
    alloc: Global,
    commitment: &Commitment,
    added: &AddedPurchase,
) -> Result<Commitment, AllocError>
    requires { refuses added.now commitment.now ≡ false }
    ensures { IfOk result (λ c. c ≡ with_added_purchase added.now commitment.now) }
{
    if added.id() != commitment.id() {
        return commitment.copy();
    }
    commitment.with_purchase(alloc, added.purchase().copy())
}

/// The policy that holds after a command of this content.
pub(crate) fn policy_after(
    policy: &Option<Arc<Policy>>,
    content: &Content,
) -> Result<Option<Arc<Policy>>, AllocError>
    ensures { IfOk result (λ after. held_policy after
        ≡ policy_after (held_policy policy.now) (command_of (content_view content.now) [])) }
{
    match content {
        Content::SetPolicy(policy) => Ok(Some(Arc::try_clone(policy)?)),
        Content::Post { .. }
        | Content::Commit(_)
        | Content::Withdraw(_)
        | Content::AddPurchase(_) => share_policy(policy),
    }
}

/// The same policy, shared.
pub(crate) fn share_policy(policy: &Option<Arc<Policy>>) -> Result<Option<Arc<Policy>>, AllocError>
    ensures { IfOk result (λ same. held_policy same ≡ held_policy policy.now) }
{
    match policy {
        Some(policy) => Ok(Some(Arc::try_clone(policy)?)),
        None => Ok(None),
    }
}

/// How many commitments have each id, with one commitment more, if there is one more.
pub(crate) fn registered_after(
    alloc: Global,
    registered: &Counters,
    more: Option<&Commitment>,
) -> Result<Counters, AllocError>
    ensures { IfOk result (λ after. (id : List ℕ)
        → count_of id after ≡ count_of id registered.now
        + commitments_with id (option_to_list (option_copied more.entry))) }
{
    match more {
        Some(more) => counted(alloc, registered, more.id()),
        None => registered.copy(),
    }
}

/// How many posts have a row that carries each id, with one post of these rows more, if there are any.
pub(crate) fn carried_after(
    alloc: Global,
    carried: &Counters,
    rows: Option<&Columns>,
) -> Result<Counters, AllocError>
    ensures { IfOk result (λ after. (id : List ℕ)
        → count_of id after ≡ count_of id carried.now
        + (if carries id (held_rows (option_copied rows.entry)) then 1 else 0)) }
{
    match rows {
        Some(rows) => carried_with_rows(alloc, carried, rows),
        None => carried_without_rows(carried),
    }
}

/// The same counts: no row carries an id.
fn carried_without_rows(carried: &Counters) -> Result<Counters, AllocError>
    ensures { IfOk result (λ after. (id : List ℕ)
        → count_of id after ≡ count_of id carried.now + (if carries id [] then 1 else 0)) }
{
    let after = carried.copy()?;
    Ok(after)
}

/// How many posts have a row that carries each id, with one post of these rows more.
fn carried_with_rows(
    alloc: Global,
    carried: &Counters,
    rows: &Columns,
) -> Result<Counters, AllocError>
    ensures { IfOk result (λ after. (id : List ℕ)
        → count_of id after ≡ count_of id carried.now + (if carries id rows.now then 1 else 0)) }
{
    let run = Run {
        segment: 0,
        first: 0,
        end: rows.len(),
    };
    let after = carried_with_run(alloc, carried, carried, rows, run)?;
    Ok(after)
}

/// The counts `after`, in which a post is counted for the ids of some of its rows, with the post counted for the ids of the
/// rows of a run too, whose segment is given. Where a count is above the one `before` the post, an earlier row has counted
/// the post for this id.
pub(crate) fn carried_with_run(
    alloc: Global,
    before: &Counters,
    after: &Counters,
    columns: &Columns,
    run: Run,
) -> Result<Counters, AllocError>
    requires order { run.first ≤ run.end }
    requires within { run.end ≤ length columns.now }
    requires above { (id : List ℕ) → count_of id before.now ≤ count_of id after.now }
    ensures { IfOk result (λ next. (id : List ℕ)
        → count_of id next ≡ count_of id after.now
        + (if carries id (slice_range columns.now run.first run.end) && nat_le
        (count_of id after.now) (count_of id before.now) then 1 else 0)) }
{
    let discounts = columns.discount_codes();
    let mut next = after.copy()?;
    for place in run.first..run.end {
        if discounts[place] != 0 {
            let row = columns.lent(place);
            next = carried_with(alloc, before, &next, &row)?;
        }
    }
    Ok(next)
}

/// The counts `after`, in which a post is counted for the ids of some of its rows, with the post counted for the id of
/// this row too. Where the count is above the one `before` the post, an earlier row has counted the post for this id.
fn carried_with(
    alloc: Global,
    before: &Counters,
    after: &Counters,
    row: &LentRow<'_>,
) -> Result<Counters, AllocError>
    ensures { IfOk result (λ next. (id : List ℕ)
        → count_of id next ≡ count_of id after.now
        + (if has_id id row.now && nat_le (count_of id after.now) (count_of id before.now) then 1
        else 0)) }
{
    match row.discount() {
        Some(discount) => counted_unless_above(alloc, before, after, discount.id),
        None => after.copy(),
    }
}

/// The counts `after` with an id counted once more, unless its count is above the one `before`.
fn counted_unless_above(
    alloc: Global,
    before: &Counters,
    after: &Counters,
    id: &str,
) -> Result<Counters, AllocError>
    ensures { IfOk result (λ next. (other : List ℕ)
        → count_of other next ≡ count_of other after.now
        + (if bytes_eq other id.now && nat_le (count_of other after.now) (count_of other before.now)
        then 1 else 0)) }
{
    if after.count(id) > before.count(id) {
        return after.copy();
    }
    counted(alloc, after, id)
}

/// The counts with an id counted once more.
fn counted(alloc: Global, counts: &Counters, id: &str) -> Result<Counters, AllocError>
    ensures { IfOk result (λ after. (other : List ℕ)
        → count_of other after ≡ count_of other counts.now
        + (if bytes_eq other id.now then 1 else 0)) }
{
    let text = shared_text(alloc, counts.key(id), id)?;
    counts.raised(alloc, &text)
}
