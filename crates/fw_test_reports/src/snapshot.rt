//! What a state holds, and that it stays as it was.
use crate::ended::check;
use crate::warehouse::{added, committed, empty, posted, ruled, shared, withdrawn};
use fw_snapshot::{Snapshot, State};
use std::alloc::{AllocError, Global};

/// A use in the first hour of 1970 that carries the id of a commitment.
const OF_RI: &str = "5e-9,7e-9,USD,Usage,,1970-01-01T00:00Z,1970-01-01T01:00Z,ri,Usage,Used,,,,,\n";

/// Another.
const OF_SP: &str = "5e-9,7e-9,USD,Usage,,1970-01-01T00:00Z,1970-01-01T01:00Z,sp,Usage,Used,,,,,\n";

/// A commitment of that hour.
const COMMITMENT: &str = "id = 'cd'
category = 'Usage'
start = '1970-01-01T00:00Z'
hours = 1
capacity = '1'
unit = 'Hours'
skus = ['vm']
[[purchase]]
at = '1970-01-01T00:00Z'
billed = '0.000000024'
";

/// A purchase that is added to it.
const PURCHASE: &str = "id = 'cd'
at = '1970-01-01T00:30Z'
billed = '0.000000006'
";

/// How many entries, rows, segments and commitments a state has, and whether a policy holds.
type Counts = (usize, usize, usize, usize, bool);

/// Those after a post, a commitment, a policy and another post.
const OF_FOUR: Counts = (4, 2, 2, 1, true);

/// Those after one more post.
const OF_FIVE: Counts = (5, 3, 3, 1, true);

/// The warehouse after a post and a commitment.
fn two(alloc: Global) -> Result<Snapshot, AllocError> {
    let one = posted(alloc, &empty(alloc)?, "a", 1, OF_RI)?;
    committed(alloc, &one, "b", 1, COMMITMENT)
}

/// The warehouse after a policy and another post, too.
fn four(alloc: Global) -> Result<Snapshot, AllocError> {
    let three = ruled(alloc, &two(alloc)?, "a", 2, "key = 'team'")?;
    posted(alloc, &three, "a", 3, OF_SP)
}

/// Whether a state has these counts.
fn has(state: &State, counts: Counts) -> bool {
    let found = (
        state.entries(),
        state.rows(),
        state.segments().len(),
        state.commitments(),
        state.policy().is_some(),
    );
    found == counts
}

/// Whether a state is in dollars, and its first commitment is `cd`.
fn has_commitment(state: &State) -> bool {
    state.commitments() > 0
        && (state.currency().code(), state.commitment(0).id()) == (b"USD".as_slice(), "cd")
}

/// Whether a state's third entry is the second of `a`.
fn has_third(state: &State) -> bool {
    if state.heads().len() < 3 {
        return false;
    }
    let head = state.head(2);
    (head.origin(), head.seq()) == ("a", 2)
}

/// Whether a state is the one after four entries.
fn is_four(state: &State) -> bool {
    has(state, OF_FOUR) && has_commitment(state) && has_third(state)
}

fn holds_four(alloc: Global) -> Result<bool, AllocError> {
    let four = four(alloc)?;
    Ok(is_four(four.state()))
}

#[test]
fn a_state_has_what_was_accepted(rt: HostRuntime) {
    check(&rt, holds_four(rt.alloc()));
}

/// A snapshot of a copy of a state.
fn copied(state: &State) -> Result<Snapshot, AllocError> {
    shared(state.copy()?)
}

/// Whether a copy of a state has one more post when it was sent.
fn copy_grows(alloc: Global, state: &State) -> Result<bool, AllocError> {
    let copy = copied(state)?;
    let newer = posted(alloc, &copy, "b", 2, OF_RI)?;
    Ok(is_four(copy.state()) && has(newer.state(), OF_FIVE))
}

/// Whether a state and one that is shared with it stay as they were then.
fn older_stay(alloc: Global) -> Result<bool, AllocError> {
    let older = four(alloc)?;
    let same = older.copy()?;
    let grows = copy_grows(alloc, older.state())?;
    Ok(grows && is_four(older.state()) && is_four(same.state()))
}

#[test]
fn an_older_state_and_a_shared_one_stay(rt: HostRuntime) {
    check(&rt, older_stay(rt.alloc()));
}

/// How many purchases the first commitment of a state has, and what they cost in nanos.
fn bought(state: &State) -> (usize, i64) {
    if state.commitments() == 0 {
        return (0, 0);
    }
    let commitment = state.commitment(0);
    (commitment.purchases().len(), commitment.cost().count())
}

/// Whether a commitment has the purchase that is added to it, and has it not before.
fn adds_a_purchase(alloc: Global) -> Result<bool, AllocError> {
    let before = two(alloc)?;
    let after = added(alloc, &before, "c", 1, PURCHASE)?;
    Ok(bought(before.state()) == (1, 24) && bought(after.state()) == (2, 30))
}

#[test]
fn a_purchase_is_added_to_its_commitment(rt: HostRuntime) {
    check(&rt, adds_a_purchase(rt.alloc()));
}

/// How many rows were posted to a state, how many count, how many segments have these, and whether the posts 1 and 2 of `a` are withdrawn.
type Withdrawn = (usize, usize, usize, bool, bool);

/// Those after two posts of a row each, of which the first one is withdrawn.
const FIRST_OF_TWO: Withdrawn = (2, 1, 1, true, false);

/// Those before that.
const NONE_OF_TWO: Withdrawn = (2, 2, 2, false, false);

/// Whether a state has these.
fn is_left(alloc: Global, state: &State, wanted: Withdrawn) -> Result<bool, AllocError> {
    let found = (
        state.rows_posted(),
        state.rows(),
        state.counting_segments(alloc)?.references(alloc)?.len(),
        state.is_withdrawn("a", 1),
        state.is_withdrawn("a", 2),
    );
    Ok(found == wanted)
}

/// Whether these are so of a state that is made for it.
fn is_left_of(alloc: Global, state: State) -> Result<bool, AllocError> {
    is_left(alloc, &state, FIRST_OF_TWO)
}

/// Whether these are so of a state, of a copy of it, of one whose columns are made, and of one whose rows are in few segments.
fn is_left_in_all(alloc: Global, state: &State) -> Result<bool, AllocError> {
    let mut all = is_left(alloc, state, FIRST_OF_TWO)?;
    all = is_left_of(alloc, state.copy()?)? && all;
    all = is_left_of(alloc, state.settled()?)? && all;
    all = is_left_of(alloc, state.merged()?)? && all;
    Ok(all)
}

/// Whether the rows of a post that is withdrawn count no more, and those of the state before still do.
fn counts_no_more(alloc: Global) -> Result<bool, AllocError> {
    let one = posted(alloc, &empty(alloc)?, "a", 1, OF_RI)?;
    let before = posted(alloc, &one, "a", 2, OF_SP)?;
    let after = withdrawn(alloc, &before, "a", 3, 1)?;
    let is_left_now = is_left_in_all(alloc, after.state())?;
    Ok(is_left_now && is_left(alloc, before.state(), NONE_OF_TWO)?)
}

#[test]
fn rows_of_a_withdrawn_post_count_no_more(rt: HostRuntime) {
    check(&rt, counts_no_more(rt.alloc()));
}
