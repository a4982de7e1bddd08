//! Which posts have the rows of which parts.
ghost use Rattle.std.specs.Prelude.{◌≡◌, IfOk, MatchBool, MatchOption};
ghost use Rattle.fw_replace.specs.Matching.{AreMatched, HasFirst, IsTaken, NoneHas};

use crate::posts::{Post, has_rows};
use fw_columns::Columns;
use fw_stored_rows::StoredRows;
use std::alloc::{AllocError, Global};
use std::collections::VecDeque;

/// Which of the parts of an export are there, and which posts have the rows of no part.
pub struct Matching {
    /// For each part whether a post has its rows. One that is there needn't be posted.
    pub is_there: Vec<bool>,
    /// The posts that have the rows of no part, in order: those that go. The others stay.
    pub left: Vec<Post>,
}

impl Drop for Matching {
    fn drop(self) {
        let Self {
            is_there: _,
            left: _,
        } = self;
    }
}

/// Pairs parts with posts of equal rows: each part in turn takes the first post with its rows that no part before it took. Where the parts are
/// those that were posted, in their order, each row is read once. A post that a part has to pass over costs it one look at the number of its
/// rows, and one at its first row where the numbers agree. The error comes where memory ran out.
pub fn matched(
    alloc: Global,
    rows: &StoredRows,
    posts: &[Post],
    parts: &[Columns],
) -> Result<Matching, AllocError>
    ensures { IfOk result (λ m.
        AreMatched rows.now posts.now parts.now m.is_there.items m.left.items) }
{
    let mut left = VecDeque::from_vec(posts.to_vec(alloc)?);
    let mut is_there = Vec::with_capacity(alloc, parts.len())?;
    for part in parts {
        is_there.push(take_first(rows, &mut left, part))?;
    }
    Ok(Matching {
        is_there,
        left: left.into_vec(),
    })
}

// Takes out the first of the posts that has the rows of a part, and says whether there was one.
fn take_first(rows: &StoredRows, left: &mut VecDeque<Post>, part: &Columns) -> bool
    ensures { MatchBool result
        (IsTaken rows.now part.now left.old.items left.new.items)
        ((left.new.items ≡ left.old.items) × NoneHas rows.now part.now left.old.items) }
{
    match first_with(rows, left, part) {
        Some(place) => {
            let _taken = left.remove(place);
            true
        }
        None => false,
    }
}

// The place of the first of the posts that has the rows of a part.
fn first_with(rows: &StoredRows, posts: &VecDeque<Post>, part: &Columns) -> Option<usize>
    ensures { MatchOption result
        (NoneHas rows.now part.now posts.now.items)
        (HasFirst rows.now part.now posts.now.items) }
{
    for place in 0..posts.len() {
        if has_rows(rows, &posts[place], part) {
            return Some(place);
        }
    }
    None
}
