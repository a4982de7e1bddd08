//! The posts of an origin, kept with their rows.
ghost use Rattle.std.specs.Prelude.{◌≡◌, ◌↔◌, IfOk, IsTrue, MatchBool, MatchOption};
ghost use Rattle.fw_replace.specs.Own.{own_value, HasNumbered, IsNumbered, NoneNumbered};

use crate::posts::{Post, has_rows, posts_of};
use fw_columns::Columns;
use fw_snapshot::State;
use fw_stored_rows::StoredRows;
use std::alloc::{AllocError, Global};
use std::marker::Model;

/// The posts of an origin that count, and their rows, as they were in the state that this was made of, with which it shares the rows. A contract
/// sees the posts, and the rows of the warehouse.
pub struct OwnPosts {
    posts: Vec<Post>,
    rows: StoredRows,
    // the place of the next post, where they are asked for in turn. Only time depends on it
    next: usize,
}

impl Drop for OwnPosts {
    fn drop(self) {
        let Self {
            posts: _,
            rows: _,
            next: _,
        } = self;
    }
}

impl Model for OwnPosts {
    ghost use Rattle.fw_replace.specs.Own.{OwnValue};

    ghost Value = { OwnValue };

    ghost use Rattle.fw_replace.specs.OwnView.{own_view};

    ghost view = { own_view };
}

impl OwnPosts {
    /// The posts of an origin. It reads the heads of all entries, and no row. The error comes where memory ran out, and where what is shared has
    /// as many owners as can be counted.
    pub fn of(alloc: Global, state: &State, origin: &str) -> Result<OwnPosts, AllocError>
        ensures { IfOk result (λ own. own ≡ own_value origin.now state.now.entries) }
    {
        let posts = posts_of(alloc, state, origin)?;
        let rows = StoredRows::of(alloc, state.segments())?;
        Ok(OwnPosts {
            posts,
            rows,
            next: 0,
        })
    }

    /// Whether a post has this number and the rows of a part. Where posts are asked for in the order of their numbers, no other post is looked
    /// at, and each of their rows is read once.
    pub fn has(&mut self, number: u64, part: &Columns) -> bool
        ensures has { MatchBool result
            (HasNumbered self.old.rows number part.now self.old.posts)
            (NoneNumbered self.old.rows number part.now self.old.posts) }
        ensures same { self.new ≡ self.old }
    {
        let posts = self.posts.as_slice();
        match place_of(&self.rows, posts, self.next, number, part) {
            Some(place) => {
                self.next = place.saturating_add(1);
                true
            }
            None => false,
        }
    }
}

// The place of the post of a number with the rows of a part. First the one is asked that may be it.
fn place_of(
    rows: &StoredRows,
    posts: &[Post],
    guess: usize,
    number: u64,
    part: &Columns,
) -> Option<usize>
    ensures { MatchOption result
        (NoneNumbered rows.now number part.now posts.now)
        (λ _. HasNumbered rows.now number part.now posts.now) }
{
    if guess < posts.len() && is_numbered(rows, &posts[guess], number, part) {
        return Some(guess);
    }
    for place in 0..posts.len() {
        if is_numbered(rows, &posts[place], number, part) {
            return Some(place);
        }
    }
    None
}

// Whether a post has this number and the rows of a part.
fn is_numbered(rows: &StoredRows, post: &Post, number: u64, part: &Columns) -> bool
    ensures { IsTrue result ↔ IsNumbered rows.now number part.now post.now }
{
    post.number == number && has_rows(rows, post, part)
}
