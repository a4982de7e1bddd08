//! The posts of an origin.
ghost use Rattle.std.specs.Prelude.{◌≡◌, ◌≤◌, ◌-◌, ◌↔◌, All, IfOk, IsTrue, length, take, drop};
ghost use Rattle.fw_snapshot.specs.Heads.{row_count};
ghost use Rattle.fw_replace.specs.Posts.{IsOwnPost, posts_of, rows_at};

use fw_columns::Columns;
use fw_snapshot::{Content, Head, State};
use fw_stored_rows::StoredRows;
use std::alloc::{AllocError, Global};

/// A post of an origin: its number among the entries of the origin, and where its rows stand among all rows that were ever posted to the
/// warehouse, also by others and in posts that were withdrawn.
#[derive(Clone, Copy, Drop)]
pub struct Post {
    /// Its number among the entries of its origin.
    pub number: u64,
    /// How many rows were posted before its first one.
    pub start: usize,
    /// How many rows it has.
    pub rows: usize,
}

/// The posts of an origin that count, in the order in which they were sent: those that weren't withdrawn. It reads the heads of all entries,
/// and no row. The error comes where memory ran out.
pub fn posts_of(alloc: Global, state: &State, origin: &str) -> Result<Vec<Post>, AllocError>
    ensures posts { IfOk result (λ posts. posts.items ≡ posts_of origin.now state.now.entries) }
    ensures each { IfOk result (λ posts. All (IsOwnPost state.now.entries origin.now) posts.items) }
{
    // Says that there are few enough rows to count.
    let _all = state.rows_posted();
    let mut posts = Vec::new(alloc);
    let mut start = 0;
    for place in 0..state.entries() {
        let head = state.head(place);
        let rows = rows_in(head);
        if head.origin() == origin && rows > 0 && !state.is_withdrawn(origin, head.seq()) {
            let number = head.seq();
            posts.push(Post {
                number,
                start,
                rows,
            })?;
        }
        start += rows;
    }
    Ok(posts)
}

// How many rows an entry posted.
fn rows_in(head: &Head) -> usize
    ensures { result ≡ row_count head.now.content }
{
    match head.content() {
        Content::Post { rows } => *rows as usize,
        Content::Commit(_)
        | Content::SetPolicy(_)
        | Content::Withdraw(_)
        | Content::AddPurchase(_) => 0,
    }
}

/// Whether a post has the rows of a part, each in all its fields, and no other rows. It reads rows up to the first that differs.
pub fn has_rows(rows: &StoredRows, post: &Post, part: &Columns) -> bool
    ensures { IsTrue result ↔ (rows_at rows.now post.now ≡ part.now) }
{
    let (first, behind) = range_of(rows, post);
    behind - first == part.len() && rows.has_at(first, part)
}

/// The place of the first row of a post, and the place behind its last one, as far as there are rows.
pub(crate) fn range_of(rows: &StoredRows, post: &Post) -> (usize, usize)
    ensures order { result.0 ≤ result.1 }
    ensures within { result.1 ≤ length rows.now }
    ensures rows { take (result.1 - result.0) (drop result.0 rows.now)
        ≡ rows_at rows.now post.now }
{
    let len = rows.len();
    let first = post.start.min(len);
    let behind = first + post.rows.min(len - first);
    (first, behind)
}
