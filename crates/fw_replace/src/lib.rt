//! Which posts of an origin stay and which go where its rows are sent again.
//!
//! [`posts_of`] finds the posts of an origin that count, and [`StoredRows`] lends the rows of a warehouse by their places. [`has_rows`] says
//! whether a post has the rows of a part, and [`OwnPosts`] whether the post of a number has. [`summary_of`] says what a post comes to, and
//! [`reach_of`] whether its rows begin in a range of hours. [`matched`] pairs the parts of an export with posts of equal rows: a post that is
//! paired stays, the others go, and a part that isn't paired is to be posted. Nothing here changes a warehouse.
#![tactic(auto)]

mod laws;
mod matching;
mod own;
mod posts;
mod summary;

pub use fw_stored_rows::StoredRows;
pub use laws::{
    matching_keeps_rows, own_posts_are_entries, posts_have_the_rows_that_count,
    replacing_leaves_the_parts,
};
pub use matching::{Matching, matched};
pub use own::OwnPosts;
pub use posts::{Post, has_rows, posts_of};
pub use summary::{Reach, Summary, reach_of, summary_of};
