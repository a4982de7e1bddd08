//! What the rows of a post come to, and in which hours they begin.
ghost use Rattle.std.specs.Prelude.{◌≡◌, ◌<◌, ◌≤◌, ◌^◌, nat_abs};
ghost use Rattle.fw_money.specs.Amount.{most_nanos};
ghost use Rattle.fw_replace.specs.Posts.{rows_at};
ghost use Rattle.fw_replace.specs.Summaries.{begins_in, reach_of, summary_of, summary_with};

use crate::posts::{Post, range_of};
use fw_charge::LAST_HOUR;
use fw_columns::LentRow;
use fw_stored_rows::StoredRows;

/// What the rows of a post come to.
#[derive(Clone, Copy, Drop)]
pub struct Summary {
    /// The first hour in which one of its rows begins, counted from 1970; the last hour of the year 9999 where there is no row.
    pub first_hour: u64,
    /// The last hour in which one of its rows begins; 0 where there is no row.
    pub last_hour: u64,
    /// The sum of BilledCost over its rows, in nanos.
    pub billed: i128,
}

/// Where the rows of a post stand to a range of hours. A row is in the range where its first second is.
#[derive(Clone, Copy, Drop, PartialEq, Eq)]
pub enum Reach {
    /// All rows are in the range.
    Inside,
    /// No row is in the range.
    Outside,
    /// Some rows are in the range, and some aren't.
    Across,
}

/// What the rows of a post come to. It reads each of them once.
pub fn summary_of(rows: &StoredRows, post: &Post) -> Summary
    ensures { result ≡ summary_of (rows_at rows.now post.now) }
{
    let (first, behind) = range_of(rows, post);
    let mut summary = Summary {
        first_hour: u64::from(LAST_HOUR),
        last_hour: 0,
        billed: 0,
    };
    for place in first..behind {
        summary = with_row(&summary, &rows.lent(place));
    }
    summary
}

// A summary with one more row.
fn with_row(summary: &Summary, row: &LentRow<'_>) -> Summary
    requires { nat_abs summary.now.billed < 2 ^ 126 }
    ensures value { result ≡ summary_with summary.now row.now }
    ensures amount { nat_abs row.now.billed ≤ most_nanos }
{
    let hour = u64::from(row.hour());
    Summary {
        first_hour: summary.first_hour.min(hour),
        last_hour: summary.last_hour.max(hour),
        billed: summary.billed + i128::from(row.billed().count()),
    }
}

/// Where the rows of a post stand to the hours from one on, up to and without another, both counted from 1970. It reads each row once.
pub fn reach_of(rows: &StoredRows, post: &Post, from: u64, to: u64) -> Reach
    ensures { result ≡ reach_of from to (rows_at rows.now post.now) }
{
    let (first, behind) = range_of(rows, post);
    let mut some_in = false;
    let mut all_in = true;
    for place in first..behind {
        let is_in = begins_in(&rows.lent(place), from, to);
        some_in |= is_in;
        all_in &= is_in;
    }
    match (some_in, all_in) {
        (false, _) => Reach::Outside,
        (true, true) => Reach::Inside,
        (true, false) => Reach::Across,
    }
}

// Whether a row is in a range of hours.
fn begins_in(row: &LentRow<'_>, from: u64, to: u64) -> bool
    ensures { result ≡ begins_in from to row.now }
{
    let hour = u64::from(row.hour());
    from <= hour && hour < to
}
