//! What a warehouse holds.
ghost use Rattle.std.specs.Prelude.{◌≡◌};
ghost use Rattle.fw_snapshot.specs.Judging.{most_commitments, most_rows};

use fw_calendar::hour_text;
use fw_charge::hour_of;
use fw_columns::Columns;
use fw_disk::Volume;
use fw_persistent::Sequence;
use fw_recover::Store;
use fw_snapshot::{Content, Head, State};
use fw_table::{Align, Line, count_text, table_text};
use indexmap::IndexMap;
use std::alloc::{AllocError, Global};

/// The columns of a status: a name, and what it is.
const ALIGNS: [Align; 2] = [Align::Left, Align::Left];

/// What a warehouse holds, as lines of a name and a value: its currency, its entries by origin, its rows that count, what was withdrawn, the hours
/// that the rows are of, its commitments (and how many of both a warehouse may have), its policy, how long its body and its log are, and whether
/// a checkpoint pays.
pub(crate) fn status_text<V: Volume>(
    alloc: Global,
    store: &Store<V>,
) -> Result<String, AllocError> {
    let mut lines = Vec::new(alloc);
    push_contents(alloc, &mut lines, store.state().state())?;
    push_sizes(alloc, &mut lines, store)?;
    table_text(alloc, &ALIGNS, lines.as_slice())
}

/// What a warehouse holds, without the lines of its files.
pub(crate) fn contents_text(alloc: Global, state: &State) -> Result<String, AllocError> {
    let mut lines = Vec::new(alloc);
    push_contents(alloc, &mut lines, state)?;
    table_text(alloc, &ALIGNS, lines.as_slice())
}

/// The status of a warehouse that was opened, which has read and judged all of it: its files are sound.
pub(crate) fn sound_text<V: Volume>(alloc: Global, store: &Store<V>) -> Result<String, AllocError> {
    let status = status_text(alloc, store)?;
    format!(in alloc; "sound\n{status}")
}

// Adds the lines of what was accepted.
fn push_contents(alloc: Global, lines: &mut Vec<Line>, state: &State) -> Result<(), AllocError> {
    let currency = state.currency();
    let code = str::from_utf8(currency.code()).unwrap_or("");
    push(alloc, lines, "Currency", String::from_str(alloc, code)?)?;
    push_count(alloc, lines, "Entries", state.entries() as u64)?;
    push_origins(alloc, lines, state.heads())?;
    push_rows(alloc, lines, state)?;
    let counting = state.counting_segments(alloc)?;
    let segments = counting.references(alloc)?;
    push_hours(alloc, lines, segments.as_slice())?;
    push_part(
        alloc,
        lines,
        "Commitments",
        state.commitments() as u64,
        most_commitments(),
    )?;
    push(alloc, lines, "Policy", policy_text(alloc, state)?)
}

// Adds a line of a name and a value.
fn push(alloc: Global, lines: &mut Vec<Line>, name: &str, value: String) -> Result<(), AllocError> {
    let mut cells = Vec::new(alloc);
    cells.push(String::from_str(alloc, name)?)?;
    cells.push(value)?;
    lines.push(Line::Cells(cells))?;
    Ok(())
}

// Adds a line of a name and a number.
fn push_count(
    alloc: Global,
    lines: &mut Vec<Line>,
    name: &str,
    count: u64,
) -> Result<(), AllocError> {
    push(alloc, lines, name, count_text(alloc, count)?)
}

// The most rows of a warehouse.
fn most_rows() -> u64
    ensures { result ≡ most_rows }
{
    4_194_304
}

// The most commitments of a warehouse.
fn most_commitments() -> u64
    ensures { result ≡ most_commitments }
{
    256
}

// Adds a line of a name and a number, of so many at most.
fn push_part(
    alloc: Global,
    lines: &mut Vec<Line>,
    name: &str,
    count: u64,
    most: u64,
) -> Result<(), AllocError> {
    let count = count_text(alloc, count)?;
    let most = count_text(alloc, most)?;
    push(alloc, lines, name, format!(in alloc; "{count} of {most}")?)
}

// Adds a line for each origin, in the order in which they came first, with the number of its entries.
fn push_origins(
    alloc: Global,
    lines: &mut Vec<Line>,
    heads: &Sequence<Head>,
) -> Result<(), AllocError> {
    let mut counts: IndexMap<&str, u64> = IndexMap::new(alloc);
    for place in 0..heads.len() {
        let head = heads.get(place);
        counts.insert(head.origin(), head.seq())?;
    }
    for (origin, count) in counts.iter() {
        let name = format!(in alloc; "  of {origin}")?;
        push_count(alloc, lines, name.as_str(), *count)?;
    }
    Ok(())
}

// Adds the line of the rows, and where posts were withdrawn one that says how many.
fn push_rows(alloc: Global, lines: &mut Vec<Line>, state: &State) -> Result<(), AllocError> {
    let posts = withdrawals(state.heads());
    let posted = state.rows_posted() as u64;
    if posts == 0 {
        return push_part(alloc, lines, "Rows", posted, most_rows());
    }
    let rows = state.rows() as u64;
    push(alloc, lines, "Rows", rows_text(alloc, rows, posted)?)?;
    let rows = posted.saturating_sub(rows);
    push(
        alloc,
        lines,
        "Withdrawn",
        withdrawn_text(alloc, posts, rows)?,
    )
}

// How many posts were withdrawn: each withdrawal is of another post.
fn withdrawals(heads: &Sequence<Head>) -> u64 {
    let mut count: u64 = 0;
    for place in 0..heads.len() {
        if let Content::Withdraw(_) = heads.get(place).content() {
            count = count.saturating_add(1);
        }
    }
    count
}

// How many rows count, and how many were posted, of so many at most.
fn rows_text(alloc: Global, rows: u64, posted: u64) -> Result<String, AllocError> {
    let rows = count_text(alloc, rows)?;
    let posted = count_text(alloc, posted)?;
    let most = count_text(alloc, most_rows())?;
    format!(in alloc; "{rows}, posted: {posted} of {most}")
}

// How many posts were withdrawn, and how many rows they have.
fn withdrawn_text(alloc: Global, posts: u64, rows: u64) -> Result<String, AllocError> {
    let posts = count_text(alloc, posts)?;
    let rows = count_text(alloc, rows)?;
    format!(in alloc; "posts: {posts}, rows: {rows}")
}

// Adds the line of the hours that rows are of, where there are rows.
fn push_hours(
    alloc: Global,
    lines: &mut Vec<Line>,
    segments: &[&Columns],
) -> Result<(), AllocError> {
    let Some((first, last)) = seconds_of(segments) else {
        return Ok(());
    };
    let first = hour_text(alloc, hour_of(first))?;
    let last = hour_text(alloc, hour_of(last))?;
    push(
        alloc,
        lines,
        "Hours",
        format!(in alloc; "{first} to {last}")?,
    )
}

// The first and the last second at which a row's period begins, where there are rows.
fn seconds_of(segments: &[&Columns]) -> Option<(u64, u64)> {
    let mut found = None;
    for columns in segments {
        for start in columns.starts() {
            let second = start.unsigned_abs();
            let (first, last) = found.unwrap_or((second, second));
            found = Some((second.min(first), second.max(last)));
        }
    }
    found
}

// The key of the policy and how many rules it has.
fn policy_text(alloc: Global, state: &State) -> Result<String, AllocError> {
    match state.policy() {
        Some(policy) => {
            let key = policy.key();
            let rules = policy.rules().len();
            format!(in alloc; "by {key}, rules: {rules}")
        }
        None => String::from_str(alloc, "none"),
    }
}

// Adds the lines of the files.
fn push_sizes<V: Volume>(
    alloc: Global,
    lines: &mut Vec<Line>,
    store: &Store<V>,
) -> Result<(), AllocError> {
    push(alloc, lines, "Body", bytes_text(alloc, store.body_len())?)?;
    push(alloc, lines, "Log", bytes_text(alloc, store.log_len())?)?;
    let checkpoint = String::from_str(alloc, checkpoint_word(store.checkpoint_pays()))?;
    push(alloc, lines, "Checkpoint", checkpoint)
}

// A number of bytes.
fn bytes_text(alloc: Global, bytes: u64) -> Result<String, AllocError> {
    let count = count_text(alloc, bytes)?;
    format!(in alloc; "{count} bytes")
}

// What a status says of a checkpoint.
fn checkpoint_word(pays: bool) -> &'static str {
    if pays {
        "pays: the log is as long as the body or longer"
    } else {
        "not yet: the log is shorter than the body"
    }
}
