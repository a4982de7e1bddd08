//! Counts, costs and hours in words, and lines on standard output.
use fw_calendar::hour_text;
use fw_console::{Fault, printed};
use fw_snapshot::State;
use fw_table::{cents_text, count_text};
use std::alloc::{AllocError, Global};

/// So many rows, in words.
pub(crate) fn rows_text(alloc: Global, count: u64) -> Result<String, AllocError> {
    counted(alloc, count, "row", "rows")
}

/// So many posts, in words.
pub(crate) fn posts_text(alloc: Global, count: u64) -> Result<String, AllocError> {
    counted(alloc, count, "post", "posts")
}

/// How many entries and rows that count a warehouse has of another one's, in words.
pub(crate) fn entries_of_text(
    alloc: Global,
    kept: &State,
    all: &State,
) -> Result<String, AllocError> {
    let entries = count_text(alloc, kept.entries() as u64)?;
    let of_entries = counted(alloc, all.entries() as u64, "entry", "entries")?;
    let rows = count_text(alloc, kept.rows() as u64)?;
    let of_rows = rows_text(alloc, all.rows_posted() as u64)?;
    format!(in alloc; "kept {entries} of {of_entries}, {rows} of {of_rows}")
}

// A count and what is counted.
fn counted(alloc: Global, count: u64, one: &str, many: &str) -> Result<String, AllocError> {
    let number = count_text(alloc, count)?;
    let word = if count == 1 { one } else { many };
    format!(in alloc; "{number} {word}")
}

/// A difference of costs in nanos as people read it, with its sign.
pub(crate) fn change_text(alloc: Global, nanos: i128) -> Result<String, AllocError> {
    let cents = cents_text(alloc, nanos)?;
    let is_more = nanos > 0 && cents.as_str() != "0.00";
    let sign = if is_more { "+" } else { "" };
    format!(in alloc; "{sign}{cents}")
}

/// The hours from one to another as people read them.
pub(crate) fn hours_text(alloc: Global, first: u64, last: u64) -> Result<String, AllocError> {
    let from = hour_text(alloc, first)?;
    let to = hour_text(alloc, last)?;
    format!(in alloc; "{from} to {to}")
}

/// Prints a text on standard output.
pub(crate) fn print_text(rt: &HostRuntime, text: &str) -> Result<(), Fault> {
    printed(print!(rt; "{text}"))
}

/// Prints a line on standard output.
pub(crate) fn print_line(rt: &HostRuntime, line: &str) -> Result<(), Fault> {
    let text = format!(in rt.alloc(); "{line}\n")?;
    print_text(rt, text.as_str())
}
