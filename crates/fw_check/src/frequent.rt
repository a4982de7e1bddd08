//! Which values of a kept column most rows have.
ghost use Rattle.std.specs.Prelude.{◌≡◌, map, IfOk};
ghost use Rattle.fw_check.specs.Counts.{text_counts};
ghost use Rattle.fw_check.specs.Frequent.{AreMostFrequent, IsRanking, rows_of, shown};

use indexmap::IndexMap;
use std::alloc::{AllocError, Global};
use std::cmp::Reverse;

/// How many values are shown.
const MOST: usize = 10;

/// How many rows have one of these values.
pub(crate) fn rows_in(values: &IndexMap<String, u64>) -> u64
    ensures { result ≡ rows_of (text_counts values.now.entries) }
{
    let mut rows: u64 = 0;
    for (_, count) in values.iter() {
        rows = rows.saturating_add(*count);
    }
    rows
}

/// The values that most rows have, each with the number of these rows: at most ten, the most frequent first. Those that as many rows have stay in
/// their order.
pub(crate) fn most_frequent<'k>(
    alloc: Global,
    values: &'k IndexMap<String, u64>,
) -> Result<Vec<(&'k str, u64)>, AllocError>
    ensures { IfOk result (λ most. AreMostFrequent (text_counts values.now.entries) most.items) }
{
    let mut most = ranked(alloc, values)?;
    most.truncate(MOST);
    Ok(most)
}

// The values, those that most rows have first.
fn ranked<'k>(
    alloc: Global,
    values: &'k IndexMap<String, u64>,
) -> Result<Vec<(&'k str, u64)>, AllocError>
    ensures { IfOk result (λ ranked. IsRanking (text_counts values.now.entries) ranked.items) }
{
    let mut ranked = lent(alloc, values)?;
    ranked.sort_by_key(|value| Reverse(value.1))?;
    Ok(ranked)
}

// The values, in their order.
fn lent<'k>(
    alloc: Global,
    values: &'k IndexMap<String, u64>,
) -> Result<Vec<(&'k str, u64)>, AllocError>
    ensures { IfOk result (λ lent. map shown lent.items ≡ text_counts values.now.entries) }
{
    let mut lent: Vec<(&'k str, u64)> = Vec::new(alloc);
    for (value, count) in values.iter() {
        lent.push((value.as_str(), *count))?;
    }
    Ok(lent)
}
