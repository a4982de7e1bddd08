//! The groups of a report that are charged most.
ghost use Rattle.std.specs.Prelude.{◌≡◌, IfOk, map, string_bytes};
ghost use Rattle.fw_series.specs.Top.{AreMostCharged, IsRanking};

use fw_query::{Entry, Report};
use std::alloc::{AllocError, Global};
use std::cmp::Reverse;

/// The groups of a report that are charged most, at most so many, the most charged first; groups that are charged alike stand in the order
/// of their names. The one error is that memory ran out.
pub fn most_charged(alloc: Global, report: &Report, count: usize) -> Result<Vec<String>, AllocError>
    ensures { IfOk result (λ names.
        AreMostCharged count report.now (map string_bytes names.items)) }
{
    let mut ranked = ranked(alloc, report.entries())?;
    ranked.truncate(count);
    let mut names = Vec::new(alloc);
    for entry in &ranked {
        names.push(String::from_str(alloc, entry.group())?)?;
    }
    Ok(names)
}

// The entries, those that are charged most first.
fn ranked<'r>(alloc: Global, entries: &'r [Entry]) -> Result<Vec<&'r Entry>, AllocError>
    ensures { IfOk result (λ ranked. IsRanking entries.now ranked.items) }
{
    let mut ranked = lent(alloc, entries)?;
    ranked.sort_by_key(|entry| Reverse(entry.charged()))?;
    Ok(ranked)
}

// The entries, in their order.
fn lent<'r>(alloc: Global, entries: &'r [Entry]) -> Result<Vec<&'r Entry>, AllocError>
    ensures { IfOk result (λ lent. map (λ e. e.now) lent.items ≡ entries.now) }
{
    let mut lent = Vec::new(alloc);
    for entry in entries {
        lent.push(entry)?;
    }
    Ok(lent)
}
