//! Whether the costs of reports can be added.
ghost use Rattle.std.specs.Prelude.{◌≡◌, ◌≤◌, ◌+◌, ◌↔◌, min, true, unsigned_abs};
ghost use Rattle.fw_shards.specs.Added.{CanBeAdded, all_of, billed_size, capped, direct_size};

use crate::direct::{Direct, DirectReport};

// The most that the absolute costs of all reports may come to, of each kind, in nanos.
const MOST_ADDED: u128 = 10_000_000_000_000_000_000_000_000_000_000_000_000;

// Whether the absolute costs of the entries of all reports are in range, of both kinds.
pub(crate) fn can_be_added(reports: &[DirectReport]) -> bool
    ensures { (result ≡ true) ↔ CanBeAdded (all_of reports.now) }
{
    let mut billed = 0u128;
    let mut direct = 0u128;
    for report in reports {
        billed = more_billed(billed, report.entries());
        direct = more_direct(direct, report.entries());
    }
    billed <= MOST_ADDED && direct <= MOST_ADDED
}

// A size, and the absolute billed costs of entries.
fn more_billed(size: u128, entries: &[Direct]) -> u128
    requires { size ≤ capped size }
    ensures { result ≡ capped (size + billed_size entries.now) }
{
    let mut size = size;
    for entry in entries {
        size = more(size, entry.billed());
    }
    size
}

// A size, and the absolute direct costs of entries.
fn more_direct(size: u128, entries: &[Direct]) -> u128
    requires { size ≤ capped size }
    ensures { result ≡ capped (size + direct_size entries.now) }
{
    let mut size = size;
    for entry in entries {
        size = more(size, entry.direct());
    }
    size
}

// A size and one absolute cost more. What is past the range is kept as the next number.
fn more(size: u128, cost: i128) -> u128
    requires { size ≤ capped size }
    ensures { result ≡ capped (size + unsigned_abs cost) }
{
    let grown = size + cost.unsigned_abs();
    if grown <= MOST_ADDED {
        grown
    } else {
        MOST_ADDED + 1
    }
}
