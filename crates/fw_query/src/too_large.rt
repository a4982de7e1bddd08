//! How much the costs of a report may come to.
ghost use Rattle.std.specs.Prelude.{◌≤◌, MatchOption};
ghost use Rattle.fw_query.specs.Limits.{most_total};
ghost use Rattle.fw_query.specs.Entries.{PassesAtPlace, direct_size};

use crate::entries::Entry;

// The most that the absolute direct costs may sum to, in nanos.
const MOST_TOTAL: u128 = 10_000_000_000_000_000_000;

// The place of the first entry at which the running sum of the absolute direct costs passes the most, if there is one.
pub(crate) fn first_past(entries: &[Entry]) -> Option<usize>
    ensures { MatchOption result (direct_size entries.now ≤ most_total)
        (PassesAtPlace entries.now) }
{
    let mut total = 0u128;
    for (place, entry) in entries.iter().enumerate() {
        total += entry.direct().unsigned_abs();
        if total > MOST_TOTAL {
            return Some(place);
        }
    }
    None
}
