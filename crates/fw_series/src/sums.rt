//! Sums of costs over groups.
ghost use Rattle.std.specs.Prelude.{◌≡◌, IfOk, MatchOption};
ghost use Rattle.fw_series.specs.Sums.{AreSums, IsPast, IsWith};

use fw_query::{Entry, Report};
use std::alloc::AllocError;

/// Sums of costs in nanos, over groups.
#[derive(Clone, Copy, Debug, Drop, PartialEq, Eq)]
pub struct Sums {
    /// The sum of BilledCost.
    pub billed: i128,
    /// The sum of EffectiveCost, before any policy.
    pub direct: i128,
    /// The sum of what the groups are charged.
    pub charged: i128,
}

impl Sums {
    /// No costs.
    pub const NONE: Sums = Sums {
        billed: 0,
        direct: 0,
        charged: 0,
    };

    /// The costs of a group.
    pub fn of(entry: &Entry) -> Sums
        ensures billed { result.billed ≡ entry.now.billed }
        ensures direct { result.direct ≡ entry.now.direct }
        ensures charged { result.charged ≡ entry.now.charged }
    {
        Sums {
            billed: entry.billed(),
            direct: entry.direct(),
            charged: entry.charged(),
        }
    }

    /// These sums and the costs of a group, or `None` where one passes 128 bits.
    pub(crate) fn with(self, entry: &Entry) -> Option<Sums>
        ensures { IsWith self entry.now result }
    {
        Some(Sums {
            billed: self.billed.checked_add(entry.billed())?,
            direct: self.direct.checked_add(entry.direct())?,
            charged: self.charged.checked_add(entry.charged())?,
        })
    }
}

/// The sums of the costs of groups, or `None` where one of them passes 128 bits on the way.
pub fn sums_of(entries: &[Entry]) -> Option<Sums>
    ensures { MatchOption result (IsPast entries.now) (AreSums entries.now) }
{
    let mut sums = Sums::NONE;
    for entry in entries {
        sums = sums.with(entry)?;
    }
    Some(sums)
}

/// The sums of the costs of a report's groups. The one error is that one of them passes 128 bits on the way.
pub(crate) fn sums_in(report: &Report) -> Result<Sums, AllocError>
    ensures { IfOk result (AreSums report.now) }
{
    match sums_of(report.entries()) {
        Some(sums) => Ok(sums),
        None => Err(AllocError),
    }
}
