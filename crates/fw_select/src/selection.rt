//! Selections over a snapshot.
ghost use Rattle.std.specs.Prelude.{◌≡◌, ◌≤◌, ◌++◌, IfErr, IfOk, MatchOption, map};
ghost use Rattle.fw_query.specs.Limits.{most_total};
ghost use Rattle.fw_select.specs.Groups.{AreTotals, as_amount};
ghost use Rattle.fw_select.specs.Selections.{IsRefused, IsSelection, PassesAt, size_of};
ghost use Rattle.fw_sums.specs.Limits.{IsRange};

use crate::group::Group;
use crate::name::group_name;
use crate::selector::Selector;
use crate::table::Table;
use crate::walk::groups_on;
use fw_query::{MOST_HOURS, QueryFault, Shown};
use fw_snapshot::Snapshot;
use std::alloc::{AllocError, Global};
use std::marker::Model;

// The most that the absolute effective costs may sum to, in nanos.
const MOST_TOTAL: u128 = 10_000_000_000_000_000_000;

/// The groups of the lines that a selector takes, in rising order, each once.
#[derive(Debug)]
pub struct Selection {
    groups: Vec<Group>,
}

impl Drop for Selection {
    fn drop(self) {
        let Self { groups: _ } = self;
    }
}

impl Model for Selection {
    ghost use Rattle.std.specs.Prelude.{List};
    ghost use Rattle.fw_select.specs.Groups.{GroupCost};

    ghost Value = { List GroupCost };

    ghost view = { λ s. s.groups.items };
}

impl Selection {
    /// The groups, in rising order: the first text in which two differ decides, by the order of its bytes.
    pub fn groups(&self) -> &[Group]
        ensures { result.now ≡ self.now }
    {
        self.groups.as_slice()
    }

    /// The same groups with their costs, and those of amounts: each with its EffectiveCost among the amounts as the amount beside its costs. A group
    /// of the amounts alone has no costs. The one error is that memory ran out.
    pub fn with_amounts(&self, alloc: Global, amounts: &[Group]) -> Result<Selection, AllocError>
        ensures { IfOk result (λ both. AreTotals (self.now ++ map as_amount amounts.now) both) }
    {
        let mut table = Table::new(alloc);
        table.add_groups(self.groups.as_slice())?;
        table.add_amounts(amounts)?;
        Ok(Selection {
            groups: table.into_groups()?,
        })
    }
}

/// What the lines of a snapshot in the hours from `from` up to, and not including, `to`, counted from 1970, come to, of those that the selector
/// takes: a group for each list of values that its keys have on one of them, with the exact sums of BilledCost and EffectiveCost.
///
/// # Errors
/// `Range` where the range has no hour or more than 26,304; `TotalTooLarge` where the absolute effective costs of the groups, summed up in
/// their order, pass 10^19 nanos; `NoMemory` where memory ran out.
pub fn selected(
    alloc: Global,
    snapshot: &Snapshot,
    selector: &Selector<'_, '_, '_>,
    from: u64,
    to: u64,
) -> Result<Selection, QueryFault>
    ensures range { IfOk result (λ _. IsRange from to) }
    ensures selection { IfOk result (IsSelection snapshot.now.entries selector.now from to) }
    ensures fault { IfErr result (IsRefused snapshot.now.entries selector.now from to) }
{
    if from >= to || to - from > MOST_HOURS {
        return Err(QueryFault::Range);
    }
    let shown = Shown::of(alloc, snapshot.state())?;
    let groups = groups_on(alloc, &shown, selector, from, (to - from) as usize)?;
    if let Some(place) = first_past(groups.as_slice()) {
        let group = group_name(alloc, groups[place].texts())?;
        return Err(QueryFault::TotalTooLarge { group });
    }
    Ok(Selection { groups })
}

// The place of the first group at which the running sum of the absolute effective costs passes the most, if there is one.
fn first_past(groups: &[Group]) -> Option<usize>
    ensures { MatchOption result (size_of groups.now ≤ most_total) (PassesAt groups.now) }
{
    let mut total = 0u128;
    for (place, group) in groups.iter().enumerate() {
        total += group.effective().unsigned_abs();
        if total > MOST_TOTAL {
            return Some(place);
        }
    }
    None
}
