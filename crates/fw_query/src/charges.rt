//! Entries under a policy.
ghost use Rattle.std.specs.Prelude.{◌≡◌, ◌≤◌, map, IfOk};
ghost use Rattle.std.specs.Cmp.Lexicographic.{slice_cmp};
ghost use Rattle.std.specs.Option.{option_copied};
ghost use Rattle.std.specs.Ordering.{nat_cmp};
ghost use Rattle.fw_allocate.specs.Costs.{groups_in};
ghost use Rattle.fw_terms.specs.Texts.{IsRising};
ghost use Rattle.fw_query.specs.Limits.{most_total};
ghost use Rattle.fw_query.specs.Entries.{AreUnder, charged_entry, direct_size, directs_of, entry_at};

use crate::entries::Entry;
use fw_allocate::{Cost, charge};
use fw_terms::Policy;
use std::alloc::{AllocError, Global};
use std::cmp::Ordering;

// The entries of the groups that are charged under a policy, for entries in rising byte order of their groups.

pub(crate) fn under_policy(
    alloc: Global,
    entries: &[Entry],
    policy: &Policy,
) -> Result<Vec<Entry>, AllocError>
    requires rising { IsRising (groups_in (directs_of entries.now)) }
    requires small { direct_size entries.now ≤ most_total }
    ensures { IfOk result (λ charged. AreUnder entries.now policy.now.rules charged.items) }
{
    let direct = direct_costs(alloc, entries)?;
    let charged = charge(alloc, direct.as_slice(), policy)?;
    charged_entries(alloc, entries, charged.as_slice())
}

// The direct costs of entries.
fn direct_costs(alloc: Global, entries: &[Entry]) -> Result<Vec<Cost>, AllocError>
    ensures { IfOk result (λ costs. costs.items ≡ directs_of entries.now) }
{
    let mut costs = Vec::new(alloc);
    for entry in entries {
        let group = String::from_str(alloc, entry.group())?;
        costs.push(Cost::of_fields(group, entry.direct()))?;
    }
    Ok(costs)
}

// The entries of charged groups.
fn charged_entries(
    alloc: Global,
    entries: &[Entry],
    charged: &[Cost],
) -> Result<Vec<Entry>, AllocError>
    requires { IsRising (groups_in (directs_of entries.now)) }
    ensures { IfOk result (λ all. all.items ≡ map (charged_entry entries.now) charged.now) }
{
    let mut all = Vec::new(alloc);
    for cost in charged {
        all.push(charged_entry(alloc, entries, cost)?)?;
    }
    Ok(all)
}

// The entry of a charged group. One without lines has no costs of its own.
fn charged_entry(alloc: Global, entries: &[Entry], cost: &Cost) -> Result<Entry, AllocError>
    requires { IsRising (groups_in (directs_of entries.now)) }
    ensures { IfOk result (λ entry. entry ≡ charged_entry entries.now cost.now) }
{
    let name = cost.group();
    let group = String::from_str(alloc, name)?;
    match own_entry(entries, name) {
        Some(own) => Ok(Entry::of_charge(group, own.billed(), own.direct(), cost.cost())),
        None => Ok(Entry::of_charge(group, 0, 0, cost.cost())),
    }
}

// The entry of a group.
fn own_entry<'a>(entries: &'a [Entry], group: &str) -> Option<&'a Entry>
    requires { IsRising (groups_in (directs_of entries.now)) }
    ensures { option_copied result ≡ entry_at entries.now group.now }
{
    let order = |entry: &Entry| -> Ordering
        ensures { result ≡ slice_cmp nat_cmp entry.now.group group.entry.now }
    { entry.group().cmp(group) };
    match entries.binary_search_by(order) {
        Ok(place) => Some(&entries[place]),
        Err(_) => None,
    }
}
