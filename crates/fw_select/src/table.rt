//! Sums by group, as they grow line by line.
ghost use Rattle.std.specs.Prelude.{◌≡◌, ◌<◌, ◌++◌, ◌∷◌, [], ℕ, List, None, Some, IfOk, OnOk, map, pos, string_bytes};
ghost use Rattle.indexmap.specs.IndexMap.{IsReordered, IsUnique, index_map_len, keys};
ghost use Rattle.std.specs.List.Sorted.{IsSorted};
ghost use Rattle.fw_select.specs.Groups.{AreTotals, GroupCost, as_amount};
ghost use Rattle.fw_select.specs.Table.{AddsLine, AreSums, IsInOrder, KeepsGroups, added, group_at, kept_total, sums_at, texts_of};

use crate::group::Group;
use fw_money::Nanos;
use indexmap::IndexMap;
use std::alloc::{AllocError, Global};

// Sums of costs, in nanos.
#[derive(Clone, Copy, Drop)]
pub(crate) struct Sums {
    billed: i128,
    effective: i128,
    amount: i128,
}

impl Sums {
    // The costs of one line.
    fn of_line(billed: Nanos, effective: Nanos) -> Sums
        ensures { result ≡ record { billed = billed; effective = effective; amount = pos 0 } }
    {
        Sums {
            billed: i128::from(billed.count()),
            effective: i128::from(effective.count()),
            amount: 0,
        }
    }

    // The sums of a group.
    fn of_group(group: &Group) -> Sums
        ensures { result ≡ record {
          billed = group.now.billed;
          effective = group.now.effective;
          amount = group.now.amount;
        } }
    {
        Sums {
            billed: group.billed(),
            effective: group.effective(),
            amount: group.amount(),
        }
    }

    // The EffectiveCost of a group as an amount beside no costs.
    fn of_amount(group: &Group) -> Sums
        ensures { result ≡ record {
          billed = pos 0;
          effective = pos 0;
          amount = group.now.effective;
        } }
    {
        Sums {
            billed: 0,
            effective: 0,
            amount: group.effective(),
        }
    }

    // These sums and others. A sum of 2^127 nanos, for which no memory holds the lines, is answered as out of memory.
    fn with(self, other: Sums) -> Result<Sums, AllocError>
        ensures { IfOk result (λ sums. (group : List (List ℕ))
            → sums ≡ added (record {
              group = group;
              billed = other.billed;
              effective = other.effective;
              amount = other.amount;
            }) (Some self)) }
    {
        let billed = self.billed.checked_add(other.billed);
        let effective = self.effective.checked_add(other.effective);
        let amount = self.amount.checked_add(other.amount);
        match (billed, effective, amount) {
            (Some(billed), Some(effective), Some(amount)) => Ok(Sums {
                billed,
                effective,
                amount,
            }),
            _ => Err(AllocError),
        }
    }
}

// The sums of each group that a line was in, under the texts of the group. A group keeps its place as others come.
#[derive(Drop)]
pub(crate) struct Table {
    alloc: Global,
    by_group: IndexMap<Vec<String>, Sums>,
}

impl Table {
    // No groups.
    pub(crate) fn new(alloc: Global) -> Table
        ensures { AreSums result [] }
    {
        Table {
            alloc,
            by_group: IndexMap::new(alloc),
        }
    }

    // Counts a line, in the group with these texts, and returns the place of the group. Memory is taken for a new group alone.
    pub(crate) fn add(
        &mut self,
        group: &Vec<String>,
        billed: Nanos,
        effective: Nanos,
    ) -> Result<usize, AllocError>
        ensures sums { OnOk result ((costs : List GroupCost) → AreSums self.old costs
            → AreSums self.new (costs ++ record {
              group = texts_of group.now;
              billed = billed;
              effective = effective;
              amount = pos 0;
            } ∷ [])) }
        ensures kept { OnOk result (KeepsGroups self.old self.new) }
        ensures place { IfOk result (λ place. group_at self.new place ≡ Some (texts_of group.now)) }
    {
        self.add_sums(group, Sums::of_line(billed, effective))
    }

    // Adds sums to those of the group with these texts, and returns its place.
    fn add_sums(&mut self, group: &Vec<String>, added: Sums) -> Result<usize, AllocError>
        ensures sums { OnOk result ((costs : List GroupCost) → AreSums self.old costs
            → AreSums self.new (costs ++ record {
              group = texts_of group.now;
              billed = added.billed;
              effective = added.effective;
              amount = added.amount;
            } ∷ [])) }
        ensures kept { OnOk result (KeepsGroups self.old self.new) }
        ensures place { IfOk result (λ place. group_at self.new place ≡ Some (texts_of group.now)) }
    {
        match self.by_group.get_index_of(group) {
            Some(place) => {
                self.put_at(place, added)?;
                Ok(place)
            }
            None => self.put_new(group, added),
        }
    }

    // Counts the sums of groups.
    pub(crate) fn add_groups(&mut self, groups: &[Group]) -> Result<(), AllocError>
        ensures { OnOk result ((before : List GroupCost) → AreSums self.old before
            → AreSums self.new (before ++ groups.now)) }
    {
        for group in groups {
            self.add_sums(group.kept(), Sums::of_group(group))?;
        }
        Ok(())
    }

    // Counts the EffectiveCosts of groups as amounts beside no costs.
    pub(crate) fn add_amounts(&mut self, groups: &[Group]) -> Result<(), AllocError>
        ensures { OnOk result ((before : List GroupCost) → AreSums self.old before
            → AreSums self.new (before ++ map as_amount groups.now)) }
    {
        for group in groups {
            self.add_sums(group.kept(), Sums::of_amount(group))?;
        }
        Ok(())
    }

    // Counts a line, in the group at a place.
    pub(crate) fn add_at(
        &mut self,
        place: usize,
        billed: Nanos,
        effective: Nanos,
    ) -> Result<(), AllocError>
        requires { (group : List (List ℕ)) × (group_at self.old place ≡ Some group) }
        ensures sums { OnOk result ((costs : List GroupCost) (group : List (List ℕ))
            → group_at self.old place ≡ Some group → AreSums self.old costs
            → AreSums self.new (costs ++ record {
              group = group;
              billed = billed;
              effective = effective;
              amount = pos 0;
            } ∷ [])) }
        ensures kept { OnOk result (KeepsGroups self.old self.new) }
    {
        self.put_at(place, Sums::of_line(billed, effective))?;
        Ok(())
    }

    // Adds sums to those of the group at a place.
    fn put_at(&mut self, place: usize, added: Sums) -> Result<(), AllocError>
        requires { place < index_map_len self.old.by_group }
        ensures sums { OnOk result ((group : List (List ℕ)) → group_at self.old place ≡ Some group
            → AddsLine self.old self.new (record {
              group = group;
              billed = added.billed;
              effective = added.effective;
              amount = added.amount;
            })) }
        ensures kept { OnOk result (KeepsGroups self.old self.new) }
    {
        let (_group, sums) = self.by_group.pair_mut(place);
        *sums = sums.with(added)?;
        Ok(())
    }

    // Puts the sums of a group that has none, and returns its place.
    fn put_new(&mut self, group: &Vec<String>, added: Sums) -> Result<usize, AllocError>
        requires { sums_at self.old (texts_of group.now) ≡ None }
        ensures sums { OnOk result (AddsLine self.old self.new (record {
          group = texts_of group.now;
          billed = added.billed;
          effective = added.effective;
          amount = added.amount;
        })) }
        ensures kept { OnOk result (KeepsGroups self.old self.new) }
        ensures place { IfOk result (λ place. group_at self.new place ≡ Some (texts_of group.now)) }
    {
        let place = self.by_group.len();
        self.by_group.insert(copy_of(self.alloc, group)?, added)?;
        Ok(place)
    }

    // The same sums, in rising order of their groups.
    fn in_order(mut self) -> Result<Table, AllocError>
        ensures { IfOk result (IsInOrder self) }
    {
        self.by_group.sort_unstable_keys()?;
        Ok(self)
    }

    // The groups with their sums, in rising order.
    pub(crate) fn into_groups(self) -> Result<Vec<Group>, AllocError>
        ensures { IfOk result (λ groups. (costs : List GroupCost) → AreSums self costs
            → AreTotals costs groups.items) }
    {
        let Table { alloc, by_group } = self.in_order()?;
        kept_groups(alloc, by_group)
    }
}

// The groups in the order in which they are kept.
fn kept_groups(
    alloc: Global,
    by_group: IndexMap<Vec<String>, Sums>,
) -> Result<Vec<Group>, AllocError>
    ensures { IfOk result (λ groups. groups.items ≡ map kept_total by_group.entries) }
{
    by_group
        .into_iter()
        .map(|pair| Group::of_sums(pair.0, pair.1.billed, pair.1.effective, pair.1.amount))
        .collect(alloc)
}

// The texts of a group, to keep.
fn copy_of(alloc: Global, group: &[String]) -> Result<Vec<String>, AllocError>
    ensures { IfOk result (λ copy. texts_of copy ≡ map string_bytes group.now) }
{
    let mut copy = Vec::with_capacity(alloc, group.len())?;
    for text in group {
        copy.push(String::from_str(alloc, text.as_str())?)?;
    }
    Ok(copy)
}
