//! What is shown of a selection: a row for each group, or for the largest and one for all others.
ghost use Rattle.std.specs.Prelude.{◌≡◌, ◌∷◌, [], IfOk, false, map, true};
ghost use Rattle.fw_selections.specs.Shown.{AreLargest, AreRows, IsRanking, cost_of, costs_of, is_chosen, row_value, with};
ghost use Rattle.fw_selections.specs.Written.{rows_in, whole_row};

use crate::sheet::KeyName;
use fw_select::{Group, Selection};
use std::alloc::{AllocError, Global};
use std::cmp::Reverse;

/// A row: of a group, or of all groups that have no row of their own.
#[derive(Clone, Copy, Debug)]
pub(crate) struct Row<'g> {
    /// The texts of the group; none where the row is of others.
    pub(crate) texts: Option<&'g [String]>,
    pub(crate) costs: Costs,
}

/// Costs, and the sum of an amount beside them, in nanos.
#[derive(Clone, Copy, Debug, Drop)]
pub(crate) struct Costs {
    pub(crate) billed: i128,
    pub(crate) effective: i128,
    pub(crate) amount: i128,
}

impl Costs {
    /// No costs.
    pub(crate) const NONE: Costs = Costs {
        billed: 0,
        effective: 0,
        amount: 0,
    };

    /// The costs of a group.
    pub(crate) fn of(group: &Group) -> Costs
        ensures { result ≡ cost_of group.now }
    {
        Costs {
            billed: group.billed(),
            effective: group.effective(),
            amount: group.amount(),
        }
    }

    // These costs and those of a group. The one error is that a sum passes 128 bits.
    fn with(self, group: &Group) -> Result<Costs, AllocError>
        ensures { IfOk result (λ sum. sum ≡ with self (cost_of group.now)) }
    {
        let billed = self.billed.checked_add(group.billed());
        let effective = self.effective.checked_add(group.effective());
        let amount = self.amount.checked_add(group.amount());
        match (billed, effective, amount) {
            (Some(billed), Some(effective), Some(amount)) => Ok(Costs {
                billed,
                effective,
                amount,
            }),
            _ => Err(AllocError),
        }
    }
}

/// The costs of all groups of a selection.
pub(crate) fn all_costs(selection: &Selection) -> Result<Costs, AllocError>
    ensures { IfOk result (λ costs. costs ≡ costs_of selection.now) }
{
    let mut costs = Costs::NONE;
    for group in selection.groups() {
        costs = costs.with(group)?;
    }
    Ok(costs)
}

/// The groups of a selection whose EffectiveCost is the largest, at most so many; those of one cost in the order of their names.
pub(crate) fn largest<'g>(
    alloc: Global,
    selection: &'g Selection,
    count: usize,
) -> Result<Vec<&'g Group>, AllocError>
    ensures { IfOk result (λ largest. AreLargest count selection.now largest.items) }
{
    let mut ranked = ranked(alloc, selection.groups())?;
    ranked.truncate(count);
    Ok(ranked)
}

// The groups, the largest first.
fn ranked<'g>(alloc: Global, groups: &'g [Group]) -> Result<Vec<&'g Group>, AllocError>
    ensures { IfOk result (λ ranked. IsRanking groups.now ranked.items) }
{
    let mut ranked = lent(alloc, groups)?;
    ranked.sort_by_key(|group| Reverse(group.effective()))?;
    Ok(ranked)
}

// The groups, in their order.
fn lent<'g>(alloc: Global, groups: &'g [Group]) -> Result<Vec<&'g Group>, AllocError>
    ensures { IfOk result (λ lent. map (λ g. g.now) lent.items ≡ groups.now) }
{
    let mut lent = Vec::new(alloc);
    for group in groups {
        lent.push(group)?;
    }
    Ok(lent)
}

/// Which groups have a row of their own.
#[derive(Clone, Copy, Debug)]
pub(crate) struct Shown<'c> {
    are_all: bool,
    groups: &'c [&'c Group],
}

impl<'c> Shown<'c> {
    /// All of them.
    pub(crate) fn all() -> Shown<'c>
        ensures { result.are_all ≡ true }
    {
        Shown {
            are_all: true,
            groups: &[],
        }
    }

    /// Those with the texts of these.
    pub(crate) fn of(groups: &'c [&'c Group]) -> Shown<'c>
        ensures all { result.are_all ≡ false }
        ensures groups { result.groups.now ≡ groups.now }
    {
        Shown {
            are_all: false,
            groups,
        }
    }

    // Whether a group is one of them.
    fn has(self, group: &Group) -> bool
        ensures { result ≡ is_chosen self.entry group.now }
    {
        if self.are_all {
            return true;
        }
        for other in self.groups {
            if other.texts() == group.texts() {
                return true;
            }
        }
        false
    }
}

/// The rows of a selection, in the order of the groups, and behind them one with the sums of those that aren't chosen, where there are some.
pub(crate) fn rows_of<'g>(
    alloc: Global,
    selection: &'g Selection,
    chosen: Shown<'_>,
) -> Result<Vec<Row<'g>>, AllocError>
    ensures { IfOk result (λ rows.
        AreRows (is_chosen chosen.entry) selection.now rows.items) }
{
    let mut rows = Vec::new(alloc);
    let mut others = Costs::NONE;
    let mut has_others = false;
    for group in selection.groups() {
        if chosen.has(group) {
            rows.push(Row {
                texts: Some(group.texts()),
                costs: Costs::of(group),
            })?;
        } else {
            others = others.with(group)?;
            has_others = true;
        }
    }
    if has_others {
        rows.push(Row {
            texts: None,
            costs: others,
        })?;
    }
    Ok(rows)
}

/// The rows of a selection under keys: without keys there is one, with all costs.
pub(crate) fn rows_under<'g>(
    alloc: Global,
    keys: &[KeyName<'_>],
    selection: &'g Selection,
    chosen: Shown<'_>,
) -> Result<Vec<Row<'g>>, AllocError>
    ensures { IfOk result (λ rows. map row_value rows.items
        ≡ rows_in keys.now (is_chosen chosen.entry) selection.now) }
{
    if keys.is_empty() {
        return whole_rows(alloc, selection);
    }
    rows_of(alloc, selection, chosen)
}

// One row with all costs.
fn whole_rows<'g>(alloc: Global, selection: &'g Selection) -> Result<Vec<Row<'g>>, AllocError>
    ensures { IfOk result (λ rows. map row_value rows.items ≡ whole_row selection.now ∷ []) }
{
    let costs = all_costs(selection)?;
    let mut rows = Vec::new(alloc);
    rows.push(Row {
        texts: Some(&[]),
        costs,
    })?;
    Ok(rows)
}
