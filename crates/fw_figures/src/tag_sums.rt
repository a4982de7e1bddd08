//! Selections beside the sums of the amounts that rows have in a tag.
ghost use Rattle.std.specs.Prelude.{◌≡◌, ◌-◌, ◌+ℤ◌, IfErr, IfOk, fold, map, pos};
ghost use Rattle.fw_figures.specs.Prices.{IsSummed};
ghost use Rattle.fw_query.specs.Refusals.{AreRefused};
ghost use Rattle.fw_snapshot.specs.History.{rows_of};

use crate::prices::amounts;
use fw_query::QueryFault;
use fw_select::{Group, Selection, Selector};
use fw_snapshot::Snapshot;
use std::alloc::{AllocError, Global};

/// A selection of the hours from `from` up to, and not including, `to`, counted from 1970, where each group has beside its costs the exact sum of
/// the amounts that the texts of the tag read as on the rows in it, of those that the selector takes; and how many of these rows have no
/// amount, because they have no such tag, or because its text is no amount. Commitments split no row here: each counts once, as it was given. So a
/// group may have rows where no line of the selection is; it has no costs then.
///
/// # Errors
/// `Range` where the range has no hour or more than 26,304; `NoMemory` where memory ran out.
pub fn summed(
    alloc: Global,
    snapshot: &Snapshot,
    selector: &Selector<'_, '_, '_>,
    selection: &Selection,
    tag: &str,
    from: u64,
    to: u64,
) -> Result<(Selection, i128), QueryFault>
    ensures summed { IfOk result (λ summed. IsSummed tag.now (rows_of snapshot.now.entries)
        selector.now from (to - from) selection.now summed.0 summed.1) }
    ensures fault { IfErr result (AreRefused from to) }
{
    let amounts = amounts(alloc, snapshot, selector, tag, from, to)?;
    let missing = missing_in(amounts.as_slice())?;
    let summed = selection.with_amounts(alloc, amounts.as_slice())?;
    Ok((summed, missing))
}

// How many rows have no amount: the sum of BilledCost over the groups.
fn missing_in(amounts: &[Group]) -> Result<i128, AllocError>
    ensures { IfOk result (λ missing.
        missing ≡ fold ◌+ℤ◌ (pos 0) (map (λ g. g.billed) amounts.now)) }
{
    let mut missing = 0_i128;
    for group in amounts {
        missing = match missing.checked_add(group.billed()) {
            Some(sum) => sum,
            None => return Err(AllocError),
        };
    }
    Ok(missing)
}
