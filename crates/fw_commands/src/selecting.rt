//! Reports by several keys, under filters and maps.
use crate::selected_page::selected_page;
use crate::silence::{conditions_text, say_unsummed};
use crate::wanted::{SelectorParts, Wanted};
use fw_calendar::Period;
use fw_console::{Fault, letters};
use fw_figures::summed;
use fw_selections::{SelectedPart, Selections, Sheet, selections_of, written};
use fw_snapshot::Snapshot;
use std::alloc::Global;

/// The text of a report over these hours. Where it sums the amounts of a tag, it is said how many rows have none.
pub(crate) fn selection_text(
    rt: &HostRuntime,
    snapshot: &Snapshot,
    hours: Period,
    wanted: &Wanted,
) -> Result<Vec<u8>, Fault> {
    let alloc = rt.alloc();
    let mut selections = selections_in(alloc, snapshot, hours, wanted)?;
    if let Some(tag) = wanted.sum() {
        let missing = add_sums(alloc, snapshot, hours, wanted, tag, &mut selections)?;
        say_unsummed(rt, tag, missing)?;
    }
    let names = wanted.names(alloc)?;
    let currency = snapshot.state().currency();
    let sheet = Sheet {
        keys: names.as_slice(),
        currency: letters(&currency),
        hours,
        step: wanted.step,
        top: wanted.top,
        sum: wanted.sum(),
    };
    match wanted.format {
        Some(format) => Ok(written(alloc, &selections, &sheet, format)?),
        None => {
            let about = conditions_text(alloc, wanted)?;
            selected_page(alloc, &selections, &sheet, about.as_str())
        }
    }
}

/// What the lines of these hours come to.
pub fn selections_in(
    alloc: Global,
    snapshot: &Snapshot,
    hours: Period,
    wanted: &Wanted,
) -> Result<Selections, Fault> {
    let values = wanted.values(alloc)?;
    let parts = SelectorParts::of(alloc, wanted, values.as_slice())?;
    let selector = parts.selector();
    Ok(selections_of(alloc, snapshot, &selector, hours, wanted.step)?)
}

// Puts the sums of a tag's amounts beside the costs of selections of these hours, and returns how many rows of the whole range have no amount.
fn add_sums(
    alloc: Global,
    snapshot: &Snapshot,
    hours: Period,
    wanted: &Wanted,
    tag: &str,
    selections: &mut Selections,
) -> Result<i128, Fault> {
    let values = wanted.values(alloc)?;
    let lent = SelectorParts::of(alloc, wanted, values.as_slice())?;
    let selector = lent.selector();
    let Period { from, to } = hours;
    let (whole, missing) = summed(alloc, snapshot, &selector, &selections.whole, tag, from, to)?;
    let mut parts = Vec::new(alloc);
    for part in &selections.parts {
        let Period { from, to } = part.period;
        let (selection, _) = summed(alloc, snapshot, &selector, &part.selection, tag, from, to)?;
        parts.push(SelectedPart {
            period: part.period,
            selection,
        })?;
    }
    *selections = Selections { whole, parts };
    Ok(missing)
}
