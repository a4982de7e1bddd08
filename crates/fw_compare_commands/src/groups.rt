//! The groups of a report, as they are compared.
use fw_calendar::Period;
use fw_commands::{Wanted, selections_in};
use fw_compare::{Costs, Group};
use fw_console::Fault;
use fw_query::{Entry, Query, Report};
use fw_select::Selection;
use fw_selections::{KeyName, shown_group};
use fw_series::series_of;
use fw_snapshot::Snapshot;
use std::alloc::{AllocError, Global};
use std::thread::Threads;

/// What the groups that are wanted cost in some hours, in the order of their names. Those of one tag are charged, and so many workers make their report.
pub(crate) fn groups_in(
    threads: &(impl Threads + Sync),
    alloc: Global,
    snapshot: &Snapshot,
    hours: Period,
    wanted: &Wanted,
    workers: u32,
) -> Result<Vec<Group>, Fault> {
    let names = wanted.names(alloc)?;
    let mut groups = match wanted.one_tag() {
        Some(key) => {
            let query = Query {
                key,
                from_hour: hours.from,
                to_hour: hours.to,
            };
            let workers = workers.clamp(1, 64);
            let series = series_of(threads, alloc, snapshot, &query, None, workers)?;
            charged_groups(alloc, &series.whole, names.as_slice())?
        }
        None => {
            let selections = selections_in(alloc, snapshot, hours, wanted)?;
            selected_groups(alloc, &selections.whole, names.as_slice())?
        }
    };
    groups.sort_by(|one, other| one.name().cmp(other.name()))?;
    Ok(groups)
}

// The groups of a report.
fn charged_groups(
    alloc: Global,
    report: &Report,
    names: &[KeyName<'_>],
) -> Result<Vec<Group>, AllocError> {
    let mut groups = Vec::new(alloc);
    for entry in report.entries() {
        groups.push(charged_group(alloc, entry, names)?)?;
    }
    Ok(groups)
}

// A group of a report.
fn charged_group(alloc: Global, entry: &Entry, names: &[KeyName<'_>]) -> Result<Group, AllocError> {
    let text = String::from_str(alloc, entry.group())?;
    let texts = vec![in alloc; text]?;
    let name = shown_group(alloc, names, texts.as_slice())?;
    let costs = Costs {
        billed: entry.billed(),
        effective: entry.direct(),
        charged: entry.charged(),
    };
    Ok(Group::of_fields(name, texts, costs))
}

// The groups of a selection. None is charged, so that ChargedCost is EffectiveCost.
fn selected_groups(
    alloc: Global,
    selection: &Selection,
    names: &[KeyName<'_>],
) -> Result<Vec<Group>, AllocError> {
    let mut groups = Vec::new(alloc);
    for group in selection.groups() {
        let name = shown_group(alloc, names, group.texts())?;
        let mut texts = Vec::new(alloc);
        for text in group.texts() {
            texts.push(String::from_str(alloc, text.as_str())?)?;
        }
        let costs = Costs {
            billed: group.billed(),
            effective: group.effective(),
            charged: group.effective(),
        };
        groups.push(Group::of_fields(name, texts, costs))?;
    }
    Ok(groups)
}
