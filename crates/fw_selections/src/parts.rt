//! The selections of the periods of a range.
ghost use Rattle.std.specs.Prelude.{◌≡◌, ◌<◌, IfOk};
ghost use Rattle.fw_select.specs.Selections.{IsSelection};
ghost use Rattle.fw_selections.specs.Parts.{AreParts, ArePartsBy, IsPartSelection};

use fw_calendar::{Period, Step, periods};
use fw_query::QueryFault;
use fw_select::{Selection, Selector, selected};
use fw_snapshot::Snapshot;
use std::alloc::Global;

/// A period of a range, and its selection.
#[derive(Debug)]
pub struct SelectedPart {
    /// The hours of the period.
    pub period: Period,
    /// The selection of the lines of these hours.
    pub selection: Selection,
}

impl Drop for SelectedPart {
    fn drop(self) {
        let Self {
            period: _,
            selection: _,
        } = self;
    }
}

/// The selection of a range of hours, and those of the periods that it is cut into.
#[derive(Debug)]
pub struct Selections {
    /// The selection of the whole range.
    pub whole: Selection,
    /// The periods in order, each with its selection; none where the range isn't cut.
    pub parts: Vec<SelectedPart>,
}

impl Drop for Selections {
    fn drop(self) {
        let Self { whole: _, parts: _ } = self;
    }
}

/// What the lines of a range of hours come to that a selector takes and, where there is a step, what those of each period of the range do.
///
/// # Errors
/// `Range` where the range has no hour or more than 26,304; `TotalTooLarge` where the costs of the range or of a period pass 10^19 nanos;
/// `NoMemory` where memory ran out.
pub fn selections_of(
    alloc: Global,
    snapshot: &Snapshot,
    selector: &Selector<'_, '_, '_>,
    hours: Period,
    step: Option<Step>,
) -> Result<Selections, QueryFault>
    ensures whole { IfOk result (λ selections.
        IsSelection snapshot.now.entries selector.now hours.from hours.to selections.whole) }
    ensures parts { IfOk result (λ selections. ArePartsBy snapshot.now.entries selector.now
        hours.from hours.to step selections.parts.items) }
{
    let whole = selected(alloc, snapshot, selector, hours.from, hours.to)?;
    let parts = match step {
        Some(step) => parts_of(alloc, snapshot, selector, hours, step)?,
        None => Vec::new(alloc),
    };
    Ok(Selections { whole, parts })
}

// The periods of a range, each with its selection.
fn parts_of(
    alloc: Global,
    snapshot: &Snapshot,
    selector: &Selector<'_, '_, '_>,
    hours: Period,
    step: Step,
) -> Result<Vec<SelectedPart>, QueryFault>
    requires { hours.from < hours.to }
    ensures { IfOk result (λ parts.
        AreParts snapshot.now.entries selector.now hours.from hours.to step parts.items) }
{
    let periods = periods(alloc, step, hours.from, hours.to)?;
    let mut parts = Vec::new(alloc);
    for period in &periods {
        match part_of(alloc, snapshot, selector, *period) {
            Ok(part) => parts.push(part)?,
            Err(fault) => return Err(fault),
        }
    }
    Ok(parts)
}

// A period and its selection.
fn part_of(
    alloc: Global,
    snapshot: &Snapshot,
    selector: &Selector<'_, '_, '_>,
    period: Period,
) -> Result<SelectedPart, QueryFault>
    ensures period { IfOk result (λ part. part.period ≡ period) }
    ensures selection { IfOk result (IsPartSelection snapshot.now.entries selector.now) }
{
    let selection = selected(alloc, snapshot, selector, period.from, period.to)?;
    Ok(SelectedPart { period, selection })
}
