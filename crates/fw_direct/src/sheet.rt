//! Direct reports of shards, added up period by period and charged.
ghost use Rattle.std.specs.Prelude.{◌≡◌, ◌≤◌, IfOk, map};
ghost use Rattle.std.specs.List.{AllZip};
ghost use Rattle.std.specs.Option.{option_copied};
ghost use Rattle.fw_direct.specs.Parts.{ArePeriodsBy};
ghost use Rattle.fw_direct.specs.Sheets.{IsCharged, IsChargedPart, IsSum};

use crate::part::DirectPart;
use crate::periods::periods_by;
use fw_calendar::{Period, Step};
use fw_series::{Part, Series};
use fw_shards::{AddFault, DirectReport, added, charged_report};
use fw_terms::Policy;
use std::alloc::{AllocError, Global};
use std::marker::Model;

/// A period, and the direct reports that lie in it.
struct Slot {
    period: Period,
    reports: Vec<DirectReport>,
}

impl Drop for Slot {
    fn drop(self) {
        let Self {
            period: _,
            reports: _,
        } = self;
    }
}

impl Model for Slot {
    ghost use Rattle.fw_direct.specs.Sheets.{SlotValue};

    ghost Value = { SlotValue };

    ghost view = { λ s. record {
      period = s.period;
      reports = s.reports.items;
    } };
}

impl Slot {
    // What the direct reports of the period add up to.
    fn sum(&self, alloc: Global) -> Result<DirectReport, AddFault>
        ensures { IfOk result (IsSum self.now.reports) }
    {
        added(alloc, self.reports.as_slice())
    }

    // The report of what the direct reports of the period add up to.
    fn part(&self, alloc: Global, key: &str, policy: Option<&Policy>) -> Result<Part, AddFault>
        ensures { IfOk result (IsChargedPart (option_copied policy.entry) key.now self.now) }
    {
        let sum = added(alloc, self.reports.as_slice())?;
        let report = charged_report(alloc, key, &sum, policy)?;
        Ok(Part {
            period: self.period,
            report,
        })
    }
}

/// The periods of a range of hours, and direct reports that lie in them.
pub struct Sheet {
    step: Option<Step>,
    slots: Vec<Slot>,
}

impl Drop for Sheet {
    fn drop(self) {
        let Self { step: _, slots: _ } = self;
    }
}

impl Model for Sheet {
    ghost use Rattle.fw_direct.specs.Sheets.{SheetValue};

    ghost Value = { SheetValue };

    ghost view = { λ s. record {
      step = s.step;
      slots = s.slots.items;
    } };
}

impl Sheet {
    /// A range of hours, cut by a step where there is one, without reports. The one error is that memory ran out.
    pub fn new(alloc: Global, step: Option<Step>, from: u64, to: u64) -> Result<Sheet, AllocError>
        requires { from ≤ to }
        ensures step { IfOk result (λ sheet. sheet.step ≡ step) }
        ensures periods { IfOk result (λ sheet. ArePeriodsBy step from to
            (map (λ s. s.period) sheet.slots)) }
    {
        let periods = periods_by(alloc, step, from, to)?;
        let mut slots = Vec::new(alloc);
        for period in &periods {
            slots.push(Slot {
                period: *period,
                reports: Vec::new(alloc),
            })?;
        }
        Ok(Sheet { step, slots })
    }

    /// Puts the report of some hours to the period in which they lie; false where they lie in none. The one error is that memory ran out.
    pub fn put(&mut self, part: DirectPart) -> Result<bool, AllocError> {
        match place_of(self.slots.as_slice(), part.period) {
            Some(place) if place < self.slots.len() => {
                self.slots[place].reports.push(part.into_report())?;
                Ok(true)
            }
            _ => Ok(false),
        }
    }

    /// What the reports come to: the report of the range and, where it is cut, those of its periods. Where the reports are those of shards that
    /// together hold what one warehouse would, they are the reports of this one warehouse, under a policy or none. Common costs are shared
    /// period by period.
    ///
    /// # Errors
    /// Those of [`added`], of the range or of a period.
    pub fn series(
        &self,
        alloc: Global,
        key: &str,
        policy: Option<&Policy>,
    ) -> Result<Series, AddFault>
        ensures { IfOk result (IsCharged (option_copied policy.entry) key.now self.now) }
    {
        let sums = sums_of(alloc, self.slots.as_slice())?;
        let sum = added(alloc, sums.as_slice())?;
        let whole = charged_report(alloc, key, &sum, policy)?;
        let parts = match self.step {
            Some(_) => parts_of(alloc, self.slots.as_slice(), key, policy)?,
            None => Vec::new(alloc),
        };
        Ok(Series { whole, parts })
    }
}

// The place of the period in which some hours lie.
fn place_of(slots: &[Slot], hours: Period) -> Option<usize> {
    let place = match slots.binary_search_by(|slot| slot.period.from.cmp(&hours.from)) {
        Ok(place) => place,
        Err(place) => place.checked_sub(1)?,
    };
    let slot = slots.get(place)?;
    if slot.period.from <= hours.from && hours.to <= slot.period.to {
        Some(place)
    } else {
        None
    }
}

// What the reports of each period add up to.
fn sums_of(alloc: Global, slots: &[Slot]) -> Result<Vec<DirectReport>, AddFault>
    ensures { IfOk result (λ sums. AllZip (λ slot sum. IsSum slot.reports sum) slots.now
        sums.items) }
{
    let mut sums = Vec::new(alloc);
    for slot in slots {
        sums.push(slot.sum(alloc)?)?;
    }
    Ok(sums)
}

// The reports of the periods.
fn parts_of(
    alloc: Global,
    slots: &[Slot],
    key: &str,
    policy: Option<&Policy>,
) -> Result<Vec<Part>, AddFault>
    ensures { IfOk result (λ parts. AllZip (IsChargedPart (option_copied policy.entry) key.now)
        slots.now parts.items) }
{
    let mut parts = Vec::new(alloc);
    for slot in slots {
        parts.push(slot.part(alloc, key, policy)?)?;
    }
    Ok(parts)
}
