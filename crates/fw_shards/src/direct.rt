//! Direct reports as values.
ghost use Rattle.std.specs.Prelude.{◌≡◌, ◌+ℤ◌, ◌<◌, ◌^◌, IfOk, map, nat_abs, string_bytes};
ghost use Rattle.fw_shards.specs.Added.{direct_of};
ghost use Rattle.fw_shards.specs.Entries.{cost_of_total};

use fw_query::{Entry, Report};
use fw_sums::Total;
use std::alloc::{AllocError, Global};
use std::marker::Model;

/// A group of a direct report: what its lines come to, under no policy.
#[derive(Debug)]
pub struct Direct {
    group: String,
    billed: i128,
    direct: i128,
}

impl Drop for Direct {
    fn drop(self) {
        let Self {
            group: _,
            billed: _,
            direct: _,
        } = self;
    }
}

impl Model for Direct {
    ghost use Rattle.std.specs.Prelude.{string_bytes};
    ghost use Rattle.fw_sums.specs.Costs.{Cost};

    ghost Value = { Cost };

    ghost view = { λ d. record {
      group = string_bytes d.group;
      billed = d.billed;
      effective = d.direct;
    } };
}

impl Direct {
    /// The group with these sums of BilledCost and EffectiveCost, in nanos.
    pub fn of_fields(group: String, billed: i128, direct: i128) -> Direct
        ensures { result ≡ record {
          group = string_bytes group;
          billed = billed;
          effective = direct;
        } }
    {
        Direct {
            group,
            billed,
            direct,
        }
    }

    /// The group: a text that the key has in the tags of some line, or the empty text for lines without the key.
    pub fn group(&self) -> &str
        ensures { result.now ≡ self.now.group }
    {
        self.group.as_str()
    }

    /// The sum of BilledCost over the lines of the group, in nanos.
    pub fn billed(&self) -> i128
        ensures { result ≡ self.now.billed }
    {
        self.billed
    }

    /// The sum of EffectiveCost over the lines of the group, in nanos.
    pub fn direct(&self) -> i128
        ensures { result ≡ self.now.effective }
    {
        self.direct
    }

    // The group of a total.
    pub(crate) fn of_total(total: Total) -> Direct
        ensures { result ≡ cost_of_total total }
    {
        let billed = total.billed();
        let direct = total.effective();
        Direct::of_fields(total.into_group(), billed, direct)
    }

    // An equal group.
    pub(crate) fn copy(&self, alloc: Global) -> Result<Direct, AllocError>
        ensures { IfOk result (λ copy. copy ≡ self.now) }
    {
        Ok(Direct {
            group: String::from_str(alloc, self.group.as_str())?,
            billed: self.billed,
            direct: self.direct,
        })
    }

    // Adds the sums of another report.
    pub(crate) fn add(&mut self, other: &Direct)
        requires billed { nat_abs (self.old.billed +ℤ other.now.billed) < 2 ^ 127 }
        requires direct { nat_abs (self.old.effective +ℤ other.now.effective) < 2 ^ 127 }
        ensures group { self.new.group ≡ self.old.group }
        ensures billed { self.new.billed ≡ self.old.billed +ℤ other.now.billed }
        ensures direct { self.new.effective ≡ self.old.effective +ℤ other.now.effective }
    {
        self.billed += other.billed;
        self.direct += other.direct;
    }

    // The group, to keep.
    pub(crate) fn into_group(self) -> String
        ensures { string_bytes result ≡ self.group }
    {
        let Self {
            group,
            billed: _,
            direct: _,
        } = self;
        group
    }
}

/// A direct report: what the lines of each group come to in some hours, under no policy. What a shard answers is one, and so is what
/// [`added`](crate::added) makes of these.
#[derive(Debug)]
pub struct DirectReport {
    entries: Vec<Direct>,
}

impl Drop for DirectReport {
    fn drop(self) {
        let Self { entries: _ } = self;
    }
}

impl Model for DirectReport {
    ghost use Rattle.std.specs.Prelude.{List};
    ghost use Rattle.fw_sums.specs.Costs.{Cost};

    ghost Value = { List Cost };

    ghost view = { λ r. r.entries.items };
}

impl DirectReport {
    /// The report with these entries.
    pub fn of_entries(entries: Vec<Direct>) -> DirectReport
        ensures { result ≡ entries.items }
    {
        DirectReport { entries }
    }

    /// What a report has but for what its groups are charged. Where no policy for the report's key was set, it is a direct report.
    pub fn of_report(alloc: Global, report: &Report) -> Result<DirectReport, AllocError>
        ensures { IfOk result (λ direct. direct ≡ map direct_of report.now) }
    {
        Ok(DirectReport {
            entries: direct_entries(alloc, report.entries())?,
        })
    }

    /// The entries.
    pub fn entries(&self) -> &[Direct]
        ensures { result.now ≡ self.now }
    {
        self.entries.as_slice()
    }
}

// The entries of a report but for what they are charged.
fn direct_entries(alloc: Global, entries: &[Entry]) -> Result<Vec<Direct>, AllocError>
    ensures { IfOk result (λ direct. direct.items ≡ map direct_of entries.now) }
{
    let mut direct = Vec::new(alloc);
    for entry in entries {
        let group = String::from_str(alloc, entry.group())?;
        direct.push(Direct::of_fields(group, entry.billed(), entry.direct()))?;
    }
    Ok(direct)
}
