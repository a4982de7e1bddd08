//! A report as a value.
ghost use Rattle.std.specs.Prelude.{◌≡◌, string_bytes};
ghost use Rattle.fw_query.specs.Entries.{plain_entry};

use fw_sums::Total;
use std::marker::Model;

/// A group of a report.
#[derive(Debug)]
pub struct Entry {
    group: String,
    billed: i128,
    direct: i128,
    charged: i128,
}

impl Drop for Entry {
    fn drop(self) {
        let Self {
            group: _,
            billed: _,
            direct: _,
            charged: _,
        } = self;
    }
}

impl Model for Entry {
    ghost use Rattle.std.specs.Prelude.{string_bytes};
    ghost use Rattle.fw_query.specs.Reports.{EntryValue};

    ghost Value = { EntryValue };

    ghost view = { λ e. record { group = string_bytes e.group; billed = e.billed; direct = e.direct; charged = e.charged } };
}

impl Entry {
    // The entry of a group that is charged its direct cost.
    pub(crate) fn of_total(total: Total) -> Entry
        ensures { result ≡ plain_entry total }
    {
        let billed = total.billed();
        let direct = total.effective();
        Entry {
            group: total.into_group(),
            billed,
            direct,
            charged: direct,
        }
    }

    /// The group: a text that the key has in the tags of some line, or the empty text for lines without the key.
    pub fn group(&self) -> &str
        ensures { result.now ≡ self.now.group }
    {
        self.group.as_str()
    }

    /// The sum of BilledCost over the lines of the group, in nanos.
    pub fn billed(&self) -> i128
        ensures { result ≡ self.now.billed }
    {
        self.billed
    }

    /// The sum of EffectiveCost over the lines of the group, in nanos.
    pub fn direct(&self) -> i128
        ensures { result ≡ self.now.direct }
    {
        self.direct
    }

    /// The entry of a group that was billed and cost this directly, and is charged this, in nanos.
    pub fn of_charge(group: String, billed: i128, direct: i128, charged: i128) -> Entry
        ensures { result ≡ record {
          group = string_bytes group;
          billed = billed;
          direct = direct;
          charged = charged;
        } }
    {
        Entry {
            group,
            billed,
            direct,
            charged,
        }
    }

    // The group, to keep.
    pub(crate) fn into_group(self) -> String
        ensures { string_bytes result ≡ self.group }
    {
        let Self {
            group,
            billed: _,
            direct: _,
            charged: _,
        } = self;
        group
    }

    /// What the group is charged, in nanos.
    pub fn charged(&self) -> i128
        ensures { result ≡ self.now.charged }
    {
        self.charged
    }
}

/// A report: an entry for each group, in rising byte order of the groups.
#[derive(Debug)]
pub struct Report {
    entries: Vec<Entry>,
}

impl Drop for Report {
    fn drop(self) {
        let Self { entries: _ } = self;
    }
}

impl Model for Report {
    ghost use Rattle.std.specs.Prelude.{List};
    ghost use Rattle.fw_query.specs.Reports.{EntryValue};

    ghost Value = { List EntryValue };

    ghost view = { λ r. r.entries.items };
}

impl Report {
    /// The report with these entries, which are in rising byte order of the groups, each group once.
    pub fn of_entries(entries: Vec<Entry>) -> Report
        ensures { result ≡ entries.items }
    {
        Report { entries }
    }

    /// The entries, in rising byte order of the groups, each group once.
    pub fn entries(&self) -> &[Entry]
        ensures { result.now ≡ self.now }
    {
        self.entries.as_slice()
    }
}
