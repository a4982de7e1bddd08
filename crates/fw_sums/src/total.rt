//! What the lines of a group come to.
ghost use Rattle.std.specs.Prelude.{◌≡◌, string_bytes};

use std::marker::Model;

/// What the lines of a group come to.
#[derive(Debug)]
pub struct Total {
    group: String,
    billed: i128,
    effective: i128,
}

impl Drop for Total {
    fn drop(self) {
        let Self {
            group: _,
            billed: _,
            effective: _,
        } = self;
    }
}

impl Model for Total {
    ghost use Rattle.std.specs.Prelude.{string_bytes};
    ghost use Rattle.fw_sums.specs.Costs.{Cost};

    ghost Value = { Cost };

    ghost view = { λ t. record { group = string_bytes t.group; billed = t.billed; effective = t.effective } };
}

impl Total {
    // The total of a group with these sums.
    pub(crate) fn of_sums(group: String, billed: i128, effective: i128) -> Total
        ensures { result ≡ record {
          group = string_bytes group;
          billed = billed;
          effective = effective;
        } }
    {
        Total {
            group,
            billed,
            effective,
        }
    }

    /// The sum of BilledCost over the lines of the group, in nanos.
    pub fn billed(&self) -> i128
        ensures { result ≡ self.now.billed }
    {
        self.billed
    }

    /// The sum of EffectiveCost over the lines of the group, in nanos.
    pub fn effective(&self) -> i128
        ensures { result ≡ self.now.effective }
    {
        self.effective
    }

    /// The group, to keep: a text that the key has in the tags of some line, or the empty text for lines without the key.
    pub fn into_group(self) -> String
        ensures { string_bytes result ≡ self.group }
    {
        let Self {
            group,
            billed: _,
            effective: _,
        } = self;
        group
    }
}
