//! What the lines of a group come to.
ghost use Rattle.std.specs.Prelude.{◌≡◌, map, string_bytes};
ghost use Rattle.fw_select.specs.Table.{texts_of};

use std::marker::Model;

/// What the lines of a group come to.
#[derive(Debug)]
pub struct Group {
    texts: Vec<String>,
    billed: i128,
    effective: i128,
    amount: i128,
}

impl Drop for Group {
    fn drop(self) {
        let Self {
            texts: _,
            billed: _,
            effective: _,
            amount: _,
        } = self;
    }
}

impl Model for Group {
    ghost use Rattle.std.specs.Prelude.{map, string_bytes};
    ghost use Rattle.fw_select.specs.Groups.{GroupCost};

    ghost Value = { GroupCost };

    ghost view = { λ g. record { group = map string_bytes g.texts.items; billed = g.billed; effective = g.effective; amount = g.amount } };
}

impl Group {
    // The group with these texts and sums.
    pub(crate) fn of_sums(texts: Vec<String>, billed: i128, effective: i128, amount: i128) -> Group
        ensures { result ≡ record {
          group = map string_bytes texts.items;
          billed = billed;
          effective = effective;
          amount = amount;
        } }
    {
        Group {
            texts,
            billed,
            effective,
            amount,
        }
    }

    // The texts of the group, as they are kept.
    pub(crate) fn kept(&self) -> &Vec<String>
        ensures { texts_of result.now ≡ self.now.group }
    {
        &self.texts
    }

    /// The texts of the group: one for each key, empty where the lines have none.
    pub fn texts(&self) -> &[String]
        ensures { map string_bytes result.now ≡ self.now.group }
    {
        self.texts.as_slice()
    }

    /// The sum of BilledCost over the lines of the group, in nanos.
    pub fn billed(&self) -> i128
        ensures { result ≡ self.now.billed }
    {
        self.billed
    }

    /// The sum of EffectiveCost over the lines of the group, in nanos.
    pub fn effective(&self) -> i128
        ensures { result ≡ self.now.effective }
    {
        self.effective
    }

    /// The sum of an amount that stands beside the costs, in nanos: 0 where [`Selection::with_amounts`] put none there.
    pub fn amount(&self) -> i128
        ensures { result ≡ self.now.amount }
    {
        self.amount
    }
}
