//! The cost of a group.
ghost use Rattle.std.specs.Prelude.{◌≡◌, string_bytes};

use std::marker::Model;

/// A group and its cost.
#[derive(Debug)]
pub struct Cost {
    group: String,
    cost: i128,
}

impl Drop for Cost {
    fn drop(self) {
        let Self { group: _, cost: _ } = self;
    }
}

impl Model for Cost {
    ghost use Rattle.std.specs.Prelude.{string_bytes};
    ghost use Rattle.fw_allocate.specs.Costs.{CostValue};

    ghost Value = { CostValue };

    ghost view = { λ c. record { group = string_bytes c.group; cost = c.cost } };
}

impl Cost {
    /// The cost of this group, in nanos.
    pub fn of_fields(group: String, cost: i128) -> Cost
        ensures group { result.group ≡ string_bytes group }
        ensures cost { result.cost ≡ cost }
    {
        Cost { group, cost }
    }

    /// The group: the text under the policy's key, or the empty text for lines without it.
    pub fn group(&self) -> &str
        ensures { result.now ≡ self.now.group }
    {
        &self.group
    }

    /// The group's cost, in nanos.
    pub fn cost(&self) -> i128
        ensures { result ≡ self.now.cost }
    {
        self.cost
    }
}
