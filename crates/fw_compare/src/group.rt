//! A group of a report.
ghost use Rattle.std.specs.Prelude.{◌≡◌, string_bytes};

use crate::costs::Costs;
use std::marker::Model;

/// A group of a report: its name, the texts that the name is made of, one for each key, and its costs.
#[derive(Debug)]
pub struct Group {
    name: String,
    texts: Vec<String>,
    costs: Costs,
}

impl Drop for Group {
    fn drop(self) {
        let Self {
            name: _,
            texts: _,
            costs: _,
        } = self;
    }
}

impl Model for Group {
    ghost use Rattle.std.specs.Prelude.{string_bytes};
    ghost use Rattle.fw_compare.specs.Groups.{GroupValue};

    ghost Value = { GroupValue };

    ghost view = { λ g. record { name = string_bytes g.name; costs = g.costs } };
}

impl Group {
    /// The group of this name, with these texts and costs. No two groups of a report have one name.
    pub fn of_fields(name: String, texts: Vec<String>, costs: Costs) -> Group
        ensures { result ≡ record { name = string_bytes name; costs = costs } }
    {
        Group { name, texts, costs }
    }

    /// The name, as people see it.
    pub fn name(&self) -> &str
        ensures { result.now ≡ self.now.name }
    {
        self.name.as_str()
    }

    /// The texts of the group, one for each key; empty where its lines have none.
    pub fn texts(&self) -> &[String] {
        self.texts.as_slice()
    }

    /// The costs.
    pub fn costs(&self) -> Costs
        ensures { result ≡ self.now.costs }
    {
        self.costs
    }
}
