//! Policies: which groups give their cost away, and to whom.
ghost use Rattle.std.specs.Prelude.{◌≡◌, IfOk, string_bytes};

use fw_charge::Tag;
use std::alloc::{AllocError, Global};
use std::marker::Model;

/// A group that a rule gives to, with its weight.
#[derive(Debug)]
pub struct Target {
    group: String,
    weight: u64,
}

impl Drop for Target {
    fn drop(self) {
        let Self {
            group: _,
            weight: _,
        } = self;
    }
}

impl Model for Target {
    ghost use Rattle.std.specs.Prelude.{string_bytes};
    ghost use Rattle.fw_terms.specs.Policy.{TargetValue};

    ghost Value = { TargetValue };

    ghost view = { λ t. record { group = string_bytes t.group; weight = t.weight } };
}

impl Target {
    /// The greatest weight.
    pub const MOST_WEIGHT: u64 = 1_000_000_000;

    /// The target of this group and weight.
    pub fn of_fields(group: String, weight: u64) -> Target
        ensures group { result.group ≡ string_bytes group }
        ensures weight { result.weight ≡ weight }
    {
        Target { group, weight }
    }

    /// The group that is given to. The empty text is the group of lines without the policy's key.
    pub fn group(&self) -> &str
        ensures { result.now ≡ self.now.group }
    {
        &self.group
    }

    /// The group's weight among the targets of its rule.
    pub fn weight(&self) -> u64
        ensures { result ≡ self.now.weight }
    {
        self.weight
    }

    /// An equal target.
    pub fn copy(&self, alloc: Global) -> Result<Target, AllocError>
        ensures { IfOk result (λ t. t ≡ self.now) }
    {
        Ok(Target {
            group: String::from_str(alloc, &self.group)?,
            weight: self.weight,
        })
    }
}

/// To whom a group's cost is given.
#[derive(Debug)]
pub enum Give {
    /// To these groups, by their weights: in a policy 1 to 256 of them, in rising order of their bytes.
    Fixed(Vec<Target>),
    /// To each group that gives nothing away and has a positive cost of its own, in proportion to these costs.
    Proportional,
}

impl Drop for Give {
    fn drop(self) {
        match self {
            Self::Fixed(_) | Self::Proportional => {}
        }
    }
}

impl Give {
    ghost use Rattle.fw_terms.specs.PolicyView.{give_view};

    /// The most targets of a rule.
    pub const MOST_TARGETS: usize = 256;

    /// An equal value.
    pub fn copy(&self, alloc: Global) -> Result<Give, AllocError>
        ensures { IfOk result (λ g. give_view g ≡ give_view self.now) }
    {
        match self {
            Give::Fixed(targets) => Ok(Give::Fixed(copy_targets(alloc, targets)?)),
            Give::Proportional => Ok(Give::Proportional),
        }
    }
}

fn copy_targets(alloc: Global, targets: &[Target]) -> Result<Vec<Target>, AllocError>
    ensures { IfOk result (λ copies. copies.items ≡ targets.now) }
{
    let mut copies = Vec::with_capacity(alloc, targets.len())?;
    for target in targets {
        copies.push(target.copy(alloc)?)?;
    }
    Ok(copies)
}

/// One group that gives its whole cost away, and to whom.
#[derive(Debug)]
pub struct Rule {
    from: String,
    give: Give,
}

impl Drop for Rule {
    fn drop(self) {
        let Self { from: _, give: _ } = self;
    }
}

impl Model for Rule {
    ghost use Rattle.std.specs.Prelude.{string_bytes};
    ghost use Rattle.fw_terms.specs.Policy.{RuleValue};

    ghost Value = { RuleValue };

    ghost use Rattle.fw_terms.specs.PolicyView.{give_view};

    ghost view = { λ r. record { from = string_bytes r.from; give = give_view r.give } };
}

impl Rule {
    ghost use Rattle.fw_terms.specs.PolicyView.{give_view};

    /// The rule by which this group gives its cost away.
    pub fn of_fields(from: String, give: Give) -> Rule
        ensures from { result.from ≡ string_bytes from }
        ensures give { result.give ≡ give_view give }
    {
        Rule { from, give }
    }

    /// The group that gives its cost away. The empty text is the group of lines without the policy's key.
    pub fn from(&self) -> &str
        ensures { result.now ≡ self.now.from }
    {
        &self.from
    }

    /// To whom the group's cost is given.
    pub fn give(&self) -> &Give
        ensures { give_view result.now ≡ self.now.give }
    {
        &self.give
    }

    /// An equal rule.
    pub fn copy(&self, alloc: Global) -> Result<Rule, AllocError>
        ensures { IfOk result (λ r. r ≡ self.now) }
    {
        let from = String::from_str(alloc, &self.from)?;
        let give = self.give.copy(alloc)?;
        Ok(Rule { from, give })
    }
}

fn copy_rules(alloc: Global, rules: &[Rule]) -> Result<Vec<Rule>, AllocError>
    ensures { IfOk result (λ copies. copies.items ≡ rules.now) }
{
    let mut copies = Vec::with_capacity(alloc, rules.len())?;
    for rule in rules {
        copies.push(rule.copy(alloc)?)?;
    }
    Ok(copies)
}

/// How costs are shared out among the groups of one tag key. No group gives its cost away twice, and none that does is given to.
#[derive(Debug)]
pub struct Policy {
    key: String,
    rules: Vec<Rule>,
}

impl Drop for Policy {
    fn drop(self) {
        let Self { key: _, rules: _ } = self;
    }
}

impl Model for Policy {
    ghost use Rattle.std.specs.Prelude.{string_bytes};
    ghost use Rattle.fw_terms.specs.Policy.{PolicyValue, IsPolicy, policy_value};

    ghost Value = { PolicyValue };

    ghost view = { λ p. policy_value (string_bytes p.key) p.rules.items };

    ghost invariant = { λ p. IsPolicy (policy_value (string_bytes p.key) p.rules.items) };
}

impl Policy {
    ghost use Rattle.fw_terms.specs.Policy.{IsPolicy, policy_value};

    /// The most bytes of a policy's key, and of a group: those of a tag.
    pub const LONGEST_TEXT: usize = Tag::LONGEST;

    /// The most rules of a policy.
    pub const MOST_RULES: usize = 64;

    /// The policy of this key and these rules. The key has 1 to 1,024 bytes; there are at most 64 rules; a group has at most 1,024 bytes;
    /// each rule with targets has 1 to 256 of them, in rising order of their bytes, each of a weight of at most 1,000,000,000; no group gives
    /// away twice, and no target gives away.
    pub fn of_fields(key: String, rules: Vec<Rule>) -> Policy
        requires { IsPolicy (policy_value (string_bytes key) rules.items) }
        ensures { result ≡ policy_value (string_bytes key) rules.items }
    {
        Policy { key, rules }
    }

    /// The tag key whose values are the groups.
    pub fn key(&self) -> &str
        ensures value { result.now ≡ self.now.key }
        ensures in_limits { IsPolicy self.now }
    {
        &self.key
    }

    /// The rules, in the order in which they were given.
    pub fn rules(&self) -> &[Rule]
        ensures value { result.now ≡ self.now.rules }
        ensures in_limits { IsPolicy self.now }
    {
        &self.rules
    }

    /// An equal policy.
    pub fn copy(&self, alloc: Global) -> Result<Policy, AllocError>
        ensures { IfOk result (λ p. p ≡ self.now) }
    {
        let key = String::from_str(alloc, &self.key)?;
        let rules = copy_rules(alloc, &self.rules)?;
        Ok(Policy { key, rules })
    }
}
