//! What the rules of a policy move.
ghost use Rattle.std.specs.Prelude.{◌≡◌, ◌≤◌, ◌^◌, IfOk, map, sum, pos, IsTrue, unsigned_abs};
ghost use Rattle.fw_allocate.specs.Charges.{IsGift, brought_to, gives, receivers, taken_from, takes_part, weights};
ghost use Rattle.fw_allocate.specs.Costs.{groups_in, size_of};
ghost use Rattle.fw_allocate.specs.GiftView.{IsGiftSized, texts};
ghost use Rattle.fw_shares.specs.Shares.{magnitudes};
ghost use Rattle.fw_terms.specs.Policy.{IsGive, IsRule, proportional};
ghost use Rattle.fw_terms.specs.PolicyView.{give_view};
ghost use Rattle.fw_terms.specs.Texts.{IsRising};

use crate::cost::Cost;
use crate::search::{amount_of, cost_in};
use fw_shares::share;
use fw_terms::{Give, Rule, Target};
use std::alloc::{AllocError, Global};
use std::marker::Model;

/// What a rule moves: the cost that a group gives away, and the shares of it that other groups get.
pub struct Gift<'a> {
    from: &'a str,
    given: i128,
    groups: Vec<&'a str>,
    shares: Vec<i128>,
}

impl Drop for Gift<'_> {
    fn drop(self) {
        let Self {
            from: _,
            given: _,
            groups: _,
            shares: _,
        } = self;
    }
}

impl<'a> Model for Gift<'a> {
    ghost use Rattle.fw_allocate.specs.Charges.{GiftValue};

    ghost Value = { GiftValue };

    ghost use Rattle.fw_allocate.specs.GiftView.{IsGiftSized, texts};

    ghost view = { λ g. record { from = g.from.now; given = g.given; groups = texts g.groups.items; shares = g.shares.items } };

    ghost invariant = { λ g. IsGiftSized (record { from = g.from.now; given = g.given; groups = texts g.groups.items; shares = g.shares.items }) };
}

impl<'a> Gift<'a> {
    /// What a rule moves.
    pub fn of_rule(
        alloc: Global,
        direct: &'a [Cost],
        rules: &[Rule],
        rule: &'a Rule,
    ) -> Result<Gift<'a>, AllocError>
        requires rising { IsRising (groups_in direct.now) }
        requires small { size_of direct.now ≤ 10 ^ 19 }
        requires in_limits { IsRule rule.now }
        ensures { IfOk result (λ gift. IsGift direct.now rules.now rule.now gift) }
    {
        let receivers = Receivers::of_give(alloc, direct, rules, rule.give())?;
        let from = rule.from();
        let Receivers { groups, weights } = receivers;
        if weight_sum(&weights) == 0 {
            let shares = Vec::new(alloc);
            return Ok(Gift {
                from,
                given: 0,
                groups,
                shares,
            });
        }
        let given = cost_in(direct, from);
        let shares = share(alloc, given, &weights)?;
        Ok(Gift {
            from,
            given,
            groups,
            shares,
        })
    }

    /// What the gift takes from a group, in nanos.
    pub fn taken_from(&self, group: &str) -> i128
        ensures taken { result ≡ taken_from group.now self.now }
        ensures small { unsigned_abs result ≤ 10 ^ 19 }
    {
        if self.from == group { self.given } else { 0 }
    }

    /// What the gift brings to a group, in nanos.
    pub fn brought_to(&self, group: &str) -> i128
        ensures brought { result ≡ brought_to group.now self.now }
        ensures small { unsigned_abs result ≤ 10 ^ 19 }
    {
        amount_of(&self.groups, &self.shares, group)
    }
}

/// The groups that a rule gives to, in rising order, and their weights.
struct Receivers<'a> {
    groups: Vec<&'a str>,
    weights: Vec<i128>,
}

impl<'a> Receivers<'a> {
    /// Those of a rule.
    fn of_give(
        alloc: Global,
        direct: &'a [Cost],
        rules: &[Rule],
        give: &'a Give,
    ) -> Result<Receivers<'a>, AllocError>
        ensures groups { IfOk result (λ r. texts r.groups.items
            ≡ receivers direct.now rules.now (give_view give.now)) }
        ensures weights { IfOk result (λ r. r.weights.items
            ≡ weights direct.now rules.now (give_view give.now)) }
    {
        match give {
            Give::Fixed(targets) => Receivers::of_targets(alloc, targets),
            Give::Proportional => Receivers::in_proportion(alloc, direct, rules),
        }
    }

    /// The groups that a rule names, by the weights that it gives them.
    fn of_targets(alloc: Global, targets: &'a [Target]) -> Result<Receivers<'a>, AllocError>
        ensures groups { IfOk result (λ r. texts r.groups.items ≡ map (λ t. t.group) targets.now) }
        ensures weights { IfOk result (λ r. r.weights.items ≡ map (λ t. pos t.weight) targets.now) }
    {
        let mut groups = Vec::with_capacity(alloc, targets.len())?;
        let mut weights = Vec::with_capacity(alloc, targets.len())?;
        for target in targets {
            groups.push(target.group())?;
            weights.push(i128::from(target.weight()))?;
        }
        Ok(Receivers { groups, weights })
    }

    /// The groups with a positive cost that no rule gives away, by these costs.
    fn in_proportion(
        alloc: Global,
        direct: &'a [Cost],
        rules: &[Rule],
    ) -> Result<Receivers<'a>, AllocError>
        ensures groups { IfOk result (λ r. texts r.groups.items
            ≡ receivers direct.now rules.now proportional) }
        ensures weights { IfOk result (λ r. r.weights.items
            ≡ weights direct.now rules.now proportional) }
    {
        let mut groups = Vec::new(alloc);
        let mut weights = Vec::new(alloc);
        for cost in direct {
            if !takes_part(rules, cost) {
                continue;
            }
            groups.push(cost.group())?;
            weights.push(cost.cost())?;
        }
        Ok(Receivers { groups, weights })
    }
}

/// Whether a group is given to in proportion: its cost is positive, and no rule gives that away.
fn takes_part(rules: &[Rule], cost: &Cost) -> bool
    ensures { result ≡ takes_part rules.now cost.now }
{
    cost.cost() > 0 && !gives(rules, cost.group())
}

/// Whether some rule gives the cost of a group away.
fn gives(rules: &[Rule], group: &str) -> bool
    ensures { result ≡ gives rules.now group.now }
{
    rules.iter().any(|rule| rule.from() == group)
}

/// The sum of the weights.
fn weight_sum(weights: &[i128]) -> u128
    requires { sum (magnitudes weights.now) ≤ 10 ^ 19 }
    ensures { result ≡ sum (magnitudes weights.now) }
{
    weights.iter().map(|weight| weight.unsigned_abs()).sum()
}
