//! The groups that give their cost away by rules, and those that are given to.
ghost use Rattle.std.specs.Prelude.{◌≡◌, ◌↔◌, Any, Contains, IsTrue};
ghost use Rattle.fw_terms.specs.Groups.{is_from, has_double_from, is_any_from, gives_to_from, has_target_from};
ghost use Rattle.fw_terms.specs.Policy.{froms, targets_of};
ghost use Rattle.fw_terms.specs.PolicyView.{give_view};
ghost use Rattle.fw_terms.specs.Texts.{HasTwice};

use crate::policy::{Give, Rule, Target};

/// Whether a group gives away by one of the rules.
fn is_from(rules: &[Rule], group: &str) -> bool
    ensures { result ≡ is_from rules.now group.now }
{
    for rule in rules {
        if rule.from() == group {
            return true;
        }
    }
    false
}

/// Whether a group is the `from` of two rules, which no policy allows.
pub fn has_double_from(rules: &[Rule]) -> bool
    ensures test { result ≡ has_double_from rules.now }
    ensures meaning { IsTrue result ↔ HasTwice (froms rules.now) }
{
    let mut rest = rules;
    while let [rule, others @ ..] = rest {
        if is_from(others, rule.from()) {
            return true;
        }
        rest = others;
    }
    false
}

/// Whether one of the targets gives away by one of the rules.
fn is_any_from(rules: &[Rule], targets: &[Target]) -> bool
    ensures { result ≡ is_any_from rules.now targets.now }
{
    for target in targets {
        if is_from(rules, target.group()) {
            return true;
        }
    }
    false
}

/// Whether a group that a rule gives to gives away by one of the rules.
fn gives_to_from(rules: &[Rule], give: &Give) -> bool
    ensures { result ≡ gives_to_from rules.now (give_view give.now) }
{
    match give {
        Give::Fixed(targets) => is_any_from(rules, targets),
        Give::Proportional => false,
    }
}

/// Whether a group that is given to is the `from` of a rule, which no policy allows.
pub fn has_target_from(rules: &[Rule]) -> bool
    ensures test { result ≡ has_target_from rules.now rules.now }
    ensures meaning { IsTrue result ↔ Any (λ g. Contains (froms rules.now) g)
        (targets_of rules.now) }
{
    for rule in rules {
        if gives_to_from(rules, rule.give()) {
            return true;
        }
    }
    false
}
