//! The targets of a rule.
ghost use Rattle.std.specs.Prelude.{◌≡◌, ◌⊎◌, ◌<◌, ◌≤◌, ℤ, List, map, length, All, Some, IfOk, MatchOption, MatchResult, pos, string_bytes};
ghost use Rattle.toml.specs.View.{view};
ghost use Rattle.fw_terms.specs.Policy.{IsTarget, most_text, most_weight};
ghost use Rattle.fw_policy.specs.Policy.{IsWeight};
ghost use Rattle.fw_policy.specs.Parts.{IsFault, to_checks, IsSized, weights_of, AreTargetsOf};

use crate::fault::{PolicyFault, PolicyField};
use fw_terms::{Give, Policy, Target};
use fw_toml::{Value, integers};
use std::alloc::Global;

/// A number as a weight, if it is one.
fn weight_of(number: i64) -> Option<u64>
    ensures { MatchOption result (¬ IsWeight number)
        (λ weight. (number ≡ pos weight) × (weight ≤ most_weight)) }
{
    match u64::try_from(number) {
        Ok(weight) if weight <= Target::MOST_WEIGHT => Some(weight),
        _ => None,
    }
}

/// The target of a group and a number.
fn target_of(alloc: Global, named: &(&str, i64)) -> Result<Target, PolicyFault>
    ensures { MatchResult result (λ t. (t.group ≡ named.now.0.now) × (named.now.1 ≡ pos t.weight)
        × IsTarget t) (λ f. (f ≡ PolicyFault.NoMemory)
        ⊎ ((f ≡ PolicyFault.Limit PolicyField.To) × (¬ IsSized (named.now.0.now, named.now.1)))) }
{
    let (group, number) = *named;
    if group.len() > Policy::LONGEST_TEXT {
        return Err(PolicyFault::Limit(PolicyField::To));
    }
    let Some(weight) = weight_of(number) else {
        return Err(PolicyFault::Limit(PolicyField::To));
    };
    Ok(Target::of_fields(String::from_str(alloc, group)?, weight))
}

/// The targets of groups and numbers.
fn all_targets(alloc: Global, weights: &[(&str, i64)]) -> Result<Vec<Target>, PolicyFault>
    ensures { MatchResult result (λ targets.
        (map (λ w. (w.0.now, w.1)) weights.now ≡ weights_of targets.items)
        × All IsTarget targets.items)
        (λ f. (f ≡ PolicyFault.NoMemory)
        ⊎ ((f ≡ PolicyFault.Limit PolicyField.To)
        × (¬ All IsSized (map (λ w. (w.0.now, w.1)) weights.now)))) }
{
    let mut targets = Vec::new(alloc);
    for named in weights {
        targets.push(target_of(alloc, named)?)?;
    }
    Ok(targets)
}

/// The targets under `to`.
pub(crate) fn targets_of(alloc: Global, to: &Value) -> Result<Vec<Target>, PolicyFault>
    ensures { MatchResult result (λ targets. AreTargetsOf (view to.now) targets.items)
        (λ f. IsFault (to_checks (view to.now)) f) }
{
    let Some(weights) = integers(alloc, to)? else {
        return Err(PolicyFault::Field(PolicyField::To));
    };
    if weights.is_empty() || weights.len() > Give::MOST_TARGETS {
        return Err(PolicyFault::Limit(PolicyField::To));
    }
    all_targets(alloc, &weights)
}
