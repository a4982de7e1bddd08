//! The reader of a policy.
ghost use Rattle.std.specs.Prelude.{◌≡◌, string_bytes};
ghost use Rattle.fw_bytes.specs.Reading.{Gives};
ghost use Rattle.fw_terms.specs.PolicyView.{give_view};
ghost use Rattle.fw_terms_bytes.specs.Reading.{key_at, weight_at, target_at, targets_at, give_at, rule_at, rules_at, parts_at, targets_rise, all_rise, rules_agree, policy_at};

use crate::lists::{Item, list_of};
use crate::order::names_rise;
use fw_bytes::{ReadError, str_at, u64_at};
use fw_fields::tag_text_of;
use fw_terms::{Give, Policy, Rule, Target, has_double_from, has_target_from};
use std::alloc::Global;

/// The tag key whose values are the groups.
#[tactic(auto, unfolding(crate::specs::Reading::key_at, fw_bytes::specs::Reading::checked))]
fn key_of(alloc: Global, bytes: &[u8]) -> Result<(String, &[u8]), ReadError>
    ensures { Gives (λ x. (string_bytes x.0, x.1.now)) result (key_at bytes.now) }
{
    let (key, rest) = str_at(bytes)?;
    if key.is_empty() || key.len() > Policy::LONGEST_TEXT {
        return Err(ReadError::Corrupt(bytes.len()));
    }
    Ok((String::from_str(alloc, key)?, rest))
}

/// The weight of a target.
#[tactic(auto, unfolding(crate::specs::Reading::weight_at, fw_bytes::specs::Reading::checked))]
fn weight_of(bytes: &[u8]) -> Result<(u64, &[u8]), ReadError>
    ensures { Gives (λ x. (x.0, x.1.now)) result (weight_at bytes.now) }
{
    let (weight, rest) = u64_at(bytes)?;
    if weight > Target::MOST_WEIGHT {
        return Err(ReadError::Corrupt(bytes.len()));
    }
    Ok((weight, rest))
}

impl Item for Target {
    ghost item_at = { target_at };

    #[tactic(auto, unfolding(crate::specs::Reading::target_at, fw_bytes::specs::Reading::both, fw_bytes::specs::Reading::seen))]
    fn read(alloc: Global, bytes: &[u8]) -> Result<(Target, &[u8]), ReadError> {
        let (group, rest) = tag_text_of(alloc, bytes)?;
        let (weight, rest) = weight_of(rest)?;
        Ok((Target::of_fields(group, weight), rest))
    }
}

/// To whom a group's cost is given.
#[tactic(auto, unfolding(crate::specs::Reading::give_at, crate::specs::Reading::targets_at, fw_bytes::specs::Reading::seen))]
fn give_of(alloc: Global, bytes: &[u8]) -> Result<(Give, &[u8]), ReadError>
    ensures { Gives (λ x. (give_view x.0, x.1.now)) result (give_at bytes.now) }
{
    match bytes {
        [1, rest @ ..] => {
            let (targets, rest) = list_of(alloc, 1, Give::MOST_TARGETS as u32, rest)?;
            Ok((Give::Fixed(targets), rest))
        }
        [2, rest @ ..] => Ok((Give::Proportional, rest)),
        _ => Err(ReadError::Corrupt(bytes.len())),
    }
}

impl Item for Rule {
    ghost item_at = { rule_at };

    #[tactic(auto, unfolding(crate::specs::Reading::rule_at, fw_bytes::specs::Reading::both, fw_bytes::specs::Reading::seen))]
    fn read(alloc: Global, bytes: &[u8]) -> Result<(Rule, &[u8]), ReadError> {
        let (from, rest) = tag_text_of(alloc, bytes)?;
        let (give, rest) = give_of(alloc, rest)?;
        Ok((Rule::of_fields(from, give), rest))
    }
}

/// Whether the targets of a rule stand in rising order.
fn targets_rise(give: &Give) -> bool
    ensures { result ≡ targets_rise (give_view give.now) }
{
    match give {
        Give::Fixed(targets) => names_rise(targets),
        Give::Proportional => true,
    }
}

/// Whether the targets of each rule do.
fn all_rise(rules: &[Rule]) -> bool
    ensures { result ≡ all_rise rules.now }
{
    for rule in rules {
        if !targets_rise(rule.give()) {
            return false;
        }
    }
    true
}

/// Whether the rules over several fields hold.
fn rules_agree(rules: &[Rule]) -> bool
    ensures { result ≡ rules_agree rules.now }
{
    all_rise(rules) && !has_double_from(rules) && !has_target_from(rules)
}

/// The key and the rules of a policy.
#[tactic(auto, unfolding(crate::specs::Reading::parts_at, crate::specs::Reading::rules_at, fw_bytes::specs::Reading::both))]
fn parts_of(alloc: Global, bytes: &[u8]) -> Result<((String, Vec<Rule>), &[u8]), ReadError>
    ensures { Gives (λ x. ((string_bytes x.0.0, x.0.1.items), x.1.now)) result
        (parts_at bytes.now) }
{
    let (key, rest) = key_of(alloc, bytes)?;
    let (rules, rest) = list_of(alloc, 0, Policy::MOST_RULES as u32, rest)?;
    Ok(((key, rules), rest))
}

/// A policy, and the bytes after it.
///
/// # Errors
/// [`ReadError::Corrupt`] at the first field that is cut off or out of its range, a list's count among them; where there is none, at the
/// policy's first byte where the targets of a rule don't stand in rising order of their bytes, where a group gives away twice, or where a
/// group that is given to gives away. [`ReadError::NoMemory`] where there is no memory for the policy, reported where it runs out: a fault of a
/// later field isn't looked for.
pub fn policy_of(alloc: Global, bytes: &[u8]) -> Result<(Policy, &[u8]), ReadError>
    ensures { Gives (λ x. (x.0, x.1.now)) result (policy_at bytes.now) }
{
    let ((key, rules), rest) = parts_of(alloc, bytes)?;
    if !rules_agree(&rules) {
        return Err(ReadError::Corrupt(bytes.len()));
    }
    Ok((Policy::of_fields(key, rules), rest))
}
