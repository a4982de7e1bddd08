//! The rules of a policy.
ghost use Rattle.std.specs.Prelude.{◌↔◌, IsTrue, List, map, All, MatchResult};
ghost use Rattle.toml.specs.Data.{Members};
ghost use Rattle.fw_rules.specs.Table.{FirstBroken};
ghost use Rattle.fw_terms.specs.PolicyView.{give_view};
ghost use Rattle.fw_toml.specs.Tree.{HasOnly, stated};
ghost use Rattle.fw_policy.specs.Policy.{from_checks, give_checks, rule_checks, rules_checks, rule_fields};
ghost use Rattle.fw_policy.specs.Parts.{IsFault, IsFrom, IsGiven, IsRuleOf, AreRulesOf};

use crate::fault::{PolicyFault, PolicyField};
use crate::target::targets_of;
use fw_terms::{Give, Policy, Rule};
use fw_toml::{Table, has_only, is_true, member, text};
use std::alloc::Global;

/// The group that gives away.
fn from_of(table: &Table) -> Result<&str, PolicyFault>
    ensures { MatchResult result (λ from. IsFrom (stated table.now) from.now)
        (λ f. FirstBroken (from_checks (stated table.now)) f) }
{
    let Some(from) = text(table, "from") else {
        return Err(PolicyFault::Field(PolicyField::From));
    };
    if from.len() > Policy::LONGEST_TEXT {
        return Err(PolicyFault::Limit(PolicyField::From));
    }
    Ok(from)
}

/// To whom a group's cost is given.
fn give_of(alloc: Global, table: &Table) -> Result<Give, PolicyFault>
    ensures { MatchResult result (λ give. IsGiven (stated table.now) (give_view give))
        (λ f. IsFault (give_checks (stated table.now)) f) }
{
    match (member(table, "to"), member(table, "proportional")) {
        (Some(to), None) => Ok(Give::Fixed(targets_of(alloc, to)?)),
        (None, Some(proportion)) => {
            if is_true(proportion) {
                Ok(Give::Proportional)
            } else {
                Err(PolicyFault::Field(PolicyField::Proportional))
            }
        }
        _ => Err(PolicyFault::Field(PolicyField::Rule)),
    }
}

/// The rule of a table, but for its unknown fields.
fn rule_of(alloc: Global, table: &Table) -> Result<Rule, PolicyFault>
    ensures { MatchResult result (λ rule. IsRuleOf (stated table.now) rule)
        (λ f. IsFault (rule_checks (stated table.now)) f) }
{
    let from = from_of(table)?;
    let give = give_of(alloc, table)?;
    Ok(Rule::of_fields(String::from_str(alloc, from)?, give))
}

/// The rules of tables, one for one.
pub(crate) fn rules_of(alloc: Global, tables: &[&Table]) -> Result<Vec<Rule>, PolicyFault>
    ensures { MatchResult result (λ rules. AreRulesOf
        (map (λ t. stated t.now) tables.now) rules.items)
        (λ f. IsFault (rules_checks (map (λ t. stated t.now) tables.now)) f) }
{
    let mut rules = Vec::new(alloc);
    for table in tables {
        rules.push(rule_of(alloc, table)?)?;
    }
    Ok(rules)
}

/// Whether a table has no field but those of a rule.
#[tactic(auto, unfolding(crate::specs::Policy::rule_fields))]
fn has_rule_fields(table: &Table) -> bool
    ensures { IsTrue result ↔ HasOnly rule_fields (stated table.now) }
{
    has_only(table, &["from", "to", "proportional"])
}

/// Whether tables have no field but those of a rule.
pub(crate) fn have_rule_fields(tables: &[&Table]) -> bool
    ensures { IsTrue result ↔ All (HasOnly rule_fields) (map (λ t. stated t.now) tables.now) }
{
    for table in tables {
        if !has_rule_fields(table) {
            return false;
        }
    }
    true
}
