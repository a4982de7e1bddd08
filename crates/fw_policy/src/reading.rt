//! How a text reads as a policy.
ghost use Rattle.std.specs.Prelude.{◌≡◌, ◌↔◌, IsTrue, List, All, map, MatchResult};
ghost use Rattle.fw_rules.specs.Table.{FirstBroken};
ghost use Rattle.fw_toml.specs.Tree.{HasOnly, stated};
ghost use Rattle.fw_policy.specs.Policy.{PolicyReads, key_checks, array_checks, policy_fields, rule_fields};
ghost use Rattle.fw_policy.specs.Parts.{IsFault, IsKey, AreRuleTables, TableGives};

use crate::fault::{PolicyFault, PolicyField};
use crate::rule::{have_rule_fields, rules_of};
use fw_terms::{Policy, has_double_from, has_target_from};
use fw_toml::{Table, TableFault, has_only, member, table_of, tables, text};
use std::alloc::Global;

/// The tag key.
fn key_of(table: &Table) -> Result<&str, PolicyFault>
    ensures { MatchResult result (λ key. IsKey (stated table.now) key.now)
        (λ f. FirstBroken (key_checks (stated table.now)) f) }
{
    let Some(key) = text(table, "key") else {
        return Err(PolicyFault::Field(PolicyField::Key));
    };
    if key.is_empty() || key.len() > Policy::LONGEST_TEXT {
        return Err(PolicyFault::Limit(PolicyField::Key));
    }
    Ok(key)
}

/// The tables of the rules.
fn rule_tables(alloc: Global, table: &Table) -> Result<Vec<&Table>, PolicyFault>
    ensures { MatchResult result (λ rules. AreRuleTables (stated table.now)
        (map (λ t. stated t.now) rules.items)) (λ f. IsFault (array_checks (stated table.now)) f) }
{
    let Some(array) = member(table, "rule") else {
        return Ok(Vec::new(alloc));
    };
    let Some(rules) = tables(alloc, array)? else {
        return Err(PolicyFault::Field(PolicyField::Rule));
    };
    if rules.len() > Policy::MOST_RULES {
        return Err(PolicyFault::Limit(PolicyField::Rule));
    }
    Ok(rules)
}

/// Whether a table has no field but those of a policy.
#[tactic(auto, unfolding(crate::specs::Policy::policy_fields))]
fn has_policy_fields(table: &Table) -> bool
    ensures { IsTrue result ↔ HasOnly policy_fields (stated table.now) }
{
    has_only(table, &["key", "rule"])
}

/// Whether neither a table nor those of its rules have a field that is unknown.
fn has_only_known(table: &Table, rules: &[&Table]) -> bool
    ensures { IsTrue result ↔ (HasOnly policy_fields (stated table.now)
        × All (HasOnly rule_fields) (map (λ t. stated t.now) rules.now)) }
{
    has_policy_fields(table) && have_rule_fields(rules)
}

/// What a table reads as.
fn policy_of(alloc: Global, table: &Table) -> Result<Policy, PolicyFault>
    ensures { TableGives (stated table.now) result }
{
    let key = key_of(table)?;
    let tables = rule_tables(alloc, table)?;
    let rules = rules_of(alloc, &tables)?;
    if !has_only_known(table, &tables) {
        return Err(PolicyFault::Field(PolicyField::Unknown));
    }
    if has_double_from(&rules) {
        return Err(PolicyFault::DoubleFrom);
    }
    if has_target_from(&rules) {
        return Err(PolicyFault::TargetIsFrom);
    }
    Ok(Policy::of_fields(String::from_str(alloc, key)?, rules))
}

/// Reads the policy of a TOML text.
///
/// Where the text is not UTF-8 or no TOML document, that is `Syntax`. Else the fields are checked in this order, and the first fault is
/// the answer: `key`, a text of 1 to [`Policy::LONGEST_TEXT`] bytes; `rule`, which may be absent, an array of at most
/// [`Policy::MOST_RULES`] tables; and in each of them in turn `from`, a text as long at most, and one of `to`, a table of 1 to
/// [`Give::MOST_TARGETS`] groups, also as long at most, each with a weight of 0 to [`Target::MOST_WEIGHT`], and `proportional = true`.
/// A field that is missing or of another kind is `Field`, and so are both or neither of `to` and `proportional`, under the name `rule`; one
/// that is too small or too large is `Limit`. Then a field that none of these is, anywhere, is `Field(Unknown)`; then a group that is
/// `from` twice is `DoubleFrom`, and a group under a `to` that is also a `from` is `TargetIsFrom`. `NoMemory` comes where memory runs
/// out, at any place.
///
/// [`Give::MOST_TARGETS`]: fw_terms::Give::MOST_TARGETS
/// [`Target::MOST_WEIGHT`]: fw_terms::Target::MOST_WEIGHT
pub fn read_policy(alloc: Global, text: &[u8]) -> Result<Policy, PolicyFault>
    ensures { PolicyReads text.now result }
{
    match table_of(alloc, text) {
        Ok(table) => policy_of(alloc, &table),
        Err(TableFault::Syntax) => Err(PolicyFault::Syntax),
        Err(TableFault::NoMemory) => Err(PolicyFault::NoMemory),
    }
}
