//! A policy, as TOML.
use crate::values::{QUOTE, push_comma, push_number, push_quoted, push_text};
use fw_terms::{Give, Policy, Rule, Target};
use std::alloc::AllocError;

/// Appends the TOML of a policy.
pub(crate) fn push_policy(out: &mut Vec<u8>, policy: &Policy) -> Result<(), AllocError> {
    push_text(out, "key = ")?;
    push_quoted(out, policy.key(), QUOTE)?;
    push_text(out, "\n")?;
    for rule in policy.rules() {
        push_rule(out, rule)?;
    }
    Ok(())
}

// Appends a rule.
fn push_rule(out: &mut Vec<u8>, rule: &Rule) -> Result<(), AllocError> {
    push_text(out, "[[rule]]\nfrom = ")?;
    push_quoted(out, rule.from(), QUOTE)?;
    push_text(out, "\n")?;
    match rule.give() {
        Give::Fixed(targets) => push_targets(out, targets.as_slice()),
        Give::Proportional => push_text(out, "proportional = true\n"),
    }
}

// Appends targets as a table.
fn push_targets(out: &mut Vec<u8>, targets: &[Target]) -> Result<(), AllocError> {
    push_text(out, "to = {")?;
    let mut is_first = true;
    for target in targets {
        push_comma(out, is_first)?;
        is_first = false;
        push_quoted(out, target.group(), QUOTE)?;
        push_text(out, "=")?;
        push_number(out, target.weight())?;
    }
    push_text(out, "}\n")
}
