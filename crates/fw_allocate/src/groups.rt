//! The groups of a policy's charges.
ghost use Rattle.std.specs.Prelude.{IfOk, OnOk};
ghost use Rattle.fw_allocate.specs.Charges.{AreGroups, names};
ghost use Rattle.fw_allocate.specs.GiftView.{texts};
ghost use Rattle.std.specs.Prelude.{◌≡◌, ◌++◌, map};
ghost use Rattle.fw_allocate.specs.Costs.{groups_in};
ghost use Rattle.fw_terms.specs.Policy.{froms, groups_given, targets_of};
ghost use Rattle.fw_terms.specs.PolicyView.{give_view};

use crate::cost::Cost;
use fw_terms::{Give, Rule, Target};
use std::alloc::{AllocError, Global};

/// The groups of the costs and those that the rules name, in rising order, each once.
pub fn groups_of<'a>(
    alloc: Global,
    direct: &'a [Cost],
    rules: &'a [Rule],
) -> Result<Vec<&'a str>, AllocError>
    ensures { IfOk result (λ groups. AreGroups direct.now rules.now (texts groups.items)) }
{
    let mut groups = names_of(alloc, direct, rules)?;
    groups.sort_unstable();
    groups.dedup();
    Ok(groups)
}

/// The groups of the costs, and those that the rules name, in the order in which they stand there.
fn names_of<'a>(
    alloc: Global,
    direct: &'a [Cost],
    rules: &'a [Rule],
) -> Result<Vec<&'a str>, AllocError>
    ensures { IfOk result (λ groups. texts groups.items ≡ names direct.now rules.now) }
{
    let mut groups = Vec::new(alloc);
    push_direct(&mut groups, direct)?;
    push_givers(&mut groups, rules)?;
    push_targets(&mut groups, rules)?;
    Ok(groups)
}

/// Adds the groups of the costs.
fn push_direct<'a>(groups: &mut Vec<&'a str>, direct: &'a [Cost]) -> Result<(), AllocError>
    ensures { OnOk result (texts groups.new.items
        ≡ texts groups.old.items ++ groups_in direct.now) }
{
    for cost in direct {
        groups.push(cost.group())?;
    }
    Ok(())
}

/// Adds the groups that give their cost away.
fn push_givers<'a>(groups: &mut Vec<&'a str>, rules: &'a [Rule]) -> Result<(), AllocError>
    ensures { OnOk result (texts groups.new.items ≡ texts groups.old.items ++ froms rules.now) }
{
    for rule in rules {
        groups.push(rule.from())?;
    }
    Ok(())
}

/// Adds the groups that the rules name as targets.
fn push_targets<'a>(groups: &mut Vec<&'a str>, rules: &'a [Rule]) -> Result<(), AllocError>
    ensures { OnOk result (texts groups.new.items
        ≡ texts groups.old.items ++ targets_of rules.now) }
{
    for rule in rules {
        push_given(groups, rule.give())?;
    }
    Ok(())
}

/// Adds the groups that a rule names as targets.
fn push_given<'a>(groups: &mut Vec<&'a str>, give: &'a Give) -> Result<(), AllocError>
    ensures { OnOk result (texts groups.new.items
        ≡ texts groups.old.items ++ groups_given (give_view give.now)) }
{
    match give {
        Give::Fixed(targets) => push_all(groups, targets),
        Give::Proportional => Ok(()),
    }
}

/// Adds the groups of the targets.
fn push_all<'a>(groups: &mut Vec<&'a str>, targets: &'a [Target]) -> Result<(), AllocError>
    ensures { OnOk result (texts groups.new.items
        ≡ texts groups.old.items ++ map (λ t. t.group) targets.now) }
{
    for target in targets {
        groups.push(target.group())?;
    }
    Ok(())
}
