//! What the groups are charged.
ghost use Rattle.std.specs.Prelude.{◌≡◌, ◌≤◌, ◌*◌, ◌^◌, IfOk, All, length, map, unsigned_abs};
ghost use Rattle.fw_allocate.specs.Charges.{AreCharges, IsGift, brought_to, charged_to, charges_with, taken_from};
ghost use Rattle.fw_allocate.specs.Costs.{groups_in, size_of, total};
ghost use Rattle.fw_allocate.specs.GiftView.{texts};
ghost use Rattle.fw_terms.specs.Policy.{IsRule};
ghost use Rattle.fw_terms.specs.Texts.{IsRising};
ghost use Rattle.std.specs.List.{AllZip};

use crate::cost::Cost;
use crate::gift::Gift;
use crate::groups::groups_of;
use crate::search::cost_in;
use fw_terms::{Policy, Rule};
use std::alloc::{AllocError, Global};

/// What the groups are charged under a policy, in nanos: the groups of `direct` and those that the policy names, in rising order of their
/// bytes.
///
/// Each rule gives the whole direct cost of its group away, in shares by largest remainder: to the groups that it names, by their weights,
/// or to all groups of `direct` with a positive cost that no rule gives away, in proportion to these costs. Where the weights sum to 0, it
/// moves nothing. A group is charged its direct cost, less what it gives away, plus the shares that it gets. All rules go by the direct
/// costs, so their order doesn't matter.
///
/// `direct` has each group once, in rising order of their bytes, and its absolute costs sum to at most 10^19 nanos. The only error is
/// a failed allocation.
pub fn charge(alloc: Global, direct: &[Cost], policy: &Policy) -> Result<Vec<Cost>, AllocError>
    requires rising { IsRising (groups_in direct.now) }
    requires small { size_of direct.now ≤ 10 ^ 19 }
    ensures { IfOk result (λ charged. AreCharges direct.now policy.now.rules charged.items) }
{
    let rules = policy.rules();
    let gifts = gifts_of(alloc, direct, rules)?;
    let groups = groups_of(alloc, direct, rules)?;
    charges_of(alloc, direct, &gifts, &groups)
}

/// What these groups are charged.
fn charges_of(
    alloc: Global,
    direct: &[Cost],
    gifts: &[Gift],
    groups: &[&str],
) -> Result<Vec<Cost>, AllocError>
    requires rising { IsRising (groups_in direct.now) }
    requires small { size_of direct.now ≤ 10 ^ 19 }
    requires few { length gifts.now ≤ 64 }
    ensures { IfOk result (λ charged. charged.items
        ≡ charges_with direct.now gifts.now (texts groups.now)) }
{
    let mut charged = Vec::with_capacity(alloc, groups.len())?;
    for group in groups {
        let cost = charged_to(direct, gifts, group);
        charged.push(Cost::of_fields(String::from_str(alloc, group)?, cost))?;
    }
    Ok(charged)
}

/// What the rules move, one gift each.
fn gifts_of<'a>(
    alloc: Global,
    direct: &'a [Cost],
    rules: &'a [Rule],
) -> Result<Vec<Gift<'a>>, AllocError>
    requires rising { IsRising (groups_in direct.now) }
    requires small { size_of direct.now ≤ 10 ^ 19 }
    requires in_limits { All IsRule rules.now }
    ensures { IfOk result (λ gifts. AllZip (IsGift direct.now rules.now) rules.now gifts.items) }
{
    let mut gifts = Vec::with_capacity(alloc, rules.len())?;
    for rule in rules {
        gifts.push(Gift::of_rule(alloc, direct, rules, rule)?)?;
    }
    Ok(gifts)
}

/// What a group is charged: its direct cost, less what it gives away, plus the shares that it gets.
fn charged_to(direct: &[Cost], gifts: &[Gift], group: &str) -> i128
    requires rising { IsRising (groups_in direct.now) }
    requires small { size_of direct.now ≤ 10 ^ 19 }
    requires few { length gifts.now ≤ 64 }
    ensures { result ≡ charged_to direct.now gifts.now group.now }
{
    cost_in(direct, group) - taken_from(gifts, group) + brought_to(gifts, group)
}

/// What the gifts take from a group.
fn taken_from(gifts: &[Gift], group: &str) -> i128
    requires { length gifts.now ≤ 64 }
    ensures taken { result ≡ total (map (taken_from group.now) gifts.now) }
    ensures small { unsigned_abs result ≤ 64 * 10 ^ 19 }
{
    let mut taken = 0;
    for gift in gifts {
        taken += gift.taken_from(group);
    }
    taken
}

/// What the gifts bring to a group.
fn brought_to(gifts: &[Gift], group: &str) -> i128
    requires { length gifts.now ≤ 64 }
    ensures brought { result ≡ total (map (brought_to group.now) gifts.now) }
    ensures small { unsigned_abs result ≤ 64 * 10 ^ 19 }
{
    let mut brought = 0;
    for gift in gifts {
        brought += gift.brought_to(group);
    }
    brought
}
