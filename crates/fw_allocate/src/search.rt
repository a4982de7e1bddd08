//! Amounts by group.
ghost use Rattle.std.specs.Prelude.{◌≡◌};
ghost use Rattle.std.specs.Cmp.Lexicographic.{slice_cmp};
ghost use Rattle.std.specs.Ordering.{nat_cmp};
ghost use Rattle.fw_allocate.specs.Costs.{amount_of, cost_in, groups_in};
ghost use Rattle.fw_allocate.specs.GiftView.{texts};
ghost use Rattle.fw_terms.specs.Texts.{IsRising};

use crate::cost::Cost;
use std::cmp::Ordering;

/// The amount of a group, where these groups have these amounts: 0 where it is none of them.
pub fn amount_of(groups: &[&str], amounts: &[i128], group: &str) -> i128
    requires { IsRising (texts groups.now) }
    ensures { result ≡ amount_of (texts groups.now) amounts.now group.now }
{
    match groups.binary_search(&group) {
        Ok(place) => amounts.get(place).copied().unwrap_or(0),
        Err(_) => 0,
    }
}

/// The cost of a group: 0 where it is none of these.
pub fn cost_in(costs: &[Cost], group: &str) -> i128
    requires { IsRising (groups_in costs.now) }
    ensures { result ≡ cost_in costs.now group.now }
{
    let order = |cost: &Cost| -> Ordering
        ensures { result ≡ slice_cmp nat_cmp cost.now.group group.entry.now }
    { cost.group().cmp(group) };
    match costs.binary_search_by(order) {
        Ok(place) => costs[place].cost(),
        Err(_) => 0,
    }
}
