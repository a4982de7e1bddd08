//! What the groups of a direct report are charged.
ghost use Rattle.std.specs.Prelude.{◌≡◌, ◌≤◌, IfOk};
ghost use Rattle.std.specs.Option.{option_copied};
ghost use Rattle.fw_query.specs.Limits.{most_total};
ghost use Rattle.fw_query.specs.Reports.{AreChargedBy};
ghost use Rattle.fw_shards.specs.Added.{direct_size, directs};
ghost use Rattle.fw_sums.specs.Costs.{groups_of};
ghost use Rattle.fw_terms.specs.Texts.{IsRising};

use crate::direct::{Direct, DirectReport};
use fw_allocate::{Cost, charge};
use fw_terms::Policy;
use std::alloc::{AllocError, Global};

/// What the groups of a direct report under a tag key are charged: under a policy for the key the groups that it names give their direct
/// costs away; under another policy, or none, each group is charged its direct cost. The policy comes last, over what
/// [`added`](crate::added) makes of the reports of all shards. The groups are those of the report and those that the policy names, in rising
/// byte order. The only error is a failed allocation.
pub fn charged(
    alloc: Global,
    key: &str,
    report: &DirectReport,
    policy: Option<&Policy>,
) -> Result<Vec<Cost>, AllocError>
    requires rising { IsRising (groups_of report.now) }
    requires small { direct_size report.now ≤ most_total }
    ensures { IfOk result (λ charged. AreChargedBy (option_copied policy.entry) key.now (directs
        report.now) charged.items) }
{
    let direct = direct_costs(alloc, report.entries())?;
    match policy {
        Some(policy) if policy.key() == key => charge(alloc, direct.as_slice(), policy),
        _ => Ok(direct),
    }
}

// The direct costs of entries.
fn direct_costs(alloc: Global, entries: &[Direct]) -> Result<Vec<Cost>, AllocError>
    ensures { IfOk result (λ costs. costs.items ≡ directs entries.now) }
{
    let mut costs = Vec::new(alloc);
    for entry in entries {
        let group = String::from_str(alloc, entry.group())?;
        costs.push(Cost::of_fields(group, entry.direct()))?;
    }
    Ok(costs)
}
