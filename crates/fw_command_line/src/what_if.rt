//! The option that asks a warehouse under another policy.
ghost use Rattle.std.specs.Prelude.{◌≡◌, ◌∷◌, [], false, map, codes};

use crate::ids::{BY, COLUMN, DIRECT, MAP, POLICY, SUM, TOTAL_ONLY, WHERE, WHERE_NOT};
use crate::parameter::Parameter;

// The option that names the file of a policy.
fn policy_file_option() -> Parameter
    ensures id { result.id.now ≡ codes "policy" }
    ensures needed { result.is_needed ≡ false }
    ensures apart { result.apart.now ≡ [] }
{
    Parameter::option(
        POLICY,
        "FILE",
        "Shares costs by the policy of a TOML file, - for standard input, and not by the warehouse's",
    )
}

// What has no ChargedCost in a report.
const APART_IN_A_REPORT: [&str; 7] = [DIRECT, COLUMN, WHERE, WHERE_NOT, MAP, SUM, TOTAL_ONLY];

/// The option that names the file of another policy. What has no ChargedCost goes with none.
pub(crate) fn other_policy_option() -> Parameter
    ensures { map (λ id. id.now) result.apart.now
        ≡ (codes "direct" ∷ codes "column" ∷ codes "where" ∷ codes "where-not" ∷ codes "map"
        ∷ codes "sum" ∷ codes "total-only" ∷ []) }
{
    policy_file_option().apart_from(APART_IN_A_REPORT.as_slice())
}

// What has no ChargedCost in a comparison.
const APART_IN_A_COMPARISON: [&str; 5] = [COLUMN, BY, WHERE, WHERE_NOT, MAP];

/// The same of a command that has no report that is direct or without groups.
pub(crate) fn compared_policy_option() -> Parameter
    ensures { map (λ id. id.now) result.apart.now
        ≡ (codes "column" ∷ codes "by" ∷ codes "where" ∷ codes "where-not" ∷ codes "map" ∷ []) }
{
    policy_file_option().apart_from(APART_IN_A_COMPARISON.as_slice())
}
