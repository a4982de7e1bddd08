//! What holds of a warehouse under another policy: a law, the contract of a function that does nothing.
ghost use Rattle.std.specs.Prelude.{◌≡◌, Some};
ghost use Rattle.fw_snapshot.specs.History.{History, commitments_of, policy_of, rows_of};
ghost use Rattle.fw_snapshot.specs.Judging.{IsLegal};
ghost use Rattle.fw_terms.specs.Policy.{PolicyValue};
ghost use Rattle.fw_what_if.specs.Under.{IsUnder};

/// Under a policy a warehouse has that policy (`policy`), and the rows and the commitments that it has anyway (`rows`, `commitments`). A report is
/// made of these three alone. So under the policy that was set last, each report is the one that is there (`stored`).
pub fn only_the_policy_changes()
    ensures policy { (h under : History) (p : PolicyValue) → IsUnder h p under
        → policy_of under.entries ≡ Some p }
    ensures rows { (h under : History) (p : PolicyValue) → IsUnder h p under
        → rows_of under.entries ≡ rows_of h.entries }
    ensures commitments { (h under : History) (p : PolicyValue) → IsLegal h.entries
        → IsUnder h p under → commitments_of under.entries ≡ commitments_of h.entries }
    ensures stored { (h under : History) (p : PolicyValue) → policy_of h.entries ≡ Some p
        → IsUnder h p under → policy_of under.entries ≡ policy_of h.entries }
{}
