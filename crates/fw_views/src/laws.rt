//! What holds of the policy that applies: a law, the contract of a function that does nothing.
ghost use Rattle.std.specs.Prelude.{List};
ghost use Rattle.fw_entry.specs.Entry.{EntryValue};
ghost use Rattle.fw_snapshot.specs.History.{policy_of};
ghost use Rattle.fw_views.specs.Policies.{IsSetAt, policy_place};

/// The policy by which reports share costs is the one that the entry at [`applied_policy`](crate::applied_policy) sets; where there is no
/// such entry, there is no policy.
pub fn the_last_policy_applies()
    ensures { (entries : List EntryValue)
        → IsSetAt entries (policy_place entries) (policy_of entries) }
{}
