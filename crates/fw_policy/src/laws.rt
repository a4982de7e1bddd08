//! Each text has one reading: a proof-only function.
ghost use Rattle.std.specs.Prelude.{◌≡◌, ◌≢◌, Result, Err};
ghost use Rattle.fw_terms.specs.Policy.{PolicyValue};
ghost use Rattle.fw_policy.specs.Policy.{PolicyReads};
ghost use Rattle.fw_policy.specs.declared.fault.PolicyFault.{PolicyFault};
ghost use Rattle.fw_policy.specs.declared.fault.PolicyFault.TheVariants.{NoMemory};

/// A text reads as one policy or has one first fault, failed allocations aside.
pub fn policy_reads_as_one(text: &[u8])
    ensures { (r s : Result PolicyValue PolicyFault) → r ≢ Err NoMemory → s ≢ Err NoMemory
        → PolicyReads text.now r → PolicyReads text.now s → r ≡ s }
{}
