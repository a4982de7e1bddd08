//! Each text has one reading.
ghost use Rattle.std.specs.Prelude.{◌≡◌, ◌≢◌, Result, Err};
ghost use Rattle.fw_terms.specs.Commitment.{CommitmentValue};
ghost use Rattle.fw_commitment.specs.Reading.{CommitmentReads};
ghost use Rattle.fw_terms.specs.Added.{AddedValue};
ghost use Rattle.fw_commitment.specs.Added.{PurchaseReads};
ghost use Rattle.fw_commitment.specs.declared.fault.CommitmentFault.{CommitmentFault};
ghost use Rattle.fw_commitment.specs.declared.fault.CommitmentFault.TheVariants.{NoMemory};

/// A text reads as one commitment or has one first fault, failed allocations aside.
pub fn commitment_reads_as_one(text: &[u8])
    ensures { (r s : Result CommitmentValue CommitmentFault) → r ≢ Err NoMemory → s ≢ Err NoMemory
        → CommitmentReads text.now r → CommitmentReads text.now s → r ≡ s }
{}

/// A text reads as one purchase that is added or has one first fault, failed allocations aside.
pub fn purchase_reads_as_one(text: &[u8])
    ensures { (r s : Result AddedValue CommitmentFault) → r ≢ Err NoMemory → s ≢ Err NoMemory
        → PurchaseReads text.now r → PurchaseReads text.now s → r ≡ s }
{}
