//! What is rewritten reads back as the rewritten records.
ghost use Rattle.std.specs.Prelude.{◌≡◌};
ghost use Rattle.fw_dialect.specs.Records.{records_of, records_rewritten, roles_of};
ghost use Rattle.fw_dialect.specs.Texts.{rewritten_under};

use crate::dialect::Dialect;

/// The records behind a header, rewritten, read back as the rewritten records: as many, in the same order, each with as
/// many fields, and each field with the text that it stands for, or with its own.
#[tactic(auto, using(crate::proofs::BackFacts::reads_back))]
pub fn rewritten_records_read_back(dialect: Dialect, header: &[u8], body: &[u8])
    ensures { records_of (rewritten_under (roles_of dialect header.now) body.now)
        ≡ records_rewritten dialect header.now (records_of body.now) }
{}
