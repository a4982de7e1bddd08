//! How a TOML text reads as a commitment.
ghost use Rattle.fw_toml.specs.Tree.{stated};
ghost use Rattle.fw_commitment.specs.Finding.{Finds};
ghost use Rattle.fw_commitment.specs.Rules.{rules_of};
ghost use Rattle.fw_commitment.specs.Reading.{CommitmentReads, Stands};

use crate::billing::Billing;
use crate::fault::CommitmentFault;
use crate::id_and_term::IdAndTerm;
use crate::terms::terms;
use fw_terms::{Commitment, CommitmentFields};
use fw_toml::{Table, TableFault, table_of};
use std::alloc::Global;
use std::sync::Arc;

/// Reads a commitment from a TOML text.
///
/// Where there is a fault, the first one is the answer: `Syntax` where the text is not UTF-8 or no TOML document; then, field by field in
/// the order of `CommitmentField`, `Field` where the field is missing, of the wrong kind or can't be read, and `Limit` where it is out of
/// its limits. `NoMemory` comes where memory runs out, at any place.
pub fn read_commitment(alloc: Global, text: &[u8]) -> Result<Commitment, CommitmentFault>
    ensures { CommitmentReads text.now result }
{
    match table_of(alloc, text) {
        Ok(table) => commitment_of(alloc, &table),
        Err(TableFault::Syntax) => Err(CommitmentFault::Syntax),
        Err(TableFault::NoMemory) => Err(CommitmentFault::NoMemory),
    }
}

/// The commitment of a table.
fn commitment_of(alloc: Global, table: &Table) -> Result<Commitment, CommitmentFault>
    ensures { Finds (rules_of (stated table.now)) (Stands (stated table.now)) result }
{
    let id_and_term = IdAndTerm::of_table(alloc, table)?;
    let terms = terms(alloc, table, id_and_term.kind)?;
    let billing = Billing::of_table(alloc, table, id_and_term.kind)?;
    let fields = Arc::new(
        alloc,
        CommitmentFields {
            id: id_and_term.id,
            terms,
            sub_account: billing.sub_account,
            tags: billing.tags,
            start: id_and_term.start,
            hours: id_and_term.hours,
            capacity: id_and_term.capacity,
            purchases: billing.purchases,
        },
    )?;
    Ok(Commitment::of_fields(fields))
}
