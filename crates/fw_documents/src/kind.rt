//! What a TOML text is, as its top-level names say.
ghost use Rattle.std.specs.Prelude.{◌≡◌, is_some};
ghost use Rattle.std.specs.List.{list_any};
ghost use Rattle.fw_toml.specs.Tree.{at, stated};
ghost use Rattle.fw_documents.specs.Kinds.{has_commitment_name, has_policy_name, has_purchase_name};
ghost use Rattle.fw_documents.specs.Kinds.{kind_by, kind_in};

use crate::fault::DocumentFault;
use fw_toml::{Table, member};

/// What a document is.
#[derive(Clone, Copy, Debug, Drop, PartialEq, Eq)]
pub enum Kind {
    /// A commitment.
    Commitment,
    /// A policy.
    Policy,
    /// A purchase that is added to a commitment.
    Purchase,
}

// Whether a table has a name.
fn has(table: &Table, name: &str) -> bool
    ensures { result ≡ is_some (at (stated table.now) name.now) }
{
    member(table, name).is_some()
}

// Whether a table has one of these names.
fn has_any(table: &Table, names: &[&str]) -> bool
    ensures { result ≡ list_any (λ n. is_some (at (stated table.now) n.now)) names.now }
{
    names.iter().any(|name| has(table, name))
}

// Whether a table has a name that only a commitment has. `id` is none of them: a purchase that is added to a commitment
// has one too.
#[tactic(auto, unfolding(crate::specs::Kinds::has_any, crate::specs::Kinds::has_commitment_name))]
fn has_commitment_name(table: &Table) -> bool
    ensures { result ≡ has_commitment_name (stated table.now) }
{
    has_any(
        table,
        &[
            "category", "start", "hours", "capacity", "unit", "skus", "rates", "purchase",
        ],
    )
}

// Whether a table has a name that only a policy has.
#[tactic(auto, unfolding(crate::specs::Kinds::has_any, crate::specs::Kinds::has_policy_name))]
fn has_policy_name(table: &Table) -> bool
    ensures { result ≡ has_policy_name (stated table.now) }
{
    has_any(table, &["key", "rule"])
}

// Whether a table has a name that a purchase has which is added to a commitment, and no other document at its top level.
#[tactic(auto, unfolding(crate::specs::Kinds::has_any, crate::specs::Kinds::has_purchase_name))]
fn has_purchase_name(table: &Table) -> bool
    ensures { result ≡ has_purchase_name (stated table.now) }
{
    has_any(table, &["at", "billed"])
}

impl Kind {
    /// What the names of a table say that it is. `NoKind` where they say nothing, `TwoKinds` where they say two things.
    #[tactic(auto, unfolding(crate::specs::Kinds::kind_in))]
    pub(crate) fn of_table(table: &Table) -> Result<Kind, DocumentFault>
        ensures { result ≡ kind_in (stated table.now) }
    {
        kind_by(
            has_commitment_name(table),
            has_policy_name(table),
            has_purchase_name(table),
        )
    }
}

// What a table is that has names of a commitment or not, of a policy or not, and of a purchase or not. A commitment may
// have those of a purchase too: they are faults of it.
fn kind_by(commitment: bool, policy: bool, purchase: bool) -> Result<Kind, DocumentFault>
    ensures { result ≡ kind_by commitment policy purchase }
{
    match (commitment, policy, purchase) {
        (true, false, _) => Ok(Kind::Commitment),
        (false, true, false) => Ok(Kind::Policy),
        (false, false, true) => Ok(Kind::Purchase),
        (false, false, false) => Err(DocumentFault::NoKind),
        (true, true, _) => Err(DocumentFault::TwoKinds),
        (false, true, true) => Err(DocumentFault::TwoKinds),
    }
}
