//! Whom a commitment is for, its tags, and what was paid: the fields that commitments of both kinds have last.
ghost use Rattle.std.specs.Prelude.{option_map, string_bytes};
ghost use Rattle.fw_toml.specs.Tree.{stated};
ghost use Rattle.fw_commitment.specs.Fields.{HasKind, HasAccount};
ghost use Rattle.fw_commitment.specs.Rules.{billing_rules, sub_account_rules, IsAccount};
ghost use Rattle.fw_commitment.specs.Finding.{Finds};

use crate::fault::{CommitmentFault, CommitmentField};
use crate::names::has_only_known;
use crate::purchases::purchases;
use crate::tags::tags;
use fw_charge::{DiscountKind, Tags, is_short_text};
use fw_terms::Purchase;
use fw_toml::{Table, as_text, member};
use std::alloc::Global;

/// Whom a commitment is for, its tags, and what was paid.
#[derive(Drop)]
pub(crate) struct Billing {
    pub(crate) sub_account: Option<String>,
    pub(crate) tags: Tags,
    pub(crate) purchases: Vec<Purchase>,
}

fn sub_account(alloc: Global, table: &Table) -> Result<Option<String>, CommitmentFault>
    ensures { let ms = stated table.now in Finds (sub_account_rules ms)
        (λ name. HasAccount ms (option_map string_bytes name)
        × IsAccount (option_map string_bytes name)) result }
{
    let Some(value) = member(table, CommitmentField::SubAccount.name()) else {
        return Ok(None);
    };
    let Some(text) = as_text(value) else {
        return Err(CommitmentFault::Field(CommitmentField::SubAccount));
    };
    if !is_short_text(text) {
        return Err(CommitmentFault::Limit(CommitmentField::SubAccount));
    }
    Ok(Some(String::from_str(alloc, text)?))
}

impl Billing {
    ghost use Rattle.fw_commitment.specs.Parts.{IsBilling};

    /// What a table says of it, where the table has no name that doesn't belong to the kind.
    pub(crate) fn of_table(
        alloc: Global,
        table: &Table,
        kind: DiscountKind,
    ) -> Result<Billing, CommitmentFault>
        requires { HasKind (stated table.now) kind }
        ensures { Finds (billing_rules (stated table.now)) (IsBilling (stated table.now)) result }
    {
        let sub_account = sub_account(alloc, table)?;
        let tags = tags(alloc, table)?;
        let purchases = purchases(alloc, table)?;
        if !has_only_known(table, kind) {
            return Err(CommitmentFault::Field(CommitmentField::Unknown));
        }
        Ok(Billing {
            sub_account,
            tags,
            purchases,
        })
    }
}
