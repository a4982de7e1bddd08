//! Id, kind and term of a commitment: the fields that commitments of both kinds have first.
ghost use Rattle.std.specs.Prelude.{◌<◌, ◌≤◌, ◌<ℤ◌, pos, codes};
ghost use Rattle.fw_terms.specs.Commitment.{most_hours};
ghost use Rattle.fw_toml.specs.Tree.{stated};
ghost use Rattle.fw_commitment.specs.Fields.{HasInteger, HasAmount, HasKind, HasHour};
ghost use Rattle.fw_commitment.specs.Rules.{id_and_term_rules, kind_rules, start_rules, hours_rules, capacity_rules};
ghost use Rattle.fw_commitment.specs.Finding.{Finds};
ghost use Rattle.fw_charge.specs.Charge.{last_hour};

use crate::fault::{CommitmentFault, CommitmentField};
use crate::fields::{amount, second, short_text};
use fw_charge::{DiscountKind, SECONDS_PER_HOUR};
use fw_money::Nanos;
use fw_terms::Commitment;
use fw_toml::{Table, integer, text};
use std::alloc::Global;

/// Id, kind and term of a commitment.
#[derive(Drop)]
pub(crate) struct IdAndTerm {
    pub(crate) id: String,
    pub(crate) kind: DiscountKind,
    pub(crate) start: u32,
    pub(crate) hours: u32,
    pub(crate) capacity: Nanos,
}

fn kind(table: &Table) -> Result<DiscountKind, CommitmentFault>
    ensures { let ms = stated table.now in
        Finds (kind_rules ms) (HasKind ms) result }
{
    let Some(word) = text(table, CommitmentField::Category.name()) else {
        return Err(CommitmentFault::Field(CommitmentField::Category));
    };
    match DiscountKind::from_word(word) {
        Some(kind) => Ok(kind),
        None => Err(CommitmentFault::Field(CommitmentField::Category)),
    }
}

fn start(table: &Table) -> Result<u32, CommitmentFault>
    ensures { let ms = stated table.now in
        Finds (start_rules ms) (λ hour. HasHour ms hour × (hour ≤ last_hour)) result }
{
    let Some(second) = second(table, CommitmentField::Start.name()) else {
        return Err(CommitmentFault::Field(CommitmentField::Start));
    };
    if second % SECONDS_PER_HOUR != 0 {
        return Err(CommitmentFault::Field(CommitmentField::Start));
    }
    Ok((second / SECONDS_PER_HOUR) as u32)
}

fn hours(table: &Table) -> Result<u32, CommitmentFault>
    ensures { let ms = stated table.now in Finds (hours_rules ms)
        (λ hours. HasInteger ms (codes "hours") (pos hours) × (0 < hours) × (hours ≤ most_hours))
        result }
{
    let Some(hours) = integer(table, CommitmentField::Hours.name()) else {
        return Err(CommitmentFault::Field(CommitmentField::Hours));
    };
    if hours < 1 || hours > Commitment::MOST_HOURS as i64 {
        return Err(CommitmentFault::Limit(CommitmentField::Hours));
    }
    Ok(hours as u32)
}

fn capacity(table: &Table) -> Result<Nanos, CommitmentFault>
    ensures { let ms = stated table.now in
        Finds (capacity_rules ms) (λ n. HasAmount ms (codes "capacity") n × (pos 0 <ℤ n)) result }
{
    let Some(capacity) = amount(table, CommitmentField::Capacity.name()) else {
        return Err(CommitmentFault::Field(CommitmentField::Capacity));
    };
    if capacity.count() <= 0 {
        return Err(CommitmentFault::Limit(CommitmentField::Capacity));
    }
    Ok(capacity)
}

impl IdAndTerm {
    ghost use Rattle.fw_commitment.specs.Parts.{IsIdAndTerm};

    /// What a table says of them.
    pub(crate) fn of_table(alloc: Global, table: &Table) -> Result<IdAndTerm, CommitmentFault>
        ensures { Finds (id_and_term_rules (stated table.now))
            (IsIdAndTerm (stated table.now)) result }
    {
        let id = short_text(table, CommitmentField::Id)?;
        let kind = kind(table)?;
        let start = start(table)?;
        let hours = hours(table)?;
        let capacity = capacity(table)?;
        let id = String::from_str(alloc, id)?;
        Ok(IdAndTerm {
            id,
            kind,
            start,
            hours,
            capacity,
        })
    }
}
