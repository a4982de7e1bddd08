//! What is shown of a name: its figures, and what comes of them.
use crate::book::{Book, Keeper, Quantities, unit_of};
use crate::figures::Figures;
use crate::parts::Part;
use fw_coverage::Coverage;
use std::alloc::{AllocError, Global};

/// What is shown of a name, or of all.
#[derive(Clone, Copy)]
pub(crate) struct Record<'b> {
    pub(crate) keeper: Keeper,
    /// The texts of the name; none where the record is of all.
    pub(crate) texts: Option<&'b [String]>,
    pub(crate) figures: Figures,
    /// Whether it is known what would have been paid for what was covered.
    pub(crate) is_priced: bool,
    pub(crate) units: Option<Units<'b>>,
}

impl<'b> Record<'b> {
    /// Whether the record is of a commitment, of a group or of all, for programs.
    pub(crate) fn kind(&self, keys: usize) -> &'static str {
        if self.texts.is_none() {
            "total"
        } else if keys == 0 {
            "commitment"
        } else {
            "group"
        }
    }

    /// The text of the name at a place, for programs.
    pub(crate) fn text_at(&self, place: usize) -> &'b str {
        text_of(self.texts, place)
    }
}

/// How much of its capacity rows used of a commitment, and could have used, in nanos of its unit.
#[derive(Clone, Copy, Drop)]
pub(crate) struct Units<'b> {
    pub(crate) unit: &'b str,
    pub(crate) capacity: u128,
    pub(crate) used: u128,
    pub(crate) usable: i128,
}

// The figures in its units of the commitment with an id, where they are there; rows could have used so much of its capacity.
fn units_of<'b>(units: &'b [Coverage<'b>], texts: &[String], usable: i128) -> Option<Units<'b>> {
    let id = texts.first()?;
    let found = units
        .iter()
        .find(|one| one.commitment().id() == id.as_str())?;
    Some(Units {
        unit: unit_of(found.commitment()),
        capacity: found.capacity(),
        used: found.used(),
        usable,
    })
}

/// What is shown of a name, or of all own commitments, in a unit.
#[derive(Clone, Copy)]
pub(crate) struct UnitRecord<'b> {
    /// The texts of the name; none where the record is of all.
    pub(crate) texts: Option<&'b [String]>,
    /// The unit; empty where it is the currency.
    pub(crate) unit: &'b str,
    /// The capacity, in nanos of the unit; none of a group, as a commitment's capacity is no group's.
    pub(crate) capacity: Option<i128>,
    /// What rows used of the capacity.
    pub(crate) used: i128,
    /// What rows could have used of it.
    pub(crate) usable: i128,
}

impl<'b> UnitRecord<'b> {
    // The record of a commitment.
    fn of_commitment(texts: &'b [String], units: Units<'b>) -> Result<UnitRecord<'b>, AllocError> {
        let capacity = i128::try_from(units.capacity);
        let used = i128::try_from(units.used);
        let (Ok(capacity), Ok(used)) = (capacity, used) else {
            return Err(AllocError);
        };
        Ok(UnitRecord {
            texts: Some(texts),
            unit: units.unit,
            capacity: Some(capacity),
            used,
            usable: units.usable,
        })
    }

    // The record of a group: behind the texts of its name comes the unit.
    fn of_group(name: &'b [String], quantities: Quantities) -> UnitRecord<'b> {
        let (texts, unit) = match name {
            [texts @ .., unit] => (texts, unit.as_str()),
            [] => (name, ""),
        };
        UnitRecord {
            texts: Some(texts),
            unit,
            capacity: None,
            used: quantities.used,
            usable: quantities.usable,
        }
    }

    // The record of all commitments in a unit.
    fn of_total(unit: &'b str, quantities: Quantities) -> UnitRecord<'b> {
        UnitRecord {
            texts: None,
            unit,
            capacity: Some(quantities.capacity),
            used: quantities.used,
            usable: quantities.usable,
        }
    }

    /// Whether the record is of a group or of all, for programs.
    pub(crate) fn kind(&self) -> &'static str {
        match self.texts {
            Some(_) => "group units",
            None => "total units",
        }
    }

    /// The text of the name at a place.
    pub(crate) fn text_at(&self, place: usize) -> &'b str {
        text_of(self.texts, place)
    }
}

// The text of a name at a place; empty where there is none.
fn text_of<'b>(texts: Option<&'b [String]>, place: usize) -> &'b str {
    match texts {
        Some(texts) => match texts.get(place) {
            Some(text) => text.as_str(),
            None => "",
        },
        None => "",
    }
}

/// What is known in units of the warehouse's own commitments, of each name: of each commitment, or of each group in each unit.
pub(crate) fn units_by_name<'b>(
    alloc: Global,
    part: &'b Part<'b>,
) -> Result<Vec<UnitRecord<'b>>, AllocError> {
    let mut records = Vec::new(alloc);
    if part.book.is_by_commitment() {
        for (texts, figures) in part.book.figures(Keeper::Own).iter() {
            let units = units_of(part.units.as_slice(), texts.as_slice(), figures.usable);
            if let Some(units) = units {
                records.push(UnitRecord::of_commitment(texts.as_slice(), units)?)?;
            }
        }
    }
    for (name, quantities) in part.book.quantities().iter() {
        records.push(UnitRecord::of_group(name.as_slice(), *quantities))?;
    }
    Ok(records)
}

/// What is known in units of all own commitments together, in each unit.
pub(crate) fn units_of_all<'b>(
    alloc: Global,
    part: &'b Part<'b>,
) -> Result<Vec<UnitRecord<'b>>, AllocError> {
    let mut records = Vec::new(alloc);
    for (name, quantities) in part.book.quantity_totals().iter() {
        let unit = match name.as_slice() {
            [unit, ..] => unit.as_str(),
            [] => "",
        };
        records.push(UnitRecord::of_total(unit, *quantities))?;
    }
    Ok(records)
}

/// The records of some hours: of each name of the warehouse's own commitments, of each of those that providers keep, and of all of both.
pub(crate) fn records_of<'b>(
    alloc: Global,
    part: &'b Part<'b>,
) -> Result<Vec<Record<'b>>, AllocError> {
    let mut records = Vec::new(alloc);
    for keeper in [Keeper::Own, Keeper::Provider] {
        push_named(&mut records, part, keeper)?;
    }
    for keeper in [Keeper::Own, Keeper::Provider] {
        push_total(&mut records, &part.book, keeper)?;
    }
    Ok(records)
}

// Adds the records of the names.
fn push_named<'b>(
    records: &mut Vec<Record<'b>>,
    part: &'b Part<'b>,
    keeper: Keeper,
) -> Result<(), AllocError> {
    for (texts, figures) in part.book.figures(keeper).iter() {
        records.push(Record {
            keeper,
            texts: Some(texts.as_slice()),
            figures: *figures,
            is_priced: part.book.is_priced(keeper),
            units: units_of(part.units.as_slice(), texts.as_slice(), figures.usable),
        })?;
    }
    Ok(())
}

// Adds the record of all, where there is some name.
fn push_total<'b>(
    records: &mut Vec<Record<'b>>,
    book: &'b Book,
    keeper: Keeper,
) -> Result<(), AllocError> {
    if !book.figures(keeper).is_empty() {
        records.push(Record {
            keeper,
            texts: None,
            figures: book.total(keeper),
            is_priced: book.is_priced(keeper),
            units: None,
        })?;
    }
    Ok(())
}

/// The amounts of a record in nanos, in the order of their columns. What a provider's commitments covered is known where rows have prices, and what
/// they could have covered isn't.
pub(crate) fn amounts_of(record: &Record<'_>) -> Result<[Option<i128>; 8], AllocError> {
    let figures = record.figures;
    let is_own = record.keeper == Keeper::Own;
    Ok([
        Some(figures.used),
        Some(figures.unused),
        Some(figures.amortised()?),
        Some(figures.paid),
        where_known(record.is_priced, figures.covered),
        where_known(is_own, figures.uncovered()?),
        where_known(is_own, figures.eligible),
        where_known(record.is_priced, figures.savings()?),
    ])
}

/// How many rows that providers' commitments cover have no price, where a tag has prices; none of own commitments.
pub(crate) fn unpriced_of(record: &Record<'_>) -> Option<i128> {
    let is_listed = record.is_priced && record.keeper == Keeper::Provider;
    where_known(is_listed, record.figures.unpriced)
}

/// What savings are measured by: what could have been covered, or what was where only that is known.
pub(crate) fn savings_whole(covered: Option<i128>, eligible: Option<i128>) -> Option<i128> {
    match eligible {
        Some(cost) => Some(cost),
        None => covered,
    }
}

// An amount that is known.
fn where_known(is_known: bool, nanos: i128) -> Option<i128> {
    if is_known { Some(nanos) } else { None }
}
