//! The figures of the periods of a range.
use crate::book::Book;
use crate::prices::priced;
use fw_calendar::{Period, Step, periods};
use fw_coverage::{Coverage, coverage};
use fw_query::QueryFault;
use fw_select::{Column, Key, Selector, Source, selected};
use fw_snapshot::Snapshot;
use std::alloc::{AllocError, Global};

/// The figures of commitments in some hours.
#[derive(Drop)]
pub struct Part<'a> {
    /// The hours.
    pub period: Period,
    /// The figures by name.
    pub(crate) book: Book,
    /// How well the warehouse's own commitments were used, in their units.
    pub(crate) units: Vec<Coverage<'a>>,
}

/// The figures of a range of hours, and those of the periods that it is cut into.
#[derive(Drop)]
pub struct Commitments<'a> {
    /// The figures of the whole range.
    pub whole: Part<'a>,
    /// The periods in order, each with its figures; none where the range isn't cut.
    pub parts: Vec<Part<'a>>,
}

/// The figures of the commitments of a snapshot in a range of hours, by commitment, or by keys where there are some; and, where there is a step,
/// those of each period of the range. Where there is a price tag, what providers' commitments cover is summed at the amounts that it has.
///
/// # Errors
/// `Range` where the range has no hour or more than 26,304; `TotalTooLarge` where the costs of the lines of the range or of a period pass
/// 10^19 nanos; `NoMemory` where memory ran out.
pub fn commitments_of<'a>(
    alloc: Global,
    snapshot: &'a Snapshot,
    keys: &[Source<'_>],
    price_tag: Option<&str>,
    hours: Period,
    step: Option<Step>,
) -> Result<Commitments<'a>, QueryFault> {
    let all = all_keys(alloc, keys)?;
    let selector = Selector {
        keys: all.as_slice(),
        filters: &[],
    };
    let whole = part_of(alloc, snapshot, &selector, price_tag, hours)?;
    let parts = match step {
        Some(step) => parts_of(alloc, snapshot, &selector, price_tag, hours, step)?,
        None => Vec::new(alloc),
    };
    Ok(Commitments { whole, parts })
}

/// How many keys stand behind those that are asked for.
const OWN_KEYS: usize = 3;

// The keys by which lines are summed: those that are asked for, and what tells commitments and their lines apart.
fn all_keys<'k>(alloc: Global, keys: &[Source<'k>]) -> Result<Vec<Key<'k>>, AllocError> {
    let mut all = Vec::new(alloc);
    for source in keys {
        all.push(Key {
            source: *source,
            map: None,
        })?;
    }
    for column in [
        Column::CommitmentDiscountId,
        Column::CommitmentDiscountStatus,
        Column::ChargeCategory,
    ] {
        all.push(Key {
            source: Source::Column(column),
            map: None,
        })?;
    }
    Ok(all)
}

// The figures of some hours.
fn part_of<'a>(
    alloc: Global,
    snapshot: &'a Snapshot,
    selector: &Selector<'_, '_, '_>,
    price_tag: Option<&str>,
    period: Period,
) -> Result<Part<'a>, QueryFault> {
    let Period { from, to } = period;
    let keys = selector.keys.len().saturating_sub(OWN_KEYS);
    let commitments = snapshot.state().commitment_list();
    let mut book = Book::new(alloc, keys, price_tag.is_some());
    let lines = selected(alloc, snapshot, selector, from, to)?;
    book.add_lines(commitments, lines.groups())?;
    let prices = priced(alloc, snapshot, selector, price_tag, from, to)?;
    book.add_prices(commitments, prices.as_slice())?;
    let units = coverage(alloc, snapshot, from, to)?;
    book.add_capacities(units.as_slice())?;
    Ok(Part {
        period,
        book,
        units,
    })
}

// The periods of a range, each with its figures.
fn parts_of<'a>(
    alloc: Global,
    snapshot: &'a Snapshot,
    selector: &Selector<'_, '_, '_>,
    price_tag: Option<&str>,
    hours: Period,
    step: Step,
) -> Result<Vec<Part<'a>>, QueryFault> {
    let mut parts = Vec::new(alloc);
    if hours.from > hours.to {
        return Ok(parts);
    }
    let periods = periods(alloc, step, hours.from, hours.to)?;
    for period in &periods {
        parts.push(part_of(alloc, snapshot, selector, price_tag, *period)?)?;
    }
    Ok(parts)
}
