//! What commitments cover of an hour's rows.
ghost use Rattle.std.specs.Prelude.{◌≡◌, map, IfOk};
ghost use Rattle.fw_cover.specs.Hour.{hour_cover};
ghost use Rattle.fw_cover.specs.HourCovers.{IsHourCover};

use crate::lending::{lend, references};
use crate::roster::Roster;
use crate::taken::Taken;
use fw_charge::Row;
use fw_terms::Commitment;
use std::alloc::{AllocError, Global};

/// What commitments cover of an hour's rows, and what is left of both.
#[derive(Debug, Drop)]
pub struct HourCover {
    /// What they took: commitment by commitment in their order, and of each in the order in which it meets the rows.
    pub taken: Vec<Taken>,
    /// Of each row the quantity that nothing took, in nanos. A row that is no part of the hour or isn't eligible has its whole quantity,
    /// as its absolute value, and one without a quantity has 0.
    pub row_left: Vec<u64>,
    /// Of each commitment the part of its capacity that nothing used, in nanos; the whole capacity in an hour outside its term.
    pub unused: Vec<u64>,
}

/// What the commitments cover of the rows of an hour; rows of other hours are passed over. The places are those in the two slices. For
/// many hours make a [`Roster`] once.
pub fn cover_hour(
    alloc: Global,
    commitments: &[Commitment],
    rows: &[&Row],
    hour: u32,
) -> Result<HourCover, AllocError>
    ensures { IfOk result (IsHourCover commitments.now (map (λ r. r.now) rows.now) hour) }
{
    let lent = lend(alloc, rows)?;
    let rows = references(alloc, &lent)?;
    let first = u64::from(hour);
    Roster::new(alloc, commitments, first, first + 1)?.cover(alloc, &rows, hour)
}

/// What the commitments take of the rows of an hour, commitment by commitment in their order; rows of other hours are passed over. The
/// places are those in the two slices.
pub fn cover(
    alloc: Global,
    commitments: &[Commitment],
    rows: &[Row],
    hour: u32,
) -> Result<Vec<Taken>, AllocError>
    ensures { IfOk result (λ v. v.items ≡ hour_cover commitments.now rows.now hour) }
{
    let rows = lent(alloc, rows)?;
    let cover = cover_hour(alloc, commitments, &rows, hour)?;
    Ok(cover.taken)
}

/// The rows of a list, lent one by one.
fn lent<'a>(alloc: Global, rows: &'a [Row]) -> Result<Vec<&'a Row>, AllocError>
    ensures { IfOk result (λ v. map (λ r. r.now) v.items ≡ rows.now) }
{
    let mut lent = Vec::with_capacity(alloc, rows.len())?;
    for row in rows {
        lent.push(row)?;
    }
    Ok(lent)
}
