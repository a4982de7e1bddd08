//! Rows, lent.
ghost use Rattle.std.specs.Prelude.{◌≡◌, map, IfOk};

use fw_charge::Row;
use fw_row_table::LentRow;
use std::alloc::{AllocError, Global};

/// Rows, lent.
pub fn lend<'a>(alloc: Global, rows: &[&'a Row]) -> Result<Vec<LentRow<'a>>, AllocError>
    ensures { IfOk result (λ v. v.items ≡ map (λ r. r.now) rows.now) }
{
    let mut lent = Vec::with_capacity(alloc, rows.len())?;
    for row in rows {
        lent.push(LentRow::of_row(row))?;
    }
    Ok(lent)
}

/// References to lent rows, one by one.
pub fn references<'r, 'a>(
    alloc: Global,
    rows: &'r [LentRow<'a>],
) -> Result<Vec<&'r LentRow<'a>>, AllocError>
    ensures { IfOk result (λ v. map (λ r. r.now) v.items ≡ rows.now) }
{
    let mut references = Vec::with_capacity(alloc, rows.len())?;
    for row in rows {
        references.push(row)?;
    }
    Ok(references)
}
