//! The reader of rows behind their number.
ghost use Rattle.std.specs.Prelude.{◌≡◌, ◌≤◌, length, IfOk};
ghost use Rattle.fw_bytes.specs.Reading.{Gives, times, list_at};
ghost use Rattle.fw_row_bytes.specs.Reading.{row_at};
ghost use Rattle.fw_row_table.specs.Table.{most_column_rows};

use crate::row::row_of;
use fw_bytes::{ReadError, u32_at};
use fw_columns::{Columns, ColumnsBuilder};
use std::alloc::Global;

/// So many rows. Memory is taken as each row is read, not for the count.
fn rows_after(alloc: Global, count: u32, bytes: &[u8]) -> Result<(ColumnsBuilder, &[u8]), ReadError>
    requires { count ≤ most_column_rows }
    ensures read { Gives (λ x. (x.0, x.1.now)) result (times row_at count bytes.now) }
    ensures all { IfOk result (λ x. length x.0 ≡ count) }
{
    let mut rows = ColumnsBuilder::new(alloc);
    let mut rest = bytes;
    for _ in 0..count {
        match row_of(alloc, rest) {
            Ok((row, after)) => {
                rows.push_row(&row)?;
                rest = after;
            }
            Err(e) => return Err(e),
        }
    }
    Ok((rows, rest))
}

/// Rows behind their number of four bytes, from one on and at most so many, which are at most 65,536, and the bytes after them.
///
/// # Errors
/// [`ReadError::Corrupt`] at the number where it is cut off, 0 or too great, before any row is read, and then as [`row_of`] reports the first row
/// that isn't one; [`ReadError::NoMemory`] where there is no memory for the rows.
#[tactic(auto, unfolding(fw_bytes::specs::Reading::list_at))]
pub fn rows_of(alloc: Global, most: u32, bytes: &[u8]) -> Result<(Columns, &[u8]), ReadError>
    requires { most ≤ most_column_rows }
    ensures { Gives (λ x. (x.0, x.1.now)) result (list_at 1 most row_at bytes.now) }
{
    let (count, rest) = u32_at(bytes)?;
    if count < 1 || count > most {
        return Err(ReadError::Corrupt(bytes.len()));
    }
    match rows_after(alloc, count, rest) {
        Ok((rows, rest)) => Ok((rows.finish()?, rest)),
        Err(e) => Err(e),
    }
}
