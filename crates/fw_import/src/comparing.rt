//! Whether two entries are equal.
ghost use Rattle.std.specs.Prelude.{◌≡◌, true, IfOk, IsTrue};

use fw_columns::Columns;
use fw_entry::{Command, Entry};
use fw_entry_bytes::{entries_have_one_spelling, put_entry};
use fw_stored_rows::is_same_row;
use std::alloc::{AllocError, Global};

/// Whether two entries are equal. Posts are compared row by row. Of others it writes both in bytes, at most 4 MiB each.
pub fn same_entry(alloc: Global, one: &Entry, other: &Entry) -> Result<bool, AllocError>
    ensures { IfOk result (λ same. same ≡ true → one.now ≡ other.now) }
{
    if let (Command::Post(rows), Command::Post(others)) = (one.command(), other.command()) {
        return Ok(
            one.origin() == other.origin()
                && one.seq() == other.seq()
                && are_same_rows(rows, others),
        );
    }
    same_bytes(alloc, one, other)
}

// Whether two sets of columns have the same rows, in the same order.
fn are_same_rows(one: &Columns, other: &Columns) -> bool
    ensures { IsTrue result → one.now ≡ other.now }
{
    let count = one.len();
    if other.len() != count {
        return false;
    }
    for place in 0..count {
        if !is_same_row(&one.lent(place), &other.lent(place)) {
            return false;
        }
    }
    true
}

// Whether two entries are equal, by their bytes.
fn same_bytes(alloc: Global, one: &Entry, other: &Entry) -> Result<bool, AllocError>
    ensures { IfOk result (λ same. same ≡ true → one.now ≡ other.now) }
{
    let _one = one.seq();
    let _other = other.seq();
    entries_have_one_spelling();
    let mut first = Vec::new(alloc);
    put_entry(&mut first, one)?;
    let mut second = Vec::new(alloc);
    put_entry(&mut second, other)?;
    Ok(first.as_slice() == second.as_slice())
}
