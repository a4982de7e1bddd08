//! Faults of fields in columns that are kept as tags.
ghost use Rattle.std.specs.Prelude.{◌≡◌, IfOk};

use crate::columns::is_name_at;
use crate::fields::field_bytes;
use crate::findings::column_of;
use csv::ByteRecord;
use fw_charge::Tag;
use fw_rows::{Column, Keep, RecordFault};
use std::alloc::{AllocError, Global};

// The first place at which a header has a column.
fn place_in(header: &ByteRecord, name: &str) -> Option<usize> {
    for place in 0..header.len() {
        if is_name_at(header, place, name) {
            return Some(place);
        }
    }
    None
}

/// The place of the field that a fault of a record is of, where that is of a kept column and of no column that is read.
pub(crate) fn kept_place(
    header: &ByteRecord,
    record: &ByteRecord,
    keeps: &[Keep],
    fault: RecordFault,
) -> Option<usize> {
    let may_be = match (fault, column_of(header, record, fault)) {
        (RecordFault::NotUtf8, None) => true,
        (RecordFault::TooLong, Some(Column::Tags)) => true,
        _ => false,
    };
    if !may_be {
        return None;
    }
    for keep in keeps {
        if let Some(place) = place_in(header, keep.column()) {
            if is_at_fault(field_bytes(record, place), fault) {
                return Some(place);
            }
        }
    }
    None
}

/// The text of a record at a place; the empty text where it isn't UTF-8.
pub(crate) fn field_text(record: &ByteRecord, place: usize) -> &str {
    str::from_utf8(field_bytes(record, place)).unwrap_or("")
}

// Whether a field of a kept column has a fault.
fn is_at_fault(field: &[u8], fault: RecordFault) -> bool {
    match fault {
        RecordFault::NotUtf8 => str::from_utf8(field).is_err(),
        RecordFault::TooLong => field.len() > Tag::LONGEST,
        _ => false,
    }
}

/// Copies of columns that are kept.
pub(crate) fn copies(alloc: Global, keeps: &[Keep]) -> Result<Vec<Keep>, AllocError>
    ensures { IfOk result (λ copies. copies.items ≡ keeps.now) }
{
    let mut copies = Vec::new(alloc);
    for keep in keeps {
        let column = String::from_str(alloc, keep.column())?;
        let key = String::from_str(alloc, keep.key())?;
        copies.push(Keep::of_fields(column, key))?;
    }
    Ok(copies)
}
