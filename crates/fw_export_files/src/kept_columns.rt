//! What is said of columns that are kept as tags.
use crate::walk::Walk;
use csv::{ByteRecord, Reader, ReaderBuilder};
use fw_console::Fault;
use fw_cut::Part;
use fw_explain::explain_fault;
use fw_rows::{Column, Keep, RecordFault, RowFault};
use fw_table::shown_text;
use fw_tags::{TagFault, read_tags};
use std::alloc::{AllocError, Global};

/// A fault of a header: a kept column that it doesn't have, or has more than once.
#[derive(Drop)]
pub struct HeaderFault {
    // the name of the column, as a terminal may show it
    column: String,
    code: &'static str,
}

/// The first kept column that the header of a part doesn't have once.
pub fn header_fault(
    alloc: Global,
    keeps: &[Keep],
    part: &Part,
) -> Result<Option<HeaderFault>, AllocError> {
    let Some(header) = record_at(alloc, &part.text, 0)? else {
        return Ok(None);
    };
    for keep in keeps {
        let code = match times_in(&header, keep.column()) {
            0 => "H1 MissingColumn",
            1 => continue,
            _ => "H2 DoubleColumn",
        };
        let column = shown_text(alloc, keep.column())?;
        return Ok(Some(HeaderFault { column, code }));
    }
    Ok(None)
}

/// Says which kept column a header doesn't have once. The answer is false.
pub fn say_header(rt: &HostRuntime, walk: &mut Walk<'_>, fault: &HeaderFault) -> bool {
    walk.progress.end(rt);
    let (name, column, code) = (walk.shown.as_str(), fault.column.as_str(), fault.code);
    let expected = explain_fault(code).expected;
    let _ = eprintln!(rt;
        "focusd: {name}:1: the header, {column}: {code}: expected {expected}, since --keep names it"
    );
    false
}

/// Says which tag a record of a part has already, where that is its fault.
pub fn say_kept(
    rt: &HostRuntime,
    keeps: &[Keep],
    part: &Part,
    fault: RowFault,
) -> Result<(), Fault> {
    let RowFault::Record {
        number,
        fault: RecordFault::TagTwice,
    } = fault
    else {
        return Ok(());
    };
    let alloc = rt.alloc();
    let (Some(header), Some(record)) = (
        record_at(alloc, &part.text, 0)?,
        record_at(alloc, &part.text, number as usize)?,
    ) else {
        return Ok(());
    };
    if let Some(keep) = first_twice(alloc, keeps, &header, &record)? {
        let column = shown_text(alloc, keep.column())?;
        let key = shown_text(alloc, keep.key())?;
        let (column, key) = (column.as_str(), key.as_str());
        let _ = eprintln!(rt;
            "The record has the tag {key}, as which the column {column} is to be kept. --keep {column}=TAG names another tag."
        );
    }
    Ok(())
}

// The first kept column of a record whose tag Tags has already.
fn first_twice<'a>(
    alloc: Global,
    keeps: &'a [Keep],
    header: &ByteRecord,
    record: &ByteRecord,
) -> Result<Option<&'a Keep>, AllocError> {
    let text = str::from_utf8(field_of(header, record, Column::Tags.name())).unwrap_or("");
    let tags = match read_tags(alloc, text) {
        Ok(tags) => tags,
        Err(TagFault::NoMemory) => return Err(AllocError),
        Err(_) => return Ok(None),
    };
    for keep in keeps {
        let is_there = tags.value(keep.key()).is_some();
        if is_there && !field_of(header, record, keep.column()).is_empty() {
            return Ok(Some(keep));
        }
    }
    Ok(None)
}

// How often a header has a name.
fn times_in(header: &ByteRecord, name: &str) -> usize {
    let mut times: usize = 0;
    for place in 0..header.len() {
        if header.get(place).unwrap_or(b"") == name.as_bytes() {
            times = times.saturating_add(1);
        }
    }
    times
}

// The field of a record under a name of the header; none of its bytes where there is no such field.
fn field_of<'r>(header: &ByteRecord, record: &'r ByteRecord, name: &str) -> &'r [u8] {
    for place in 0..header.len() {
        if header.get(place).unwrap_or(b"") == name.as_bytes() {
            return record.get(place).unwrap_or(b"");
        }
    }
    b""
}

// The record of a text behind so many others.
fn record_at(alloc: Global, text: &[u8], behind: usize) -> Result<Option<ByteRecord>, AllocError> {
    let mut reader = ReaderBuilder::new()
        .has_headers(false)
        .flexible(true)
        .from_reader(alloc, text);
    let mut fields = ByteRecord::new(alloc);
    for _ in 0..behind {
        next_record(&mut reader, &mut fields)?;
    }
    Ok(if next_record(&mut reader, &mut fields)? {
        Some(fields)
    } else {
        None
    })
}

// Reads the next record of a text, and says whether there is one.
fn next_record<'a>(
    reader: &mut Reader<&'a [u8]>,
    fields: &mut ByteRecord,
) -> Result<bool, AllocError> {
    match reader.read_byte_record(fields) {
        Ok(found) => Ok(found),
        Err(_) => Err(AllocError),
    }
}
