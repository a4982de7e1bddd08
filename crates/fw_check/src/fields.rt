//! The fields of a record by column.
ghost use Rattle.std.specs.Prelude.{◌≡◌, ℕ, List, [], IfOk, Some, option_map};
ghost use Rattle.csv.specs.Reading.{strip_bom};
ghost use Rattle.csv.specs.Records.{fields_of};
ghost use Rattle.csv.specs.declared.parser.State.{State};
ghost use Rattle.csv.specs.declared.parser.State.TheVariants as st;
ghost use Rattle.fw_rows.specs.At.{AtLong, Finds};
ghost use Rattle.fw_rows.specs.Columns.{place_in, text_at, text_in};
ghost use Rattle.fw_rows.specs.Rows.{header_of, records_of};

use csv::{ByteRecord, Reader, ReaderBuilder};
use fw_rows::Column;
use std::alloc::{AllocError, Global};

/// The records of a text.
pub(crate) fn records_of<'a>(alloc: Global, text: &'a [u8]) -> Reader<&'a [u8]>
    ensures { AtLong result st.StartRecord (strip_bom text.now) }
{
    ReaderBuilder::new()
        .has_headers(false)
        .flexible(true)
        .from_reader(alloc, text)
}

/// Reads the next record of a text, and says whether there is one.
pub(crate) fn has_next<'a>(
    reader: &mut Reader<&'a [u8]>,
    fields: &mut ByteRecord,
) -> Result<bool, AllocError>
    ensures { IfOk result (λ found. (s : State) (y : List ℕ) → AtLong reader.old s y
        → Finds AtLong reader.new s y (fields_of fields.new) found) }
{
    let Ok(found) = reader.read_byte_record(fields) else {
        return Err(AllocError);
    };
    Ok(found)
}

/// The first record of a text; one without fields where the text has none.
pub(crate) fn first_record(alloc: Global, text: &[u8]) -> Result<ByteRecord, AllocError>
    ensures { IfOk result (λ first. fields_of first ≡ header_of (records_of text.now)) }
{
    let mut reader = records_of(alloc, text);
    let mut fields = ByteRecord::new(alloc);
    let found = has_next(&mut reader, &mut fields)?;
    if !found {
        return Ok(ByteRecord::new(alloc));
    }
    Ok(fields)
}

/// The bytes of a record in a column: none where the header doesn't have the column, or the record no such field.
#[tactic(auto, using(crate::proofs::FieldFacts::lent_field), unfolding(fw_rows::specs::Columns::text_in))]
pub(crate) fn bytes_in<'r>(header: &ByteRecord, fields: &'r ByteRecord, column: Column) -> &'r [u8]
    ensures { result.now ≡ text_in (fields_of header.now) (fields_of fields.now) column }
{
    match column.place_in(header) {
        Some(place) => fields.get(place).unwrap_or(b""),
        None => b"",
    }
}

/// The bytes of a record at a place; none of them where there is no such field.
#[tactic(auto, using(crate::proofs::FieldFacts::lent_field))]
pub(crate) fn field_bytes(fields: &ByteRecord, place: usize) -> &[u8]
    ensures { result.now ≡ text_at (fields_of fields.now) (Some place) }
{
    fields.get(place).unwrap_or(b"")
}

/// The text of a record in a column; the empty text where it isn't UTF-8.
pub(crate) fn text_in<'r>(header: &ByteRecord, fields: &'r ByteRecord, column: Column) -> &'r str {
    str::from_utf8(bytes_in(header, fields, column)).unwrap_or("")
}
