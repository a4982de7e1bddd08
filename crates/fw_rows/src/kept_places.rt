//! Where kept columns stand in a header, and their texts in a record.
ghost use Rattle.std.specs.Prelude.{◌≡◌, ◌<◌, [], length, get_or, map, position, All, Any, IfOk, IfSome, IsUtf8, MatchOption, IsTrue, string_bytes};
ghost use Rattle.std.specs.Str.{bytes_eq};
ghost use Rattle.csv.specs.Records.{fields_of};
ghost use Rattle.fw_rows.specs.Columns.{text_at};
ghost use Rattle.fw_rows.specs.Kept.{name_place};
ghost use Rattle.fw_rows.specs.Keeping.{keep_places, texts_at};

use crate::cells::{field_at, text_at};
use crate::keep::Keep;
use crate::records::field;
use csv::ByteRecord;
use std::alloc::{AllocError, Global};

// Whether the field of a header at a place is a name.
fn is_name_at(header: &ByteRecord, place: usize, name: &str) -> bool
    requires { place < length (fields_of header.now) }
    ensures { result ≡ bytes_eq name.now (get_or (fields_of header.now) place []) }
{
    name.as_bytes() == field(header, place)
}

// The first place at which a header has a name.
fn name_place(header: &ByteRecord, name: &str) -> Option<usize>
    ensures { result ≡ name_place (fields_of header.now) name.now }
{
    for place in 0..header.len() {
        if is_name_at(header, place, name) {
            return Some(place);
        }
    }
    None
}

/// The places of kept columns in a header.
pub(crate) fn keep_places(
    alloc: Global,
    header: &ByteRecord,
    keeps: &[Keep],
) -> Result<Vec<Option<usize>>, AllocError>
    ensures { IfOk result (λ places.
        places.items ≡ keep_places keeps.now (fields_of header.now)) }
{
    let mut places = Vec::with_capacity(alloc, keeps.len())?;
    for keep in keeps {
        places.push(name_place(header, keep.column()))?;
    }
    Ok(places)
}

// Whether a text is that of a record at a place.
fn is_text_at(text: &str, fields: &ByteRecord, place: Option<usize>) -> bool
    ensures { IsTrue result → text.now ≡ text_at (fields_of fields.now) place }
{
    text.as_bytes() == field_at(fields, place)
}

/// Whether texts are those of a record at places.
pub(crate) fn are_at(values: &[String], fields: &ByteRecord, places: &[Option<usize>]) -> bool
    ensures { IsTrue result
        → map string_bytes values.now ≡ texts_at (fields_of fields.now) places.now }
{
    if values.len() != places.len() {
        return false;
    }
    for index in 0..places.len() {
        if !is_text_at(values[index].as_str(), fields, places[index]) {
            return false;
        }
    }
    true
}

/// The texts of a record at places, if all are UTF-8.
pub(crate) fn texts_at(
    alloc: Global,
    fields: &ByteRecord,
    places: &[Option<usize>],
) -> Result<Option<Vec<String>>, AllocError>
    ensures { let texts = texts_at (fields_of fields.now) places.now in
        IfOk result (λ found. MatchOption found (Any (λ text. ¬ IsUtf8 text) texts)
        (λ values. (map string_bytes values.items ≡ texts) × All IsUtf8 texts)) }
{
    let mut texts = Vec::with_capacity(alloc, places.len())?;
    for place in places {
        let Some(text) = text_at(fields, *place) else {
            return Ok(None);
        };
        texts.push(String::from_str(alloc, text)?)?;
    }
    Ok(Some(texts))
}
