//! The texts of a record in the columns that are read.
ghost use Rattle.std.specs.Prelude.{◌≡◌, IsUtf8, MatchOption};
ghost use Rattle.csv.specs.Records.{AllText, fields_of};
ghost use Rattle.fw_rows.specs.Columns.{Record, text_at};
ghost use Rattle.fw_rows.specs.Header.{ArePlaces};
ghost use Rattle.fw_rows.specs.Parts.{AreCells, texts_of};
ghost use Rattle.fw_rows.specs.Rules.{HasNonText};

use crate::column::{COUNT, Column};
use crate::header::Places;
use csv::ByteRecord;

/// The texts of a record in the columns that are read, in their order. A text that is null is empty.
#[derive(Clone, Copy, Drop)]
pub struct Cells<'a> {
    texts: [&'a str; COUNT],
}

/// The field of a record at a place; the empty one where there is no place, or the record has no such field.
pub(crate) fn field_at<'r>(fields: &'r ByteRecord, place: Option<usize>) -> &'r [u8]
    ensures { result.now ≡ text_at (fields_of fields.now) place }
{
    match place {
        Some(place) => fields.get(place).unwrap_or(b""),
        None => b"",
    }
}

/// The field of a record at a place, if it is UTF-8.
pub(crate) fn text_at<'r>(fields: &'r ByteRecord, place: Option<usize>) -> Option<&'r str>
    ensures { let text = text_at (fields_of fields.now) place
        in MatchOption result (¬ IsUtf8 text) (λ r. (r.now ≡ text) × IsUtf8 text) }
{
    str::from_utf8(field_at(fields, place)).ok()
}

/// The field at a place of a record of which every field is UTF-8: no byte of it is looked at.
fn known_text_at<'r>(fields: &'r ByteRecord, place: Option<usize>) -> &'r str
    requires { AllText (fields_of fields.now) }
    ensures { result.now ≡ text_at (fields_of fields.now) place }
{
    let field = field_at(fields, place);
    unsafe { str::from_utf8_unchecked(field) }
}

impl<'a> Cells<'a> {
    /// The texts of a record, if all are UTF-8.
    pub(crate) fn of_record(fields: &'a ByteRecord, places: &Places) -> Option<Cells<'a>>
        ensures { (header : Record) → ArePlaces header places.now
            → MatchOption result (HasNonText header (fields_of fields.now))
            (λ cells. AreCells header (fields_of fields.now) cells) }
    {
        let mut texts = [""; COUNT];
        for index in 0..COUNT {
            texts[index] = text_at(fields, places.places[index])?;
        }
        Some(Cells { texts })
    }

    /// The texts of a record of which every field is known to be UTF-8: no byte of them is looked at.
    pub(crate) fn of_text(fields: &'a ByteRecord, places: &Places) -> Cells<'a>
        requires { AllText (fields_of fields.now) }
        ensures { (header : Record) → ArePlaces header places.now
            → AreCells header (fields_of fields.now) result }
    {
        let mut texts = [""; COUNT];
        for index in 0..COUNT {
            texts[index] = known_text_at(fields, places.places[index]);
        }
        Cells { texts }
    }

    /// The text in a column.
    pub fn text(&self, column: Column) -> &'a str
        ensures { result.now ≡ texts_of self.now column }
    {
        self.texts[column.index()]
    }
}
