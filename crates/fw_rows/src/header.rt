//! Where the columns stand in a header.
ghost use Rattle.std.specs.Prelude.{◌≡◌, ◌<◌, ℕ, List, [], length, get_or, Err, MatchResult};
ghost use Rattle.csv.specs.Records.{fields_of};
ghost use Rattle.fw_rows.specs.Columns.{Record, is_name, place_in, times, missing_column, double_column};
ghost use Rattle.fw_rows.specs.Rows.{IsHeader, RecordsRead};
ghost use Rattle.fw_rows.specs.Header.{ArePlaces};

use crate::column::{COUNT, Column, REQUIRED};
use crate::fault::RowFault;
use crate::records::field;
use csv::ByteRecord;

/// Where a header has the columns that are read, in their order, and how many fields it has.
#[derive(Clone, Copy, Drop)]
pub(crate) struct Places {
    pub(crate) fields: usize,
    pub(crate) places: [Option<usize>; COUNT],
}

/// Whether the field of a header at a place is the name of a column.
fn is_name_at(header: &ByteRecord, place: usize, column: Column) -> bool
    requires { place < length (fields_of header.now) }
    ensures { result ≡ is_name column (get_or (fields_of header.now) place []) }
{
    column.name().as_bytes() == field(header, place)
}

impl Column {
    /// The first place at which a header has the column.
    pub fn place_in(self, header: &ByteRecord) -> Option<usize>
        ensures { result ≡ place_in (fields_of header.now) self }
    {
        for place in 0..header.len() {
            if is_name_at(header, place, self) {
                return Some(place);
            }
        }
        None
    }
}

/// How often a column stands in a header.
fn times(header: &ByteRecord, column: Column) -> usize
    ensures { result ≡ times (fields_of header.now) column }
{
    let mut times = 0;
    for place in 0..header.len() {
        if is_name_at(header, place, column) {
            times += 1;
        }
    }
    times
}

/// The first required column that the header doesn't have.
fn missing_column(header: &ByteRecord) -> Option<Column>
    ensures { result ≡ missing_column (fields_of header.now) }
{
    REQUIRED
        .iter()
        .find(|column| column.place_in(header).is_none())
        .copied()
}

/// The first column that stands twice or more.
fn double_column(header: &ByteRecord) -> Option<Column>
    ensures { result ≡ double_column (fields_of header.now) }
{
    Column::ALL
        .iter()
        .find(|column| times(header, **column) > 1)
        .copied()
}

impl Places {
    /// Where the columns stand.
    fn of_columns(header: &ByteRecord) -> Places
        ensures { ArePlaces (fields_of header.now) result }
    {
        let mut places = [None; COUNT];
        for index in 0..COUNT {
            places[index] = Column::ALL[index].place_in(header);
        }
        Places {
            fields: header.len(),
            places,
        }
    }

    /// The places of the columns, or the header's first fault.
    pub(crate) fn of_header(header: &ByteRecord) -> Result<Places, RowFault>
        ensures { MatchResult result (λ places. ArePlaces (fields_of header.now) places
            × IsHeader (fields_of header.now))
            (λ fault. (currency : List ℕ) (body : List Record)
            → RecordsRead currency (fields_of header.now) body (Err fault)) }
    {
        if let Some(column) = missing_column(header) {
            return Err(RowFault::MissingColumn(column));
        }
        if let Some(column) = double_column(header) {
            return Err(RowFault::DoubleColumn(column));
        }
        Ok(Places::of_columns(header))
    }
}
