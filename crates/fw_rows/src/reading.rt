//! How a CSV text reads as rows.
ghost use Rattle.std.specs.Prelude.{◌≡◌, ◌<◌, [], length, OnOk};
ghost use Rattle.csv.specs.Reading.{strip_bom};
ghost use Rattle.csv.specs.Records.{AllText, fields_of};
ghost use Rattle.csv.specs.declared.parser.State.TheVariants as st;
ghost use Rattle.fw_rows.specs.Columns.{Record, text_in};
ghost use Rattle.fw_rows.specs.Header.{ArePlaces};
ghost use Rattle.fw_rows.specs.Judged.{JudgedWithin};
ghost use Rattle.fw_rows.specs.Rows.{most_rows, RowsRead};
ghost use Rattle.fw_rows.specs.Rules.{rules_of};
ghost use Rattle.fw_rows.specs.Shown.{rows_shown};
ghost use Rattle.fw_rows.specs.Sinks.{AddsRow, rows_in};

use crate::ascii::is_ascii;
use crate::cells::Cells;
use crate::column::Column;
use crate::fault::{RecordFault, Refusal, RowFault};
use crate::header::Places;
use crate::records::{Records, open, record_for};
use crate::short::ShortText;
use crate::sink::{RowSink, Rows};
use csv::ByteRecord;
use fw_charge::{Currency, MOST_POST_ROWS, Row};
use std::alloc::Global;

/// The greatest number of rows of a text: as many as a post may have.
const MOST_ROWS: usize = MOST_POST_ROWS;

/// The longest text, in bytes, that is read byte by byte: a longer one costs more so than by a table.
const LONGEST_SHORT: usize = 2_048;

/// Reads the rows of a CSV text whose first record is its header; a byte order mark may stand before it. Costs are in `currency`.
///
/// The rows are those of the records after the header, in order. A column of the last nine that the header doesn't have, and an empty
/// field, are null. Where there is a fault, the first one is the answer: a column that the header misses, in the order of `Column`, then
/// one that it has twice; then, record by record, the first rule in the order of `RecordFault` that the record breaks. A text of the header alone is `NoRows`. Record 4,097 is `TooManyRows`, whatever it holds.
/// `NoMemory` comes where memory runs out, at any place.
pub fn read_rows(alloc: Global, text: &[u8], currency: Currency) -> Result<Vec<Row>, RowFault>
    ensures { RowsRead currency text.now (rows_shown result) }
{
    let mut read = Rows::new(alloc);
    read_into(alloc, text, currency, &mut read)?;
    Ok(read.rows)
}

/// Reads the rows of a CSV text into what takes them, which has none yet. What the rows are, and where there is a fault, is as of [`read_rows`].
/// After a fault nothing is known of what takes them.
pub fn read_into<S: RowSink>(
    alloc: Global,
    text: &[u8],
    currency: Currency,
    sink: &mut S,
) -> Result<(), RowFault>
    requires ready { S.is_ready sink.old }
    requires none { S.rows sink.old ≡ [] }
    ensures rows { RowsRead currency text.now (rows_in (S.rows sink.new) result) }
    ensures some { OnOk result (0 < length (S.rows sink.new)) }
    ensures ready { OnOk result (S.is_ready sink.new) }
{
    if text.len() <= LONGEST_SHORT {
        return read_records(
            alloc,
            text,
            &mut ShortText::new(alloc, text),
            currency,
            sink,
        );
    }
    read_long(alloc, text, currency, sink)
}

/// Reads the rows of a long text, as [`read_into`] does.
#[inline(never)]
fn read_long<S: RowSink>(
    alloc: Global,
    text: &[u8],
    currency: Currency,
    sink: &mut S,
) -> Result<(), RowFault>
    requires ready { S.is_ready sink.old }
    requires none { S.rows sink.old ≡ [] }
    ensures rows { RowsRead currency text.now (rows_in (S.rows sink.new) result) }
    ensures some { OnOk result (0 < length (S.rows sink.new)) }
    ensures ready { OnOk result (S.is_ready sink.new) }
{
    read_records(alloc, text, &mut open(alloc, text), currency, sink)
}

/// Reads the rows of a text by its records, as [`read_into`] does.
fn read_records<R: Records, S: RowSink>(
    alloc: Global,
    text: &[u8],
    records: &mut R,
    currency: Currency,
    sink: &mut S,
) -> Result<(), RowFault>
    requires start { R.at records.old st.StartRecord (strip_bom text.now) }
    requires ready { S.is_ready sink.old }
    requires none { S.rows sink.old ≡ [] }
    ensures rows { RowsRead currency text.now (rows_in (S.rows sink.new) result) }
    ensures some { OnOk result (0 < length (S.rows sink.new)) }
    ensures ready { OnOk result (S.is_ready sink.new) }
{
    let mut fields = record_for(alloc, text);
    if !records.advance(&mut fields)? {
        return Err(RowFault::MissingColumn(Column::BilledCost));
    }
    let places = Places::of_header(&fields)?;
    let mut count = 0;
    'records: while records.advance(&mut fields)? {
        if count == MOST_ROWS {
            return Err(RowFault::TooManyRows);
        }
        count += 1;
        if let Err(refusal) = add_record(sink, &fields, &places, currency) {
            return Err(refusal.at_record(count as u32));
        }
    }
    if count == 0 {
        return Err(RowFault::NoRows);
    }
    Ok(())
}

/// Adds the row of a record under a header with these places, if it breaks no rule.
///
/// One look at the whole record says whether it is ASCII. Most are, and of these no field is checked for UTF-8.
fn add_record<S: RowSink>(
    sink: &mut S,
    fields: &ByteRecord,
    places: &Places,
    currency: Currency,
) -> Result<(), Refusal>
    requires ready { S.is_ready sink.old }
    requires room { length (S.rows sink.old) < most_rows }
    ensures row { (header : Record) → ArePlaces header places.now
        → JudgedWithin (rules_of currency header (fields_of fields.now))
        (λ _. AddsRow (text_in header (fields_of fields.now)) (S.rows sink.old) (S.rows sink.new))
        result }
    ensures ready { OnOk result (S.is_ready sink.new) }
{
    if fields.len() != places.fields {
        return Err(Refusal::Broken(RecordFault::Fields));
    }
    if is_ascii(fields.as_slice()) {
        return add_text(sink, fields, places, currency);
    }
    add_bytes(sink, fields, places, currency)
}

/// Adds the row of a record with as many fields as the header, if it breaks no rule. Each field that is read is checked for UTF-8.
fn add_bytes<S: RowSink>(
    sink: &mut S,
    fields: &ByteRecord,
    places: &Places,
    currency: Currency,
) -> Result<(), Refusal>
    requires ready { S.is_ready sink.old }
    requires room { length (S.rows sink.old) < most_rows }
    requires as_long { length (fields_of fields.now) ≡ places.now.fields }
    ensures row { (header : Record) → ArePlaces header places.now
        → JudgedWithin (rules_of currency header (fields_of fields.now))
        (λ _. AddsRow (text_in header (fields_of fields.now)) (S.rows sink.old) (S.rows sink.new))
        result }
    ensures ready { OnOk result (S.is_ready sink.new) }
{
    match Cells::of_record(fields, places) {
        Some(cells) => sink.add(&cells, currency),
        None => Err(Refusal::Broken(RecordFault::NotUtf8)),
    }
}

/// Adds the row of a record of UTF-8 with as many fields as the header, if it breaks no rule.
fn add_text<S: RowSink>(
    sink: &mut S,
    fields: &ByteRecord,
    places: &Places,
    currency: Currency,
) -> Result<(), Refusal>
    requires ready { S.is_ready sink.old }
    requires room { length (S.rows sink.old) < most_rows }
    requires as_long { length (fields_of fields.now) ≡ places.now.fields }
    requires text { AllText (fields_of fields.now) }
    ensures row { (header : Record) → ArePlaces header places.now
        → JudgedWithin (rules_of currency header (fields_of fields.now))
        (λ _. AddsRow (text_in header (fields_of fields.now)) (S.rows sink.old) (S.rows sink.new))
        result }
    ensures ready { OnOk result (S.is_ready sink.new) }
{
    sink.add(&Cells::of_text(fields, places), currency)
}
