//! How a CSV text reads as rows where columns are kept as tags.
ghost use Rattle.std.specs.Prelude.{◌≡◌, ◌<◌, [], length, MatchOption, OnOk};
ghost use Rattle.csv.specs.Reading.{strip_bom};
ghost use Rattle.csv.specs.Records.{fields_of};
ghost use Rattle.csv.specs.declared.parser.State.TheVariants as st;
ghost use Rattle.fw_rows.specs.Columns.{Record};
ghost use Rattle.fw_rows.specs.Header.{ArePlaces};
ghost use Rattle.fw_rows.specs.Keeping.{AreFirsts, Judged, keep_places};
ghost use Rattle.fw_rows.specs.Kept.{RowsKept};
ghost use Rattle.fw_rows.specs.Parts.{AreCells};
ghost use Rattle.fw_rows.specs.Rows.{most_rows};
ghost use Rattle.fw_rows.specs.Rules.{HasNonText};
ghost use Rattle.fw_rows.specs.Sinks.{rows_in};

use crate::ascii::is_ascii;
use crate::cells::Cells;
use crate::column::Column;
use crate::fault::{RecordFault, Refusal, RowFault};
use crate::firsts::{first_row, note_first};
use crate::header::Places;
use crate::kept_places::texts_at;
use crate::kept_tags::KeptTags;
use crate::kept_texts::Keeper;
use crate::records::{Records, open, record_for};
use crate::short::ShortText;
use crate::sink::{GivenTags, KeepingSink};
use csv::ByteRecord;
use fw_charge::{Currency, MOST_POST_ROWS};
use std::alloc::Global;

/// The greatest number of rows of a text: as many as a post may have.
const MOST_ROWS: usize = MOST_POST_ROWS;

/// The longest text, in bytes, that is read byte by byte.
const LONGEST_SHORT: usize = 2_048;

/// Reads the rows of a CSV text into what takes them, as [`crate::read_into`] does, with columns kept as tags: the text
/// of a record in such a column is a tag of its row, unless it is empty. A column that the header doesn't have adds no
/// tag.
///
/// A further fault of a record is `TagTwice`, where its tags have the key of one of these already. It is looked for
/// behind `Fields` and `NotUtf8`, and before all others. `TooLong` and `NotUtf8` are of the texts of kept columns too.
pub fn read_into_keeping<S: KeepingSink>(
    alloc: Global,
    text: &[u8],
    currency: Currency,
    keeper: &mut Keeper,
    sink: &mut S,
) -> Result<(), RowFault>
    requires ready { S.is_ready sink.old }
    requires none { S.rows sink.old ≡ [] }
    ensures rows { RowsKept currency keeper.old.keeps text.now (rows_in (S.rows sink.new) result) }
    ensures some { OnOk result (0 < length (S.rows sink.new)) }
    ensures ready { OnOk result (S.is_ready sink.new) }
    ensures same { keeper.new.keeps ≡ keeper.old.keeps }
{
    if text.len() <= LONGEST_SHORT {
        let mut records = ShortText::new(alloc, text);
        return read_records(alloc, text, &mut records, currency, keeper, sink);
    }
    read_long(alloc, text, currency, keeper, sink)
}

/// Reads the rows of a long text, as [`read_into_keeping`] does.
#[inline(never)]
fn read_long<S: KeepingSink>(
    alloc: Global,
    text: &[u8],
    currency: Currency,
    keeper: &mut Keeper,
    sink: &mut S,
) -> Result<(), RowFault>
    requires ready { S.is_ready sink.old }
    requires none { S.rows sink.old ≡ [] }
    ensures rows { RowsKept currency keeper.old.keeps text.now (rows_in (S.rows sink.new) result) }
    ensures some { OnOk result (0 < length (S.rows sink.new)) }
    ensures ready { OnOk result (S.is_ready sink.new) }
    ensures same { keeper.new.keeps ≡ keeper.old.keeps }
{
    read_records(alloc, text, &mut open(alloc, text), currency, keeper, sink)
}

/// The kept columns of a text of charges.
#[derive(Drop)]
pub(crate) struct KeptColumns {
    /// Where each stands in the header.
    pub(crate) places: Vec<Option<usize>>,
    /// For each text that is known the place of the first row with its tags, where there is such a row.
    pub(crate) firsts: Vec<Option<usize>>,
}

/// Reads the rows of a text by its records, as [`read_into_keeping`] does.
fn read_records<R: Records, S: KeepingSink>(
    alloc: Global,
    text: &[u8],
    records: &mut R,
    currency: Currency,
    keeper: &mut Keeper,
    sink: &mut S,
) -> Result<(), RowFault>
    requires start { R.at records.old st.StartRecord (strip_bom text.now) }
    requires ready { S.is_ready sink.old }
    requires none { S.rows sink.old ≡ [] }
    ensures rows { RowsKept currency keeper.old.keeps text.now (rows_in (S.rows sink.new) result) }
    ensures some { OnOk result (0 < length (S.rows sink.new)) }
    ensures ready { OnOk result (S.is_ready sink.new) }
    ensures same { keeper.new.keeps ≡ keeper.old.keeps }
{
    let mut fields = record_for(alloc, text);
    if !records.advance(&mut fields)? {
        return Err(RowFault::MissingColumn(Column::BilledCost));
    }
    let places = Places::of_header(&fields)?;
    let kept = keeper.begin(alloc, &fields)?;
    let firsts = vec![in alloc; None; keeper.len()]?;
    let mut kept = KeptColumns {
        places: kept,
        firsts,
    };
    let mut count = 0;
    'records: while records.advance(&mut fields)? {
        if count == MOST_ROWS {
            return Err(RowFault::TooManyRows);
        }
        let row = count;
        count += 1;
        if let Err(refusal) = add_record(
            alloc, sink, &fields, &places, &mut kept, keeper, row, currency,
        ) {
            return Err(refusal.at_record(count as u32));
        }
    }
    if count == 0 {
        return Err(RowFault::NoRows);
    }
    Ok(())
}

/// Adds the row of a record under a header with these places, if it breaks no rule. It is the row at a place.
fn add_record<S: KeepingSink>(
    alloc: Global,
    sink: &mut S,
    fields: &ByteRecord,
    places: &Places,
    kept: &mut KeptColumns,
    keeper: &mut Keeper,
    row: usize,
    currency: Currency,
) -> Result<(), Refusal>
    requires ready { S.is_ready sink.old }
    requires room { length (S.rows sink.old) < most_rows }
    requires row { row ≡ length (S.rows sink.old) }
    requires firsts { AreFirsts keeper.old.keeps keeper.old.texts kept.old.firsts.items
        (S.rows sink.old) }
    ensures row { (header : Record) → ArePlaces header places.now
        → kept.old.places.items ≡ keep_places keeper.old.keeps header
        → Judged currency keeper.old.keeps header (fields_of fields.now)
        (S.rows sink.old) (S.rows sink.new) result }
    ensures ready { OnOk result (S.is_ready sink.new) }
    ensures firsts { OnOk result (AreFirsts keeper.old.keeps keeper.new.texts
        kept.new.firsts.items (S.rows sink.new)) }
    ensures places { kept.new.places.items ≡ kept.old.places.items }
    ensures same { keeper.new.keeps ≡ keeper.old.keeps }
{
    if fields.len() != places.fields {
        return Err(Refusal::Broken(RecordFault::Fields));
    }
    let Some(cells) = cells_of(fields, places) else {
        return Err(Refusal::Broken(RecordFault::NotUtf8));
    };
    let tags = cells.text(Column::Tags);
    let found = keeper.find(tags, fields, kept.places.as_slice());
    if let Some(first) = first_row(kept.firsts.as_slice(), found) {
        return sink.add_given(&cells, GivenTags::Like(first), currency);
    }
    let Some(values) = texts_at(alloc, fields, kept.places.as_slice())? else {
        return Err(Refusal::Broken(RecordFault::NotUtf8));
    };
    match keeper.tags_with(alloc, tags, values.as_slice())? {
        KeptTags::Unstated => sink.add(&cells, currency),
        KeptTags::TooLong => sink.add_given(&cells, GivenTags::TooLong, currency),
        KeptTags::These(given) => {
            sink.add_given(&cells, GivenTags::These(&given), currency)?;
            note_first(alloc, keeper, &mut kept.firsts, found, tags, values, row)?;
            Ok(())
        }
    }
}

// The texts of a record, if all are UTF-8. One look at the whole record says whether it is ASCII.
fn cells_of<'r>(fields: &'r ByteRecord, places: &Places) -> Option<Cells<'r>>
    ensures { (header : Record) → ArePlaces header places.now
        → MatchOption result (HasNonText header (fields_of fields.now))
        (λ cells. AreCells header (fields_of fields.now) cells) }
{
    if is_ascii(fields.as_slice()) {
        return Some(Cells::of_text(fields, places));
    }
    Cells::of_record(fields, places)
}
