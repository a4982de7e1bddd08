//! What is wrong with a record: the code, the column and what was expected.
ghost use Rattle.std.specs.Prelude.{◌≡◌, ◌⊎◌, ◌<◌, ◌≤◌, length, map, IsSome, OnOk};
ghost use Rattle.std.specs.List.{position_or_len};
ghost use Rattle.csv.specs.Records.{fields_of};
ghost use Rattle.fw_rows.specs.Columns.{name_of};
ghost use Rattle.fw_check.specs.Faults.{CanStandIn, column_text, finding_value, is_of, noted, one_more, place_value};

use crate::fields::{bytes_in, text_in};
use csv::ByteRecord;
use fw_charge::LONGEST_SHORT_TEXT;
use fw_instants::second_of;
use fw_rows::{Column, RecordFault};
use std::alloc::{AllocError, Global};

/// A place of a fault.
#[derive(Debug)]
pub struct Place {
    /// The line of the text in which the record begins, counted from 1.
    pub line: u64,
    /// The record, counted from 1; the header isn't counted, and a fault of the header or of the whole text is at 0.
    pub record: u64,
    /// The value; of one that is longer than 60 characters the first 60, and `...` behind them. Where the record has too many fields or too few,
    /// how many it has, and how many the header has.
    pub value: String,
}

impl Drop for Place {
    fn drop(self) {
        let Self {
            line: _,
            record: _,
            value: _,
        } = self;
    }
}

/// Faults of one code in one column.
#[derive(Debug)]
pub struct Finding {
    /// The code and the name, as `V5 Cost`.
    pub code: &'static str,
    /// The name of the column, or the empty text where the fault is of the whole record.
    pub column: String,
    /// What was expected.
    pub expected: &'static str,
    /// How many there are.
    pub count: u64,
    /// The first places.
    pub places: Vec<Place>,
}

impl Drop for Finding {
    fn drop(self) {
        let Self {
            code: _,
            column: _,
            expected: _,
            count: _,
            places: _,
        } = self;
    }
}

/// How many places of a finding are kept.
const PLACES: usize = 3;

impl Finding {
    // One more fault, at this place, which is kept if it is one of the first.
    fn add(&mut self, place: Place) -> Result<(), AllocError>
        ensures { OnOk result (finding_value self.new
            ≡ one_more (place_value place) (finding_value self.old)) }
    {
        self.count = self.count.saturating_add(1);
        if self.places.len() < PLACES {
            self.places.push(place)?;
        }
        Ok(())
    }
}

// Where the finding of a code and a column stands, or how many findings there are where there is none.
fn finding_of(findings: &[Finding], code: &str, column: &str) -> usize
    ensures value { result ≡ position_or_len (λ f.
        is_of code.now column.now (finding_value f)) findings.now }
    ensures within { result ≤ length findings.now }
{
    for (place, finding) in findings.iter().enumerate() {
        if finding.code == code && finding.column.as_str() == column {
            return place;
        }
    }
    findings.len()
}

/// Counts a fault among the findings, and keeps its place if it is one of the first of its code and column.
pub(crate) fn add_fault(
    alloc: Global,
    findings: &mut Vec<Finding>,
    code: &'static str,
    column: &str,
    expected: &'static str,
    place: Place,
) -> Result<(), AllocError>
    ensures { OnOk result (map finding_value findings.new.items
        ≡ noted code.now column.now expected.now (place_value place)
        (map finding_value findings.old.items)) }
{
    let at = finding_of(findings.as_slice(), code, column);
    if at < findings.len() {
        findings[at].add(place)?;
        return Ok(());
    }
    let column = String::from_str(alloc, column)?;
    let mut places = Vec::new(alloc);
    places.push(place)?;
    findings.push(Finding {
        code,
        column,
        expected,
        count: 1,
        places,
    })?;
    Ok(())
}

/// The longest part of a value that is shown, in characters.
const SHOWN: usize = 60;

/// What stands behind a value that was cut.
const CUT: &str = "...";

/// The columns of texts of at most 256 bytes.
const SHORT: [Column; 4] = [
    Column::CommitmentDiscountId,
    Column::ConsumedUnit,
    Column::SkuId,
    Column::SubAccountId,
];

/// The name of the column of a fault, or the empty text where the fault is of the whole record.
pub(crate) fn column_name(column: Option<Column>) -> &'static str
    ensures { result.now ≡ column_text column }
{
    match column {
        Some(column) => column.name(),
        None => "",
    }
}

/// What is shown of a record that has a fault, which is in this column; where the fault is of the whole record, how many fields it has.
pub(crate) fn value_of(
    alloc: Global,
    header: &ByteRecord,
    record: &ByteRecord,
    column: Option<Column>,
) -> Result<String, AllocError> {
    match column {
        Some(column) => shown_value(alloc, bytes_in(header, record, column)),
        None => fields_text(alloc, record.len(), header.len()),
    }
}

// How many fields a record has, and how many its header; nothing where these are as many.
fn fields_text(alloc: Global, found: usize, wanted: usize) -> Result<String, AllocError> {
    if found == wanted {
        return Ok(String::new(alloc));
    }
    let fields = if found == 1 { "field" } else { "fields" };
    format!(in alloc; "{found} {fields}; the header has {wanted}")
}

/// The column in which a record has a fault; none where the fault is of the whole record.
pub(crate) fn column_of(
    header: &ByteRecord,
    record: &ByteRecord,
    fault: RecordFault,
) -> Option<Column>
    ensures { CanStandIn fault result }
{
    match fault {
        RecordFault::Fields => None,
        RecordFault::NotUtf8 => first_not_utf8(header, record),
        RecordFault::Category => Some(Column::ChargeCategory),
        RecordFault::Class => Some(Column::ChargeClass),
        RecordFault::Cost => Some(bad_cost(header, record)),
        RecordFault::Currency => Some(Column::BillingCurrency),
        RecordFault::Time => Some(bad_time(header, record)),
        RecordFault::PeriodOrder => Some(Column::ChargePeriodEnd),
        RecordFault::Commitment => Some(Column::CommitmentDiscountCategory),
        RecordFault::Status => Some(Column::CommitmentDiscountStatus),
        RecordFault::Quantity => Some(Column::ConsumedQuantity),
        RecordFault::BadTags => Some(Column::Tags),
        RecordFault::TooLong => Some(too_long(header, record)),
        RecordFault::TagTwice => Some(Column::Tags),
    }
}

// The first column whose field isn't UTF-8.
fn first_not_utf8(header: &ByteRecord, record: &ByteRecord) -> Option<Column> {
    for column in Column::ALL.iter() {
        if str::from_utf8(bytes_in(header, record, *column)).is_err() {
            return Some(*column);
        }
    }
    None
}

// The first of the two costs that is no amount.
fn bad_cost(header: &ByteRecord, record: &ByteRecord) -> Column
    ensures { (result ≡ Column.BilledCost) ⊎ (result ≡ Column.EffectiveCost) }
{
    if fw_money::parse(bytes_in(header, record, Column::BilledCost)).is_err() {
        Column::BilledCost
    } else {
        Column::EffectiveCost
    }
}

// The first of the two times that can't be read.
fn bad_time(header: &ByteRecord, record: &ByteRecord) -> Column
    ensures { (result ≡ Column.ChargePeriodStart) ⊎ (result ≡ Column.ChargePeriodEnd) }
{
    if second_of(text_in(header, record, Column::ChargePeriodStart)).is_none() {
        Column::ChargePeriodStart
    } else {
        Column::ChargePeriodEnd
    }
}

// The first text that is too long, or else the tags.
fn too_long(header: &ByteRecord, record: &ByteRecord) -> Column {
    for column in SHORT.iter() {
        if bytes_in(header, record, *column).len() > LONGEST_SHORT_TEXT {
            return *column;
        }
    }
    Column::Tags
}

/// A value, or its first 60 characters and a mark. A byte that isn't printable ASCII, in a value that isn't UTF-8, is shown as `?`.
pub(crate) fn shown_value(alloc: Global, value: &[u8]) -> Result<String, AllocError> {
    let mut shown = String::new(alloc);
    let is_cut = match str::from_utf8(value) {
        Ok(text) => push_letters(&mut shown, text)?,
        Err(_) => push_bytes(&mut shown, value)?,
    };
    if is_cut {
        shown.push_str(CUT)?;
    }
    Ok(shown)
}

// Adds the first 60 characters of a text, and answers whether it has more.
fn push_letters(shown: &mut String, text: &str) -> Result<bool, AllocError> {
    for letter in text.chars().take(SHOWN) {
        shown.push(letter)?;
    }
    Ok(text.chars().count() > SHOWN)
}

// Adds the first 60 bytes of a value, and answers whether it has more.
fn push_bytes(shown: &mut String, value: &[u8]) -> Result<bool, AllocError> {
    for byte in value.iter().take(SHOWN) {
        if byte.is_ascii_graphic() {
            shown.push(char::from(*byte))?;
        } else {
            shown.push('?')?;
        }
    }
    Ok(value.len() > SHOWN)
}
