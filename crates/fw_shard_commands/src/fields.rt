//! The fields that a record is dealt by.
use crate::piles::Piles;
use csv::{ByteRecord, ReaderBuilder};
use fw_charge::SECONDS_PER_HOUR;
use fw_column_rows::read_columns;
use fw_instants::InstantReader;
use fw_rows::{Column, Currency, RecordFault, RowFault};
use fw_scan::scan_record;
use std::alloc::{AllocError, Global};

/// A record, by what it is dealt by.
#[derive(Clone, Copy, Drop)]
pub(crate) struct Record {
    /// How many bytes it has, with what ends it.
    pub(crate) end: usize,
    /// Whether anything but the end of the text ends it.
    pub(crate) is_ended: bool,
    /// The hour in which it starts.
    pub(crate) hour: u64,
    /// Its pile; none where it may go to any.
    pub(crate) pile: Option<usize>,
}

/// What is next in a text.
pub(crate) enum Next {
    /// No record.
    None,
    /// A record that can't be dealt.
    Fault(RecordFault),
    /// A record.
    Record(Record),
}

/// Where a header has the fields that a record is dealt by.
#[derive(Clone, Copy, Drop)]
struct Places {
    /// How many fields it has.
    fields: usize,
    time: usize,
    sku: Option<usize>,
}

impl Places {
    // Those of a header, or what is wrong with it.
    fn of_header(alloc: Global, header: &[u8]) -> Result<Places, RowFault> {
        check_header(alloc, header)?;
        let mut reader = ReaderBuilder::new()
            .has_headers(false)
            .flexible(true)
            .from_reader(alloc, header);
        let mut names = ByteRecord::new(alloc);
        let Ok(_) = reader.read_byte_record(&mut names) else {
            return Err(RowFault::NoMemory);
        };
        match Column::ChargePeriodStart.place_in(&names) {
            Some(time) => Ok(Places {
                fields: names.len(),
                time,
                sku: Column::SkuId.place_in(&names),
            }),
            None => Err(RowFault::MissingColumn(Column::ChargePeriodStart)),
        }
    }
}

/// A reader of the fields that records are dealt by.
pub(crate) struct Fields {
    // none before a header was read
    places: Option<Places>,
    times: InstantReader,
    // the field that was read last
    value: Vec<u8>,
}

impl Drop for Fields {
    fn drop(self) {
        let Self {
            places: _,
            times: _,
            value: _,
        } = self;
    }
}

impl Fields {
    /// A reader that has read no header.
    pub(crate) fn new(alloc: Global) -> Fields {
        Fields {
            places: None,
            times: InstantReader::new(),
            value: Vec::new(alloc),
        }
    }

    /// Reads the header, unless one was read: all exports have the same.
    pub(crate) fn begin(&mut self, alloc: Global, header: &[u8]) -> Result<(), RowFault> {
        if self.places.is_none() {
            self.places = Some(Places::of_header(alloc, header)?);
        }
        Ok(())
    }

    /// The record at the start of a text.
    pub(crate) fn next(&mut self, piles: &Piles, text: &[u8]) -> Result<Next, AllocError> {
        let Some(places) = self.places else {
            return Ok(Next::None);
        };
        let Some(scan) = scan_record(text, places.time, &mut self.value)? else {
            return Ok(Next::None);
        };
        if scan.fields != places.fields {
            return Ok(Next::Fault(RecordFault::Fields));
        }
        let hour = match self.hour() {
            Ok(hour) => hour,
            Err(fault) => return Ok(Next::Fault(fault)),
        };
        match self.pile(piles, text, places)? {
            Ok(pile) => Ok(Next::Record(Record {
                end: scan.end,
                is_ended: scan.is_ended,
                hour,
                pile,
            })),
            Err(fault) => Ok(Next::Fault(fault)),
        }
    }

    // The hour of the time that was read.
    fn hour(&mut self) -> Result<u64, RecordFault> {
        let Ok(text) = str::from_utf8(self.value.as_slice()) else {
            return Err(RecordFault::NotUtf8);
        };
        match self.times.second_of(text) {
            Some(second) => Ok(second / SECONDS_PER_HOUR),
            None => Err(RecordFault::Time),
        }
    }

    // The pile of the record at the start of a text, where a commitment lists its SKU.
    fn pile(
        &mut self,
        piles: &Piles,
        text: &[u8],
        places: Places,
    ) -> Result<Result<Option<usize>, RecordFault>, AllocError> {
        let Some(sku) = places.sku else {
            return Ok(Ok(None));
        };
        if piles.count() <= 1 {
            return Ok(Ok(None));
        }
        scan_record(text, sku, &mut self.value)?;
        match str::from_utf8(self.value.as_slice()) {
            Ok(sku) => Ok(Ok(piles.of_sku(sku))),
            Err(_) => Ok(Err(RecordFault::NotUtf8)),
        }
    }
}

// Whether a header has each column that it must have, and none twice. No record is read, so the currency makes no difference.
fn check_header(alloc: Global, header: &[u8]) -> Result<(), RowFault> {
    let Some(currency) = Currency::new(b"USD") else {
        return Ok(());
    };
    match read_columns(alloc, header, currency) {
        Ok(_) | Err(RowFault::NoRows) => Ok(()),
        Err(fault) => Err(fault),
    }
}
