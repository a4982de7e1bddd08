//! The records of exports, dealt to parts.
//!
//! Of a record only the fields are read that it is dealt by. Whether it breaks another rule of rows is found by the import of its part.
use crate::fields::{Fields, Next, Record};
use crate::output::Records;
use crate::outputs::Outputs;
use crate::piles::Piles;
use fw_console::{Fault, refuse};
use fw_cut::{Part, cut_off};
use fw_export_files::{Taker, Walk};
use fw_rows::RowFault;
use std::alloc::{AllocError, Global};

/// Exports as they are dealt to parts.
pub(crate) struct Dealing<'o> {
    piles: Piles,
    pub(crate) outputs: Outputs<'o>,
    /// How many rows were dealt.
    pub(crate) rows: u64,
    // the header of the exports, once one began
    header: Option<Vec<u8>>,
    // whether the header of the export that is walked is another one
    is_other: bool,
    fields: Fields,
}

impl Drop for Dealing<'_> {
    fn drop(self) {
        let Self {
            piles: _,
            outputs: _,
            rows: _,
            header: _,
            is_other: _,
            fields: _,
        } = self;
    }
}

/// Records in a row that go to one part, by where they stand behind the header.
#[derive(Clone, Copy, Drop)]
struct Run {
    /// The place of the part's period.
    place: usize,
    pile: usize,
    start: usize,
    end: usize,
    rows: u64,
}

impl Run {
    // No records.
    fn none() -> Run {
        Run {
            place: 0,
            pile: 0,
            start: 0,
            end: 0,
            rows: 0,
        }
    }

    // The same with the record that is next.
    fn with(self, record: &Record) -> Run {
        Run {
            place: self.place,
            pile: self.pile,
            start: self.start,
            end: self.end.saturating_add(record.end),
            rows: self.rows.saturating_add(1),
        }
    }
}

// What became of the records of a part.
enum Dealt {
    // So many were dealt.
    Rows(u32),
    // One has a fault.
    Fault(RowFault),
    // A file is in the way of a part, which was said.
    Refused,
}

impl<'o> Dealing<'o> {
    /// Nothing was dealt yet.
    pub(crate) fn new(alloc: Global, piles: Piles, outputs: Outputs<'o>) -> Dealing<'o> {
        Dealing {
            piles,
            outputs,
            rows: 0,
            header: None,
            is_other: false,
            fields: Fields::new(alloc),
        }
    }

    // Deals the records behind a header. Those that follow each other and go to one part are put there together.
    fn deal(&mut self, rt: &HostRuntime, header: &[u8], body: &[u8]) -> Result<Dealt, Fault> {
        let mut rows: u32 = 0;
        let mut run = Run::none();
        for _ in 0..body.len() {
            let (_, rest) = body.split_at(run.end.min(body.len()));
            rows = rows.saturating_add(1);
            let record = match self.fields.next(&self.piles, rest)? {
                Next::None => {
                    self.put(header, body, &run, &[])?;
                    return Ok(Dealt::Rows(rows.saturating_sub(1)));
                }
                Next::Fault(fault) => {
                    let number = rows;
                    return Ok(Dealt::Fault(RowFault::Record { number, fault }));
                }
                Next::Record(record) => record,
            };
            if !self.goes_on(&run, &record) {
                self.put(header, body, &run, &[])?;
                match self.begun(rt, &run, &record)? {
                    Some(begun) => run = begun,
                    None => return Ok(Dealt::Refused),
                }
            }
            run = run.with(&record);
            if !record.is_ended {
                let ending = ending_of(rt.alloc(), header, rest)?;
                self.put(header, body, &run, ending.as_slice())?;
                return Ok(Dealt::Rows(rows));
            }
        }
        self.put(header, body, &run, &[])?;
        Ok(Dealt::Rows(rows))
    }

    // Whether a record goes where the records of a run go. Among several piles that depends on what is in them.
    fn goes_on(&self, run: &Run, record: &Record) -> bool {
        self.piles.count() <= 1 && run.rows > 0 && self.outputs.has(run.place, record.hour)
    }

    // The run that begins with a record, behind the last one; none where a file is in the way of its part, which was said.
    fn begun(
        &mut self,
        rt: &HostRuntime,
        last: &Run,
        record: &Record,
    ) -> Result<Option<Run>, Fault> {
        let Some(place) = self.outputs.span(rt, record.hour)? else {
            return Ok(None);
        };
        let pile = match record.pile {
            Some(pile) => pile,
            None => self.outputs.least(place),
        };
        Ok(Some(Run {
            place,
            pile,
            start: last.end,
            end: last.end,
            rows: 0,
        }))
    }

    // Puts the records of a run to their part, with what ends the last one where nothing does.
    fn put(
        &mut self,
        header: &[u8],
        body: &[u8],
        run: &Run,
        ending: &[u8],
    ) -> Result<(), AllocError> {
        let (front, _) = body.split_at(run.end.min(body.len()));
        let (_, bytes) = front.split_at(run.start.min(front.len()));
        let records = Records {
            bytes,
            ending,
            rows: run.rows,
        };
        self.outputs.put(run.place, run.pile, header, &records)
    }
}

// What ends a record that nothing ends: where a quote is open in it, a quote, and then what ends the header.
fn ending_of(alloc: Global, header: &[u8], record: &[u8]) -> Result<Vec<u8>, AllocError> {
    let line_end = *header.last().unwrap_or(&b'\n');
    let mut ended = Vec::new(alloc);
    ended.extend_from_slice(record)?;
    ended.push(line_end)?;
    let mut ending = Vec::new(alloc);
    if cut_off(ended.as_slice(), 1).records == 0 {
        ending.push(b'"')?;
    }
    ending.push(line_end)?;
    Ok(ending)
}

impl Taker for Dealing<'_> {
    fn begin(&mut self, rt: &HostRuntime, header: &[u8], _line_end: u8) -> Result<bool, Fault> {
        match &self.header {
            Some(first) => self.is_other = first.as_slice() != header,
            None => {
                let mut first = Vec::new(rt.alloc());
                first.extend_from_slice(header)?;
                self.header = Some(first);
            }
        }
        Ok(!self.is_other)
    }

    fn command(&self) -> &'static str {
        "split"
    }

    fn take(&mut self, rt: &HostRuntime, walk: &mut Walk<'_>, part: &Part) -> Result<bool, Fault> {
        let text = part.text.as_slice();
        let (header, body) = text.split_at(part.header.min(text.len()));
        if let Err(fault) = self.fields.begin(rt.alloc(), header) {
            return walk.refuse(rt, part, fault, "");
        }
        match self.deal(rt, header, body)? {
            // What follows the last record, as a line feed, is no row; nor is a header that stands again.
            Dealt::Rows(0) if walk.record > 1 || !part.is_last => Ok(true),
            Dealt::Rows(0) => walk.refuse(rt, part, RowFault::NoRows, ""),
            Dealt::Rows(rows) => {
                walk.took(rt, part, u64::from(rows));
                self.rows = self.rows.saturating_add(u64::from(rows));
                self.outputs.write_much(rt)
            }
            Dealt::Fault(fault) => walk.refuse(rt, part, fault, ""),
            Dealt::Refused => Ok(false),
        }
    }

    fn end(
        &mut self,
        rt: &HostRuntime,
        walk: &mut Walk<'_>,
        is_whole: bool,
    ) -> Result<bool, Fault> {
        if self.is_other {
            walk.progress.end(rt);
            let name = walk.shown.as_str();
            return Ok(refuse(
                rt,
                name,
                "W8 OtherHeader",
                "its header isn't that of the first file",
            ));
        }
        Ok(is_whole)
    }
}
