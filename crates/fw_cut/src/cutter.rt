//! The parts of a text that is read piece by piece.
ghost use Rattle.std.specs.Prelude.{◌≡◌, ◌≤◌, ◌^◌, [], length, take, drop, IfOk, IfSome, OnOk};
ghost use Rattle.std.specs.Io.KnownBytes.{Keeps};
ghost use Rattle.fw_cut.specs.Headers.{head_of, Passes};
ghost use Rattle.fw_cut.specs.Parts.{left_of, BeginsWith, Counted, IsPart, CanEnd, Skips};

use crate::counting::part_count;
use crate::cutting::cut_off;
use crate::fault::CutFault;
use crate::heads::{head_of, is_again, mark_len};
use crate::input::{PIECE, fill};
use crate::stopping::{cut_before, header_at};
use fw_charge::MOST_POST_ROWS;
use std::alloc::{AllocError, Global};
use std::io::Read;
use std::marker::Model;
use std::mem;

/// A text of the header and some records behind it.
#[derive(Debug)]
pub struct Part {
    /// The header and the records, each as its bytes in the whole text.
    pub text: Vec<u8>,
    /// How many bytes of it are the header, with its byte order mark and what ends it.
    pub header: usize,
    /// Whether nothing is left behind this part.
    pub is_last: bool,
    /// The header where it stands again in front of these records, with the empty lines before it and what ends it; else nothing. It is in no part's
    /// text.
    pub skipped: Vec<u8>,
}

impl Part {
    // The same part behind bytes that were skipped.
    fn behind(self, bytes: Vec<u8>) -> Part
        ensures { result ≡ record self { skipped = bytes } }
    {
        let Part {
            text,
            header,
            is_last,
            skipped: _none,
        } = self;
        Part {
            text,
            header,
            is_last,
            skipped: bytes,
        }
    }
}

impl Drop for Part {
    fn drop(self) {
        let Self {
            text: _,
            header: _,
            is_last: _,
            skipped: _,
        } = self;
    }
}

/// A text that is read and cut into parts.
pub struct Cutter<R: Read> {
    reader: R,
    // the first record, with the byte order mark before it and what ends it
    header: Vec<u8>,
    // what was read and isn't in a part yet
    buffer: Vec<u8>,
    // room for what stays in the buffer when a part is taken: then the two change places, so that no part costs fresh memory
    spare: Vec<u8>,
    // whether the reader has nothing left
    at_end: bool,
    // how many bytes are read for the next part at first, as many as the part before it needed: what a part is doesn't depend on it
    likely: usize,
}

impl<R: Read + Drop> Drop for Cutter<R> {
    fn drop(self) {
        let Self {
            reader: _,
            header: _,
            buffer: _,
            spare: _,
            at_end: _,
            likely: _,
        } = self;
    }
}

impl<R: Read> Model for Cutter<R> {
    ghost use Rattle.fw_cut.specs.Parts.{CutterState, IsCutter};

    ghost Value = { CutterState R };

    ghost view = { λ c. record { reader = c.reader; header = c.header.items; buffer = c.buffer.items; at_end = c.at_end } };

    ghost invariant = { λ c. IsCutter R.remaining (record { reader = c.reader; header = c.header.items; buffer = c.buffer.items; at_end = c.at_end }) };
}

/// The most records of a part: as many as the rows that a post may have.
const MOST_RECORDS: usize = MOST_POST_ROWS;

/// How many bytes are looked at for a part, and the most bytes of a header.
const PART_BYTES: usize = 2 * 1024 * 1024;

/// The most bytes of a record.
const RECORD_BYTES: usize = 4 * 1024 * 1024;

/// The bytes from a place on.
fn rest_of(alloc: Global, text: &[u8], from: usize) -> Result<Vec<u8>, AllocError>
    requires { from ≤ length text.now }
    ensures { IfOk result (λ rest. rest.items ≡ drop from text.now) }
{
    let mut rest = Vec::new(alloc);
    put_rest(&mut rest, text, from)?;
    Ok(rest)
}

/// Puts the bytes from a place on in place of what the first one had.
fn put_rest(rest: &mut Vec<u8>, text: &[u8], from: usize) -> Result<(), AllocError>
    requires { from ≤ length text.now }
    ensures { OnOk result (rest.new.items ≡ drop from text.now) }
{
    rest.clear();
    rest.extend_from_slice(&text[from..])?;
    Ok(())
}

impl<R: Read + Drop> Cutter<R> {
    /// Reads the header of a text. Records are those that the `csv` crate reads with its default settings, and the first is the header; a
    /// byte order mark may stand before it.
    ///
    /// # Errors
    /// `NoRecord` where the text ends before a line feed or carriage return ends the header, `LongHeader` for a header of more than 2 MiB,
    /// `Read` where a read failed, `NoMemory`.
    pub fn open(alloc: Global, reader: R) -> Result<Cutter<R>, CutFault>
        ensures { IfOk result (λ c. BeginsWith (R.remaining reader) c.header
            (left_of R.remaining c)) }
    {
        let mut reader = reader;
        let mut buffer = Vec::new(alloc);
        let at_end = fill(&mut reader, &mut buffer, PART_BYTES)?;
        let mark = mark_len(&buffer);
        let cut = cut_off(&buffer[mark..], 1);
        if cut.records == 0 {
            return Err(if at_end {
                CutFault::NoRecord
            } else {
                CutFault::LongHeader
            });
        }
        let rest = rest_of(alloc, &buffer, mark + cut.end)?;
        buffer.truncate(mark + cut.end);
        Ok(Cutter {
            reader,
            header: buffer,
            buffer: rest,
            spare: Vec::new(alloc),
            at_end,
            likely: PART_BYTES,
        })
    }
}

impl<R: Read> Cutter<R> {
    /// The header, with its byte order mark and what ends it.
    pub fn header(&self) -> &[u8]
        ensures { result.now ≡ self.now.header }
    {
        &self.header
    }

    /// The byte that ends the lines of the text: a carriage return where one alone ends the header, else a line feed. It is asked for before the first
    /// part.
    pub fn line_end(&self) -> u8 {
        if self.header.last() == Some(&b'\r') && self.buffer.first() != Some(&b'\n') {
            b'\r'
        } else {
            b'\n'
        }
    }

    /// The next part: the header, and the records that are next, as many as there are within 2 MiB and at most [`MOST_POST_ROWS`]. The last part has all
    /// that is left, which may be no record. A record that is longer is in a part of its own or with those behind it within 4 MiB.
    ///
    /// A record that has exactly the bytes of the header is the header again, as where texts with one header stand one behind the other. A part
    /// ends before it, and the next part skips it.
    ///
    /// # Errors
    /// `TooLong` for a record of more than 4 MiB, `Read` where a read failed, `NoMemory`. After an error the cutter is of no further use.
    pub fn next_part(&mut self, alloc: Global) -> Result<Part, CutFault>
        ensures part { IfOk result (λ part. IsPart self.old.header (left_of R.remaining self.old)
            (left_of R.remaining self.new) part) }
        ensures header { OnOk result (self.new.header ≡ self.old.header) }
    {
        let skipped = self.pass_header(alloc)?;
        let part = self.next_records(alloc)?;
        Ok(part.behind(skipped))
    }

    // Skips the header where it stands again next. The answer is what was skipped.
    fn pass_header(&mut self, alloc: Global) -> Result<Vec<u8>, CutFault>
        ensures skips { IfOk result (λ skipped. Skips (head_of self.old.header)
            (left_of R.remaining self.old) (left_of R.remaining self.new) skipped.items) }
        ensures header { OnOk result (self.new.header ≡ self.old.header) }
    {
        self.read_on(self.likely.min(PART_BYTES))?;
        if cut_off(&self.buffer, 1).records == 0 {
            self.read_on(PART_BYTES)?;
        }
        let end = self.front_header();
        let skipped = self.skip(alloc, end)?;
        Ok(skipped)
    }

    // How many of the bytes that were read are the header again, where it is next.
    fn front_header(&self) -> usize
        ensures { Passes (head_of self.now.header) self.now.buffer self.now.at_end result }
    {
        header_at(head_of(&self.header), &self.buffer, self.at_end)
    }

    // Skips the header, which has so many bytes. The answer is what was skipped.
    fn skip(&mut self, alloc: Global, end: usize) -> Result<Vec<u8>, CutFault>
        requires { Passes (head_of self.old.header) self.old.buffer self.old.at_end end }
        ensures skips { IfOk result (λ skipped. Skips (head_of self.old.header)
            (left_of R.remaining self.old) (left_of R.remaining self.new) skipped.items) }
        ensures header { OnOk result (self.new.header ≡ self.old.header) }
    {
        let mut skipped = Vec::new(alloc);
        if end > 0 {
            skipped.extend_from_slice(&self.buffer[..end])?;
            put_rest(&mut self.spare, &self.buffer, end)?;
            mem::swap(&mut self.buffer, &mut self.spare);
        }
        Ok(skipped)
    }

    // The part of the records that are next.
    fn next_records(&mut self, alloc: Global) -> Result<Part, CutFault>
        ensures part { IfOk result (λ part. IsPart self.old.header (left_of R.remaining self.old)
            (left_of R.remaining self.new) part) }
        ensures none { IfOk result (λ part. part.skipped.items ≡ []) }
        ensures header { OnOk result (self.new.header ≡ self.old.header) }
    {
        if let Some(end) = self.full_part() {
            let part = self.taken(alloc, end)?;
            return Ok(part);
        }
        self.read_on(PART_BYTES)?;
        if let Some(end) = self.end_of_part() {
            let part = self.taken(alloc, end)?;
            return Ok(part);
        }
        self.read_on(RECORD_BYTES)?;
        if let Some(end) = self.end_of_part() {
            let part = self.taken(alloc, end)?;
            return Ok(part);
        }
        Err(CutFault::TooLong)
    }

    /// How many records are left. It reads to the end, one part after the other.
    ///
    /// # Errors
    /// Those of [`Cutter::next_part`]; `TooLong` also where there are more records than 64 bits count.
    pub fn count_left(&mut self, alloc: Global) -> Result<u64, CutFault>
        ensures { IfOk result (λ count. Counted (head_of self.old.header)
            (left_of R.remaining self.old) count) }
    {
        let mut count: u64 = 0;
        for _ in 0..u64::MAX {
            let part = self.next_part(alloc)?;
            let Some(more) = count.checked_add(part_count(&part) as u64) else {
                return Err(CutFault::TooLong);
            };
            count = more;
            if part.is_last {
                return Ok(count);
            }
        }
        Err(CutFault::TooLong)
    }

    // Reads on until there are at least `enough` bytes, or all.
    fn read_on(&mut self, enough: usize) -> Result<(), CutFault>
        requires { enough ≤ 2 ^ 30 }
        ensures keeps { OnOk result (Keeps (left_of R.remaining self.old)
            (left_of R.remaining self.new)) }
        ensures header { OnOk result (self.new.header ≡ self.old.header) }
    {
        if self.at_end {
            return Ok(());
        }
        self.at_end = fill(&mut self.reader, &mut self.buffer, enough)?;
        Ok(())
    }

    // Where the next part ends, if what was read has all of it: as many records as a part has, or all up to where the header stands again. It isn't looked
    // for where the parts before were as long as what is looked at for one.
    fn full_part(&self) -> Option<usize>
        ensures { IfSome result (λ end. CanEnd self.now end (take end self.now.buffer)) }
    {
        if self.likely >= PART_BYTES {
            return None;
        }
        let stop = cut_before(head_of(&self.header), &self.buffer, MOST_RECORDS);
        if stop.records < MOST_RECORDS && stop.header == 0 {
            return None;
        }
        Some(stop.end)
    }

    // Where the next part ends, if what was read has a whole record or is all: where the header stands again, if not later.
    fn end_of_part(&self) -> Option<usize>
        ensures { IfSome result (λ end. CanEnd self.now end (take end self.now.buffer)) }
    {
        let head = head_of(&self.header);
        let stop = cut_before(head, &self.buffer, MOST_RECORDS);
        if self.at_end && stop.header == 0 && stop.records < MOST_RECORDS {
            let (_, rest) = self.buffer.split_at(stop.end);
            if !is_again(head, rest) {
                return Some(self.buffer.len());
            }
        }
        if stop.records == 0 && stop.header == 0 {
            return None;
        }
        Some(stop.end)
    }

    // The part that ends at a place of what was read.
    fn taken(&mut self, alloc: Global, end: usize) -> Result<Part, CutFault>
        requires { CanEnd self.old end (take end self.old.buffer) }
        ensures part { IfOk result (λ part. IsPart self.old.header (left_of R.remaining self.old)
            (left_of R.remaining self.new) part) }
        ensures none { IfOk result (λ part. part.skipped.items ≡ []) }
        ensures header { OnOk result (self.new.header ≡ self.old.header) }
    {
        let mut text = Vec::new(alloc);
        text.extend_from_slice(&self.header)?;
        text.extend_from_slice(&self.buffer[..end])?;
        put_rest(&mut self.spare, &self.buffer, end)?;
        mem::swap(&mut self.buffer, &mut self.spare);
        self.likely = end.saturating_add(PIECE);
        Ok(Part {
            text,
            header: self.header.len(),
            is_last: self.at_end && self.buffer.is_empty(),
            skipped: Vec::new(alloc),
        })
    }
}
