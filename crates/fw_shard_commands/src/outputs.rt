//! The parts of exports, by time and pile.
use crate::output::{Output, Records, path_in};
use crate::span::{name_of, span_of};
use fw_calendar::{Period, Step};
use fw_console::{Fault, refuse};
use fw_table::shown_text;
use std::alloc::{AllocError, Global};
use std::{fs, io};

/// The most bytes that wait to be written, of all parts.
const MOST_WAITING: usize = 32 << 20;

/// An hour, a day or a month, and the part of each pile.
struct Span {
    period: Period,
    piles: Vec<Output>,
}

impl Drop for Span {
    fn drop(self) {
        let Self {
            period: _,
            piles: _,
        } = self;
    }
}

/// The parts of exports in a folder.
pub(crate) struct Outputs<'o> {
    folder: &'o str,
    step: Step,
    piles: usize,
    // whether the parts are on the disk before they have their names
    syncs: bool,
    // in the order of time
    spans: Vec<Span>,
    // how many bytes wait to be written
    waiting: usize,
}

impl Drop for Outputs<'_> {
    fn drop(self) {
        let Self {
            folder: _,
            step: _,
            piles: _,
            syncs: _,
            spans: _,
            waiting: _,
        } = self;
    }
}

impl<'o> Outputs<'o> {
    /// No parts yet.
    pub(crate) fn new(
        alloc: Global,
        folder: &'o str,
        step: Step,
        piles: usize,
        syncs: bool,
    ) -> Outputs<'o> {
        Outputs {
            folder,
            step,
            piles,
            syncs,
            spans: Vec::new(alloc),
            waiting: 0,
        }
    }

    /// The place of the hour, day or month in which an hour lies. Where it is new, its parts begin; none where the file of one is there already, which
    /// was said.
    pub(crate) fn span(&mut self, rt: &HostRuntime, hour: u64) -> Result<Option<usize>, Fault> {
        let place = match place_of(self.spans.as_slice(), hour) {
            Ok(place) => return Ok(Some(place)),
            Err(place) => place.min(self.spans.len()),
        };
        let period = span_of(rt.alloc(), self.step, hour)?;
        let piles = self.new_piles(rt.alloc(), period)?;
        if !are_free(rt, self.folder, piles.as_slice())? {
            return Ok(None);
        }
        self.spans.insert(place, Span { period, piles })?;
        Ok(Some(place))
    }

    // The parts of an hour, a day or a month, without rows.
    fn new_piles(&self, alloc: Global, period: Period) -> Result<Vec<Output>, AllocError> {
        let mut piles = Vec::new(alloc);
        for pile in 0..self.piles {
            let number = pile.saturating_add(1);
            let shown = (self.piles > 1).then_some(number);
            let name = name_of(alloc, self.step, period, shown)?;
            piles.push(Output::new(alloc, name, period, number))?;
        }
        Ok(piles)
    }

    /// Whether an hour lies in the period at a place.
    pub(crate) fn has(&self, place: usize, hour: u64) -> bool {
        has_hour(self.spans.as_slice(), place, hour)
    }

    /// The pile with the fewest rows, of the period at a place.
    pub(crate) fn least(&self, place: usize) -> usize {
        let mut least = 0;
        if let Some(span) = self.spans.get(place) {
            let mut fewest = u64::MAX;
            for (pile, output) in span.piles.iter().enumerate() {
                if output.rows < fewest {
                    fewest = output.rows;
                    least = pile;
                }
            }
        }
        least
    }

    /// Puts records to a pile of the period at a place.
    pub(crate) fn put(
        &mut self,
        place: usize,
        pile: usize,
        header: &[u8],
        records: &Records<'_>,
    ) -> Result<(), AllocError> {
        if place < self.spans.len() {
            let span = &mut self.spans[place];
            if pile < span.piles.len() {
                let more = span.piles[pile].put(header, records)?;
                self.waiting = self.waiting.saturating_add(more);
            }
        }
        Ok(())
    }

    /// Writes what waits to be written, where it is much; false where that failed, which was said.
    pub(crate) fn write_much(&mut self, rt: &HostRuntime) -> Result<bool, Fault> {
        if self.waiting < MOST_WAITING {
            return Ok(true);
        }
        self.write_all(rt)
    }

    // Writes what waits to be written; false where that failed, which was said.
    fn write_all(&mut self, rt: &HostRuntime) -> Result<bool, Fault> {
        self.waiting = 0;
        let folder = self.folder;
        for span in &mut self.spans {
            for output in &mut span.piles {
                if let Err(error) = output.write(rt, folder) {
                    return not_written(rt, folder, output.name.as_str(), error);
                }
            }
        }
        Ok(true)
    }

    /// Ends the parts: all are written, and then have their names; false where that failed, which was said.
    pub(crate) fn finish(&mut self, rt: &HostRuntime) -> Result<bool, Fault> {
        if !self.write_all(rt)? || !self.sync_all(rt)? {
            return Ok(false);
        }
        let folder = self.folder;
        for span in &mut self.spans {
            if !are_free(rt, folder, span.piles.as_slice())? {
                return Ok(false);
            }
            for output in &mut span.piles {
                if output.rows > 0 {
                    if let Err(error) = output.give_name(rt, folder) {
                        return not_written(rt, folder, output.name.as_str(), error);
                    }
                }
            }
        }
        self.sync_folder(rt)
    }

    // Has the system write all parts to the disk, if it is to.
    fn sync_all(&self, rt: &HostRuntime) -> Result<bool, Fault> {
        if !self.syncs {
            return Ok(true);
        }
        for span in &self.spans {
            for output in &span.piles {
                if output.rows > 0 {
                    if let Err(error) = output.sync(rt, self.folder) {
                        return not_written(rt, self.folder, output.name.as_str(), error);
                    }
                }
            }
        }
        Ok(true)
    }

    // Has the system write the names of the parts to the disk, if it is to.
    fn sync_folder(&self, rt: &HostRuntime) -> Result<bool, Fault> {
        if !self.syncs {
            return Ok(true);
        }
        match fs::open(rt, self.folder).and_then(|folder| folder.sync_all()) {
            Ok(()) => Ok(true),
            Err(error) => not_written(rt, self.folder, ".", error),
        }
    }

    /// Removes the parts that have no name yet.
    pub(crate) fn remove(&mut self, rt: &HostRuntime) {
        let folder = self.folder;
        for span in &mut self.spans {
            for output in &mut span.piles {
                output.remove(rt, folder);
            }
        }
    }

    /// The parts that have rows, in the order of time and pile.
    pub(crate) fn parts(&self, alloc: Global) -> Result<Vec<&Output>, AllocError> {
        let mut parts = Vec::new(alloc);
        for span in &self.spans {
            for output in &span.piles {
                if output.rows > 0 {
                    parts.push(output)?;
                }
            }
        }
        Ok(parts)
    }
}

// Where the period of an hour stands among periods in order, or where it would.
fn place_of(spans: &[Span], hour: u64) -> Result<usize, usize> {
    match spans.binary_search_by(|span| span.period.from.cmp(&hour)) {
        Ok(place) => Ok(place),
        Err(place) => match place.checked_sub(1) {
            Some(before) if has_hour(spans, before, hour) => Ok(before),
            _ => Err(place),
        },
    }
}

// Whether an hour lies in the period at a place.
fn has_hour(spans: &[Span], place: usize, hour: u64) -> bool {
    match spans.get(place) {
        Some(span) => span.period.from <= hour && hour < span.period.to,
        None => false,
    }
}

// Whether no file is there that has the name of a part; else that was said.
fn are_free(rt: &HostRuntime, folder: &str, parts: &[Output]) -> Result<bool, Fault> {
    for part in parts {
        let path = path_in(rt.alloc(), folder, part.name.as_str())?;
        if let Ok(true) = fs::exists(rt, path.as_str()) {
            let name = shown_text(rt.alloc(), path.as_str())?;
            return Ok(refuse(rt, name.as_str(), "W7 Exists", "the file is there already"));
        }
    }
    Ok(true)
}

// Says that a part couldn't be written. The answer is false.
fn not_written(
    rt: &HostRuntime,
    folder: &str,
    name: &str,
    error: io::Error,
) -> Result<bool, Fault> {
    if error.kind() == io::ErrorKind::OutOfMemory {
        return Err(Fault::NoMemory);
    }
    let path = path_in(rt.alloc(), folder, name)?;
    let path = shown_text(rt.alloc(), path.as_str())?;
    let reason = format!(in rt.alloc(); "{error}")?;
    Ok(refuse(rt, path.as_str(), "W10 NotWritten", reason.as_str()))
}
