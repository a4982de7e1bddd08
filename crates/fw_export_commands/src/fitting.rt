//! Whether the rows of files fit into a warehouse, before the first of them is posted.
use crate::importing::Import;
use fw_check::line_ends;
use fw_console::{Fault, House, bytes_of, say_fault};
use fw_cut::{CutFault, Cutter};
use fw_export_files::{all_exports, texts_of};
use fw_import::{fits, surely_fits};
use std::alloc::{AllocError, Global};
use std::fs;
use std::io::Read;

/// How many bytes of a file are looked at together.
const PIECE: usize = 64 * 1024;

/// Whether the rows of the exports that names stand for fit into the warehouse of an import; where they don't, that is said. Files that are no plain
/// files, or so short that their rows fit in any case, aren't read.
pub(crate) fn do_fit(rt: &HostRuntime, import: &Import<'_>, names: &[&str]) -> Result<bool, Fault> {
    match all_exports(rt, names) {
        Some(exports) => do_all_fit(rt, import, &texts_of(rt.alloc(), &exports)?),
        None => Ok(true),
    }
}

// Whether the rows of files fit.
fn do_all_fit(rt: &HostRuntime, import: &Import<'_>, files: &[&str]) -> Result<bool, Fault> {
    let Some(bytes) = plain_bytes(rt, files) else {
        return Ok(true);
    };
    let mut seen = Seen {
        rows: import.house.rows_posted(),
        left: bytes,
    };
    for file in files {
        if !seen.read(rt, file)? {
            return Ok(true);
        }
    }
    if seen.surely_fits() {
        return Ok(true);
    }
    let sent = rows_sent(rt.alloc(), import)?;
    let posted = import.house.rows_posted();
    if fits(posted, sent, seen.rows.saturating_sub(posted)) {
        return Ok(true);
    }
    let Some(rows) = count_rows(rt, files)? else {
        return Ok(true);
    };
    if fits(posted, sent, rows) {
        return Ok(true);
    }
    say_too_many(rt, import, files.len(), rows, sent);
    Ok(false)
}

// The bytes of files, where each is a plain file.
fn plain_bytes(rt: &HostRuntime, files: &[&str]) -> Option<u64> {
    for file in files {
        if *file == "-" {
            return None;
        }
    }
    bytes_of(rt, files)
}

// What was seen of files: how many rows there are at most, those that were posted before among them, and how many bytes are left.
#[derive(Drop)]
struct Seen {
    rows: u64,
    left: u64,
}

impl Seen {
    // Whether the rows surely fit, whatever is left.
    fn surely_fits(&self) -> bool {
        surely_fits(self.rows, self.left)
    }

    // Reads a file until its rows surely fit, or to its end. A record ends with a line end, or with the end of its file. False where the file can't be
    // read: its import says why.
    fn read(&mut self, rt: &HostRuntime, file: &str) -> Result<bool, Fault> {
        self.rows = self.rows.saturating_add(1);
        if self.surely_fits() {
            return Ok(true);
        }
        let Ok(mut opened) = fs::open(rt, file) else {
            return Ok(false);
        };
        let mut piece = vec![in rt.alloc(); 0; PIECE]?;
        for _ in 0..u64::MAX {
            match opened.read(&mut piece) {
                Ok(0) => return Ok(true),
                Ok(len) => self.pass(&piece[..len.min(PIECE)]),
                Err(_) => return Ok(false),
            }
            if self.surely_fits() {
                return Ok(true);
            }
        }
        Ok(false)
    }

    // Passes over bytes.
    fn pass(&mut self, bytes: &[u8]) {
        self.rows = self.rows.saturating_add(ends_in(bytes));
        self.left = self.left.saturating_sub(bytes.len() as u64);
    }
}

// How many line feeds and carriage returns there are.
fn ends_in(bytes: &[u8]) -> u64 {
    line_ends(bytes, b'\n').saturating_add(line_ends(bytes, b'\r'))
}

// How many records files have behind their headers. None where one can't be read or cut: its import says why.
fn count_rows(rt: &HostRuntime, files: &[&str]) -> Result<Option<u64>, Fault> {
    let mut rows: u64 = 0;
    for file in files {
        match rows_in(rt, file)? {
            Some(more) => rows = rows.saturating_add(more),
            None => return Ok(None),
        }
    }
    Ok(Some(rows))
}

// How many records a file has behind its header.
fn rows_in(rt: &HostRuntime, file: &str) -> Result<Option<u64>, Fault> {
    let Ok(opened) = fs::open(rt, file) else {
        return Ok(None);
    };
    match Cutter::open(rt.alloc(), opened) {
        Ok(mut cutter) => counted(cutter.count_left(rt.alloc())),
        Err(fault) => counted(Err(fault)),
    }
}

// A count, where there is one.
fn counted(count: Result<u64, CutFault>) -> Result<Option<u64>, Fault> {
    match count {
        Ok(rows) => Ok(Some(rows)),
        Err(CutFault::NoMemory) => Err(Fault::NoMemory),
        Err(CutFault::Read(_) | CutFault::NoRecord | CutFault::TooLong | CutFault::LongHeader) => {
            Ok(None)
        }
    }
}

// How many rows the origin has posted, also those of posts that were withdrawn: its posts stand for the first records of the files.
fn rows_sent(alloc: Global, import: &Import<'_>) -> Result<u64, AllocError> {
    let mut rows: u64 = 0;
    for post in import.posts(alloc)?.as_slice() {
        rows = rows.saturating_add(post.rows);
    }
    Ok(rows)
}

// Says that the rows of so many files are too many, and what to do.
fn say_too_many(rt: &HostRuntime, import: &Import<'_>, files: usize, rows: u64, sent: u64) {
    let origin = import.origin;
    let posted = import.house.rows_posted();
    let files_have = if files == 1 { "file has" } else { "files have" };
    let more = if rows == 1 { "row" } else { "rows" };
    let rows_were = if posted == 1 { "row was" } else { "rows were" };
    say_fault(rt, "the rows of the files", "J1 Full");
    let _ = eprintln!(rt;
        "{files} {files_have} {rows} {more}, {posted} {rows_were} posted before, {sent} of them by {origin}. Nothing was imported."
    );
    say_room(rt, &import.house, rows.saturating_sub(sent));
}

/// Says how many rows were withdrawn, where so many more would fit without them.
pub(crate) fn say_room(rt: &HostRuntime, house: &House, more: u64) {
    let gone = house.rows_posted().saturating_sub(house.rows());
    if gone > 0 && fits(house.rows(), 0, more) {
        let were = if gone == 1 { "was" } else { "were" };
        let _ = eprintln!(rt;
            "{gone} of the rows posted {were} withdrawn: `focusd compact` makes room of them."
        );
    }
}
