//! Progress of a long command on standard error, where that is a terminal.
ghost use Rattle.std.specs.Prelude.{◌≤◌};

use std::fs;
use std::io::IsTerminal;
use std::time::{Duration, Instant};

/// How far a command has come in reading its files.
#[derive(Drop)]
pub struct Progress {
    start: Option<Instant>,
    /// The bytes of all files, where that is known.
    total: Option<u64>,
    rows: u64,
    bytes: u64,
    /// Whether a line of progress stands on the terminal, which has not been ended.
    is_open: bool,
}

impl Progress {
    /// Progress in reading the files. It is printed, unless it is not wanted or standard error is no terminal.
    pub fn new(rt: &HostRuntime, is_quiet: bool, files: &[&str]) -> Progress {
        let start = if is_quiet || !rt.stderr().is_terminal() {
            None
        } else {
            Instant::now(rt).ok()
        };
        let total = if start.is_some() {
            bytes_of(rt, files)
        } else {
            None
        };
        Progress {
            start,
            total,
            rows: 0,
            bytes: 0,
            is_open: false,
        }
    }

    /// So many rows, and so many bytes of a file, were taken.
    pub fn took(&mut self, rt: &HostRuntime, rows: u64, bytes: usize) {
        self.rows = self.rows.saturating_add(rows);
        self.bytes = self.bytes.saturating_add(bytes as u64);
        let Some(start) = &self.start else {
            return;
        };
        let Ok(since) = start.elapsed(rt) else {
            return;
        };
        self.is_open = true;
        self.print(rt, since);
    }

    // Writes the line of progress anew, so long after the start.
    fn print(&self, rt: &HostRuntime, since: Duration) {
        let rows = self.rows;
        let word = if rows == 1 { "row" } else { "rows" };
        let megabytes = self.bytes / MEGABYTE;
        let _ = eprint!(rt; "\r{rows} {word}, {megabytes} MB");
        if let Some(total) = self.total {
            let share = share_of(self.bytes, total);
            let all = total / MEGABYTE;
            let _ = eprint!(rt; " of {all} MB, {share}%");
        }
        if let Some(rate) = megabytes.checked_div(since.as_secs()) {
            let _ = eprint!(rt; ", {rate} MB/s");
            self.print_time_left(rt, since);
        }
        let _ = eprint!(rt; "{CLEAR}");
    }

    // Writes the time that is left, where the bytes of all files are known.
    fn print_time_left(&self, rt: &HostRuntime, since: Duration) {
        let Some(total) = self.total else {
            return;
        };
        let rest = total.saturating_sub(self.bytes);
        match seconds_left(rest, self.bytes, since.as_millis()) {
            Some(seconds) if seconds >= 120 => {
                let minutes = seconds / 60;
                let _ = eprint!(rt; ", {minutes} min left");
            }
            Some(seconds) => {
                let _ = eprint!(rt; ", {seconds} s left");
            }
            None => {}
        }
    }

    /// The line of progress is ended, where one stands.
    pub fn end(&mut self, rt: &HostRuntime) {
        if self.is_open {
            self.is_open = false;
            let _ = eprintln!(rt; "");
        }
    }
}

const MEGABYTE: u64 = 1_000_000;

// What a terminal takes as: nothing stands behind this on the line.
const CLEAR: &str = "\u{1b}[K";

/// The bytes that files have together. None where one has no length, as standard input or a pipe, or can't be looked at.
pub fn bytes_of(rt: &HostRuntime, files: &[&str]) -> Option<u64> {
    let mut total: u64 = 0;
    for file in files {
        let found = fs::metadata(rt, *file).ok()?;
        if !found.is_file() {
            return None;
        }
        total = total.saturating_add(found.len());
    }
    Some(total)
}

// How much of the bytes was taken, in hundredths; a file that grows meanwhile has no more than all.
fn share_of(bytes: u64, total: u64) -> u64
    ensures { result ≤ 100 }
{
    let share = bytes.saturating_mul(100).checked_div(total);
    share.unwrap_or(100).min(100)
}

// The seconds that the rest takes at the pace of what was taken in so many milliseconds.
fn seconds_left(rest: u64, bytes: u64, millis: u128) -> Option<u128> {
    let whole = u128::from(rest).saturating_mul(millis);
    whole.checked_div(u128::from(bytes).saturating_mul(1000))
}
