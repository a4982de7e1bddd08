//! Where a walk over exports stands, and what it says of them.
ghost use Rattle.std.specs.Prelude.{◌≡◌, ◌+◌, false, IfOk, OnOk};
ghost use Rattle.fw_check.specs.Checks.{headers_again, records_in};
ghost use Rattle.fw_check.specs.Counts.{kept};
ghost use Rattle.fw_check.specs.Lines.{line_ends_in};

use crate::faults::{code_of, column_of};
use crate::files::{all_exports, texts_of};
use crate::foreign::{Foreign, what_to_do};
use fw_check::{Located, line_ends, locate};
use fw_console::{Fault, Progress};
use fw_cut::{CutFault, Part};
use fw_dialect::Dialect;
use fw_explain::explain_fault;
use fw_rows::{RecordFault, RowFault};
use fw_table::shown_text;
use std::borrow::CowStr;

/// Where a walk over exports stands.
pub struct Walk<'a> {
    /// The name of the export, with its folder where the command line names that.
    pub name: CowStr<'a>,
    /// The name as messages have it: as a terminal may show it.
    pub shown: String,
    /// The line in which the next part begins, counted from 1.
    pub line: u64,
    /// The number of its first record, counted from 1.
    pub record: u64,
    /// The byte that ends lines.
    pub line_end: u8,
    /// How many times a header stood again, in all exports so far.
    pub repeated: u64,
    /// How far all exports are read.
    pub progress: Progress,
    /// The form that the exports have, where that isn't the one of FOCUS.
    pub dialect: Option<Dialect>,
}

impl Drop for Walk<'_> {
    fn drop(self) {
        let Self {
            name: _,
            shown: _,
            line: _,
            record: _,
            line_end: _,
            repeated: _,
            progress: _,
            dialect: _,
        } = self;
    }
}

impl<'a> Walk<'a> {
    /// A walk over files that stands before the first one.
    pub fn new(rt: &HostRuntime, is_quiet: bool, files: &[&str]) -> Walk<'a> {
        Walk {
            name: CowStr::Borrowed(""),
            shown: String::new(rt.alloc()),
            line: 1,
            record: 1,
            line_end: b'\n',
            repeated: 0,
            progress: progress_of(rt, is_quiet, files),
            dialect: None,
        }
    }

    // It stands at the beginning of a file.
    pub(crate) fn go_to(&mut self, rt: &HostRuntime, file: CowStr<'a>) -> Result<(), Fault>
        ensures { OnOk result ((self.new.line ≡ 1) × (self.new.record ≡ 1)) }
    {
        self.name = if file.as_str() == "-" {
            CowStr::Borrowed("standard input")
        } else {
            file
        };
        self.shown = shown_text(rt.alloc(), self.name.as_str())?;
        self.line = 1;
        self.record = 1;
        Ok(())
    }

    // It stands behind a header.
    pub(crate) fn pass_header(&mut self, rt: &HostRuntime, header: &[u8], line_end: u8)
        ensures line { self.new.line ≡ kept (line_ends_in line_end header.now + 1) }
        ensures ends { self.new.line_end ≡ line_end }
    {
        self.line = line_ends(header, line_end).saturating_add(1);
        self.line_end = line_end;
        self.progress.took(rt, 0, header.len());
    }

    // It stands behind the header, where that stands again in front of a part's records.
    pub(crate) fn pass_repeated(&mut self, rt: &HostRuntime, part: &Part)
        ensures line { self.new.line ≡
            kept (self.old.line + line_ends_in self.old.line_end part.now.skipped.items) }
        ensures record { self.new.record ≡ self.old.record }
        ensures repeated { self.new.repeated ≡
            kept (self.old.repeated + headers_again part.now) }
        ensures ends { self.new.line_end ≡ self.old.line_end }
    {
        let skipped = part.skipped.as_slice();
        let headers = skipped.len().min(1) as u64;
        self.line = self.line.saturating_add(line_ends(skipped, self.line_end));
        self.repeated = self.repeated.saturating_add(headers);
        if headers > 0 {
            self.progress.took(rt, 0, skipped.len());
        }
    }

    /// It stands behind a part, which has so many rows.
    pub fn took(&mut self, rt: &HostRuntime, part: &Part, rows: u64)
        ensures line { self.new.line ≡
            kept (self.old.line + line_ends_in self.old.line_end (records_in part.now)) }
        ensures record { self.new.record ≡ kept (self.old.record + rows) }
    {
        let body = body_of(part);
        self.line = self.line.saturating_add(line_ends(body, self.line_end));
        self.record = self.record.saturating_add(rows);
        self.progress.took(rt, rows, body.len());
    }

    // Says why the file was not opened, behind the line of progress.
    pub(crate) fn not_opened(&mut self, rt: &HostRuntime, why: &str) {
        self.progress.end(rt);
        let name = self.shown.as_str();
        let _ = eprintln!(rt; "focusd: {name}: F1 Read: {why}");
    }

    // Says that the file, or standard input, is of another format, and what to do about that with this command.
    pub(crate) fn say_foreign(
        &mut self,
        rt: &HostRuntime,
        format: Foreign,
        is_input: bool,
        command: &str,
    ) -> Result<(), Fault> {
        self.progress.end(rt);
        let (name, is) = (self.shown.as_str(), format.is);
        let file = if is_input { None } else { Some(name) };
        let remedy = what_to_do(rt.alloc(), &format, file, command)?;
        let _ = eprintln!(rt; "focusd: {name}: {is}. What to do: {remedy}");
        Ok(())
    }

    // Says why the export can't be cut from here on. The answer is false. The error says that memory ran out.
    pub(crate) fn not_cut(&mut self, rt: &HostRuntime, fault: CutFault) -> Result<bool, Fault>
        ensures { IfOk result (λ is_taken. is_taken ≡ false) }
    {
        self.progress.end(rt);
        let name = self.shown.as_str();
        let (line, record) = (self.line, self.record);
        match fault {
            CutFault::NoMemory => return Err(Fault::NoMemory),
            CutFault::Read(why) => {
                let _ = eprintln!(rt;
                    "focusd: {name}:{line}: from record {record} on: F1 Read: {why}"
                );
            }
            CutFault::NoRecord => {
                let meaning = explain_fault("V14 NoRows").meaning;
                let _ = eprintln!(rt; "focusd: {name}: V14 NoRows: {meaning}");
            }
            CutFault::TooLong => {
                let what = format!(in rt.alloc(); "record {record}")?;
                say_too_long(rt, name, line, what.as_str(), "V16 LongRecord");
            }
            CutFault::LongHeader => say_too_long(rt, name, 1, "the header", "H3 LongHeader"),
        }
        Ok(false)
    }

    /// Says which value of the part here is wrong, or what is wrong with its header. `currency` says which currency is expected. The answer is
    /// false. The error says that memory ran out.
    pub fn refuse(
        &mut self,
        rt: &HostRuntime,
        part: &Part,
        fault: RowFault,
        currency: &str,
    ) -> Result<bool, Fault>
        ensures { IfOk result (λ is_taken. is_taken ≡ false) }
    {
        self.progress.end(rt);
        match fault {
            RowFault::Record { number, fault } => {
                let at = locate(rt.alloc(), part, self.line_end, number, fault)?;
                self.say_record(rt, number, &at, expected_of(fault, &at, currency));
                self.propose(rt, at.column, at.value.as_str());
                Ok(false)
            }
            RowFault::NoMemory => Err(Fault::NoMemory),
            other => {
                say_header(rt, self.shown.as_str(), other);
                Ok(false)
            }
        }
    }

    // Says which value of a record is wrong, of a part that begins here.
    fn say_record(&self, rt: &HostRuntime, number: u32, at: &Located, expected: &str) {
        let name = self.shown.as_str();
        let line = self.line.saturating_add(at.lines_before);
        let before = u64::from(number).saturating_sub(1);
        let record = self.record.saturating_add(before);
        let (column, value, code) = (at.column, at.value.as_str(), at.code);
        if !column.is_empty() {
            let _ = eprintln!(rt;
                "focusd: {name}:{line}: record {record}, {column}: {value:?}: {code}: expected {expected}"
            );
        } else if value.is_empty() {
            let _ = eprintln!(rt;
                "focusd: {name}:{line}: record {record}: {code}: expected {expected}"
            );
        } else {
            let _ = eprintln!(rt;
                "focusd: {name}:{line}: record {record}: {value}: {code}: expected {expected}"
            );
        }
    }
}

// Progress in reading the exports that names stand for.
fn progress_of(rt: &HostRuntime, is_quiet: bool, names: &[&str]) -> Progress {
    let Some(files) = all_exports(rt, names) else {
        return Progress::new(rt, is_quiet, names);
    };
    match texts_of(rt.alloc(), &files) {
        Ok(texts) => Progress::new(rt, is_quiet, &texts),
        Err(_) => Progress::new(rt, is_quiet, names),
    }
}

// What is expected in the place of a value that is wrong.
fn expected_of<'a>(fault: RecordFault, at: &Located, currency: &'a str) -> &'a str {
    match fault {
        RecordFault::Currency => currency,
        _ => at.expected,
    }
}

// Says that a record or a header is too long.
fn say_too_long(rt: &HostRuntime, name: &str, line: u64, what: &str, fault: &str) {
    let words = explain_fault(fault);
    let (expected, remedy) = (words.expected, words.remedy);
    let _ = eprintln!(rt; "focusd: {name}:{line}: {what}: {fault}: expected {expected}. {remedy}");
}

// Says what is wrong with a header, or that no record is behind it.
fn say_header(rt: &HostRuntime, name: &str, fault: RowFault) {
    let code = code_of(fault);
    let column = column_of(fault);
    let comma = if column.is_empty() { "" } else { ", " };
    let expected = explain_fault(code).expected;
    let _ = eprintln!(rt;
        "focusd: {name}:1: the header{comma}{column}: {code}: expected {expected}. `focusd check` lists all faults."
    );
}

// The bytes of a part behind its header.
fn body_of(part: &Part) -> &[u8]
    ensures { result.now ≡ records_in part.now }
{
    let text = part.text.as_slice();
    let (_, body) = text.split_at(part.header.min(text.len()));
    body
}
