//! A script that is read command by command.
ghost use Rattle.std.specs.Prelude.{◌≡◌, ◌≢◌, ◌<◌, ◌↔◌, ℕ, List, [], length, codes, MatchOption, OnSome, IsTrue};
ghost use Rattle.fw_script.specs.Commands.{FirstCommand, IsCommand, IsEntryLine, IsReportLine, IsLinesLine, TakesLines, entry_content};
ghost use Rattle.fw_script.specs.declared.commands.EntryKind.{EntryKind};
ghost use Rattle.fw_script.specs.Plain.{plain_command};

use crate::commands::{Command, EntryKind};
use crate::hours::read_hour;
use crate::lines::{next_line, split_lines};
use crate::words::{arguments_of, line_count, sequence_number, split_at_first, split_at_last};
use std::marker::Model;

/// The part of a script that is not yet read.
#[derive(Debug, Drop)]
pub struct Script<'a> {
    rest: &'a [u8],
}

impl<'a> Model for Script<'a> {
    ghost Value = { List ℕ };

    ghost view = { λ s. s.rest.now };
}

impl<'a> Script<'a> {
    /// The script of these bytes.
    pub fn new(text: &'a [u8]) -> Self
        ensures { result ≡ text.now }
    {
        Script { rest: text }
    }

    /// How many bytes are left.
    pub fn left(&self) -> usize
        ensures { result ≡ length self.now }
    {
        self.rest.len()
    }

    /// The next command, or `None` where nothing is left. What is left then begins after the command's line and the lines that
    /// it takes. After `BadEnd` nothing is left.
    pub fn next_command(&mut self) -> Option<Command<'a>>
        ensures command { MatchOption result
            ((self.old ≡ []) × (self.new ≡ []))
            (λ c. FirstCommand self.old (plain_command c) self.new) }
        ensures shorter { OnSome result (length self.new < length self.old) }
    {
        let (line, following) = next_line(self.rest)?;
        let (command, rest) = read_command(line, following);
        self.rest = rest;
        Some(command)
    }
}

/// The command of a line, with the lines that it takes from those that follow, and what is left after them.
fn read_command<'a>(line: &'a [u8], following: &'a [u8]) -> (Command<'a>, &'a [u8])
    ensures { IsCommand line.now following.now (plain_command result.0) result.1.now }
{
    match entry_line(line) {
        Some(entry) => read_entry(line, entry, following),
        None => (read_question(line), following),
    }
}

/// The entry of a line with these arguments, which may take lines from those that follow, and what is left after them.
fn read_entry<'a>(
    line: &'a [u8],
    entry: EntryLine<'a>,
    following: &'a [u8],
) -> (Command<'a>, &'a [u8])
    requires { IsEntryLine entry.kind line.now entry.origin.now entry.sequence.now entry.last.now
        entry.count }
    ensures { IsCommand line.now following.now (plain_command result.0) result.1.now }
{
    match split_lines(entry.count, following) {
        Some((taken, rest)) => (
            Command::Entry {
                kind: entry.kind,
                origin: entry.origin,
                sequence: entry.sequence,
                content: content_of(entry.kind, entry.last, taken),
            },
            rest,
        ),
        None => (Command::BadEnd, b""),
    }
}

/// The content of an entry of a kind, by the last word of its line and the lines that it takes.
fn content_of<'a>(kind: EntryKind, last: &'a [u8], taken: &'a [u8]) -> &'a [u8]
    ensures { result.now ≡ entry_content kind last.now taken.now }
{
    match kind {
        EntryKind::Post | EntryKind::Commit | EntryKind::Policy | EntryKind::AddPurchase => taken,
        EntryKind::Withdraw => last,
    }
}

/// The command of a line that is no entry's.
fn read_question(line: &[u8]) -> Command<'_>
    requires { (k : EntryKind) (origin sequence last : List ℕ) (count : ℕ)
        → ¬ IsEntryLine k line.now origin sequence last count }
    ensures { (following : List ℕ) → IsCommand line.now following (plain_command result) following }
{
    if let Some(report) = report_line(line) {
        return Command::Report {
            key: report.key,
            from: report.from,
            to: report.to,
        };
    }
    match lines_line(line) {
        Some((from, to)) => Command::Lines { from, to },
        None => word_command(line).unwrap_or(Command::BadCommand),
    }
}

/// The command of a line that is its word alone, or `None` where the line is none of these.
fn word_command(line: &[u8]) -> Option<Command<'_>>
    ensures { MatchOption result
        ((line.now ≢ codes "state") × (line.now ≢ codes "checkpoint"))
        (λ c. (following : List ℕ) → IsCommand line.now following (plain_command c) following) }
{
    if is_word(line, "state") {
        return Some(Command::State);
    }
    if is_word(line, "checkpoint") {
        return Some(Command::Checkpoint);
    }
    None
}

/// The arguments of an entry's line.
#[derive(Drop)]
struct EntryLine<'a> {
    kind: EntryKind,
    origin: &'a [u8],
    sequence: &'a [u8],
    // The last word.
    last: &'a [u8],
    // How many of the lines that follow it takes.
    count: u32,
}

/// The arguments of an entry's line, or `None` where the line isn't of this form.
fn entry_line(line: &[u8]) -> Option<EntryLine<'_>>
    ensures { MatchOption result ((k : EntryKind) (origin sequence last : List ℕ) (count : ℕ)
        → ¬ IsEntryLine k line.now origin sequence last count)
        (λ e. IsEntryLine e.kind line.now e.origin.now e.sequence.now e.last.now e.count) }
{
    if let Some(entry) = entry_of_kind(EntryKind::Post, line) {
        return Some(entry);
    }
    if let Some(entry) = entry_of_kind(EntryKind::Commit, line) {
        return Some(entry);
    }
    if let Some(entry) = entry_of_kind(EntryKind::Policy, line) {
        return Some(entry);
    }
    if let Some(entry) = entry_of_kind(EntryKind::AddPurchase, line) {
        return Some(entry);
    }
    if let Some(entry) = entry_of_kind(EntryKind::Withdraw, line) {
        return Some(entry);
    }
    None
}

/// The arguments of the line of an entry of a kind, `WORD ORIGIN SEQUENCE LAST`, or `None` where the line isn't of this form.
fn entry_of_kind<'a>(kind: EntryKind, line: &'a [u8]) -> Option<EntryLine<'a>>
    ensures { MatchOption result ((origin sequence last : List ℕ) (count : ℕ)
        → ¬ IsEntryLine kind line.now origin sequence last count)
        (λ e. IsEntryLine e.kind line.now e.origin.now e.sequence.now e.last.now e.count) }
{
    let arguments = arguments_of(kind.word().as_bytes(), line)?;
    let (origin, rest) = split_at_first(b' ', arguments)?;
    let (sequence, last) = split_at_first(b' ', rest)?;
    let count = lines_taken(kind, last)?;
    Some(EntryLine {
        kind,
        origin,
        sequence,
        last,
        count,
    })
}

/// How many lines an entry of a kind takes, by the last word of its line, or `None` where no such line ends with this word.
fn lines_taken(kind: EntryKind, last: &[u8]) -> Option<u32>
    ensures { MatchOption result ((count : ℕ) → ¬ TakesLines kind last.now count)
        (TakesLines kind last.now) }
{
    match kind {
        EntryKind::Post | EntryKind::Commit | EntryKind::Policy | EntryKind::AddPurchase => {
            line_count(last)
        }
        EntryKind::Withdraw => {
            sequence_number(last)?;
            Some(0)
        }
    }
}

/// The arguments of a report's line.
#[derive(Drop)]
struct ReportLine<'a> {
    key: &'a str,
    from: u64,
    to: u64,
}

/// The arguments of a line `report KEY FROM TO`, or `None` where the line isn't of this form.
fn report_line(line: &[u8]) -> Option<ReportLine<'_>>
    ensures { MatchOption result
        ((key : List ℕ) (from to : ℕ) → ¬ IsReportLine line.now key from to)
        (λ r. IsReportLine line.now r.key.now r.from r.to) }
{
    let arguments = arguments_of(b"report", line)?;
    let (rest, to) = split_at_last(b' ', arguments)?;
    let (key, from) = split_at_last(b' ', rest)?;
    let key = str::from_utf8(key).ok()?;
    let from = read_hour(from)?;
    let to = read_hour(to)?;
    Some(ReportLine { key, from, to })
}

/// The first hour and the hour after the last of a line `lines FROM TO`, or `None` where the line isn't of this form.
fn lines_line(line: &[u8]) -> Option<(u64, u64)>
    ensures { MatchOption result
        ((from to : ℕ) → ¬ IsLinesLine line.now from to)
        (λ hours. IsLinesLine line.now hours.0 hours.1) }
{
    let (rest, to) = split_at_last(b' ', line)?;
    let (word, from) = split_at_last(b' ', rest)?;
    if !is_word(word, "lines") {
        return None;
    }
    let from = read_hour(from)?;
    let to = read_hour(to)?;
    Some((from, to))
}

/// Whether a word is this one.
fn is_word(word: &[u8], this: &str) -> bool
    ensures { IsTrue result ↔ (word.now ≡ this.now) }
{
    word == this.as_bytes()
}
