//! Where a fault of a part stands.
ghost use Rattle.std.specs.Prelude.{◌≡◌, ◌≤◌, ◌<◌, ◌+◌, ◌-◌, length, take, Option, IfOk};
ghost use Rattle.fw_check.specs.Checks.{records_in};
ghost use Rattle.fw_check.specs.Faults.{CanStandIn, column_text};
ghost use Rattle.fw_check.specs.Lines.{blank_len, is_content, line_ends_in, before_record};
ghost use Rattle.fw_cut.specs.Cutting.{Cuts};
ghost use Rattle.fw_cut.specs.declared.cutting.Cut.{Cut};
ghost use Rattle.fw_rows.specs.FaultNames.{fault_name};
ghost use Rattle.fw_rows.specs.declared.column.Column.{Column as ColumnValue};

use crate::fields::first_record;
use crate::findings::{column_name, column_of, value_of};
use fw_cut::{Part, cut_off};
use fw_explain::explain_fault;
use fw_rows::RecordFault;
use std::alloc::{AllocError, Global};

/// Where a fault stands, and what is wrong.
#[derive(Debug)]
pub struct Located {
    /// How many lines of the part's records stand before the record.
    pub lines_before: u64,
    /// The code and the name of the fault, as `V5 Cost`.
    pub code: &'static str,
    /// The name of the column, or the empty text where the fault is of the whole record.
    pub column: &'static str,
    /// The value; of one that is longer than 60 characters the first 60, and `...` behind them. Where the record has too many fields or too few,
    /// how many it has, and how many the header has.
    pub value: String,
    /// What was expected.
    pub expected: &'static str,
}

impl Drop for Located {
    fn drop(self) {
        let Self {
            lines_before: _,
            code: _,
            column: _,
            value: _,
            expected: _,
        } = self;
    }
}

/// How many bytes are counted in a byte, at most 255.
const BLOCK: u8 = 128;

/// How many lines end in a text, where this byte ends them. Blocks are counted in a byte each, so that many bytes are looked at together.
pub fn line_ends(text: &[u8], line_end: u8) -> u64
    ensures { result ≡ line_ends_in line_end text.now }
{
    let mut count = 0;
    let mut at = 0;
    while at + usize::from(BLOCK) <= text.len() {
        count += u64::from(ends_in_block(text, at, line_end));
        at += usize::from(BLOCK);
    }
    for place in at..text.len() {
        if text[place] == line_end {
            count += 1;
        }
    }
    count
}

// How many lines end in a block.
#[inline(always)]
fn ends_in_block(text: &[u8], at: usize, line_end: u8) -> u8
    requires { at + 128 ≤ length text.now }
    ensures few { result ≤ 128 }
    ensures count { line_ends_in line_end (take (at + 128) text.now)
        ≡ line_ends_in line_end (take at text.now) + result }
{
    let mut count = 0;
    for index in 0..BLOCK {
        if text[at + usize::from(index)] == line_end {
            count += 1;
        }
    }
    count
}

// Whether a byte ends no line.
fn is_content(byte: u8) -> bool
    ensures { result ≡ is_content byte }
{
    byte != b'\n' && byte != b'\r'
}

/// How many empty lines come first, in bytes.
pub(crate) fn blank(text: &[u8]) -> usize
    ensures value { result ≡ blank_len text.now }
    ensures within { result ≤ length text.now }
{
    for (index, byte) in text.iter().enumerate() {
        if is_content(*byte) {
            return index;
        }
    }
    text.len()
}

/// Where the fault of a part's record stands. The number counts the records of the part from 1, and `line_end` is the byte that ends lines.
pub fn locate(
    alloc: Global,
    part: &Part,
    line_end: u8,
    number: u32,
    fault: RecordFault,
) -> Result<Located, AllocError>
    ensures code { IfOk result (λ l. l.code.now ≡ fault_name fault) }
    ensures column { IfOk result (λ l. (c : Option ColumnValue) × CanStandIn fault c
        × (l.column.now ≡ column_text c)) }
    // The first record stands behind the empty lines.
    ensures first { IfOk result (λ l. number ≤ 1
        → l.lines_before ≡ line_ends_in line_end (before_record (records_in part.now) 0)) }
    // Each other one stands behind as many whole records as its number says.
    ensures later { IfOk result (λ l. 1 < number
        → (cut : Cut) × Cuts (records_in part.now) (number - 1) cut
        × (l.lines_before ≡ line_ends_in line_end (before_record (records_in part.now) cut.end))) }
{
    let text = part.text.as_slice();
    let (head, body) = text.split_at(part.header.min(text.len()));
    let end = if number > 1 {
        cut_off(body, number as usize - 1).end
    } else {
        0
    };
    let (_, rest) = body.split_at(end);
    let (before, rest) = body.split_at(end + blank(rest));
    let header = first_record(alloc, head)?;
    let record = first_record(alloc, rest)?;
    let column = column_of(&header, &record, fault);
    Ok(Located {
        lines_before: line_ends(before, line_end),
        code: fault.name(),
        column: column_name(column),
        value: value_of(alloc, &header, &record, column)?,
        expected: explain_fault(fault.name()).expected,
    })
}
