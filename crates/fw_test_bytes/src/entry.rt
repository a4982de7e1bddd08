//! Entries of two rows.
ghost use Rattle.std.specs.Prelude.{IfOk};
ghost use Rattle.fw_entry.specs.Spelling.{HasRowCount};
ghost use Rattle.fw_entry.specs.View.{command_view};

use crate::ended::{check_all, none_wrong};
use fw_charge::{Category, Row, RowFields, Tags};
use fw_columns::Columns;
use fw_entry::{Command, Entry, EntryFault, is_origin};
use fw_money::Nanos;
use std::alloc::{AllocError, Global};

/// A tax of 1 nano in the first hour of 1970, which is written in 45 bytes.
fn tax(alloc: Global) -> Row {
    Row::of_fields(RowFields {
        billed: Nanos::of_fields(1),
        effective: Nanos::of_fields(1),
        category: Category::Tax,
        is_correction: false,
        start: 0,
        end: 3_600,
        discount: None,
        quantity: None,
        unit: None,
        sku: None,
        sub_account: None,
        tags: Tags::empty(alloc),
    })
}

/// A post of two such rows.
fn post(alloc: Global) -> Result<Command, AllocError>
    ensures { IfOk result (λ command. HasRowCount (command_view command)) }
{
    let rows = [tax(alloc), tax(alloc)];
    Ok(Command::Post(Columns::from_rows(alloc, &rows)?))
}

/// Whether an entry is number 7 of `a-B_9.` and posts two rows.
fn is_number_7(entry: &Entry) -> bool {
    // a length and six letters, a number, a kind, and a count with two rows
    entry.origin() == "a-B_9."
        && entry.seq() == 7
        && entry.encoded_len() == 4 + 6 + 8 + 1 + 4 + 2 * 45
        && matches!(entry.command(), Command::Post(rows) if rows.len() == 2)
}

/// Whether an entry and its copy are that number 7.
fn are_number_7(alloc: Global, entry: &Entry) -> Result<bool, EntryFault> {
    match entry.copy(alloc) {
        Ok(copy) => Ok(is_number_7(entry) && is_number_7(&copy)),
        Err(_) => Err(EntryFault::NoMemory),
    }
}

/// Whether the parts make number 7 of `a-B_9.`, or why they make no entry.
fn makes_number_7(
    alloc: Global,
    origin: &[u8],
    seq: u64,
    command: Command,
) -> Result<bool, EntryFault>
    requires { HasRowCount (command_view command) }
{
    match Entry::new(alloc, origin, seq, command) {
        Ok(entry) => are_number_7(alloc, &entry),
        Err(fault) => Err(fault),
    }
}

/// What a post of two rows makes with this origin and number.
fn made(alloc: Global, origin: &[u8], seq: u64) -> Result<bool, EntryFault> {
    match post(alloc) {
        Ok(command) => makes_number_7(alloc, origin, seq, command),
        Err(_) => Err(EntryFault::NoMemory),
    }
}

/// An origin and a number, and what a post of two rows makes with them.
const PARTS: [(&[u8], u64, Result<bool, EntryFault>); 6] = [
    (b"a-B_9.", 7, Ok(true)),
    (b"a/b", 1, Err(EntryFault::Origin)),
    (b"a/b", 0, Err(EntryFault::Origin)),
    (b"", 1, Err(EntryFault::Origin)),
    (b"\xff", 1, Err(EntryFault::Origin)),
    (b"a", 0, Err(EntryFault::Seq)),
];

/// The first of the parts that make something else.
fn wrong_parts(alloc: Global) -> Result<Option<usize>, EntryFault> {
    for (i, (origin, seq, wanted)) in PARTS.iter().enumerate() {
        let made = made(alloc, origin, *seq);
        if made == Err(EntryFault::NoMemory) {
            return Err(EntryFault::NoMemory);
        }
        if made != *wanted {
            return Ok(Some(i));
        }
    }
    Ok(None)
}

#[test]
fn parts_make_an_entry_or_none(rt: HostRuntime) {
    check_all(&rt, wrong_parts(rt.alloc()));
}

const NAMES: [&[u8]; 7] = [b"a", b"Z", b"0", b"-", b"_", b".", &[b'x'; 64]];

const NO_NAMES: [&[u8]; 11] = [
    b"",
    b"a b",
    b"a/b",
    b"a:b",
    b"a\n",
    b"\xc3\xa9",
    b"@",
    b"[",
    b"`",
    b"{",
    &[b'x'; 65],
];

/// The first of the texts that is an origin, or is none.
fn first_that(texts: &[&[u8]], is: bool) -> Option<usize> {
    texts.iter().position(|text| is_origin(text) == is)
}

#[test]
fn names_of_origins(rt: HostRuntime) {
    none_wrong(&rt, first_that(&NAMES, false));
    none_wrong(&rt, first_that(&NO_NAMES, true));
}
