//! Texts, and the parts that they are cut into.
use crate::ended::check;
use fw_cut::{CutFault, Cutter, cut_off};
use std::alloc::{AllocError, Global};

/// Texts without their header, how many records at most are cut off, and how many records and bytes are.
const CUTS: &[(&str, usize, usize, usize)] = &[
    ("", 9, 0, 0),
    ("a", 9, 0, 0),
    ("a\nb\nc", 9, 2, 4),
    ("a\nb\nc", 1, 1, 2),
    ("\n\na\n", 9, 1, 4),
    ("a\r\nb\r\n", 9, 2, 5),
    ("\"a\nb\"\nc\n", 1, 1, 6),
    ("a\"b\nc\"\n", 1, 1, 4),
    ("\"a\"\"\nb\"\n", 9, 1, 8),
    ("\"a\"b\nc\n", 1, 1, 5),
    ("a,\"b\nc\",d\ne\n", 1, 1, 10),
    ("\"a\nb\n", 9, 0, 0),
];

/// The first text that is cut otherwise.
fn first_cut_otherwise() -> Option<&'static str> {
    for (text, most, records, end) in CUTS {
        if *most > 0 {
            let cut = cut_off(text.as_bytes(), *most);
            if cut.records != *records || cut.end != *end {
                return Some(text);
            }
        }
    }
    None
}

#[test]
fn cuts_behind_whole_records(rt: HostRuntime) {
    assert!(&rt; first_cut_otherwise().is_none());
}

/// A text of a header and so many records, with a byte order mark, and a line feed within quotes in each.
fn long_text(alloc: Global, records: usize) -> Result<Vec<u8>, AllocError> {
    let mut text = Vec::new(alloc);
    text.extend_from_slice(b"\xEF\xBB\xBFa,b\r\n")?;
    for _ in 0..records {
        text.extend_from_slice(b"1,\"x\ny\"\r\n")?;
    }
    Ok(text)
}

/// The lengths of the parts of a text, and whether each begins with the header.
fn part_lengths(alloc: Global, text: &[u8]) -> Result<Vec<usize>, CutFault> {
    let mut cutter = Cutter::open(alloc, text)?;
    let mut lengths = Vec::new(alloc);
    for _ in 0..100 {
        let part = cutter.next_part(alloc)?;
        if !part.text.as_slice().starts_with(b"\xEF\xBB\xBFa,b\r") {
            return Err(CutFault::NoRecord);
        }
        lengths
            .push(part.text.len() - part.header.min(part.text.len()))
            .map_err(AllocError::from)?;
        if part.is_last {
            return Ok(lengths);
        }
    }
    Ok(lengths)
}

/// How many records texts have, and the lengths of their parts without the header: that ends with a carriage return, so each part begins
/// with the line feed behind the one before.
const LENGTHS: &[(usize, &[usize])] = &[
    (0, &[1]),
    (1, &[10]),
    (4096, &[36864, 1]),
    (4097, &[36864, 10]),
    (9000, &[36864, 36864, 7273]),
];

/// Whether each text has parts of its lengths, and as many records as are counted.
fn are_cut(alloc: Global) -> Result<bool, CutFault> {
    for (records, lengths) in LENGTHS {
        let text = long_text(alloc, *records)?;
        if part_lengths(alloc, &text)?.as_slice() != *lengths {
            return Ok(false);
        }
        if Cutter::open(alloc, text.as_slice())?.count_left(alloc)? != *records as u64 {
            return Ok(false);
        }
    }
    Ok(true)
}

/// Texts with their header, and how many records follow it.
const COUNTS: &[(&str, u64)] = &[
    ("h\n", 0),
    ("h\n\r\n\n", 0),
    ("h\na", 1),
    ("h\n\na\n\nb\n", 2),
    ("h\n\"", 1),
    ("h\na,\n,", 2),
    ("h\n\"a\nb\"\nc", 2),
];

/// Whether each text has its number of records.
fn are_counted(alloc: Global) -> Result<bool, CutFault> {
    for (text, count) in COUNTS {
        if Cutter::open(alloc, text.as_bytes())?.count_left(alloc)? != *count {
            return Ok(false);
        }
    }
    Ok(true)
}

#[test]
fn records_are_counted(rt: HostRuntime) {
    check(&rt, are_counted(rt.alloc()));
}

#[test]
fn parts_have_4096_records(rt: HostRuntime) {
    check(&rt, are_cut(rt.alloc()));
}
