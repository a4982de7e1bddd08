//! Number texts and what they read as. The expected values were computed with exact fractions by another program.
use crate::ended::{check_all, none_wrong};
use fw_money::{MoneyFault, parse, text};
use std::alloc::{AllocError, Global};

const MOST: i64 = 100_000_000_000_000_000;

const AMOUNTS: &[(&str, i64)] = &[
    ("12.345678901", 12_345_678_901),
    ("0.000123", 123_000),
    ("1.0000000005", 1_000_000_000),
    ("1.0000000015", 1_000_000_002),
    ("-1.0000000015", -1_000_000_002),
    ("1.2E-05", 12_000),
    ("-0", 0),
    ("+.5", 500_000_000),
    ("5.", 5_000_000_000),
    ("5e-10", 0),
    ("15e-10", 2),
    ("25E-10", 2),
    ("0.00000000050000000000000000000000000001", 1),
    ("0000000000000000000000000000000000000001", 1_000_000_000),
    ("1e-40", 0),
    ("1e000000000005", 100_000_000_000_000),
    ("0e40", 0),
    ("100000000", MOST),
    ("-1e+8", -MOST),
    ("100000000.0000000004", MOST),
    ("100000000.0000000005", MOST),
];

const FAULTS: &[(&str, MoneyFault)] = &[
    ("", MoneyFault::Empty),
    (".", MoneyFault::Syntax),
    ("+", MoneyFault::Syntax),
    ("--1", MoneyFault::Syntax),
    ("e5", MoneyFault::Syntax),
    ("1e", MoneyFault::Syntax),
    ("1e+", MoneyFault::Syntax),
    ("1e5.", MoneyFault::Syntax),
    ("1.2.3", MoneyFault::Syntax),
    ("1 ", MoneyFault::Syntax),
    ("1,5", MoneyFault::Syntax),
    ("\u{661}", MoneyFault::Syntax),
    (
        "aaaaaaaaaaaaaaaaaaaaaaaaaaaaaaaaaaaaaaaaa",
        MoneyFault::Syntax,
    ),
    (
        "00000000000000000000000000000000000000000",
        MoneyFault::TooLong,
    ),
    ("1e41", MoneyFault::TooLong),
    ("0e-41", MoneyFault::TooLong),
    ("1e40", MoneyFault::Range),
    (
        "9999999999999999999999999999999999999999",
        MoneyFault::Range,
    ),
    ("100000000.000000001", MoneyFault::Range),
    ("-100000000.0000000006", MoneyFault::Range),
];

const TEXTS: &[(i128, &str)] = &[
    (0, "0.000000000"),
    (1_000_000_000, "1.000000000"),
    (1_000_000_002, "1.000000002"),
    (50_000_000, "0.050000000"),
    (100_000_000_000_000_000, "100000000.000000000"),
    (-7, "-0.000000007"),
    (i128::MIN, "-170141183460469231731687303715.884105728"),
];

/// The count of nanos that a text reads as, or its fault.
fn read(text: &str) -> Result<i64, MoneyFault> {
    Ok(parse(text.as_bytes())?.count())
}

/// The first text that reads as another amount.
fn first_misread() -> Option<&'static str> {
    for (text, nanos) in AMOUNTS {
        if read(text) != Ok(*nanos) {
            return Some(text);
        }
    }
    None
}

/// The first text with another fault.
fn first_other_fault() -> Option<&'static str> {
    for (text, fault) in FAULTS {
        if read(text) != Err(*fault) {
            return Some(text);
        }
    }
    None
}

#[test]
fn texts_read_as_amounts(rt: HostRuntime) {
    none_wrong(&rt, first_misread());
}

#[test]
fn other_texts_have_their_faults(rt: HostRuntime) {
    none_wrong(&rt, first_other_fault());
}

/// The first amount that is written otherwise.
fn first_miswritten(alloc: Global) -> Result<Option<i128>, AllocError> {
    for (nanos, wanted) in TEXTS {
        if text(alloc, *nanos)?.as_str() != *wanted {
            return Ok(Some(*nanos));
        }
    }
    Ok(None)
}

#[test]
fn amounts_are_written(rt: HostRuntime) {
    check_all(&rt, first_miswritten(rt.alloc()));
}
