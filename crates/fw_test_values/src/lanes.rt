//! Masks of columns, and exact sums under them, against values that are worked out by hand.
ghost use Rattle.std.specs.Prelude.{◌≡◌, ◌≤◌, length};

use crate::ended::check;
use fw_lanes::{
    CodeSum, Mask, and_with, code_count, count, mask_eq_u8, mask_eq_u32, mask_in_u8, mask_range,
    masked_sum, sums_by_code,
};
use std::alloc::{AllocError, Global};

const MIN: i64 = i64::MIN;

const MAX: i64 = i64::MAX;

const T: bool = true;

const F: bool = false;

/// Amounts, with the least and the greatest number among them.
const AMOUNTS: [i64; 65] = [
    MIN,
    MAX,
    -1,
    0,
    1,
    3600,
    7199,
    7200,
    -7200,
    100_000_000_000_000_000,
    -100_000_000_000_000_000,
    MAX,
    42,
    MIN,
    MAX,
    -1,
    0,
    1,
    3600,
    7199,
    7201,
    -7200,
    100_000_000_000_000_000,
    -100_000_000_000_000_000,
    MAX,
    84,
    MIN,
    MAX,
    -1,
    0,
    1,
    3600,
    7199,
    7202,
    -7200,
    100_000_000_000_000_000,
    -100_000_000_000_000_000,
    MAX,
    126,
    MIN,
    MAX,
    -1,
    0,
    1,
    3600,
    7199,
    7203,
    -7200,
    100_000_000_000_000_000,
    -100_000_000_000_000_000,
    MAX,
    168,
    MIN,
    MAX,
    -1,
    0,
    1,
    3600,
    7199,
    7204,
    -7200,
    100_000_000_000_000_000,
    -100_000_000_000_000_000,
    MAX,
    210,
];

/// Bytes, on both sides of 64.
const BYTES: [u8; 65] = [
    0, 1, 62, 63, 64, 65, 127, 128, 191, 192, 254, 255, 60, 0, 1, 62, 63, 64, 65, 127, 128, 191,
    192, 254, 255, 61, 0, 1, 62, 63, 64, 65, 127, 128, 191, 192, 254, 255, 62, 0, 1, 62, 63, 64,
    65, 127, 128, 191, 192, 254, 255, 63, 0, 1, 62, 63, 64, 65, 127, 128, 191, 192, 254, 255, 64,
];

/// Codes below 4.
const CODES: [u32; 65] = [
    0, 1, 0, 1, 0, 1, 0, 1, 1, 2, 1, 2, 1, 2, 1, 2, 2, 3, 2, 3, 2, 3, 2, 3, 3, 0, 3, 0, 3, 0, 3, 0,
    0, 1, 0, 1, 0, 1, 0, 1, 1, 2, 1, 2, 1, 2, 1, 2, 2, 3, 2, 3, 2, 3, 2, 3, 3, 0, 3, 0, 3, 0, 3, 0,
    0,
];

/// Where the amounts are at least -1 and less than 7,200.
const RANGED: [bool; 65] = [
    F, F, T, T, T, T, T, F, F, F, F, F, T, F, F, T, T, T, T, T, F, F, F, F, F, T, F, F, T, T, T, T,
    T, F, F, F, F, F, T, F, F, T, T, T, T, T, F, F, F, F, F, T, F, F, T, T, T, T, T, F, F, F, F, F,
    T,
];

/// Where the bytes are 64.
const ARE_64: [bool; 65] = [
    F, F, F, F, T, F, F, F, F, F, F, F, F, F, F, F, F, T, F, F, F, F, F, F, F, F, F, F, F, F, T, F,
    F, F, F, F, F, F, F, F, F, F, F, T, F, F, F, F, F, F, F, F, F, F, F, F, T, F, F, F, F, F, F, F,
    T,
];

/// Where the codes are 3.
const ARE_3: [bool; 65] = [
    F, F, F, F, F, F, F, F, F, F, F, F, F, F, F, F, F, T, F, T, F, T, F, T, T, F, T, F, T, F, T, F,
    F, F, F, F, F, F, F, F, F, F, F, F, F, F, F, F, F, T, F, T, F, T, F, T, T, F, T, F, T, F, T, F,
    F,
];

/// The set of 1 and 63.
const SET: u64 = 1 << 1 | 1 << 63;

/// Where the bytes are 1 or 63.
const IN_SET: [bool; 65] = [
    F, T, F, T, F, F, F, F, F, F, F, F, F, F, T, F, T, F, F, F, F, F, F, F, F, F, F, T, F, T, F, F,
    F, F, F, F, F, F, F, F, T, F, T, F, F, F, F, F, F, F, F, T, F, T, F, T, F, F, F, F, F, F, F, F,
    F,
];

/// What comes of the first places of the columns.
struct Case {
    len: usize,
    /// The sum of the amounts from -1 to 7,199.
    ranged: i128,
    /// The sum of the amounts that are the least number.
    least: i128,
    /// The sum of the amounts whose bytes are 1 or 63.
    in_set: i128,
    /// How many amounts from -1 to 7,199 have the code 3.
    both: usize,
    /// For each code the sum of the amounts whose bytes are 1 or 63, that of the last amounts, as many as there are places, in their order,
    /// and whether there is such a byte.
    by_code: [(i128, i128, bool); 4],
}

/// No place, one, one less and one more than eight, eight, and one more than eight times eight.
const CASES: [Case; 6] = [
    Case {
        len: 0,
        ranged: 0,
        least: 0,
        in_set: 0,
        both: 0,
        by_code: [(0, 0, false), (0, 0, false), (0, 0, false), (0, 0, false)],
    },
    Case {
        len: 1,
        ranged: 0,
        least: -9_223_372_036_854_775_808,
        in_set: 0,
        both: 0,
        by_code: [(0, 0, false), (0, 0, false), (0, 0, false), (0, 0, false)],
    },
    Case {
        len: 7,
        ranged: 10_799,
        least: -9_223_372_036_854_775_808,
        in_set: 9_223_372_036_854_775_807,
        both: 0,
        by_code: [
            (0, 0, false),
            (9_223_372_036_854_775_807, 100_000_000_000_007_204, true),
            (0, 0, false),
            (0, 0, false),
        ],
    },
    Case {
        len: 8,
        ranged: 10_799,
        least: -9_223_372_036_854_775_808,
        in_set: 9_223_372_036_854_775_807,
        both: 0,
        by_code: [
            (0, 0, false),
            (9_223_372_036_854_775_807, -1, true),
            (0, 0, false),
            (0, 0, false),
        ],
    },
    Case {
        len: 9,
        ranged: 10_799,
        least: -9_223_372_036_854_775_808,
        in_set: 9_223_372_036_854_775_807,
        both: 0,
        by_code: [
            (0, 0, false),
            (9_223_372_036_854_775_807, 10_804, true),
            (0, 0, false),
            (0, 0, false),
        ],
    },
    Case {
        len: 65,
        ranged: 54_625,
        least: -46_116_860_184_273_879_040,
        in_set: 46_116_860_184_273_879_203,
        both: 8,
        by_code: [
            (9_223_372_036_854_775_807, 9_223_372_036_854_775_807, true),
            (27_670_116_110_564_327_421, 27_670_116_110_564_327_421, true),
            (0, 0, true),
            (9_223_372_036_854_775_975, 9_223_372_036_854_775_975, true),
        ],
    },
];

/// Whether no place of a mask is true, and the amounts of two ranges are found then, whose sums are these.
fn is_ranged(mask: &mut Mask, case: &Case) -> bool
    requires { length mask.old ≤ 65 }
    ensures { length mask.new ≡ length mask.old }
{
    let amounts = &AMOUNTS[..mask.len()];
    let is_new = mask.len() == case.len && count(mask) == 0;
    mask_range(amounts, -1, 7200, mask);
    let is_found = mask.as_slice() == &RANGED[..mask.len()]
        && masked_sum(amounts, mask) == case.ranged;
    mask_range(amounts, MIN, MIN + 1, mask);
    is_new && is_found && masked_sum(amounts, mask) == case.least
}

/// Whether the bytes of one value and those of a set are found, and the sum of the amounts of the latter is this.
fn is_of_bytes(mask: &mut Mask, case: &Case) -> bool
    requires { length mask.old ≤ 65 }
    ensures { length mask.new ≡ length mask.old }
{
    let bytes = &BYTES[..mask.len()];
    mask_eq_u8(bytes, 64, mask);
    let is_64 = mask.as_slice() == &ARE_64[..mask.len()];
    mask_in_u8(bytes, SET, mask);
    is_64
        && mask.as_slice() == &IN_SET[..mask.len()]
        && masked_sum(&AMOUNTS[..mask.len()], mask) == case.in_set
}

/// Whether the codes of one value are found, and those are counted that have an amount of a range.
fn is_of_codes(mask: &mut Mask, other: &mut Mask, case: &Case) -> bool
    requires few { length mask.old ≤ 65 }
    requires same { length other.old ≡ length mask.old }
{
    mask_eq_u32(&CODES[..mask.len()], 3, mask);
    let is_3 = mask.as_slice() == &ARE_3[..mask.len()];
    mask_range(&AMOUNTS[..mask.len()], -1, 7200, other);
    and_with(mask, other);
    is_3 && count(mask) == case.both
}

/// Whether what is asked of a mask of this many places holds.
fn are_masks(alloc: Global, len: usize, case: &Case) -> Result<bool, AllocError>
    requires { len ≤ 65 }
{
    let mut mask = Mask::new(alloc, len)?;
    let mut other = Mask::new(alloc, len)?;
    let is_found = is_ranged(&mut mask, case) & is_of_bytes(&mut mask, case);
    Ok(is_found & is_of_codes(&mut mask, &mut other, case))
}

/// Whether the sums of each code are these.
fn are_by_code(sums: &[CodeSum], expected: &[(i128, i128, bool)]) -> bool {
    let mut right = true;
    for (sum, is) in sums.iter().zip(expected) {
        right &= sum.billed == is.0 && sum.effective == is.1 && sum.is_marked == is.2;
    }
    right
}

/// Whether the sums of each code are found.
fn are_sums(alloc: Global, len: usize, case: &Case) -> Result<bool, AllocError>
    requires { len ≤ 65 }
{
    let codes = &CODES[..len];
    let mut mask = Mask::new(alloc, len)?;
    mask_in_u8(&BYTES[..len], SET, &mut mask);
    let sums = sums_by_code(
        alloc,
        &AMOUNTS[..len],
        &AMOUNTS[65 - len..],
        codes,
        &mask,
        code_count(codes),
    )?;
    Ok(are_by_code(sums.as_slice(), &case.by_code))
}

/// Numbers of amounts of 10^17, and their sums.
const FULL: [(usize, i128); 6] = [
    (0, 0),
    (1, 100_000_000_000_000_000),
    (7, 700_000_000_000_000_000),
    (8, 800_000_000_000_000_000),
    (9, 900_000_000_000_000_000),
    (65_536, 6_553_600_000_000_000_000_000),
];

/// Whether so many amounts of 10^17 have this sum under a mask that is true throughout.
fn is_full_sum(alloc: Global, len: usize, sum: i128) -> Result<bool, AllocError>
    requires { len ≤ 65536 }
{
    let amounts = vec![in alloc; 100_000_000_000_000_000; len]?;
    let mut mask = Mask::new(alloc, len)?;
    mask.fill(true);
    Ok(masked_sum(amounts.as_slice(), &mask) == sum)
}

fn are_full_sums(alloc: Global) -> Result<bool, AllocError> {
    let mut right = true;
    for (len, sum) in &FULL {
        right &= is_full_sum(alloc, (*len).min(65_536), *sum)?;
    }
    Ok(right)
}

fn all_hold(alloc: Global) -> Result<bool, AllocError> {
    let mut right = true;
    for case in &CASES {
        let len = case.len.min(65);
        right &= are_masks(alloc, len, case)? & are_sums(alloc, len, case)?;
    }
    Ok(right)
}

#[test]
fn masks_and_their_sums(rt: HostRuntime) {
    check(&rt, all_hold(rt.alloc()));
}

#[test]
fn the_most_amounts_under_one_mask(rt: HostRuntime) {
    check(&rt, are_full_sums(rt.alloc()));
}
