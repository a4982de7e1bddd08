//! Sums by code, in a table with a place for each code.
ghost use Rattle.std.specs.Prelude.{◌≡◌, ◌+◌, ◌+ℤ◌, ◌||◌, ◌^◌, ◌<◌, ◌≤◌, ℕ, pos, length, map, nat_abs, slice_index_or, All, IfOk};
ghost use Rattle.fw_lanes.specs.Masked.{AddsRows, AreRowSums, HasRoom, billed_of, effective_of, kept_of};

use crate::mask::Mask;
use crate::sums::kept;
use std::alloc::{AllocError, Global};

/// What the rows with a code come to at which a mask is true.
#[derive(Clone, Copy, Drop)]
pub struct CodeSum {
    /// The sum of their billed costs.
    pub billed: i128,
    /// The sum of their effective costs.
    pub effective: i128,
    /// Whether there is such a row.
    pub is_marked: bool,
}

impl CodeSum {
    /// What no row comes to.
    pub const NONE: CodeSum = CodeSum {
        billed: 0,
        effective: 0,
        is_marked: false,
    };
}

// The sum and a value, where the mask is true.
#[inline(always)]
fn grown(sum: i128, value: i64, is_set: bool) -> i128
    requires { nat_abs sum ≤ 2 ^ 126 + 2 ^ 80 }
    ensures sum { result ≡ sum +ℤ kept_of value is_set }
    ensures small { nat_abs result ≤ nat_abs sum + 2 ^ 63 }
{
    sum + i128::from(kept(value, is_set))
}

/// Adds the costs of each row at which the mask is true to the sums of its code, exactly, and marks the code. The sums of a code that no such row
/// has stay. There are as many rows as places of the mask, and each code is the place of sums. No sum moves by more than 2^79.
pub fn add_by_code(
    billed: &[i64],
    effective: &[i64],
    codes: &[u32],
    mask: &Mask,
    sums: &mut [CodeSum],
)
    requires billed { length billed.now ≡ length mask.now }
    requires effective { length effective.now ≡ length mask.now }
    requires codes { length codes.now ≡ length mask.now }
    requires within { All (λ code. code < length sums.old) codes.now }
    requires room { All HasRoom sums.old }
    ensures sums { AddsRows billed.now effective.now codes.now mask.now sums.old sums.new }
    ensures near_billed { (code : ℕ) → code < length sums.old
        → nat_abs (slice_index_or (billed_of sums.new) code (pos 0))
        ≤ nat_abs (slice_index_or (billed_of sums.old) code (pos 0)) + 2 ^ 79 }
    ensures near_effective { (code : ℕ) → code < length sums.old
        → nat_abs (slice_index_or (effective_of sums.new) code (pos 0))
        ≤ nat_abs (slice_index_or (effective_of sums.old) code (pos 0)) + 2 ^ 79 }
{
    let mask = mask.as_slice();
    for at in 0..codes.len() {
        let code = codes[at] as usize;
        let sum = sums[code];
        let is_set = mask[at];
        sums[code] = CodeSum {
            billed: grown(sum.billed, billed[at], is_set),
            effective: grown(sum.effective, effective[at], is_set),
            is_marked: sum.is_marked | is_set,
        };
    }
}

/// The sums of each code below `count`: of the rows that have the code and at which the mask is true. There are as many rows as places of the mask.
/// Each code is below the count, and no sum is larger than 2^79. The one error is that memory ran out.
pub fn sums_by_code(
    alloc: Global,
    billed: &[i64],
    effective: &[i64],
    codes: &[u32],
    mask: &Mask,
    count: usize,
) -> Result<Vec<CodeSum>, AllocError>
    requires billed { length billed.now ≡ length mask.now }
    requires effective { length effective.now ≡ length mask.now }
    requires codes { length codes.now ≡ length mask.now }
    requires within { All (λ code. code < count) codes.now }
    ensures sums { IfOk result (λ sums. AreRowSums billed.now effective.now codes.now mask.now count
        sums.items) }
    ensures small_billed { IfOk result (λ sums. All (λ sum. nat_abs sum ≤ 2 ^ 79)
        (billed_of sums.items)) }
    ensures small_effective { IfOk result (λ sums. All (λ sum. nat_abs sum ≤ 2 ^ 79)
        (effective_of sums.items)) }
{
    let mut sums = vec![in alloc; CodeSum::NONE; count]?;
    add_by_code(billed, effective, codes, mask, &mut sums);
    Ok(sums)
}

// The greater of two codes.
#[inline(always)]
fn greater(greatest: u32, code: u32) -> u32
    ensures above_both { (greatest ≤ result) × (code ≤ result) }
    ensures least { (n : ℕ) → greatest < n → code < n → result < n }
{
    if greatest < code { code } else { greatest }
}

/// The least number that is above all codes: 1 more than the greatest code, or 0 where there is none.
pub fn code_count(codes: &[u32]) -> usize
    ensures above { All (λ code. code < result) codes.now }
    ensures least { (count : ℕ) → All (λ code. code < count) codes.now → result ≤ count }
{
    let mut greatest = 0;
    for code in codes {
        greatest = greater(greatest, *code);
    }
    if codes.is_empty() {
        return 0;
    }
    greatest as usize + 1
}
