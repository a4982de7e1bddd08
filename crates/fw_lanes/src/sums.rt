//! The exact sum of the values under a mask, eight at a time.
ghost use Rattle.std.specs.Prelude.{◌≡◌, ◌+◌, ◌*◌, ◌/◌, ◌%◌, ◌^◌, ◌<◌, ◌≤◌, length, map, take, pos, ◌+ℤ◌};
ghost use Rattle.std.specs.Simd.Lanes.{sum_l, Each1};
ghost use Rattle.fw_lanes.specs.Halves.{lane_of, AreHalvesOf};
ghost use Rattle.fw_lanes.specs.Masked.{kept_of, masked_sum_of};

use crate::mask::Mask;
use std::simd::prelude::*;

// The value where the mask is true, 0 elsewhere.
#[inline(always)]
pub(crate) fn kept(value: i64, is_set: bool) -> i64
    ensures { result ≡ kept_of value is_set }
{
    if is_set { value } else { 0 }
}

// That value raised by 2^63, so that it has no sign.
#[inline(always)]
fn lane(value: i64, is_set: bool) -> u64
    ensures { pos result ≡ lane_of value is_set }
{
    kept(value, is_set)
        .cast_unsigned()
        .wrapping_add(0x8000_0000_0000_0000)
}

// The lanes of eight places from this one on.
#[inline(always)]
fn load(values: &[i64], mask: &[bool], at: usize) -> u64x8
    requires values { at + 8 ≤ length values.now }
    requires mask { at + 8 ≤ length mask.now }
    ensures eight { length result ≡ 8 }
    ensures fits { Each1 (λ n. n < 2 ^ 64) result }
    ensures sum { (masked_sum_of (take at values.now) (take at mask.now) +ℤ pos (sum_l result))
        ≡ (masked_sum_of (take (at + 8) values.now) (take (at + 8) mask.now) +ℤ pos (8 * 2 ^ 63)) }
{
    u64x8::from_array([
        lane(values[at], mask[at]),
        lane(values[at + 1], mask[at + 1]),
        lane(values[at + 2], mask[at + 2]),
        lane(values[at + 3], mask[at + 3]),
        lane(values[at + 4], mask[at + 4]),
        lane(values[at + 5], mask[at + 5]),
        lane(values[at + 6], mask[at + 6]),
        lane(values[at + 7], mask[at + 7]),
    ])
}

// The lower 32 bits of each lane.
#[inline(always)]
fn lower(lanes: u64x8) -> u64x8
    requires { length lanes ≡ 8 }
    ensures { result ≡ map (λ n. n % 2 ^ 32) lanes }
{
    lanes & u64x8::splat(0xffff_ffff)
}

// The upper 32 bits of each lane.
#[inline(always)]
fn upper(lanes: u64x8) -> u64x8
    requires { length lanes ≡ 8 }
    ensures { result ≡ map (λ n. n / 2 ^ 32) lanes }
{
    lanes >> u64x8::splat(32)
}

// Adds lane to lane.
#[inline(always)]
fn joined(a: u64x8, b: u64x8) -> u64x8
    requires a { length a ≡ 8 }
    requires b { length b ≡ 8 }
    requires room { sum_l a + sum_l b < 2 ^ 64 }
    ensures eight { length result ≡ 8 }
    ensures sum { sum_l result ≡ sum_l a + sum_l b }
{
    a.strict_add(b)
}

// The sum of the lanes.
fn lane_sum(lanes: u64x8) -> u64
    requires eight { length lanes ≡ 8 }
    requires room { sum_l lanes < 2 ^ 64 }
    ensures { result ≡ sum_l lanes }
{
    lanes.strict_reduce_sum()
}

// The lanes of all whole blocks of eight, added up as lower and upper halves.
fn block_halves(values: &[i64], mask: &[bool], blocks: usize) -> (u64, u64)
    requires values { 8 * blocks ≤ length values.now }
    requires mask { 8 * blocks ≤ length mask.now }
    requires few { length values.now ≤ 65536 }
    ensures { AreHalvesOf (take (8 * blocks) values.now) (take (8 * blocks) mask.now)
        (8 * blocks) result.0 result.1 }
{
    let mut low = u64x8::splat(0);
    let mut high = u64x8::splat(0);
    for block in 0..blocks {
        let lanes = load(values, mask, 8 * block);
        low = joined(low, lower(lanes));
        high = joined(high, upper(lanes));
    }
    (lane_sum(low), lane_sum(high))
}

// The number of the two halves, less 2^63 for each place.
fn unbiased(low: u64, high: u64, count: u64) -> i128
    requires low { low ≤ 2 ^ 48 }
    requires high { high ≤ 2 ^ 48 }
    requires count { count ≤ 65536 }
    ensures { (result +ℤ pos (count * 2 ^ 63)) ≡ pos (2 ^ 32 * high + low) }
{
    let whole = u128::from(high) * 0x1_0000_0000 + u128::from(low);
    whole as i128 - (u128::from(count) * 0x8000_0000_0000_0000) as i128
}

/// The exact sum of the values at whose places the mask is true. There are as many values, of any size, as places.
pub fn masked_sum(values: &[i64], mask: &Mask) -> i128
    requires { length values.now ≡ length mask.now }
    ensures { result ≡ masked_sum_of values.now mask.now }
{
    let mask = mask.as_slice();
    let blocks = values.len() / 8;
    let (mut low, mut high) = block_halves(values, mask, blocks);
    for at in 8 * blocks..values.len() {
        let lane = lane(values[at], mask[at]);
        low += lane & 0xffff_ffff;
        high += lane >> 32;
    }
    unbiased(low, high, values.len() as u64)
}
