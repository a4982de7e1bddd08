//! The shares: the floors, and a cut among the remainders that deals out the rest.
//!
//! Each product stays within 128 bits: the total and a weight are at most 10^19, so it is at most 10^38, which is below 2^127.
ghost use Rattle.std.specs.Prelude.{◌≡◌, ℕ, ◌+◌, ◌-◌, ◌*◌, ◌/◌, ◌%◌, ◌^◌, ◌<◌, ◌≤◌, ◌==◌, length, sum, sum_by, count_by, map, All, IfOk, nat_lt, if◌then◌else◌, List, fold, ℤ, pos, ◌≤ℤ◌, ◌+ℤ◌, unsigned_abs};
ghost use Rattle.std.specs.List.Sorted.{IsNonDecreasing};
ghost use Rattle.fw_shares.specs.Shares.{IsShares, IsSharesOf, magnitudes, signed_as};
ghost use Rattle.fw_shares.specs.Dealing.{IsDealt, is_tie, cut_unit};

use std::alloc::{AllocError, Global};

/// The remainders above `at` get one unit each, and so do the first `ties` that equal it.
#[derive(Clone, Copy, Drop)]
struct Cut {
    at: u128,
    ties: usize,
}

/// The sum of numbers.
fn sum_of(numbers: &[u128]) -> u128
    requires { sum numbers.now ≤ 10 ^ 19 }
    ensures { result ≡ sum numbers.now }
{
    numbers.iter().sum()
}

/// The floor that each weight gets.
fn floors_of(
    alloc: Global,
    total: u128,
    whole: u128,
    weights: &[u128],
) -> Result<Vec<u128>, AllocError>
    requires positive { 0 < whole }
    requires small { All (λ w. w ≤ 10 ^ 19) weights.now }
    requires total { total ≤ 10 ^ 19 }
    ensures { IfOk result (λ v. v.items ≡ map (λ w. total * w / whole) weights.now) }
{
    weights
        .iter()
        .map(|weight| total * *weight / whole)
        .collect(alloc)
}

/// What a weight earns beyond its floor: found by a product, since dividing once more costs several times as much.
fn remainder(total: u128, whole: u128, weight: u128, floor: u128) -> u128
    requires small { weight ≤ 10 ^ 19 }
    requires total { total ≤ 10 ^ 19 }
    requires floor { floor ≡ total * weight / whole }
    ensures { result ≡ total * weight % whole }
{
    total * weight - floor * whole
}

/// What each weight earns beyond its floor.
fn remainders(
    alloc: Global,
    total: u128,
    whole: u128,
    weights: &[u128],
    floors: &[u128],
) -> Result<Vec<u128>, AllocError>
    requires small { All (λ w. w ≤ 10 ^ 19) weights.now }
    requires total { total ≤ 10 ^ 19 }
    requires floors { floors.now ≡ map (λ w. total * w / whole) weights.now }
    ensures { IfOk result (λ v. v.items ≡ map (λ w. total * w % whole) weights.now) }
{
    let mut remainders = Vec::with_capacity(alloc, weights.len())?;
    for (place, weight) in weights.iter().enumerate() {
        remainders.push(remainder(total, whole, *weight, floors[place]))?;
    }
    Ok(remainders)
}

fn count_above(remainders: &[u128], at: u128) -> usize
    ensures { result ≡ count_by (λ r. nat_lt at r) remainders.now }
{
    remainders.iter().filter(|r| **r > at).count()
}

/// The cut that gives away `extra` units, in remainders that stand in order.
#[tactic(auto, using(crate::proofs::Cuts::above_le, crate::proofs::Cuts::ties_ge))]
fn cut_for(sorted: &[u128], extra: usize) -> Cut
    requires sorted { IsNonDecreasing sorted.now }
    requires extra { extra < length sorted.now }
    ensures all { count_by (λ r. nat_lt result.at r) sorted.now + result.ties ≡ extra }
    ensures ties { result.ties ≤ count_by (λ r. r == result.at) sorted.now }
{
    let at = sorted[sorted.len() - 1 - extra];
    let above = count_above(sorted, at);
    let ties = extra - above;
    Cut { at, ties }
}

/// One unit for a remainder above the cut, and for one at it while ties are left.
fn unit_for(remainder: u128, at: u128, ties: &mut usize) -> u128
    ensures unit { result ≡ cut_unit (nat_lt at remainder) (remainder == at) (nat_lt 0 ties.old) }
    ensures left { ties.new ≡ ties.old - (if remainder == at then 1 else 0) }
{
    if remainder > at {
        1
    } else if remainder == at && *ties > 0 {
        *ties -= 1;
        1
    } else {
        0
    }
}

/// Deals the floors, and one unit more where the cut says so.
fn deal(
    alloc: Global,
    total: u128,
    whole: u128,
    weights: &[u128],
    floors: &[u128],
    cut: Cut,
) -> Result<Vec<u128>, AllocError>
    requires small { All (λ w. w ≤ 10 ^ 19) weights.now }
    requires total { total ≤ 10 ^ 19 }
    requires floors { floors.now ≡ map (λ w. total * w / whole) weights.now }
    requires ties { cut.ties ≤ count_by (is_tie total whole cut) weights.now }
    ensures { IfOk result (λ v. IsDealt total whole weights.now cut v.items) }
{
    let mut ties = cut.ties;
    let mut shares = Vec::with_capacity(alloc, weights.len())?;
    for (place, weight) in weights.iter().enumerate() {
        let floor = floors[place];
        let unit = unit_for(remainder(total, whole, *weight, floor), cut.at, &mut ties);
        shares.push(floor + unit)?;
    }
    Ok(shares)
}

/// Shares a natural number over the weights, as [`share`] does: one share for each weight, in order.
///
/// The sum of the weights is from 1 to 10^19, and the total is at most 10^19.
///
/// # Errors
/// The one error is that memory ran out.
pub fn share_counts(alloc: Global, total: u128, weights: &[u128]) -> Result<Vec<u128>, AllocError>
    requires positive { 0 < sum weights.now }
    requires small { sum weights.now ≤ 10 ^ 19 }
    requires total { total ≤ 10 ^ 19 }
    ensures { IfOk result (λ v. IsShares total weights.now v.items) }
{
    let whole = sum_of(weights);
    let floors = floors_of(alloc, total, whole, weights)?;
    let mut sorted = remainders(alloc, total, whole, weights, &floors)?;
    sorted.sort_unstable();
    let given = sum_of(&floors);
    let cut = cut_for(&sorted, (total - given) as usize);
    deal(alloc, total, whole, weights, &floors, cut)
}

/// The counts, as numbers with the sign of `total`.
fn signed_counts(alloc: Global, total: i128, counts: &[u128]) -> Result<Vec<i128>, AllocError>
    requires { All (λ n. n < 2 ^ 127) counts.now }
    ensures { IfOk result (λ v. v.items ≡ map (signed_as total) counts.now) }
{
    let mut shares = Vec::with_capacity(alloc, counts.len())?;
    for count in counts {
        let share = *count as i128;
        shares.push(if total < 0 { -share } else { share })?;
    }
    Ok(shares)
}

/// Shares `total` over the weights by largest remainder: one share for each weight, in order.
///
/// Each share is the floor of `total * weight / sum of the weights`, or one more; the units that the floors leave go to the largest
/// remainders, ties to the lower position. A negative total is shared by its absolute value, and each share is then negated.
///
/// The weights are at least 0, their sum is from 1 to 10^19, and the total is at most 10^19 in absolute value.
///
/// # Errors
/// The one error is that memory ran out.
pub fn share(alloc: Global, total: i128, weights: &[i128]) -> Result<Vec<i128>, AllocError>
    requires signs { All (λ w. pos 0 ≤ℤ w) weights.now }
    requires positive { 0 < sum (magnitudes weights.now) }
    requires small { sum (magnitudes weights.now) ≤ 10 ^ 19 }
    requires total { unsigned_abs total ≤ 10 ^ 19 }
    ensures shares { IfOk result (λ v. IsSharesOf total weights.now v.items) }
    ensures adds_up { IfOk result (λ v. fold ◌+ℤ◌ (pos 0) v.items ≡ total) }
{
    let magnitudes: Vec<u128> = weights.iter().map(|w| w.unsigned_abs()).collect(alloc)?;
    let counts = share_counts(alloc, total.unsigned_abs(), &magnitudes)?;
    signed_counts(alloc, total, &counts)
}
