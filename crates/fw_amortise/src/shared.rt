//! The lines of what a commitment covered in an hour of its term, and of what it left unused.
ghost use Rattle.std.specs.Prelude.{◌≡◌, ◌+◌, ◌++◌, ◌<◌, ◌≤◌, ◌^◌, IsTrue, ℕ, length, map, pos, sum, sum_by, All, IfOk, OnOk, drop};
ghost use Rattle.std.specs.List.{zip};
ghost use Rattle.fw_terms.specs.Commitment.{IsCommitment};
ghost use Rattle.fw_shares.specs.Shares.{IsShares};
ghost use Rattle.fw_cover.specs.Applies.{is_in_term};
ghost use Rattle.fw_amortise.specs.Lines.{amount_in, weights_of, used_line, unused_line, shared_lines};
ghost use Rattle.fw_amortise.specs.Adding.{AreTakesOf, AddsCommitment};

use crate::amount::hour_amount;
use crate::line::Line;
use crate::single::{unused_line, used_line};
use fw_cover::Taken;
use fw_row_table::LentRow;
use fw_shares::share_counts;
use fw_terms::Commitment;
use std::alloc::{AllocError, Global};

/// What an hour of the term carries of the commitment's purchases.
#[tactic(auto, unfolding(crate::specs::Lines::amount_in, fw_cover::specs::Applies::is_in_term))]
fn amount_in(commitment: &Commitment, hour: u32) -> u128
    requires { IsTrue (is_in_term commitment.now hour) }
    ensures value { result ≡ amount_in commitment.now hour }
    ensures in_range { result ≤ 10 ^ 17 }
    ensures in_limits { IsCommitment commitment.now }
{
    let amount = hour_amount(
        commitment.cost(),
        commitment.hours(),
        hour - commitment.start(),
    );
    u128::from(amount.count().unsigned_abs())
}

/// The weights that share an hour's amount.
#[tactic(auto, unfolding(crate::specs::Lines::weights_of))]
fn weights_of(alloc: Global, takes: &[Taken], unused: u64) -> Result<Vec<u128>, AllocError>
    ensures { IfOk result (λ v. v.items ≡ weights_of takes.now unused) }
{
    let mut weights: Vec<u128> = takes.iter().map(|t| u128::from(t.weight)).collect(alloc)?;
    if unused > 0 {
        weights.push(u128::from(unused))?;
    }
    Ok(weights)
}

/// The shares of the hour's amount.
fn shares_of(
    alloc: Global,
    commitment: &Commitment,
    takes: &[Taken],
    unused: u64,
    hour: u32,
) -> Result<Vec<u128>, AllocError>
    requires term { IsTrue (is_in_term commitment.now hour) }
    requires whole { sum_by (λ t. t.weight) takes.now + unused ≡ commitment.now.capacity }
    ensures shares { IfOk result (λ v. IsShares (amount_in commitment.now hour)
        (weights_of takes.now unused) v.items) }
    ensures enough { IfOk result (λ v. length takes.now ≤ length v.items) }
    ensures small { IfOk result (λ v. All (λ s. s ≤ 10 ^ 17) v.items) }
{
    let amount = amount_in(commitment, hour);
    let weights = weights_of(alloc, takes, unused)?;
    share_counts(alloc, amount, &weights)
}

/// Adds a line for each thing taken, with its share.
fn push_used<'a>(
    lines: &mut Vec<Line<'a>>,
    commitment: &'a Commitment,
    rows: &[&LentRow<'a>],
    takes: &[Taken],
    shares: &[u128],
    hour: u32,
) -> Result<(), AllocError>
    requires takes { AreTakesOf (length rows.now) takes.now }
    requires one_each { length takes.now ≤ length shares.now }
    requires shares { All (λ s. s ≤ 10 ^ 17) shares.now }
    ensures { OnOk result (lines.new.items
        ≡ lines.old.items ++ map (λ p. used_line hour commitment.now
        (map (λ r. r.now) rows.now) p.0 p.1) (zip takes.now shares.now)) }
{
    for (at, take) in takes.iter().enumerate() {
        lines.push(used_line(commitment, rows, take, shares[at], hour))?;
    }
    Ok(())
}

/// Adds a line for each share of what is left unused.
fn push_unused<'a>(
    lines: &mut Vec<Line<'a>>,
    commitment: &'a Commitment,
    shares: &[u128],
    hour: u32,
) -> Result<(), AllocError>
    requires { All (λ s. s ≤ 10 ^ 17) shares.now }
    ensures { OnOk result (lines.new.items
        ≡ lines.old.items ++ map (unused_line hour commitment.now) shares.now) }
{
    for share in shares {
        lines.push(unused_line(commitment, *share, hour))?;
    }
    Ok(())
}

/// Adds the lines by which a commitment's amount of the hour is shared over what it took and what it left unused.
pub(crate) fn push_commitment<'a>(
    alloc: Global,
    lines: &mut Vec<Line<'a>>,
    commitment: &'a Commitment,
    rows: &[&LentRow<'a>],
    takes: &[Taken],
    unused: u64,
    hour: u32,
) -> Result<(), AllocError>
    requires term { IsTrue (is_in_term commitment.now hour) }
    requires takes { AreTakesOf (length rows.now) takes.now }
    requires whole { sum_by (λ t. t.weight) takes.now + unused ≡ commitment.now.capacity }
    ensures { OnOk result (AddsCommitment hour commitment.now
        (map (λ r. r.now) rows.now) takes.now unused lines.old.items lines.new.items) }
{
    let shares = shares_of(alloc, commitment, takes, unused, hour)?;
    push_used(lines, commitment, rows, takes, &shares, hour)?;
    push_unused(lines, commitment, &shares[takes.len()..], hour)
}
