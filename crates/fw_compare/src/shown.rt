//! The order of lines, and which are shown.
ghost use Rattle.std.specs.Prelude.{◌≡◌, IfOk, map};
ghost use Rattle.fw_compare.specs.Comparison.{line_value};
ghost use Rattle.fw_compare.specs.Costs.{with};
ghost use Rattle.fw_compare.specs.Shown.{AreRanked, AreShown, IsTotal};

use crate::costs::Costs;
use crate::line::Line;
use std::alloc::{AllocError, Global};
use std::cmp::Reverse;

/// The same lines in the order in which they are shown: the largest rise of ChargedCost first, then smaller ones, then what fell, the largest fall
/// last. Lines of one difference keep their order, which is that of the names. The one error is that memory ran out.
pub fn ranked<'g>(alloc: Global, lines: &[Line<'g>]) -> Result<Vec<Line<'g>>, AllocError>
    ensures { IfOk result (λ ranked. AreRanked lines.now ranked.items) }
{
    let mut ranked = copied(alloc, lines)?;
    ranked.sort_by_key(|line| Reverse(line.change.charged))?;
    Ok(ranked)
}

// The same lines.
fn copied<'g>(alloc: Global, lines: &[Line<'g>]) -> Result<Vec<Line<'g>>, AllocError>
    ensures { IfOk result (λ same. same.items ≡ lines.now) }
{
    let mut same = Vec::with_capacity(alloc, lines.len())?;
    for line in lines {
        same.push(*line)?;
    }
    Ok(same)
}

/// The sums of lines, as one line. The one error is that a sum passes 128 bits.
pub fn total_line<'g>(lines: &[Line<'g>]) -> Result<Line<'g>, AllocError>
    ensures { IfOk result (λ total. IsTotal (map line_value lines.now) (line_value total)) }
{
    let mut before = Costs::NONE;
    let mut after = Costs::NONE;
    for line in lines {
        before = sum(before, line.before)?;
        after = sum(after, line.after)?;
    }
    match Line::of(None, before, after) {
        Some(total) => Ok(total),
        None => Err(AllocError),
    }
}

// The sum of costs.
fn sum(costs: Costs, more: Costs) -> Result<Costs, AllocError>
    ensures { IfOk result (λ sum. sum ≡ with costs more) }
{
    match costs.with(more) {
        Some(sum) => Ok(sum),
        None => Err(AllocError),
    }
}

/// What is shown of ranked lines: all, or the first so many and behind them one line with the sums of the others, where there are others. The
/// one error is that memory ran out, or that a sum passes 128 bits.
pub fn shown_lines<'g>(
    alloc: Global,
    lines: &[Line<'g>],
    top: Option<usize>,
) -> Result<Vec<Line<'g>>, AllocError>
    ensures { IfOk result (λ shown. AreShown top (map line_value lines.now)
        (map line_value shown.items)) }
{
    let count = match top {
        Some(count) if count < lines.len() => count,
        _ => return copied(alloc, lines),
    };
    let (own, others) = lines.split_at(count);
    let mut shown = copied(alloc, own)?;
    shown.push(total_line(others)?)?;
    Ok(shown)
}
