//! The lines of an hour at the rows' own prices, and at those of a tag.
ghost use Rattle.std.specs.Prelude.{◌≡◌, IfOk, map, option_copied};
ghost use Rattle.fw_cover.specs.RosterView.{HasHour};
ghost use Rattle.fw_finops.specs.Listed.{ArePricedLines};
ghost use Rattle.fw_finops.specs.Lines.{price_lines};

use crate::covered::push_covered;
use crate::listed::push_listed_by;
use crate::open::push_open;
use fw_amortise::Line;
use fw_cover::Roster;
use fw_row_table::LentRow;
use std::alloc::{AllocError, Global};

// The lines of one of a roster's hours, counted from 1970, at the own prices of these rows.
#[tactic(auto, unfolding(crate::specs::Lines::price_lines, crate::specs::Lines::covered_lines))]
fn price_lines<'a>(
    alloc: Global,
    roster: &Roster<'a>,
    rows: &[&LentRow<'a>],
    hour: u32,
) -> Result<Vec<Line<'a>>, AllocError>
    requires { HasHour roster.now hour }
    ensures { IfOk result (λ lines. lines.items
        ≡ price_lines roster.now.commitments (map (λ r. r.now) rows.now) hour) }
{
    let cover = roster.cover(alloc, rows, hour)?;
    let commitments = roster.commitments();
    let mut lines = Vec::new(alloc);
    push_covered(alloc, &mut lines, commitments, rows, &cover.taken, hour)?;
    push_open(&mut lines, commitments, rows, hour)?;
    Ok(lines)
}

/// The lines of one of a roster's hours, counted from 1970, at the own prices of these rows; and, where a tag has prices, behind them those of the
/// rows that providers' commitments cover at these prices.
///
/// First comes what the commitments took, in the order in which they took it. Each of these lines is a Used line whose EffectiveCost is the part of
/// the row's that was taken: what was left of the row before costs more by that than what is left of it after, each rounded down. Its BilledCost is
/// what was used of the commitment's capacity, in nanos of its unit.
///
/// Then for each row comes the row beside each commitment that applies to it. Beside a commitment BilledCost is what the row could have used of it, in
/// nanos of its unit: its whole quantity; or, of a commitment to a cost, its whole BilledCost at the rate, rounded up. Commitments to a quantity
/// that apply to a row are all in its unit. So behind these comes the row once for them, and once for those to a cost, where there are such: with
/// the first of them, the status Unused, and as BilledCost the most that it could have used of one. Where a commitment applies, the row by itself
/// comes last.
///
/// Then comes each row whose CommitmentDiscountStatus is Used. The price is the amount that its tag's text reads as, and stands as EffectiveCost.
/// Where the row has no such tag, or its text is no amount, EffectiveCost is 0 and BilledCost is one nano, so that sums of it count such rows;
/// else it is 0. The lines lend the texts and tags of the rows and commitments.
///
/// # Errors
/// The one error is that memory ran out.
pub fn lines_at_prices<'a>(
    alloc: Global,
    roster: &Roster<'a>,
    rows: &[&LentRow<'a>],
    hour: u32,
    tag: Option<&str>,
) -> Result<Vec<Line<'a>>, AllocError>
    requires { HasHour roster.now hour }
    ensures { IfOk result (λ lines. ArePricedLines roster.now.commitments (option_copied tag.entry)
        (map (λ r. r.now) rows.now) hour lines.items) }
{
    let mut lines = price_lines(alloc, roster, rows, hour)?;
    push_listed_by(&mut lines, rows, tag, hour)?;
    Ok(lines)
}
