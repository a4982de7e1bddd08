//! The groups of two reports side by side.
ghost use Rattle.std.specs.Prelude.{◌≡◌, ◌++◌, ◌∷◌, [], IfOk, OnOk, Some, map};
ghost use Rattle.fw_compare.specs.Comparison.{compared, in_both, in_first, in_second, line, line_value};

use crate::costs::Costs;
use crate::group::Group;
use crate::line::Line;
use std::alloc::{AllocError, Global};
use std::cmp::Ordering;

/// What each group of two reports cost before and after: a line for each name that one of them has, in the order of the names. What a report
/// hasn't, costs nothing there. Both have their groups in the order of their names, each once.
///
/// The one error is that memory ran out, or that a difference passes 128 bits.
pub fn compared<'g>(
    alloc: Global,
    before: &'g [Group],
    after: &'g [Group],
) -> Result<Vec<Line<'g>>, AllocError>
    ensures { IfOk result (λ lines. map line_value lines.items ≡ compared before.now after.now) }
{
    let mut lines = Vec::new(alloc);
    let mut old = before;
    let mut new = after;
    while let Some((first, older)) = old.split_first() {
        match new.split_first() {
            Some((second, newer)) => match first.name().cmp(second.name()) {
                Ordering::Less => {
                    push_first(&mut lines, first)?;
                    old = older;
                }
                Ordering::Equal => {
                    push_both(&mut lines, first, second)?;
                    old = older;
                    new = newer;
                }
                Ordering::Greater => {
                    push_second(&mut lines, second)?;
                    new = newer;
                }
            },
            None => {
                push_first(&mut lines, first)?;
                old = older;
            }
        }
    }
    push_rest(&mut lines, new)?;
    Ok(lines)
}

// Adds the lines of groups that are in the second report alone.
fn push_rest<'g>(lines: &mut Vec<Line<'g>>, groups: &'g [Group]) -> Result<(), AllocError>
    ensures { OnOk result (map line_value lines.new.items
        ≡ map line_value lines.old.items ++ map in_second groups.now) }
{
    for group in groups {
        push_second(lines, group)?;
    }
    Ok(())
}

// Adds the line of a group that is in both reports.
fn push_both<'g>(
    lines: &mut Vec<Line<'g>>,
    before: &'g Group,
    after: &'g Group,
) -> Result<(), AllocError>
    ensures { OnOk result (map line_value lines.new.items
        ≡ map line_value lines.old.items ++ in_both before.now after.now ∷ []) }
{
    push(lines, after, before.costs(), after.costs())
}

// Adds the line of a group that is in the first report alone.
fn push_first<'g>(lines: &mut Vec<Line<'g>>, group: &'g Group) -> Result<(), AllocError>
    ensures { OnOk result (map line_value lines.new.items
        ≡ map line_value lines.old.items ++ in_first group.now ∷ []) }
{
    push(lines, group, group.costs(), Costs::NONE)
}

// Adds the line of a group that is in the second report alone.
fn push_second<'g>(lines: &mut Vec<Line<'g>>, group: &'g Group) -> Result<(), AllocError>
    ensures { OnOk result (map line_value lines.new.items
        ≡ map line_value lines.old.items ++ in_second group.now ∷ []) }
{
    push(lines, group, Costs::NONE, group.costs())
}

// Adds the line of a group with these costs.
fn push<'g>(
    lines: &mut Vec<Line<'g>>,
    group: &'g Group,
    before: Costs,
    after: Costs,
) -> Result<(), AllocError>
    ensures { OnOk result (map line_value lines.new.items
        ≡ map line_value lines.old.items ++ line (Some group.now.name) before after ∷ []) }
{
    let Some(line) = Line::of(Some(group), before, after) else {
        return Err(AllocError);
    };
    lines.push(line)?;
    Ok(())
}
