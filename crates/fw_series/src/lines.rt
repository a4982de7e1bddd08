//! What is shown of a report: a line for each group, or for some groups and one for all others.
ghost use Rattle.std.specs.Prelude.{◌≡◌, ◌++◌, IfOk, MatchOption, map, filter};
ghost use Rattle.fw_series.specs.Lines.{AreLines, IsLeft, group_line, has_name, is_left, is_shown, kept, line_value};
ghost use Rattle.fw_series.specs.Sums.{IsPast};

use crate::sums::Sums;
use fw_query::{Entry, Report};
use std::alloc::{AllocError, Global};

/// A line of a report.
#[derive(Clone, Copy, Debug)]
pub struct Line<'r> {
    /// The group: empty for the costs without the tag, and where the line stands for others.
    pub group: &'r str,
    /// Whether the line stands for all groups that have no line of their own.
    pub is_others: bool,
    /// The costs.
    pub costs: Sums,
}

// The groups that have no line of their own: how many they are, and the sums of their costs.
#[derive(Clone, Copy, Debug)]
struct Left {
    count: usize,
    sums: Sums,
}

/// The lines of a report: one for each group in the order of their names or, where names are given, one for each group of these and behind
/// them one with the sums of all others, where there are others. The one error is that memory ran out, or that such a sum passes 128 bits.
pub fn lines_of<'r>(
    alloc: Global,
    report: &'r Report,
    names: Option<&[String]>,
) -> Result<Vec<Line<'r>>, AllocError>
    ensures { IfOk result (λ lines. AreLines names.entry report.now (map line_value lines.items)) }
{
    let mut lines = kept(alloc, report.entries(), names)?;
    let Some(left) = left_of(report.entries(), names) else {
        return Err(AllocError);
    };
    if left.count > 0 {
        lines.push(Line {
            group: "",
            is_others: true,
            costs: left.sums,
        })?;
    }
    Ok(lines)
}

// The lines of the groups that have their own.
fn kept<'r>(
    alloc: Global,
    entries: &'r [Entry],
    names: Option<&[String]>,
) -> Result<Vec<Line<'r>>, AllocError>
    ensures { IfOk result (λ lines. map line_value lines.items ≡ kept names.entry entries.now) }
{
    let mut lines = Vec::new(alloc);
    for entry in entries {
        if is_shown(names, entry.group()) {
            lines.push(group_line(entry))?;
        }
    }
    Ok(lines)
}

// The line of a group.
fn group_line<'r>(entry: &'r Entry) -> Line<'r>
    ensures { line_value result ≡ group_line entry.now }
{
    Line {
        group: entry.group(),
        is_others: false,
        costs: Sums::of(entry),
    }
}

// The groups that have no line of their own, or `None` where a sum of their costs passes 128 bits.
fn left_of(entries: &[Entry], names: Option<&[String]>) -> Option<Left>
    ensures { MatchOption result
        (IsPast (filter (is_left names.entry) entries.now))
        (IsLeft (filter (is_left names.entry) entries.now)) }
{
    let mut left = Left {
        count: 0,
        sums: Sums::NONE,
    };
    for entry in entries {
        if !is_shown(names, entry.group()) {
            left = Left {
                count: left.count + 1,
                sums: left.sums.with(entry)?,
            };
        }
    }
    Some(left)
}

// Whether a group has a line of its own.
fn is_shown(names: Option<&[String]>, group: &str) -> bool
    ensures { result ≡ is_shown names.entry group.now }
{
    match names {
        Some(names) => has_name(names, group),
        None => true,
    }
}

// Whether a name is among names.
fn has_name(names: &[String], name: &str) -> bool
    ensures { result ≡ has_name names.now name.now }
{
    names.iter().any(|it| it.as_str() == name)
}
