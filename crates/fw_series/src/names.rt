//! The names of groups, as they are shown.
use crate::lines::Line;
use crate::series::Series;
use crate::top::most_charged;
use crate::view::View;
use std::alloc::{AllocError, Global};

/// What stands for the group without a name: the costs that carry no such tag.
const UNTAGGED: &str = "(untagged)";

/// What stands for the groups that have no line of their own.
const OTHERS: &str = "(others)";

/// The name of a line, for people.
pub(crate) fn name_of<'n>(line: &Line<'n>) -> &'n str {
    if line.is_others {
        OTHERS
    } else if line.group.is_empty() {
        UNTAGGED
    } else {
        line.group
    }
}

/// The group of a line, for programs; where the line stands for others, what is said in its place.
pub(crate) fn group_of<'n>(line: &Line<'n>) -> &'n str {
    if line.is_others { OTHERS } else { line.group }
}

/// Whether a line is of a group or of others, for programs.
pub(crate) fn kind_of<'n>(line: &Line<'n>) -> &'n str {
    if line.is_others { "others" } else { "group" }
}

/// The names of the groups that have a line of their own, where not all have: those that are charged most in the whole range.
pub(crate) fn chosen(
    alloc: Global,
    series: &Series,
    view: &View<'_>,
) -> Result<Option<Vec<String>>, AllocError> {
    match view.top {
        Some(count) => Ok(Some(most_charged(alloc, &series.whole, count)?)),
        None => Ok(None),
    }
}
