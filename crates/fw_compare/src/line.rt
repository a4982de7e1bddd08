//! A line of a comparison.
ghost use Rattle.std.specs.Prelude.{◌≡◌, IfSome, option_map};
ghost use Rattle.fw_compare.specs.Comparison.{line, line_value};

use crate::costs::Costs;
use crate::group::Group;

/// What a group cost before and after, and the difference.
#[derive(Clone, Copy, Debug)]
pub struct Line<'g> {
    /// The group; none where the line is of several.
    pub group: Option<&'g Group>,
    /// Its costs before.
    pub before: Costs,
    /// Its costs after.
    pub after: Costs,
    /// Its costs after, less those before.
    pub change: Costs,
}

impl<'g> Line<'g> {
    /// The line of a group, or of several, with these costs; `None` where a difference passes 128 bits.
    pub fn of(group: Option<&'g Group>, before: Costs, after: Costs) -> Option<Line<'g>>
        ensures { IfSome result (λ l. line_value l
            ≡ line (option_map (λ g. g.now.name) group.entry) before after) }
    {
        Some(Line {
            group,
            before,
            after,
            change: after.less(before)?,
        })
    }
}
