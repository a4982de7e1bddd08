//! Parts whose columns are made.
ghost use Rattle.std.specs.Prelude.{◌≡◌, IfOk};
ghost use Rattle.fw_posted.specs.Parts.{all_marks, AreParts};

use crate::part::Part;
use fw_columns::Columns;
use fw_persistent::Sequence;
use std::alloc::{AllocError, Global};

/// The same parts, each with the columns of the rows of its segment that count. Those that have them are shared.
pub(crate) fn settled_parts(
    alloc: Global,
    segments: &Sequence<Columns>,
    parts: &Sequence<Part>,
) -> Result<Sequence<Part>, AllocError>
    requires { AreParts 0 parts.now segments.now }
    ensures parts { IfOk result (λ after. AreParts 0 after segments.now) }
    ensures marks { IfOk result (λ after. all_marks after ≡ all_marks parts.now) }
{
    let mut after = parts.copy()?;
    for place in 0..segments.len() {
        let part = after.get(place);
        if !part.is_settled() {
            let part = part.settled(alloc, segments.get(place))?;
            after = after.set(alloc, place, part)?;
        }
    }
    Ok(after)
}
