//! In which segment a row stands.
ghost use Rattle.std.specs.Prelude.{◌<◌, ◌≤◌, ◌+◌, length};
ghost use Rattle.fw_posted.specs.Parts.{AreParts};
ghost use Rattle.fw_posted.specs.Rows.{rows_before_segment, segment_rows};

use crate::part::Part;
use fw_columns::Columns;
use fw_persistent::Sequence;

/// The place of the segment that has a row. First the one is asked that has it if all segments are of one length. Then those that may have it are
/// halved until it is found.
pub(crate) fn segment_of(segments: &Sequence<Columns>, parts: &Sequence<Part>, row: usize) -> usize
    requires parts { AreParts 0 parts.now segments.now }
    requires inside { row < length (segment_rows segments.now) }
    ensures from { rows_before_segment segments.now result ≤ row }
    ensures until { row < rows_before_segment segments.now (result + 1) }
    ensures within { result < length segments.now }
{
    let mut first = 0;
    let mut behind = segments.len();
    let mut place = even_place(parts, row);
    loop {
        let part = parts.get(place);
        let start = part.start();
        if row < start {
            behind = place;
        } else if row - start < part.len() {
            return place;
        } else {
            first = place + 1;
        }
        place = first + (behind - first) / 2;
    }
}

/// The place of the segment that has a row if all segments are of one length.
fn even_place(parts: &Sequence<Part>, row: usize) -> usize
    requires { 0 < length parts.now }
    ensures { result < length parts.now }
{
    let count = parts.len();
    let last = parts.get(count - 1);
    let rows = last.start().saturating_add(last.len());
    let place = row.saturating_mul(count) / rows.max(1);
    place.min(count - 1)
}
