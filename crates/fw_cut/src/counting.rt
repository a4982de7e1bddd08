//! How many records there are.
ghost use Rattle.std.specs.Prelude.{◌≡◌, ◌≤◌, drop, length};
ghost use Rattle.std.specs.List.{list_any};
ghost use Rattle.fw_cut.specs.Parts.{body_of, most_records};
ghost use Rattle.fw_cut.specs.Records.{all_records, is_content};

use crate::cutter::Part;
use crate::cutting::cut_off;
use fw_charge::MOST_POST_ROWS;

/// How many records stand in a part behind its header.
pub(crate) fn part_count(part: &Part) -> usize
    requires within { part.now.header ≤ length part.now.text.items }
    requires few { length (all_records (body_of part.now)) ≤ most_records }
    ensures { result ≡ length (all_records (body_of part.now)) }
{
    record_count(&part.text[part.header..])
}

// How many records a text has, which are as many as a part has at most. The last one may end with the text.
fn record_count(text: &[u8]) -> usize
    requires { length (all_records text.now) ≤ most_records }
    ensures { result ≡ length (all_records text.now) }
{
    let cut = cut_off(text, MOST_POST_ROWS);
    if cut.records < MOST_POST_ROWS && has_content(&text[cut.end..]) {
        return cut.records + 1;
    }
    cut.records
}

/// Whether there is a byte that ends no line.
pub(crate) fn has_content(text: &[u8]) -> bool
    ensures { result ≡ list_any is_content text.now }
{
    text.iter().any(|byte| *byte != b'\n' && *byte != b'\r')
}
