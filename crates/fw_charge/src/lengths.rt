//! How many bytes fields of rows have where they are written.
ghost use Rattle.std.specs.Prelude.{◌≡◌, ◌≤◌, length, option_copied, IfSome};
ghost use Rattle.fw_bytes.specs.Spelling.{text, optional};
ghost use Rattle.fw_charge.specs.Charge.{IsShortText};
ghost use Rattle.fw_charge.specs.Tags.{IsTagSized};
ghost use Rattle.fw_charge.specs.Spelling.{tag, tags};

use crate::tags::{Tag, Tags};
use fw_bytes::text_len;

/// How many bytes a text of 1 to 256 bytes that may be null has. Takes no memory.
pub fn optional_text_len(words: Option<&str>) -> usize
    requires { IfSome (option_copied words) IsShortText }
    ensures value { result ≡ length (optional text (option_copied words.entry)) }
    ensures few { result ≤ 261 }
{
    match words {
        None => 1,
        Some(words) => 1 + text_len(words),
    }
}

/// How many bytes a tag has.
fn tag_len(one: &Tag) -> usize
    requires { IsTagSized one.now }
    ensures value { result ≡ length (tag one.now) }
    ensures few { result ≤ 2056 }
{
    text_len(one.key()) + text_len(one.value())
}

/// How many bytes tags have, their number included. Takes no memory.
pub fn tags_len(all: &Tags) -> usize
    ensures value { result ≡ length (tags all.now) }
    ensures few { result ≤ 526340 }
{
    let mut len = 4;
    for one in all.as_slice() {
        len += tag_len(one);
    }
    len
}
