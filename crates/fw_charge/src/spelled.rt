//! Proof-only functions: each field of a row has a spelling.
ghost use Rattle.std.specs.Prelude.{option_copied, IfSome};
ghost use Rattle.fw_bytes.specs.Spelling.{FitsOptional};
ghost use Rattle.fw_charge.specs.Charge.{IsShortText};
ghost use Rattle.fw_charge.specs.Tags.{IsTagSized};
ghost use Rattle.fw_charge.specs.Spelling.{FitsNanos, FitsShortText, FitsTag, FitsTags};

use crate::tags::{Tag, Tags};
use fw_money::Nanos;

/// Each amount has a spelling.
pub fn nanos_has_spelling(amount: Nanos)
    ensures { FitsNanos amount }
{}

/// An amount that may be null has a spelling.
pub fn optional_nanos_has_spelling(amount: Option<Nanos>)
    ensures { FitsOptional FitsNanos amount }
{}

/// Each text of 1 to 256 bytes has a spelling.
pub fn short_text_has_spelling(words: &str)
    requires { IsShortText words.now }
    ensures { FitsShortText words.now }
{}

/// A text of 1 to 256 bytes that may be null has a spelling.
pub fn optional_text_has_spelling(words: Option<&str>)
    requires { IfSome (option_copied words) IsShortText }
    ensures { FitsOptional FitsShortText (option_copied words.entry) }
{
    if let Some(words) = words {
        short_text_has_spelling(words);
    }
}

/// Each tag within its limits has a spelling.
fn tag_has_spelling(one: &Tag)
    requires { IsTagSized one.now }
    ensures { FitsTag one.now }
{
    let _key = one.key();
    let _value = one.value();
}

/// All tags have a spelling. Looks at each of them.
pub fn tags_have_spelling(all: &Tags)
    ensures { FitsTags all.now }
{
    for one in all.as_slice() {
        tag_has_spelling(one);
    }
}
