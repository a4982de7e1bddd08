//! Tags as JSON.
ghost use Rattle.std.specs.Prelude.{◌≡◌, ◌++◌, ◌∷◌, IfOk, OnOk, string_bytes};
ghost use Rattle.serde_json.specs.Written.{comma_if};
ghost use Rattle.fw_row_table.specs.Lending.{tags_lent};
ghost use Rattle.fw_allocated.specs.Cells.{tags_text};
ghost use Rattle.fw_allocated.specs.Objects.{quoted_text};

use fw_row_table::{LentTag, LentTags};
use serde_json::Value;
use std::alloc::{AllocError, Global};

/// A text as a string of JSON, quotes and all.
pub(crate) fn json_string(alloc: Global, text: &str) -> Result<String, AllocError>
    ensures { IfOk result (λ s. string_bytes s ≡ quoted_text text.now) }
{
    Value::String(String::from_str(alloc, text)?).to_string(alloc)
}

/// Tags as an object of JSON, without a space.
#[tactic(auto, unfolding(crate::specs::Cells::tags_text))]
pub(crate) fn tags_text(alloc: Global, tags: LentTags<'_>) -> Result<String, AllocError>
    ensures { IfOk result (λ s. string_bytes s ≡ tags_text (tags_lent tags.entry)) }
{
    let mut text = String::from_str(alloc, "{")?;
    let mut later = false;
    let mut rest = tags;
    while let Some((tag, behind)) = rest.split_first() {
        push_tag(alloc, &mut text, later, tag)?;
        later = true;
        rest = behind;
    }
    text.push_str("}")?;
    Ok(text)
}

// Adds a tag as a member of an object, with a comma in front where it isn't the first.
fn push_tag(
    alloc: Global,
    text: &mut String,
    later: bool,
    tag: LentTag<'_>,
) -> Result<(), AllocError>
    ensures { OnOk result (string_bytes text.new ≡ string_bytes text.old ++ (comma_if later
        ++ (quoted_text tag.entry.key.now ++ 58 ∷ quoted_text tag.entry.value.now))) }
{
    let key = json_string(alloc, tag.key)?;
    let value = json_string(alloc, tag.value)?;
    text.push_str(comma(later))?;
    text.push_str(key.as_str())?;
    text.push_str(":")?;
    text.push_str(value.as_str())
}

// A comma, where a member stands before.
fn comma(later: bool) -> &'static str
    ensures { result.now ≡ comma_if later }
{
    if later { "," } else { "" }
}
