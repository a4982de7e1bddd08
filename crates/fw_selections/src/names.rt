//! The names of groups.
ghost use Rattle.std.specs.Prelude.{◌≡◌, ◌==◌, ◌++◌, ◌↔◌, IfOk, MatchBool, OnOk, codes, map, string_bytes, true};
ghost use Rattle.std.specs.List.{starts_with};
ghost use Rattle.std.specs.Str.Iter.{HasSubslice};
ghost use Rattle.fw_selections.specs.Names.{AddsPart, IsGroupName, IsUnclear, slash_at};

use crate::sheet::KeyName;
use std::alloc::{AllocError, Global};

/// The name of a group as one text: what people see of each of its texts, with ` / ` between them. A text that has ` / ` in it, or begins with a
/// quote or a parenthesis, stands in quotes, so that no two groups have one name. The one error is that memory ran out.
pub fn shown_group(
    alloc: Global,
    keys: &[KeyName<'_>],
    texts: &[String],
) -> Result<String, AllocError>
    ensures { IfOk result (λ name. IsGroupName keys.now
        (map (λ s. string_bytes s) texts.now) (string_bytes name)) }
{
    let mut name = String::new(alloc);
    for place in 0..keys.len().min(texts.len()) {
        push_between(&mut name, place)?;
        push_part(alloc, &mut name, &keys[place], texts[place].as_str())?;
    }
    Ok(name)
}

// Adds what stands before the part at a place.
fn push_between(name: &mut String, place: usize) -> Result<(), AllocError>
    ensures { OnOk result (string_bytes name.new ≡ string_bytes name.old ++ slash_at place) }
{
    if place == 0 {
        return Ok(());
    }
    name.push_str(" / ")
}

// Adds what people see of a text under a key, in quotes where it is unclear.
fn push_part(
    alloc: Global,
    name: &mut String,
    key: &KeyName<'_>,
    text: &str,
) -> Result<(), AllocError>
    ensures { OnOk result (AddsPart (string_bytes name.old) (string_bytes name.new)
        key.now.is_tag text.now) }
{
    if is_unclear(text) {
        let quoted = format!(in alloc; "{text:?}")?;
        name.push_str(quoted.as_str())?;
        return Ok(());
    }
    name.push_str(key.shown(text))?;
    Ok(())
}

// Whether a text could be taken for more than one.
fn is_unclear(text: &str) -> bool
    ensures { MatchBool result (IsUnclear text.now) (¬ IsUnclear text.now) }
{
    if has_slash(text) {
        return true;
    }
    if begins_with(text, "\"") {
        return true;
    }
    begins_with(text, "(")
}

// Whether ` / ` stands in a text.
fn has_slash(text: &str) -> bool
    ensures { (result ≡ true) ↔ HasSubslice text.now (codes " / ") }
{
    text.contains(" / ")
}

// Whether a text begins with another.
fn begins_with(text: &str, front: &str) -> bool
    ensures { result ≡ starts_with ◌==◌ text.now front.now }
{
    text.starts_with(front)
}
