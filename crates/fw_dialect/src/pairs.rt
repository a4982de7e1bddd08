//! Tags as a list of objects with a key and a value.
ghost use Rattle.std.specs.Prelude.{◌≡◌, ◌++◌, ◌∷◌, [], IfOk, OnOk, option_map, map, string_bytes};
ghost use Rattle.serde_json.specs.Data.{no_members};
ghost use Rattle.serde_json.specs.View.{items_view, members_view, view};
ghost use Rattle.fw_tags.specs.Reading.{tag_text};
ghost use Rattle.fw_dialect.specs.Tags.{line_ends, member_count, members_of, pair_in, pairs_in, tags_in, with_members};

use fw_charge::Tag;
use serde_json::{Map, Value};
use std::alloc::{AllocError, Global};

// What the value of a tag is as a text; none where it is a number, an array or an object.
fn value_text(alloc: Global, value: &Value) -> Result<Option<String>, AllocError>
    ensures { IfOk result (λ text. option_map (λ s. string_bytes s) text
        ≡ tag_text (view value.now)) }
{
    match value {
        Value::String(text) => Ok(Some(String::from_str(alloc, text.as_str())?)),
        Value::Bool(true) => Ok(Some(String::from_str(alloc, "true")?)),
        Value::Bool(false) => Ok(Some(String::from_str(alloc, "false")?)),
        Value::Null => Ok(Some(String::new(alloc))),
        Value::Number(_) | Value::Array(_) | Value::Object(_) => Ok(None),
    }
}

// How many members a value has.
fn member_count(value: &Value) -> usize
    ensures { result ≡ member_count (view value.now) }
{
    match value.as_object() {
        Some(members) => members.len(),
        None => 0,
    }
}

// The tag that an item of a list is.
#[tactic(auto, unfolding(crate::specs::Tags::pair_in))]
fn pair_in(alloc: Global, item: &Value) -> Result<Option<Tag>, AllocError>
    ensures { IfOk result (λ tag. tag ≡ pair_in (view item.now)) }
{
    if member_count(item) != 2 {
        return Ok(None);
    }
    let Some(key) = item.get("key").and_then(Value::as_str) else {
        return Ok(None);
    };
    let Some(value) = item.get("value") else {
        return Ok(None);
    };
    let Some(value) = value_text(alloc, value)? else {
        return Ok(None);
    };
    Ok(Some(Tag::of_fields(String::from_str(alloc, key)?, value)))
}

// The tags that the items of a list are, where each is one.
fn pairs_in(alloc: Global, items: &[Value]) -> Result<Option<Vec<Tag>>, AllocError>
    ensures { IfOk result (λ tags. option_map (λ t. t.items) tags
        ≡ pairs_in (items_view items.now)) }
{
    let mut tags = Vec::new(alloc);
    for item in items {
        let Some(tag) = pair_in(alloc, item)? else {
            return Ok(None);
        };
        tags.push(tag)?;
    }
    Ok(Some(tags))
}

// The members of an object that has each tag under its key; none where a key stands twice.
fn members_of(alloc: Global, tags: &[Tag]) -> Result<Option<Map<String, Value>>, AllocError>
    ensures { IfOk result (λ members. option_map (λ m. members_view m.entries) members
        ≡ with_members tags.now no_members) }
{
    let mut members = Map::new(alloc);
    for tag in tags {
        let key = String::from_str(alloc, tag.key())?;
        let value = String::from_str(alloc, tag.value())?;
        if members.insert(key, Value::String(value))?.is_some() {
            return Ok(None);
        }
    }
    Ok(Some(members))
}

// The members of the object that a list of tags stands for.
fn members_in(alloc: Global, list: &Value) -> Result<Option<Map<String, Value>>, AllocError>
    ensures { IfOk result (λ members. option_map (λ m. members_view m.entries) members
        ≡ members_of (view list.now)) }
{
    let Some(items) = list.as_array() else {
        return Ok(None);
    };
    let Some(tags) = pairs_in(alloc, items)? else {
        return Ok(None);
    };
    members_of(alloc, &tags)
}

// Adds a byte, if it ends a line.
fn put_line_end(out: &mut Vec<u8>, byte: u8) -> Result<(), AllocError>
    ensures { OnOk result (out.new.items ≡ out.old.items ++ line_ends (byte ∷ [])) }
{
    if byte == b'\n' || byte == b'\r' {
        out.push(byte)?;
    }
    Ok(())
}

// Adds the line ends of a text.
fn put_line_ends(out: &mut Vec<u8>, text: &[u8]) -> Result<(), AllocError>
    ensures { OnOk result (out.new.items ≡ out.old.items ++ line_ends text.now) }
{
    for byte in text {
        put_line_end(out, *byte)?;
    }
    Ok(())
}

/// The object that a list of tags stands for, with the line ends of the list behind it; none where the text is no such list.
#[tactic(auto, unfolding(crate::specs::Tags::tags_in))]
pub(crate) fn tags_in(alloc: Global, text: &[u8]) -> Result<Option<Vec<u8>>, AllocError>
    ensures { IfOk result (λ object. option_map (λ o. o.items) object ≡ tags_in text.now) }
{
    let Ok(written) = str::from_utf8(text) else {
        return Ok(None);
    };
    let list = match Value::from_str(alloc, written) {
        Ok(list) => list,
        Err(fault) => {
            return if fault.is_memory() {
                Err(AllocError)
            } else {
                Ok(None)
            };
        }
    };
    let Some(members) = members_in(alloc, &list)? else {
        return Ok(None);
    };
    let mut object = Value::Object(members).to_vec(alloc)?;
    put_line_ends(&mut object, text)?;
    Ok(Some(object))
}
