//! How a text of tags is read.
ghost use Rattle.std.specs.Prelude.{◌≡◌, ◌≢◌, ◌↔◌, IsTrue, Some, None, Err, IfOk, IfErr, IfSome, option_map, string_bytes, map};
ghost use Rattle.std.specs.Cmp.Lexicographic.{slice_cmp};
ghost use Rattle.std.specs.List.Sorted.{IsStrictlySortedBy};
ghost use Rattle.std.specs.Ordering.{nat_cmp};
ghost use Rattle.fw_tags.specs.Reading.{AreSized, TagsRead, members_in, tag_text, tags_of};
ghost use Rattle.serde_json.specs.Find.{as_object};
ghost use Rattle.serde_json.specs.View.{members_view, view};
ghost use Rattle.fw_tags.specs.declared.fault.TagFault.TheVariants.{NotTags, TooLong};

use crate::fault::TagFault;
use fw_charge::{Tag, Tags};
use serde_json::{Map, Value};
use std::alloc::{AllocError, Global};

/// Reads the tags that a JSON object states: a member's name is the key and its text the value; `true` and `false` are read as these
/// words, and null as the empty text. Of a name that stands twice the last value counts.
///
/// `NotTags` where the text is no JSON object, or where the value of a name is a number, an array or an object; else `TooLong` where
/// there are more than 256 names, or a name or a value has more than 1,024 bytes. `NoMemory` where memory runs out, at any place.
pub fn read_tags(alloc: Global, text: &str) -> Result<Tags, TagFault>
    ensures { TagsRead text.now result }
{
    let members = members_of(alloc, text)?;
    let Some(tags) = tags_of_members(alloc, members)? else {
        return Err(TagFault::NotTags);
    };
    if !are_sized(&tags) {
        return Err(TagFault::TooLong);
    }
    Ok(Tags::of_fields(tags))
}

/// The members of the JSON object that a text is: `NotTags` where it is none.
fn members_of(alloc: Global, text: &str) -> Result<Map<String, Value>, TagFault>
    ensures members { IfOk result (λ members. members_in text.now
        ≡ Some (members_view members.entries)) }
    ensures none { IfErr result (λ fault. fault ≡ NotTags → members_in text.now ≡ None) }
    ensures not_long { result ≢ Err TooLong }
{
    match Value::from_str(alloc, text) {
        Ok(value) => object_of(value).ok_or(TagFault::NotTags),
        Err(fault) => {
            if fault.is_memory() {
                Err(TagFault::NoMemory)
            } else {
                Err(TagFault::NotTags)
            }
        }
    }
}

/// The members of a value, or `None` where it is no object.
fn object_of(value: Value) -> Option<Map<String, Value>>
    ensures { option_map (λ members. members_view members.entries) result ≡ as_object (view value) }
{
    match value {
        Value::Object(members) => Some(members),
        Value::Null | Value::Bool(_) | Value::Number(_) | Value::String(_) | Value::Array(_) =>
            None,
    }
}

/// The tags of an object's members, or `None` where a member has no text.
fn tags_of_members(
    alloc: Global,
    members: Map<String, Value>,
) -> Result<Option<Vec<Tag>>, AllocError>
    ensures tags { IfOk result (λ tags. option_map (λ v. v.items) tags
        ≡ tags_of (members_view members.entries)) }
    ensures rising { IfOk result (λ tags. IfSome tags
        (λ v. IsStrictlySortedBy (slice_cmp nat_cmp) (map (λ t. t.key) v.items))) }
{
    let mut tags = Vec::new(alloc);
    for (key, value) in members {
        let Some(value) = text_of(alloc, value)? else {
            return Ok(None);
        };
        tags.push(Tag::of_fields(key, value))?;
    }
    Ok(Some(tags))
}

/// The text of a member's value, or `None` where it is a number, an array or an object.
fn text_of(alloc: Global, value: Value) -> Result<Option<String>, AllocError>
    ensures { IfOk result (λ text. option_map (λ s. string_bytes s) text ≡ tag_text (view value)) }
{
    match value {
        Value::String(text) => Ok(Some(text)),
        Value::Bool(true) => Ok(Some(String::from_str(alloc, "true")?)),
        Value::Bool(false) => Ok(Some(String::from_str(alloc, "false")?)),
        Value::Null => Ok(Some(String::new(alloc))),
        Value::Number(_) | Value::Array(_) | Value::Object(_) => Ok(None),
    }
}

/// Whether the tags are no more than the greatest number, and none of their keys and values is too long.
pub fn are_sized(tags: &[Tag]) -> bool
    ensures { IsTrue result ↔ AreSized tags.now }
{
    tags.len() <= Tags::MOST
        && tags.iter().all(|tag| tag.key().len() <= Tag::LONGEST
            && tag.value().len() <= Tag::LONGEST)
}
