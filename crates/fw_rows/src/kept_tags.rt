//! The tags of a row with those of its kept columns.
ghost use Rattle.std.specs.Prelude.{◌≡◌, ◌↔◌, ◌++◌, [], List, ℕ, Ok, Any, All, IfErr, IfOk, IsSome, IsTrue, IsUtf8, OnOk, map, string_bytes};
ghost use Rattle.fw_charge.specs.Tags.{IsTags, value_under};
ghost use Rattle.fw_rows.specs.Kept.{before, tags_kept, with_tag, with_tags};
ghost use Rattle.fw_rows.specs.Keeping.{AreTheTags, IsWith, Refuses};
ghost use Rattle.fw_rows.specs.Parts.{TagsAnswer};

use crate::fault::{RecordFault, Refusal};
use crate::keep::Keep;
use fw_charge::{Tag, Tags};
use fw_tags::{TagFault, are_sized, read_tags};
use std::alloc::{AllocError, Global};
use std::cmp::Ordering;

/// The tags that a text of tags states, with those of kept columns.
#[derive(Drop)]
pub(crate) enum KeptTags {
    /// None: the text states no tags.
    Unstated,
    /// These.
    These(Tags),
    /// More tags, or longer ones, than a row may have.
    TooLong,
}

// Whether a text is null.
fn is_null(text: &str) -> bool
    ensures { IsTrue result ↔ (text.now ≡ []) }
{
    text.is_empty()
}

/// The tags that a text states.
pub(crate) fn tags_of(alloc: Global, text: &str) -> Result<Tags, TagFault>
    ensures { TagsAnswer text.now result }
{
    if is_null(text) {
        return Ok(Tags::empty(alloc));
    }
    read_tags(alloc, text)
}

// The tags that the texts of kept columns are: an empty text is no tag.
fn tags_kept(alloc: Global, keeps: &[Keep], values: &[String]) -> Result<Vec<Tag>, AllocError>
    ensures { IfOk result (λ tags.
        tags.items ≡ tags_kept keeps.now (map string_bytes values.now)) }
{
    let mut tags = Vec::new(alloc);
    for index in 0..keeps.len().min(values.len()) {
        push_kept(alloc, &mut tags, keeps[index].key(), values[index].as_str())?;
    }
    Ok(tags)
}

// Adds the tag that a text of a kept column is.
fn push_kept(alloc: Global, tags: &mut Vec<Tag>, key: &str, text: &str) -> Result<(), AllocError>
    ensures { OnOk result (tags.new.items ≡ tags.old.items ++ before key.now text.now []) }
{
    if is_null(text) {
        return Ok(());
    }
    let key = String::from_str(alloc, key)?;
    let value = String::from_str(alloc, text)?;
    tags.push(Tag::of_fields(key, value))?;
    Ok(())
}

// Whether tags have the key of one of those that are to be added.
fn have_key_of(tags: &Tags, added: &[Tag]) -> bool
    ensures { IsTrue result ↔ Any (λ tag. IsSome (value_under tag.key tags.now)) added.now }
{
    added.iter().any(|tag| tags.value(tag.key()).is_some())
}

// Puts a tag among tags, at its place in the order of the keys.
fn put_tag(tags: &mut Vec<Tag>, tag: Tag) -> Result<(), AllocError>
    ensures { OnOk result (tags.new.items ≡ with_tag tag tags.old.items) }
{
    for index in 0..tags.len() {
        match tag.key().cmp(tags[index].key()) {
            Ordering::Less => {
                tags.insert(index, tag)?;
                return Ok(());
            }
            Ordering::Equal => {
                tags[index] = tag;
                return Ok(());
            }
            Ordering::Greater => {}
        }
    }
    tags.push(tag)?;
    Ok(())
}

// Tags with others added, in the order of the keys.
fn merged(alloc: Global, tags: &Tags, added: Vec<Tag>) -> Result<Vec<Tag>, AllocError>
    ensures tags { IfOk result (λ merged. merged.items ≡ with_tags added.items tags.now) }
    ensures valid { IsTags tags.now }
{
    let tags = tags.as_slice();
    let mut merged = Vec::with_capacity(alloc, tags.len().saturating_add(added.len()))?;
    for tag in tags {
        merged.push(tag.copy(alloc)?)?;
    }
    for tag in added {
        put_tag(&mut merged, tag)?;
    }
    Ok(merged)
}

// Tags with others added, if a row may have them.
fn with_tags(alloc: Global, tags: &Tags, added: Vec<Tag>) -> Result<KeptTags, AllocError>
    ensures { IfOk result (IsWith (with_tags added.items tags.now)) }
{
    let merged = merged(alloc, tags, added)?;
    if !are_sized(merged.as_slice()) {
        return Ok(KeptTags::TooLong);
    }
    Ok(KeptTags::These(Tags::of_fields(merged)))
}

/// The tags of a text of tags, with those that texts of kept columns are.
///
/// # Errors
/// `TagTwice` where the text states one of these tags already; `NoMemory`.
pub(crate) fn add_kept(
    alloc: Global,
    stated: &Tags,
    keeps: &[Keep],
    values: &[String],
) -> Result<KeptTags, Refusal>
    requires { All IsUtf8 (map string_bytes values.now) }
    ensures found { IfOk result (λ kept. (text : List ℕ) → TagsAnswer text (Ok stated.now)
        → AreTheTags keeps.now text (map string_bytes values.now) kept) }
    ensures refused { IfErr result (λ refusal. (text : List ℕ) → TagsAnswer text (Ok stated.now)
        → Refuses keeps.now text (map string_bytes values.now) refusal) }
{
    let added = tags_kept(alloc, keeps, values)?;
    if have_key_of(stated, added.as_slice()) {
        return Err(Refusal::Broken(RecordFault::TagTwice));
    }
    Ok(with_tags(alloc, stated, added)?)
}
