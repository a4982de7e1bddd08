//! The tags of a commitment.
ghost use Rattle.std.specs.Prelude.{◌≡◌, map, IfOk, MatchOption};
ghost use Rattle.fw_charge.specs.Tags.{IsTagSized, IsTags};
ghost use Rattle.fw_terms.specs.Texts.{IsRising};
ghost use Rattle.fw_toml.specs.Tree.{stated};
ghost use Rattle.fw_commitment.specs.Fields.{HasTags};
ghost use Rattle.fw_commitment.specs.Rules.{tags_rules};
ghost use Rattle.fw_commitment.specs.Finding.{Finds, tag_shown, tag_text};

use crate::fault::{CommitmentFault, CommitmentField};
use fw_charge::{Tag, Tags};
use fw_toml::{Table, member, named_texts};
use std::alloc::{AllocError, Global};

/// The tag of a key with its text; `None` where one of the two is too long.
fn tag_of(alloc: Global, key: &str, value: &str) -> Result<Option<Tag>, AllocError>
    ensures { let found = tag_text key.now value.now
        in IfOk result (λ tag. MatchOption tag (¬ IsTagSized found)
        (λ t. (t ≡ found) × IsTagSized t)) }
{
    if key.len() > Tag::LONGEST || value.len() > Tag::LONGEST {
        return Ok(None);
    }
    let key = String::from_str(alloc, key)?;
    let value = String::from_str(alloc, value)?;
    Ok(Some(Tag::of_fields(key, value)))
}

/// The tags of keys with their texts; `None` where one of them is too long, or where there are too many.
fn tags_of(alloc: Global, texts: &[(&str, &str)]) -> Result<Option<Tags>, AllocError>
    requires { IsRising (map (λ e. e.0.now) texts.now) }
    ensures { let found = map tag_shown texts.now in
        IfOk result (λ tags. MatchOption tags (¬ IsTags found) (λ t. (t ≡ found) × IsTags t)) }
{
    if texts.len() > Tags::MOST {
        return Ok(None);
    }
    let mut tags = Vec::with_capacity(alloc, texts.len())?;
    for entry in texts {
        match tag_of(alloc, entry.0, entry.1)? {
            Some(tag) => tags.push(tag)?,
            None => return Ok(None),
        }
    }
    Ok(Some(Tags::of_fields(tags)))
}

/// The tags of a table; none where their name isn't there.
pub(crate) fn tags(alloc: Global, table: &Table) -> Result<Tags, CommitmentFault>
    ensures { let ms = stated table.now in
        Finds (tags_rules ms) (λ tags. HasTags ms tags × IsTags tags) result }
{
    let Some(value) = member(table, CommitmentField::Tags.name()) else {
        return Ok(Tags::empty(alloc));
    };
    let Some(texts) = named_texts(alloc, value)? else {
        return Err(CommitmentFault::Field(CommitmentField::Tags));
    };
    match tags_of(alloc, &texts)? {
        Some(tags) => Ok(tags),
        None => Err(CommitmentFault::Limit(CommitmentField::Tags)),
    }
}
