//! The tags of a row.
ghost use Rattle.std.specs.Prelude.{◌≡◌, [], string_bytes, option_copied, IfOk};
ghost use Rattle.fw_charge.specs.Tags.{IsTags, tag_under, value_under, group_of};

use std::alloc::{AllocError, Global};
use std::marker::Model;

/// A tag: a key and its text.
#[derive(Debug)]
pub struct Tag {
    key: String,
    value: String,
}

impl Drop for Tag {
    fn drop(self) {
        let Self { key: _, value: _ } = self;
    }
}

impl Model for Tag {
    ghost use Rattle.std.specs.Prelude.{string_bytes};
    ghost use Rattle.fw_charge.specs.Tags.{TagText};

    ghost Value = { TagText };

    ghost view = { λ t. record { key = string_bytes t.key; value = string_bytes t.value } };
}

impl Tag {
    /// The greatest number of bytes of a key, and of a text, in [`Tags`].
    pub const LONGEST: usize = 1024;

    /// The tag with this key and this text.
    pub fn of_fields(key: String, value: String) -> Tag
        ensures { result ≡ record { key = string_bytes key; value = string_bytes value } }
    {
        Tag { key, value }
    }

    /// The key.
    pub fn key(&self) -> &str
        ensures { result.now ≡ self.now.key }
    {
        self.key.as_str()
    }

    /// The text under the key.
    pub fn value(&self) -> &str
        ensures { result.now ≡ self.now.value }
    {
        self.value.as_str()
    }

    /// An equal tag.
    pub fn copy(&self, _alloc: Global) -> Result<Tag, AllocError>
        ensures { IfOk result (λ copy. copy ≡ self.now) }
    {
        Ok(Tag {
            key: self.key.clone()?,
            value: self.value.clone()?,
        })
    }
}

/// At most 256 tags in rising order of the bytes of their keys, no key twice; a key and a text have at most 1,024 bytes each.
#[derive(Debug)]
pub struct Tags {
    items: Vec<Tag>,
}

impl Drop for Tags {
    fn drop(self) {
        let Self { items: _ } = self;
    }
}

impl Model for Tags {
    ghost use Rattle.std.specs.Prelude.{List};
    ghost use Rattle.fw_charge.specs.Tags.{TagText, IsTags};

    ghost Value = { List TagText };

    ghost view = { λ t. t.items.items };

    ghost invariant = { λ t. IsTags t.items.items };
}

impl Tags {
    /// The greatest number of tags.
    pub const MOST: usize = 256;

    /// No tags.
    pub fn empty(alloc: Global) -> Tags
        ensures { result ≡ [] }
    {
        Tags {
            items: Vec::new(alloc),
        }
    }

    /// These tags: at most 256, the keys rising strictly in the order of their bytes, each key and text of at most 1,024 bytes.
    pub fn of_fields(items: Vec<Tag>) -> Tags
        requires { IsTags items.items }
        ensures { result ≡ items.items }
    {
        Tags { items }
    }

    /// The tags, in rising order of the bytes of their keys.
    pub fn as_slice(&self) -> &[Tag]
        ensures value { result.now ≡ self.now }
        ensures valid { IsTags self.now }
    {
        self.items.as_slice()
    }

    /// The text under a key, or `None` where the key isn't there.
    #[tactic(auto, unfolding(crate::specs::Tags::value_under))]
    pub fn value(&self, key: &str) -> Option<&str>
        ensures { option_copied result ≡ value_under key.now self.now }
    {
        Some(self.tag(key)?.value())
    }

    /// The tag with a key.
    fn tag(&self, key: &str) -> Option<&Tag>
        ensures { option_copied result ≡ tag_under key.now self.now }
    {
        self.items.iter().find(|tag| tag.key() == key)
    }

    /// The group under a key: the text under it, or the empty text where the key isn't there.
    #[tactic(auto, unfolding(crate::specs::Tags::group_of))]
    pub fn group(&self, key: &str) -> &str
        ensures { result.now ≡ group_of key.now self.now }
    {
        self.value(key).unwrap_or("")
    }

    /// Equal tags.
    pub fn copy(&self, alloc: Global) -> Result<Tags, AllocError>
        ensures { IfOk result (λ copy. copy ≡ self.now) }
    {
        Ok(Tags {
            items: copies(alloc, self.items.as_slice())?,
        })
    }
}

/// Equal tags, in order.
fn copies(alloc: Global, tags: &[Tag]) -> Result<Vec<Tag>, AllocError>
    ensures { IfOk result (λ copies. copies.items ≡ tags.now) }
{
    let mut copies = Vec::with_capacity(alloc, tags.len())?;
    for tag in tags {
        copies.push(tag.copy(alloc)?)?;
    }
    Ok(copies)
}
