//! Tags that were read before.
ghost use Rattle.std.specs.Prelude.{◌≡◌, ◌≤◌, [], Ok, Some, length, option_map, IfSome, OnOk};
ghost use Rattle.fw_rows.specs.Parts.{TagsAnswer, texts_of, longest_known, tags_known};
ghost use Rattle.fw_rows.specs.declared.column.Column.TheVariants as column;

use crate::cells::Cells;
use crate::column::Column;
use fw_charge::Tags;
use fw_tags::TagFault;
use indexmap::IndexMap;
use std::alloc::{AllocError, Global};
use std::marker::Model;

/// The most texts whose tags are known.
const MOST_TEXTS: usize = 16_384;

/// The most bytes of a text whose tags are known.
const LONGEST_TEXT: usize = 1_024;

/// The tags of texts that were read before. Rows mostly share a few texts of tags, in one text of charges and from one to the next, and reading
/// one costs much more than finding it.
///
/// A contract sees the texts, each with the tags that it states.
pub struct KnownTags {
    /// For each text the tags that it states.
    read: IndexMap<String, Tags>,
}

impl Drop for KnownTags {
    fn drop(self) {
        let Self { read: _ } = self;
    }
}

impl Model for KnownTags {
    ghost use Rattle.std.specs.Prelude.{◌≡◌, ℕ, List, Ok, Some, map, string_bytes};
    ghost use Rattle.indexmap.specs.IndexMap.{get_by_text};
    ghost use Rattle.fw_charge.specs.Tags.{TagText};
    ghost use Rattle.fw_rows.specs.Parts.{TagsAnswer};

    ghost Value = { List (List ℕ × List TagText) };

    ghost view = { λ k. map (λ known. (string_bytes known.0, known.1)) k.read.entries };

    ghost invariant = { λ k. (text : List ℕ) (tags : List TagText) → get_by_text k.read text ≡ Some tags → TagsAnswer text (Ok tags) };
}

impl KnownTags {
    /// Nothing is known yet. It takes no memory.
    pub fn new(alloc: Global) -> KnownTags
        ensures { result ≡ [] }
    {
        KnownTags {
            read: IndexMap::new(alloc),
        }
    }

    /// The tags that a text states, where they are known.
    pub fn get(&self, text: &str) -> Option<&Tags>
        ensures value { option_map (λ tags. tags.now) result ≡ tags_known self.now text.now }
        ensures stated { IfSome result (λ tags. TagsAnswer text.now (Ok tags.now)) }
    {
        self.read.get(text)
    }

    /// Notes the tags that a text states, if it has at most 1,024 bytes. Where 16,384 texts are known, all are forgotten before.
    pub fn note(&mut self, text: &str, tags: Tags) -> Result<(), AllocError>
        requires { TagsAnswer text.now (Ok tags) }
        ensures { OnOk result (length text.now ≤ longest_known
            → tags_known self.new text.now ≡ Some tags) }
    {
        if text.len() > LONGEST_TEXT {
            return Ok(());
        }
        self.make_room();
        let key = String::from_str(*self.read.allocator(), text)?;
        self.read.insert(key, tags)?;
        Ok(())
    }

    // Forgets all texts where as many are known as may be.
    fn make_room(&mut self) {
        if self.read.len() >= MOST_TEXTS {
            self.read.clear();
        }
    }

    /// The tags of a record. They are read where their text is new.
    pub(crate) fn tags(&mut self, alloc: Global, cells: &Cells<'_>) -> Result<Tags, TagFault>
        ensures { TagsAnswer (texts_of cells.now column.Tags) result }
    {
        match self.get(cells.text(Column::Tags)) {
            Some(tags) => Ok(tags.copy(alloc)?),
            None => self.new_tags(alloc, cells),
        }
    }

    // The tags of a record, which are known from then on.
    fn new_tags(&mut self, alloc: Global, cells: &Cells<'_>) -> Result<Tags, TagFault>
        ensures { TagsAnswer (texts_of cells.now column.Tags) result }
    {
        let tags = cells.tags(alloc)?;
        self.note(cells.text(Column::Tags), tags.copy(alloc)?)?;
        Ok(tags)
    }
}
