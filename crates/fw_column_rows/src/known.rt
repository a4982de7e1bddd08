//! What is known of texts of tags from one text of charges to the next.
ghost use Rattle.std.specs.Prelude.{◌≡◌, ◌^◌, ◌<◌, ◌≤◌, ◌+◌, [], Ok, length, slice_index_or, IfOk, IfSome, OnOk};
ghost use Rattle.fw_row_table.specs.Names.{place_of, with_text};
ghost use Rattle.fw_rows.specs.Parts.{TagsAnswer};
ghost use Rattle.fw_column_rows.specs.Filling.{most_texts};

use fw_charge::Tags;
use fw_columns::Names;
use std::alloc::{AllocError, Global};
use std::marker::Model;

/// The most texts of tags that are kept for the next text of charges.
const MOST_TEXTS: usize = 16_384;

/// The most bytes that these texts may have together.
const MOST_BYTES: usize = 16_777_216;

/// The texts of tags that were read in earlier texts of charges, and what they state. Rows mostly share a few texts of tags, and these come in about the
/// same order in each hour: so most texts are found by one comparison with the text that followed the one before. None of it has an effect on what a text
/// of charges reads as.
///
/// A contract sees the texts, each once; the place of a text is its code.
pub struct KnownTexts {
    texts: Names,
    /// How many bytes these texts have.
    bytes: usize,
    /// For each text the tags that it states, where they are known.
    tags: Vec<Option<Tags>>,
}

impl Drop for KnownTexts {
    fn drop(self) {
        let Self {
            texts: _,
            bytes: _,
            tags: _,
        } = self;
    }
}

impl Model for KnownTexts {
    ghost use Rattle.std.specs.Prelude.{ℕ, List};
    ghost use Rattle.fw_column_rows.specs.Known.{AreStated};

    ghost Value = { List (List ℕ) };

    ghost view = { λ k. k.texts };

    ghost invariant = { λ k. AreStated k.texts k.tags.items };
}

impl KnownTexts {
    /// Nothing is known yet. It takes no memory.
    pub fn new(alloc: Global) -> KnownTexts
        ensures { result ≡ [] }
    {
        KnownTexts {
            texts: Names::new(alloc),
            bytes: 0,
            tags: Vec::new(alloc),
        }
    }

    /// The same, or nothing where the texts are many or long.
    pub(crate) fn trimmed(self, alloc: Global) -> KnownTexts
        ensures { length result ≤ most_texts }
    {
        if self.texts.len() <= MOST_TEXTS && self.bytes <= MOST_BYTES {
            return self;
        }
        KnownTexts::new(alloc)
    }

    /// How many texts there are.
    pub(crate) fn len(&self) -> usize
        ensures { result ≡ length self.now }
    {
        self.texts.len()
    }

    /// The code of a text. A text that is new goes last. Where the text has the code that it may have, it isn't looked up.
    pub(crate) fn code_near(&mut self, guess: u32, text: &str) -> Result<u32, AllocError>
        requires { length self.old < 2 ^ 30 }
        ensures texts { OnOk result (self.new ≡ with_text self.old text.now) }
        ensures place { IfOk result (λ code. code ≡ place_of self.new text.now) }
        ensures within { IfOk result (λ code. code < length self.new) }
        ensures few { length self.new ≤ length self.old + 1 }
    {
        let code = self.texts.code_near(Some(guess), text)?;
        if code as usize >= self.tags.len() {
            self.tags.push(None)?;
            self.bytes = self.bytes.saturating_add(text.len());
        }
        Ok(code)
    }

    /// The tags that the text with a code states, where they are known.
    pub(crate) fn tags(&self, code: u32) -> Option<&Tags>
        ensures { IfSome result (λ tags. TagsAnswer (slice_index_or self.now code [])
            (Ok tags.now)) }
    {
        match self.tags.as_slice().get(code as usize) {
            Some(tags) => tags.as_ref(),
            None => None,
        }
    }

    /// Notes the tags that the text with a code states.
    pub(crate) fn note(&mut self, code: u32, tags: Tags)
        requires within { code < length self.old }
        requires stated { TagsAnswer (slice_index_or self.old code []) (Ok tags) }
        ensures { self.new ≡ self.old }
    {
        let place = code as usize;
        if place < self.tags.len() {
            self.tags[place] = Some(tags);
        }
    }
}
