//! The tags of rows as CSV has them, each list spelled once.
use crate::values::{QUOTE, QUOTE_IN_FIELD, push_tags, push_text};
use fw_columns::LentTags;
use std::alloc::{AllocError, Global};

/// How the lists of tags of one segment are written, as far as they were met.
pub(crate) struct SpelledTags {
    /// The place of the segment.
    segment: usize,
    /// What the lists are written as, one behind the other.
    text: Vec<u8>,
    /// Where each list stands in it, by its code: its front and its end. A list that wasn't met has none.
    places: Vec<Option<(usize, usize)>>,
}

impl Drop for SpelledTags {
    fn drop(self) {
        let Self {
            segment: _,
            text: _,
            places: _,
        } = self;
    }
}

impl SpelledTags {
    /// No list of the first segment.
    pub(crate) fn new(alloc: Global) -> SpelledTags {
        SpelledTags {
            segment: 0,
            text: Vec::new(alloc),
            places: Vec::new(alloc),
        }
    }

    /// Goes on with the lists of this segment: those of another one are forgotten.
    pub(crate) fn of_segment(&mut self, segment: usize) {
        if self.segment != segment {
            self.segment = segment;
            self.text.clear();
            self.places.clear();
        }
    }

    /// What tags are written as, which are the list with this code.
    pub(crate) fn text_of(&mut self, code: u32, tags: LentTags<'_>) -> Result<&[u8], AllocError> {
        let code = code as usize;
        while self.places.len() <= code {
            self.places.push(None)?;
        }
        let (front, end) = match self.places[code] {
            Some(place) => place,
            None => {
                let front = self.text.len();
                push_row_tags(&mut self.text, tags)?;
                (front, self.text.len())
            }
        };
        self.places[code] = Some((front, end));
        Ok(self.text.get(front..end).unwrap_or_default())
    }
}

// Appends tags as a JSON object in quotes; nothing where there is none.
fn push_row_tags(out: &mut Vec<u8>, tags: LentTags<'_>) -> Result<(), AllocError> {
    if tags.len() == 0 {
        return Ok(());
    }
    push_text(out, QUOTE)?;
    push_tags(out, tags, b':', QUOTE_IN_FIELD)?;
    push_text(out, QUOTE)
}
