//! How what a group cost is written.
use crate::csv_text::csv_text;
use crate::json::json_text;
use crate::owned::Owned;
use crate::page::page_text;
use crate::table::table_of;
use fw_calendar::Step;
use fw_series::Format;
use std::alloc::{AllocError, Global};

/// What was asked, as it is written beside the answer.
#[derive(Clone, Copy, Debug)]
pub struct View<'v> {
    /// The tag whose values are the groups.
    pub tag: &'v str,
    /// The group; empty for the costs without the tag.
    pub group: &'v str,
    /// The currency of all costs.
    pub currency: &'v str,
    /// What the range is cut by, where it is.
    pub step: Option<Step>,
}

impl<'v> View<'v> {
    /// The group, for people.
    pub(crate) fn shown_group(&self) -> &'v str {
        if self.group.is_empty() {
            "(untagged)"
        } else {
            self.group
        }
    }
}

/// What a group cost in a format. Nothing is known here of other groups. The one error is that memory ran out.
pub fn written(
    alloc: Global,
    owned: &Owned,
    view: &View<'_>,
    format: Format,
) -> Result<Vec<u8>, AllocError> {
    match format {
        Format::Table => Ok(table_of(alloc, owned, view)?.into_bytes()),
        Format::Csv => csv_text(alloc, owned, view),
        Format::Json => Ok(json_text(alloc, owned, view)?.into_bytes()),
        Format::Html => page_text(alloc, owned, view),
    }
}
