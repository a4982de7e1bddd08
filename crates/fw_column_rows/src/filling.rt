//! Columns that the records of a text fill.
ghost use Rattle.std.specs.Prelude.{◌≡◌, ◌<◌, ◌≤◌, ◌+◌, ◌++◌, ◌∷◌, ℕ, List, [], Ok, length, slice_index_or, IfOk, OnOk};
ghost use Rattle.fw_charge.specs.Tags.{IsTags, TagText};
ghost use Rattle.fw_row_table.specs.Lending.{charge_with};
ghost use Rattle.fw_columns.specs.Rows.{tags_at};
ghost use Rattle.fw_rows.specs.Judged.{JudgedWithin};
ghost use Rattle.fw_rows.specs.Parts.{texts_of, TagsAnswer};
ghost use Rattle.fw_rows.specs.Rules.{length_rules};
ghost use Rattle.fw_rows.specs.declared.column.Column.TheVariants as column;
ghost use Rattle.fw_rows.specs.Sinks.{CanGive, StatesGiven, with_text};
ghost use Rattle.fw_column_rows.specs.Filling.{most_texts, AreTagsOf, HasTagsOf, AddsView, IsAdded};
ghost use Rattle.fw_column_rows.specs.Views.{ViewStands};
ghost use Rattle.fw_charge.specs.Charge.{most_post_rows};

use crate::known::KnownTexts;
use crate::view::view_of;
use fw_charge::{Currency, Tags};
use fw_columns::{ColumnsBuilder, RowView};
use fw_rows::{
    Cells, Column, GivenTags, KeepingSink, PeriodReaders, RecordFault, Refusal, RowSink,
};
use std::alloc::{AllocError, Global};

/// The columns of the rows so far, and what was read for them: the texts of tags, and the last period.
#[derive(Drop)]
pub(crate) struct Filling {
    columns: ColumnsBuilder,
    /// The texts of tags, each once, also those of earlier texts of charges, and the tags that are known of them.
    known: KnownTexts,
    /// For each text of tags 1 more than the place of the first row that has it, or 0 where none has it yet.
    places: Vec<u32>,
    /// The code that the next row's text of tags may have: rows of one hour mostly come in the order of those of the hour before.
    next_text: u32,
    periods: PeriodReaders,
}

impl Filling {
    /// No rows yet.
    pub(crate) fn new(alloc: Global, known: KnownTexts) -> Result<Filling, AllocError>
        ensures rows { IfOk result (λ f. f.columns ≡ []) }
        ensures tags { IfOk result (λ f. AreTagsOf f.known f.places.items f.columns) }
        ensures few { IfOk result (λ f. length f.known ≤ most_texts) }
    {
        let known = known.trimmed(alloc);
        let places = vec![in alloc; 0; known.len()]?;
        Ok(Filling {
            columns: ColumnsBuilder::new(alloc),
            known,
            places,
            next_text: 0,
            periods: PeriodReaders::new(),
        })
    }

    /// The rows so far, and what is known of texts of tags.
    pub(crate) fn into_parts(self) -> (ColumnsBuilder, KnownTexts)
        ensures { result.0 ≡ self.columns }
    {
        (self.columns, self.known)
    }

    /// The code of a text of tags, which is known from then on.
    fn text_code(&mut self, text: &str) -> Result<u32, AllocError>
        requires tags { AreTagsOf self.old.known self.old.places.items self.old.columns }
        requires room { length self.old.known < most_texts + most_post_rows }
        ensures tags { OnOk result (AreTagsOf self.new.known self.new.places.items
            self.new.columns) }
        ensures rows { self.new.columns ≡ self.old.columns }
        ensures few { OnOk result (length self.new.known ≤ length self.old.known + 1) }
        ensures within { IfOk result (λ code. code < length self.new.places.items) }
        ensures text { IfOk result (λ code. slice_index_or self.new.known code [] ≡ text.now) }
    {
        let code = self.known.code_near(self.next_text, text)?;
        self.next_text = code.saturating_add(1);
        if code as usize >= self.places.len() {
            self.places.push(0)?;
        }
        Ok(code)
    }

    /// Adds the row with these values of a record and with its tags, if tags and lengths break no rule. The tags are read where nothing is known of their text.
    fn add_view(&mut self, row: &RowView<'_>, cells: &Cells<'_>) -> Result<(), Refusal>
        requires tags { AreTagsOf self.old.known self.old.places.items self.old.columns }
        requires few { length self.old.known ≤ most_texts + length self.old.columns }
        requires room { length self.old.columns < most_post_rows }
        requires stands { ViewStands (texts_of cells.now) row.now }
        ensures row { let at = texts_of cells.now
            in JudgedWithin (length_rules at)
            (λ _. AddsView at row.now self.old.columns self.new.columns) result }
        ensures tags { OnOk result (AreTagsOf self.new.known self.new.places.items
            self.new.columns) }
        ensures few { OnOk result (length self.new.known ≤ most_texts + length self.new.columns) }
    {
        let code = self.text_code(cells.text(Column::Tags))?;
        let text = code as usize;
        match self.places[text].checked_sub(1) {
            Some(place) => add_like(&mut self.columns, row, cells, place as usize),
            None => {
                let alloc = *self.places.allocator();
                self.places[text] = self.columns.len() as u32 + 1;
                add_new(alloc, &mut self.columns, &mut self.known, code, row, cells)
            }
        }
    }
}

/// Adds the row with these values of a record, and with the tags of the row at a place, if lengths break no rule.
fn add_like(
    columns: &mut ColumnsBuilder,
    row: &RowView<'_>,
    cells: &Cells<'_>,
    place: usize,
) -> Result<(), Refusal>
    requires room { length columns.old < most_post_rows }
    requires stands { ViewStands (texts_of cells.now) row.now }
    requires within { place < length columns.old }
    requires valid { IsTags (tags_at columns.old place) }
    ensures { IsAdded (texts_of cells.now) row.now (tags_at columns.old place)
        columns.old columns.new result }
{
    if !cells.are_short() {
        return Err(Refusal::Broken(RecordFault::TooLong));
    }
    columns.push_like(row, place)?;
    Ok(())
}

/// Adds the row with these values of a record, and with these tags, if lengths break no rule.
fn add_these(
    columns: &mut ColumnsBuilder,
    row: &RowView<'_>,
    cells: &Cells<'_>,
    tags: &Tags,
) -> Result<(), Refusal>
    requires room { length columns.old < most_post_rows }
    requires stands { ViewStands (texts_of cells.now) row.now }
    ensures row { IsAdded (texts_of cells.now) row.now tags.now columns.old columns.new result }
    ensures valid { IsTags tags.now }
{
    prove!(tags.as_slice().len() <= Tags::MOST);
    if !cells.are_short() {
        return Err(Refusal::Broken(RecordFault::TooLong));
    }
    columns.push(row, tags)?;
    Ok(())
}

/// Adds the row with these values of a record, and with given tags, if these and lengths break no rule.
fn add_given(
    columns: &mut ColumnsBuilder,
    row: &RowView<'_>,
    cells: &Cells<'_>,
    tags: GivenTags<'_>,
) -> Result<(), Refusal>
    requires room { length columns.old < most_post_rows }
    requires stands { ViewStands (texts_of cells.now) row.now }
    requires given { CanGive columns.old tags }
    ensures row { (text : List ℕ) → StatesGiven columns.old tags.entry text
        → let at = with_text (texts_of cells.now) text
        in JudgedWithin (length_rules at)
        (λ _. AddsView at row.now columns.old columns.new) result }
    ensures more { OnOk result ((tags : List TagText)
        × (columns.new ≡ columns.old ++ charge_with row.now tags ∷ [])) }
{
    match tags {
        GivenTags::Like(place) => add_like(columns, row, cells, place),
        GivenTags::These(tags) => add_these(columns, row, cells, tags),
        GivenTags::TooLong => Err(Refusal::Broken(RecordFault::TooLong)),
    }
}

/// Adds the row with these values of a record, and with the tags that its text states, which has a code, if tags and lengths break no rule. The tags are
/// known of their text from then on.
fn add_new(
    alloc: Global,
    columns: &mut ColumnsBuilder,
    known: &mut KnownTexts,
    code: u32,
    row: &RowView<'_>,
    cells: &Cells<'_>,
) -> Result<(), Refusal>
    requires room { length columns.old < most_post_rows }
    requires stands { ViewStands (texts_of cells.now) row.now }
    requires within { code < length known.old }
    requires text { slice_index_or known.old code [] ≡ texts_of cells.now column.Tags }
    ensures row { let at = texts_of cells.now
        in JudgedWithin (length_rules at)
        (λ _. AddsView at row.now columns.old columns.new) result }
    ensures tags { OnOk result (HasTagsOf (texts_of cells.now column.Tags)
        (length columns.old) columns.new) }
    ensures texts { known.new ≡ known.old }
{
    if let Some(tags) = known.tags(code) {
        return add_these(columns, row, cells, tags);
    }
    let tags = cells.short_tags(alloc)?;
    columns.push(row, &tags)?;
    known.note(code, tags);
    Ok(())
}

impl RowSink for Filling {
    ghost is_ready = { λ f. AreTagsOf f.known f.places.items f.columns × (length f.known ≤ most_texts + length f.columns) };

    ghost rows = { λ f. f.columns };

    fn add(&mut self, cells: &Cells<'_>, currency: Currency) -> Result<(), Refusal> {
        match view_of(cells, currency, &mut self.periods) {
            Ok(row) => self.add_view(&row, cells),
            Err(fault) => Err(Refusal::Broken(fault)),
        }
    }
}

impl KeepingSink for Filling {
    fn add_given(
        &mut self,
        cells: &Cells<'_>,
        tags: GivenTags<'_>,
        currency: Currency,
    ) -> Result<(), Refusal> {
        match view_of(cells, currency, &mut self.periods) {
            Ok(row) => add_given(&mut self.columns, &row, cells, tags),
            Err(fault) => Err(Refusal::Broken(fault)),
        }
    }
}
