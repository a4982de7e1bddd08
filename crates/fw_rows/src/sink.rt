//! What the rows of a text go into.
ghost use Rattle.std.specs.Prelude.{◌<◌, ◌++◌, [], ◌∷◌, ◌≡◌, ℕ, List, length, OnOk};
ghost use Rattle.fw_charge.specs.Charge.{Charge};
ghost use Rattle.fw_rows.specs.Judged.{JudgedWithin};
ghost use Rattle.fw_rows.specs.Parts.{texts_of};
ghost use Rattle.fw_rows.specs.Rows.{most_rows};
ghost use Rattle.fw_rows.specs.Rules.{text_rules};
ghost use Rattle.fw_rows.specs.Sinks.{AddsRow, CanGive, StatesGiven, with_text};

use crate::cells::Cells;
use crate::charged::PeriodReaders;
use crate::fault::Refusal;
use crate::known::KnownTags;
use fw_charge::{Currency, Row, Tags};
use std::alloc::Global;

/// What the rows of a text go into, in order, as they are read. Once it has refused a record, nothing is known of it.
pub trait RowSink {
    /// It can take rows.
    ghost is_ready: { Self → Type 0 };

    /// The rows so far.
    ghost rows: { Self → List Charge };

    /// Adds the row that a record stands for, if its texts break no rule; else it answers the first that they break. Costs are in `currency`.
    fn add(&mut self, cells: &Cells<'_>, currency: Currency) -> Result<(), Refusal>
        requires ready { is_ready self.old }
        requires room { length (rows self.old) < most_rows }
        ensures row { let at = texts_of cells.now
            in JudgedWithin (text_rules currency at)
            (λ _. AddsRow at (rows self.old) (rows self.new)) result }
        ensures ready { OnOk result (is_ready self.new) };
}

/// Tags that a row is given in place of those that its text of tags states.
#[derive(Clone, Copy, Drop)]
pub enum GivenTags<'a> {
    /// Those of the row at a place, counted from 0.
    Like(usize),
    /// These.
    These(&'a Tags),
    /// More tags, or longer ones, than a row may have.
    TooLong,
}

/// What the rows of a text go into where columns are kept as tags.
pub trait KeepingSink: RowSink {
    /// Adds the row that a record stands for, as [`RowSink::add`] does, with given tags in place of those that its text of tags states. That text isn't
    /// read: the row is that of the record with any text there that states the given tags.
    fn add_given(
        &mut self,
        cells: &Cells<'_>,
        tags: GivenTags<'_>,
        currency: Currency,
    ) -> Result<(), Refusal>
        requires ready { Self.is_ready self.old }
        requires room { length (Self.rows self.old) < most_rows }
        requires given { CanGive (Self.rows self.old) tags }
        ensures row { (text : List ℕ) → StatesGiven (Self.rows self.old) tags.entry text
            → let at = with_text (texts_of cells.now) text
            in JudgedWithin (text_rules currency at)
            (λ _. AddsRow at (Self.rows self.old) (Self.rows self.new)) result }
        ensures ready { OnOk result (Self.is_ready self.new) };
}

/// Rows, and what was read for them: the tags of texts, and the last period.
#[derive(Drop)]
pub(crate) struct Rows {
    pub(crate) rows: Vec<Row>,
    known: KnownTags,
    periods: PeriodReaders,
}

impl Rows {
    /// No rows. It takes no memory.
    pub(crate) fn new(alloc: Global) -> Rows
        ensures { result.rows.items ≡ [] }
    {
        Rows {
            rows: Vec::new(alloc),
            known: KnownTags::new(alloc),
            periods: PeriodReaders::new(),
        }
    }
}

impl RowSink for Rows {
    ghost is_ready = { λ _. Unit {0} };

    ghost rows = { λ r. r.rows.items };

    fn add(&mut self, cells: &Cells<'_>, currency: Currency) -> Result<(), Refusal> {
        let alloc = *self.rows.allocator();
        let row = cells.row(alloc, &mut self.known, &mut self.periods, currency)?;
        self.rows.push(row)?;
        Ok(())
    }
}
