//! The rows of a warehouse, taken from the front.
ghost use Rattle.std.specs.Prelude.{◌≡◌, ◌<◌, ◌≤◌, ◌-◌, ◌++◌, IfOk, IfSome, None, [], length, take, drop};
ghost use Rattle.fw_posted.specs.Rows.{segment_rows};
ghost use Rattle.fw_entries.specs.RowsLeft.{rows_left};
ghost use Rattle.fw_entries.specs.Runs.{run_rows};
ghost use Rattle.fw_row_table.specs.Table.{most_column_rows};

use crate::runs::Run;
use fw_columns::{Columns, ColumnsBuilder};
use fw_persistent::Sequence;
use std::alloc::{AllocError, Global};

/// The rows of segments that aren't taken yet, in order. A row goes from its segment into the columns of those that are taken: none
/// is made on the way.
#[derive(Clone, Copy, Drop)]
pub(crate) struct RowsLeft<'a> {
    segments: &'a Sequence<Columns>,
    // the segment whose rows are taken, and how many of these are
    segment: usize,
    taken: usize,
}

impl<'a> RowsLeft<'a> {
    /// All rows of these segments.
    pub(crate) fn of(segments: &'a Sequence<Columns>) -> RowsLeft<'a>
        ensures { rows_left result ≡ segment_rows segments.now }
    {
        RowsLeft {
            segments,
            segment: 0,
            taken: 0,
        }
    }

    /// Takes so many rows from the front, or all where there are fewer. These are at most 65,536.
    pub(crate) fn take_front(
        &mut self,
        alloc: Global,
        count: usize,
    ) -> Result<ColumnsBuilder, AllocError>
        requires { length (take count (rows_left self.old)) ≤ most_column_rows }
        ensures { IfOk result (λ front. (front ≡ take count (rows_left self.old))
            × (rows_left self.new ≡ drop count (rows_left self.old))) }
    {
        let mut front = ColumnsBuilder::new(alloc);
        while front.len() < count {
            if self.segment >= self.segments.len() {
                return Ok(front);
            }
            let columns = self.segments.get(self.segment);
            if self.taken < columns.len() {
                front.push_lent(&columns.lent(self.taken))?;
                self.taken += 1;
            } else {
                self.segment += 1;
                self.taken = 0;
            }
        }
        Ok(front)
    }

    /// Takes rows from the front that stand in one segment, one at least and so many at most; `None` where none are left. None is made.
    pub(crate) fn next_run(&mut self, most: usize) -> Option<Run<'a>>
        requires { 0 < most }
        ensures taken { IfSome result (λ run.
            rows_left self.old ≡ run_rows run ++ rows_left self.new) }
        ensures some { IfSome result (λ run. run.first < run.end) }
        ensures within { IfSome result (λ run. run.end ≤ length run.columns.now) }
        ensures few { IfSome result (λ run. run.end - run.first ≤ most) }
        ensures none { result ≡ None → rows_left self.old ≡ [] }
    {
        while self.segment < self.segments.len() {
            let columns = self.segments.get(self.segment);
            let len = columns.len();
            if self.taken < len {
                let (segment, first) = (self.segment, self.taken);
                let end = first + most.min(len - first);
                self.taken = end;
                return Some(Run {
                    segment,
                    columns,
                    first,
                    end,
                });
            }
            self.segment += 1;
            self.taken = 0;
        }
        None
    }

    /// Passes over so many rows from the front, or all where there are fewer. None is made.
    pub(crate) fn skip_front(&mut self, count: usize)
        ensures { rows_left self.new ≡ drop count (rows_left self.old) }
    {
        let mut left = count;
        while self.segment < self.segments.len() {
            let rest = self
                .segments
                .get(self.segment)
                .len()
                .saturating_sub(self.taken);
            if left < rest {
                self.taken += left;
                return;
            }
            left -= rest;
            self.segment += 1;
            self.taken = 0;
        }
    }
}
