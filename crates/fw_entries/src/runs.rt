//! The rows of an entry, where they stand in segments.
ghost use Rattle.std.specs.Prelude.{◌≡◌, ◌<◌, ◌≤◌, ◌++◌, IfSome, None, [], length, take};
ghost use Rattle.fw_entries.specs.RowsLeft.{rows_left};
ghost use Rattle.fw_entries.specs.Runs.{run_rows};

use crate::rows_left::RowsLeft;
use fw_columns::Columns;
use std::marker::Model;

/// Rows that stand behind one another in a segment: from the row `first` on, and before the row `end`.
#[derive(Clone, Copy, Drop)]
pub struct Run<'a> {
    /// The place of the segment among all of them.
    pub segment: usize,
    pub columns: &'a Columns,
    pub first: usize,
    pub end: usize,
}

/// Rows of an entry that aren't taken yet, run by run. A contract sees the list of the rows.
#[derive(Drop)]
pub struct Runs<'a> {
    rows: RowsLeft<'a>,
    /// How many of these rows are the entry's.
    left: usize,
}

impl<'a> Model for Runs<'a> {
    ghost use Rattle.std.specs.Prelude.{List};
    ghost use Rattle.fw_charge.specs.Charge.{Charge};
    ghost use Rattle.fw_entries.specs.Runs.{rows_in};

    ghost Value = { List Charge };

    ghost view = { rows_in };
}

impl<'a> Runs<'a> {
    /// So many rows from the front of those that are left, or all where there are fewer.
    pub(crate) fn of(rows: RowsLeft<'a>, left: usize) -> Runs<'a>
        ensures { result ≡ take left (rows_left rows.entry) }
    {
        Runs { rows, left }
    }

    /// Takes the next rows that stand in one segment, one at least; `None` where none are left. It takes no memory.
    pub fn next(&mut self) -> Option<Run<'a>>
        ensures taken { IfSome result (λ run. self.old ≡ run_rows run ++ self.new) }
        ensures some { IfSome result (λ run. run.first < run.end) }
        ensures within { IfSome result (λ run. run.end ≤ length run.columns.now) }
        ensures none { result ≡ None → self.old ≡ [] }
    {
        if self.left == 0 {
            return None;
        }
        let run = self.rows.next_run(self.left)?;
        self.left -= run.end - run.first;
        Some(run)
    }
}
