//! What corrects the sums of an hour's rows, where commitments took of them.
ghost use Rattle.std.specs.Prelude.{◌≡◌, ◌<◌, ◌++◌, false, int_lt, length, pos, slice_index, List, OnOk};
ghost use Rattle.fw_cover.specs.Hour.{quantity_of};
ghost use Rattle.fw_sums.specs.Corrections.{correction_of, corrections, cost_lost};
ghost use Rattle.fw_sums.specs.Costs.{Cost};
ghost use Rattle.fw_sums.specs.Sums.{Counts};

use crate::groups::Groups;
use fw_amortise::{cost_left, quantity_of};
use fw_columns::LentRow;
use fw_cover::is_eligible;
use fw_money::Nanos;
use std::alloc::AllocError;

// By how much what falls to what is left of a row is less than this cost of the row, as an amount of at most 0.
fn cost_lost(row: &LentRow<'_>, cost: Nanos, left: u64) -> Nanos
    requires left { left < quantity_of row.now }
    requires cost { int_lt cost (pos 0) ≡ false }
    ensures { result ≡ cost_lost row.now cost left }
{
    Nanos::of_fields(cost_left(row, cost, left).count() - cost.count())
}

impl Groups {
    // Counts the correction of a row of which so much is left: none where nothing was taken of it.
    fn correct_row(&mut self, key: &str, row: &LentRow<'_>, left: u64) -> Result<(), AllocError>
        requires { (costs : List Cost) × Counts self.old costs }
        ensures { OnOk result ((costs : List Cost) → Counts self.old costs
            → Counts self.new (costs ++ correction_of key.now row.now left)) }
    {
        if left < quantity_of(row) && is_eligible(row) {
            self.add(
                row.tags().group(key),
                cost_lost(row, row.billed(), left),
                cost_lost(row, row.effective(), left),
            )?;
        }
        Ok(())
    }

    // Counts the corrections of rows of which so much is left, row by row.
    pub(crate) fn correct_rows(
        &mut self,
        key: &str,
        rows: &[LentRow<'_>],
        left: &[u64],
    ) -> Result<(), AllocError>
        requires counts { (costs : List Cost) × Counts self.old costs }
        requires one_each { length left.now ≡ length rows.now }
        ensures { OnOk result ((costs : List Cost) → Counts self.old costs
            → Counts self.new (costs ++ corrections key.now rows.now (slice_index left.now))) }
    {
        for (place, row) in rows.iter().enumerate() {
            self.correct_row(key, row, left[place])?;
        }
        Ok(())
    }
}
