//! What holds of exported rows: laws, each the contract of a function that does nothing.
ghost use Rattle.std.specs.Prelude.{◌≡◌, All, List, map, ℕ};
ghost use Rattle.fw_allocate.specs.Costs.{total};
ghost use Rattle.fw_charge.specs.Charge.{Charge};
ghost use Rattle.fw_entry.specs.Entry as entry;
ghost use Rattle.fw_query.specs.OfHistory.{IsReportOn};
ghost use Rattle.fw_query.specs.Reports.{EntryValue};
ghost use Rattle.fw_snapshot.specs.History.{commitments_of, rows_of};
ghost use Rattle.fw_allocated.specs.LineRows.{AreExportsAt};
ghost use Rattle.fw_allocated.specs.Sums.{AreExportsOf, billed_under, effective_under};
ghost use Rattle.fw_allocated.specs.TrueRows.{AreOfTrueRowsAt};

/// What the exported rows of a range come to is what its report says, under any tag: the rows that have a group's text under the tag were billed, and
/// cost, what the report says of the group. And all rows together cost what all groups do: no line is left out, and none is exported twice.
pub fn exports_sum_to_the_report()
    ensures groups { (history : List entry.EntryValue) (key : List ℕ) (from to : ℕ)
        (exports : List Charge) (report : List EntryValue)
        → AreExportsOf history from to exports → IsReportOn history key from to report
        → All (λ e. (e.billed ≡ billed_under key exports e.group)
        × (e.direct ≡ effective_under key exports e.group)) report }
    ensures billed { (history : List entry.EntryValue) (key : List ℕ) (from to : ℕ)
        (exports : List Charge) (report : List EntryValue)
        → AreExportsOf history from to exports → IsReportOn history key from to report
        → total (map (λ e. e.billed) report) ≡ total (map (λ r. r.billed) exports) }
    ensures effective { (history : List entry.EntryValue) (key : List ℕ) (from to : ℕ)
        (exports : List Charge) (report : List EntryValue)
        → AreExportsOf history from to exports → IsReportOn history key from to report
        → total (map (λ e. e.direct) report) ≡ total (map (λ r. r.effective) exports) }
{}

/// Each exported row of an hour is of its true row. Its line is one of the hour's: a purchase, a row as it was given, what
/// a commitment took of a row, what a commitment left unused, or what is left of a row. Where it is a part of a row of the
/// hour, the exported row has the tags, the period, the SKU, the sub-account, the unit and the class of this very row.
#[tactic(auto, using(crate::proofs::TrueFacts::hour_of_true_rows))]
pub fn each_export_is_of_its_true_row()
    ensures { (history : List entry.EntryValue) (hour : ℕ) (exports : List Charge)
        → AreExportsAt (commitments_of history) (rows_of history) hour exports
        → AreOfTrueRowsAt (commitments_of history) (rows_of history) hour exports }
{}
