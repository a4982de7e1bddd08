//! What holds of what a group cost: a law, the contract of a function that does nothing.
ghost use Rattle.std.specs.Prelude.{◌≡◌, List, Option, ℕ, is_some};
ghost use Rattle.fw_calendar.specs.declared.steps.Step.{Step};
ghost use Rattle.fw_entry.specs.Entry as entry;
ghost use Rattle.fw_owner.specs.Owned.{IsOwned, found, or_none};
ghost use Rattle.fw_owner.specs.declared.owned.Owned.{Owned};
ghost use Rattle.fw_query.specs.OfHistory.{IsReportOn};
ghost use Rattle.fw_query.specs.Reports.{EntryValue};

/// What an owner sees of a range is what the report of all groups has of the one group, and no more: two warehouses, and two ranges of as many
/// hours, whose reports say the same of the group give the same costs.
pub fn an_owner_sees_what_the_report_says()
    ensures costs { (history : List entry.EntryValue) (key group : List ℕ) (from to : ℕ)
        (step : Option Step) (owned : Owned) (report : List EntryValue)
        → IsOwned history key group from to step owned
        → IsReportOn history key from to report
        → owned.whole.costs ≡ or_none (found group report) }
    ensures there { (history : List entry.EntryValue) (key group : List ℕ) (from to : ℕ)
        (step : Option Step) (owned : Owned) (report : List EntryValue)
        → IsOwned history key group from to step owned
        → IsReportOn history key from to report
        → owned.whole.is_there ≡ is_some (found group report) }
{}
