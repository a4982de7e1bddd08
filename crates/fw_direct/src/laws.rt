//! What holds of what is charged: a law, the contract of a function that does nothing.
ghost use Rattle.std.specs.Prelude.{◌≡◌, ◌<◌, All, List, map, ℕ};
ghost use Rattle.fw_direct.specs.Parts.{ArePeriodsBy};
ghost use Rattle.fw_direct.specs.Sheets.{HoldsShards, IsCharged, SheetValue};
ghost use Rattle.fw_entry.specs.Entry as entry;
ghost use Rattle.fw_entry.specs.Spelling.{IsEntry};
ghost use Rattle.fw_series.specs.Series.{IsSeries};
ghost use Rattle.fw_series.specs.declared.series.Series.{Series};
ghost use Rattle.fw_snapshot.specs.History.{policy_of};

use fw_shards::{the_sum_is_the_report, whole_hours_are_shards};

/// Where the reports that were put to each period of a [`Sheet`](crate::Sheet) are the direct reports of shards of one warehouse, which are asked for
/// hours of the period, what they come to under the policy of that warehouse is its series: its report of the range, and its reports of the periods.
pub fn what_is_charged_is_the_series()
    ensures { (whole : List entry.EntryValue) (key : List ℕ) (from to : ℕ) (sheet : SheetValue)
        (series : Series) → All IsEntry whole → from < to → ArePeriodsBy sheet.step from to (map (λ
        s. s.period) sheet.slots) → All (HoldsShards whole key) sheet.slots → IsCharged (policy_of
        whole) key sheet series → IsSeries whole key from to sheet.step series }
{
    the_sum_is_the_report();
    whole_hours_are_shards();
}
