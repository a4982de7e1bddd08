//! What holds of shards: laws, each the contract of a function that does nothing.
ghost use Rattle.std.specs.Prelude.{◌≡◌, ◌≤◌, ◌∷◌, [], All, IfSome, List, false, map, ℕ};
ghost use Rattle.std.specs.List.Sorted.{IsPermutation};
ghost use Rattle.std.specs.Str.{bytes_eq};
ghost use Rattle.fw_allocate.specs.Costs.{CostValue, total};
ghost use Rattle.fw_amortise.specs.LineValue.{LineValue};
ghost use Rattle.fw_entry.specs.Entry as entry;
ghost use Rattle.fw_entry.specs.Spelling.{IsEntry};
ghost use Rattle.fw_query.specs.Limits.{most_total};
ghost use Rattle.fw_query.specs.OfHistory.{AreLinesOf, IsReportOn};
ghost use Rattle.fw_query.specs.Reports.{AreChargedBy, EntryValue, IsTooLarge, PassesIn, entries_of};
ghost use Rattle.fw_shards.specs.Added.{AreDirectOnEach, IsDirectOn, all_of, direct_of, direct_size, directs};
ghost use Rattle.fw_shards.specs.Asked.{AreLinesOfEach, AreShardsOf, AskedValue, HoldHours};
ghost use Rattle.fw_snapshot.specs.History.{commitments_of, policy_of, rows_of};
ghost use Rattle.fw_sums.specs.Costs.{Cost, costs_of, sum_in};
ghost use Rattle.fw_sums.specs.RangeLines.{joined};
ghost use Rattle.fw_sums.specs.Totals.{AreTotals};

use fw_query::there_are_lines;

/// The lines of shards, each in the hours that it is asked for, are those of one warehouse that holds all, each once. So under each key what a group
/// was billed there, and what it cost, are the sums of what it was billed, and cost, by the shards.
pub fn shards_add_up()
    ensures lines { (whole : List entry.EntryValue) (from to : ℕ) (asked : List AskedValue) (lines :
        List LineValue) (each : List (List LineValue)) → AreShardsOf whole from to asked →
        AreLinesOf whole from to lines → AreLinesOfEach asked each → IsPermutation (joined each)
        lines }
    ensures billed { (whole : List entry.EntryValue) (from to : ℕ) (asked : List AskedValue) (key :
        List ℕ) (lines : List LineValue) (each : List (List LineValue)) → AreShardsOf whole from to
        asked → AreLinesOf whole from to lines → AreLinesOfEach asked each → (group : List ℕ) →
        sum_in (λ c. c.billed) (costs_of key lines) group ≡ total (map (λ ls. sum_in (λ c. c.billed)
        (costs_of key ls) group) each) }
    ensures direct { (whole : List entry.EntryValue) (from to : ℕ) (asked : List AskedValue) (key :
        List ℕ) (lines : List LineValue) (each : List (List LineValue)) → AreShardsOf whole from to
        asked → AreLinesOf whole from to lines → AreLinesOfEach asked each → (group : List ℕ) →
        sum_in (λ c. c.effective) (costs_of key lines) group ≡ total (map (λ ls. sum_in (λ c.
        c.effective) (costs_of key ls) group) each) }
{}

/// What the direct reports of shards add up to is the direct report of one warehouse that holds all; what [`charged`](crate::charged) makes of it
/// under the policy of that warehouse is its report; and where they pass the most of a report at a group, its costs do.
pub fn the_sum_is_the_report()
    ensures direct { (whole : List entry.EntryValue) (from to : ℕ) (asked : List AskedValue) (key :
        List ℕ) (reports : List (List Cost)) (sum : List Cost) → All IsEntry whole → AreShardsOf
        whole from to asked → AreDirectOnEach key asked reports → AreTotals (all_of reports) sum →
        IsDirectOn whole key from to sum }
    ensures charged { (whole : List entry.EntryValue) (from to : ℕ) (asked : List AskedValue) (key :
        List ℕ) (reports : List (List Cost)) (sum : List Cost) (charged : List CostValue) → All
        IsEntry whole → AreShardsOf whole from to asked → AreDirectOnEach key asked reports →
        AreTotals (all_of reports) sum → direct_size sum ≤ most_total → AreChargedBy (policy_of
        whole) key (directs sum) charged → IsReportOn whole key from to (entries_of sum charged) }
    ensures too_large { (whole : List entry.EntryValue) (from to : ℕ) (asked : List AskedValue) (key
        : List ℕ) (reports : List (List Cost)) (group : List ℕ) → All IsEntry whole → AreShardsOf
        whole from to asked → AreDirectOnEach key asked reports → PassesIn (all_of reports) group →
        IsTooLarge (commitments_of whole) (rows_of whole) key from to group }
{
    there_are_lines();
}

/// Where no policy for the key was set, a report is a direct report, but for what its groups are charged: so what a shard without a policy answers is.
pub fn reports_are_direct()
    ensures { (history : List entry.EntryValue) (key : List ℕ) (from to : ℕ) (report : List
        EntryValue) → IfSome (policy_of history) (λ policy. bytes_eq policy.key key ≡ false) →
        IsReportOn history key from to report → IsDirectOn history key from to (map direct_of
        report) }
{}

/// The plain case: where each hour of a range is held by the one shard that is asked for it, and the commitments are the same everywhere, these are
/// shards of one warehouse. So is one warehouse that is asked for the hours before an hour, and then for those from it on.
pub fn whole_hours_are_shards()
    ensures hours { (whole : List entry.EntryValue) (from to : ℕ) (asked : List AskedValue) →
        HoldHours whole from to asked → AreShardsOf whole from to asked }
    ensures cut { (history : List entry.EntryValue) (from mid to : ℕ) → from ≤ mid → mid ≤ to →
        HoldHours history from to (record { history = history; from = from; to = mid } ∷ (record {
          history = history;
          from = mid;
          to = to;
        } ∷ [])) }
{}
