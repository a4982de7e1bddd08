//! What holds of every series and of its lines: laws, each the contract of a function that does nothing.
ghost use Rattle.std.specs.Prelude.{◌≡◌, All, List, false, ℕ};
ghost use Rattle.std.specs.List.{list_any};
ghost use Rattle.fw_calendar.specs.declared.steps.Step.{Step};
ghost use Rattle.fw_entry.specs.Entry as entry;
ghost use Rattle.fw_entry.specs.Spelling.{IsEntry};
ghost use Rattle.fw_query.specs.OfHistory.{IsReportOn};
ghost use Rattle.fw_query.specs.Reports.{EntryValue};
ghost use Rattle.fw_series.specs.Escapes.{escaped, is_markup};
ghost use Rattle.fw_series.specs.Lines.{AreLines, LineValue, Names, billed_on, charged_on, direct_on};
ghost use Rattle.fw_series.specs.Series.{AreParts, billed_of_parts, charged_of_parts, direct_of_parts};
ghost use Rattle.fw_series.specs.declared.series.Part.{Part};
ghost use Rattle.fw_series.specs.Sums.{billed_in, charged_in, direct_in};

/// The lines of a report sum to what all of its groups cost, whichever groups have a line of their own.
pub fn lines_keep_the_sums()
    ensures billed { (names : Names) (entries : List EntryValue) (lines : List LineValue)
        → AreLines names entries lines → billed_on lines ≡ billed_in entries }
    ensures direct { (names : Names) (entries : List EntryValue) (lines : List LineValue)
        → AreLines names entries lines → direct_on lines ≡ direct_in entries }
    ensures charged { (names : Names) (entries : List EntryValue) (lines : List LineValue)
        → AreLines names entries lines → charged_on lines ≡ charged_in entries }
{}

/// The sums of the periods are those of the whole range: of BilledCost, of EffectiveCost and of what is charged, over all groups. Under a policy a
/// group's own charges needn't be: each period shares its common costs, and rounds, on its own.
pub fn periods_sum_to_the_whole()
    ensures billed { (history : List entry.EntryValue) (key : List ℕ) (from to : ℕ)
        (step : Step) (whole : List EntryValue) (parts : List Part)
        → IsReportOn history key from to whole
        → AreParts history key from to step parts
        → billed_in whole ≡ billed_of_parts parts }
    ensures direct { (history : List entry.EntryValue) (key : List ℕ) (from to : ℕ)
        (step : Step) (whole : List EntryValue) (parts : List Part)
        → IsReportOn history key from to whole
        → AreParts history key from to step parts
        → direct_in whole ≡ direct_of_parts parts }
    ensures charged { (history : List entry.EntryValue) (key : List ℕ) (from to : ℕ)
        (step : Step) (whole : List EntryValue) (parts : List Part)
        → All IsEntry history
        → IsReportOn history key from to whole
        → AreParts history key from to step parts
        → charged_in whole ≡ charged_of_parts parts }
{}

/// No byte of a text in a page begins or ends a tag, or ends a value in quotes.
pub fn escaped_is_no_markup()
    ensures { (text : List ℕ) → list_any is_markup (escaped text) ≡ false }
{}
