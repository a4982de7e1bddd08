//! What holds of every report, and of the lines that it sums: laws, each the contract of a function that does nothing.
ghost use Rattle.std.specs.Prelude.{◌≡◌, ◌≤◌, ◌↔◌, ◌+◌, ◌++◌, ◌∷◌, [], All, IfSome, List, Option, Result, Some, codes, filter, map, pos, slice_get, true, ℕ};
ghost use Rattle.fw_allocate.specs.Costs.{total};
ghost use Rattle.fw_amortise.specs.Carrying.{cost_of_all};
ghost use Rattle.fw_amortise.specs.LineValue.{LineValue};
ghost use Rattle.fw_charge.specs.Codes.{category_word};
ghost use Rattle.fw_entry.specs.Entry as entry;
ghost use Rattle.fw_entry.specs.Entry.CommandValue.{withdraw};
ghost use Rattle.fw_entry.specs.Spelling.{IsEntry};
ghost use Rattle.fw_query.specs.Accounted.{AreAccountedBetween};
ghost use Rattle.fw_query.specs.Carried.{amount_between, billed_by_all, cost_between, shows_purchase_of, shows_share_of};
ghost use Rattle.fw_query.specs.Elsewhere.{HasNoRowBetween};
ghost use Rattle.fw_query.specs.OfHistory.{AreLinesOf, IsReportOn};
ghost use Rattle.fw_query.specs.OneAnswer.{IsAnswer, IsSameAnswer};
ghost use Rattle.fw_query.specs.Reports.{EntryValue, IsReportOf};
ghost use Rattle.fw_query.specs.Texts.{id_text, lines_text};
ghost use Rattle.fw_query.specs.declared.fault.QueryFault.{QueryFault};
ghost use Rattle.fw_snapshot.specs.History.{commitments_of, rows_of};
ghost use Rattle.fw_snapshot.specs.Judging.{IsLegal, judged};
ghost use Rattle.fw_snapshot.specs.declared.verdict.Verdict.TheVariants as verdict;
ghost use Rattle.fw_terms.specs.Commitment.{CommitmentValue, cost_of};
ghost use Rattle.fw_terms.specs.Policy.{IsPolicy, PolicyValue};

/// A report charges what its lines cost, under any policy or none: what its groups are charged sums to the EffectiveCost of its lines.
pub fn reports_keep_the_total()
    ensures { (policy : Option PolicyValue) (key : List ℕ) (lines : List LineValue)
        (entries : List EntryValue) → IfSome policy IsPolicy → IsReportOf policy key lines entries
        → total (map (λ e. e.charged) entries) ≡ total (map (λ l. l.effective) lines) }
{}

/// What the groups of a report are charged sums to what they cost directly, whichever policy was set, or none. What they cost directly sums to the
/// EffectiveCost of the lines of its hours, and what they were billed to the BilledCost of these lines: no line is left out, and none is
/// counted twice.
pub fn charged_is_direct()
    ensures charged { (history : List entry.EntryValue) (key : List ℕ) (from to : ℕ)
        (report : List EntryValue) → All IsEntry history → IsReportOn history key from to report
        → total (map (λ e. e.charged) report) ≡ total (map (λ e. e.direct) report) }
    ensures direct { (history : List entry.EntryValue) (key : List ℕ) (from to : ℕ)
        (lines : List LineValue) (report : List EntryValue) → AreLinesOf history from to lines
        → IsReportOn history key from to report
        → total (map (λ e. e.direct) report) ≡ total (map (λ l. l.effective) lines) }
    ensures billed { (history : List entry.EntryValue) (key : List ℕ) (from to : ℕ)
        (lines : List LineValue) (report : List EntryValue) → AreLinesOf history from to lines
        → IsReportOn history key from to report
        → total (map (λ e. e.billed) report) ≡ total (map (λ l. l.billed) lines) }
{}

/// The accepted entries and the query determine the answer: two answers of [`report`](crate::report) are one report, or the same fault with the
/// same group, unless one of them is that memory ran out. So do the entries and the hours determine the lines, and the text of
/// [`lines_csv`](crate::lines_csv).
pub fn answers_are_one()
    ensures reports { (history : List entry.EntryValue) (key : List ℕ) (from to : ℕ)
        (a b : Result (List EntryValue) QueryFault) → IsAnswer history key from to a
        → IsAnswer history key from to b → IsSameAnswer a b }
    ensures lines { (history : List entry.EntryValue) (from to : ℕ) (a b : List LineValue)
        → AreLinesOf history from to a → AreLinesOf history from to b → a ≡ b }
    ensures texts { (history : List entry.EntryValue) (from to : ℕ) (a b : List LineValue)
        (s t : List ℕ) → AreLinesOf history from to a → AreLinesOf history from to b
        → s ≡ lines_text a → t ≡ lines_text b → s ≡ t }
{}

/// Over the hours of its term a commitment's lines carry what its purchases cost, to the last nano: of the lines that a report sums, those whose text
/// has its id and a status. In any range they carry the amounts of the hours there. And the lines of its purchases, those whose text has
/// its id and the category `Purchase`, have an EffectiveCost of 0, and are billed what its purchases in the hours of the range cost; those that carry its
/// amounts are billed nothing. Purchases that were added to the commitment later are among its purchases: they are spread over every hour of the
/// term, and so change the amounts of past hours too.
pub fn commitments_are_carried()
    ensures hours { (history : List entry.EntryValue) (from to : ℕ) (lines : List LineValue)
        (place : ℕ) (c : CommitmentValue) → IsLegal history → AreLinesOf history from to lines
        → slice_get (commitments_of history) place ≡ Some c
        → cost_of_all (filter (shows_share_of c.id) lines) ≡ pos (amount_between c from to) }
    ensures term { (history : List entry.EntryValue) (from to : ℕ) (lines : List LineValue)
        (place : ℕ) (c : CommitmentValue) → IsLegal history → All IsEntry history
        → AreLinesOf history from to lines → slice_get (commitments_of history) place ≡ Some c
        → from ≤ c.start → c.start + c.hours ≤ to
        → cost_of_all (filter (shows_share_of c.id) lines) ≡ pos (cost_of c.purchases) }
    ensures purchases { (history : List entry.EntryValue) (from to : ℕ) (lines : List LineValue)
        (place : ℕ) (c : CommitmentValue) → IsLegal history → All IsEntry history
        → AreLinesOf history from to lines → slice_get (commitments_of history) place ≡ Some c
        → All (λ line. category_word line.category ≡ codes "Purchase"
        → id_text line.commitment ≡ c.id → line.effective ≡ pos 0) lines }
    ensures bought { (history : List entry.EntryValue) (from to : ℕ) (lines : List LineValue)
        (place : ℕ) (c : CommitmentValue) → IsLegal history → All IsEntry history → from ≤ to
        → AreLinesOf history from to lines → slice_get (commitments_of history) place ≡ Some c
        → billed_by_all (filter (shows_purchase_of c.id) lines) ≡ pos (cost_between c from to) }
    ensures unbilled { (history : List entry.EntryValue) (from to : ℕ) (lines : List LineValue)
        (place : ℕ) (c : CommitmentValue) → IsLegal history → AreLinesOf history from to lines
        → slice_get (commitments_of history) place ≡ Some c
        → All (λ line. shows_share_of c.id line ≡ true → line.billed ≡ pos 0) lines }
{}

/// There are lines of each range of hours, whatever entries that keep their limits were accepted: so the laws of lines speak of some. By
/// [`answers_are_one`] they are the only ones. That memory is there to make them no law says.
pub fn there_are_lines()
    ensures { (history : List entry.EntryValue) (from to : ℕ) → All IsEntry history
        → (lines : List LineValue) × AreLinesOf history from to lines }
{}

/// No row is left out of the lines of its hour, and none is counted twice. The rows of a range are those of its hours, each in one hour; and of each, in
/// its hour, either one line is it, as it was given, or the quantities of its lines, used and rest, sum to its quantity. Each purchase of an hour is
/// one line, also one that was added to its commitment later. Each line comes from one purchase, one row, or one commitment.
pub fn rows_are_counted_once()
    ensures { (history : List entry.EntryValue) (from to : ℕ) (lines : List LineValue) → from ≤ to
        → AreLinesOf history from to lines
        → AreAccountedBetween (commitments_of history) (rows_of history) from to lines }
{}

/// A withdrawal changes nothing in hours in which the withdrawn post has no row: where the entry is accepted after these, the lines of the hours, and
/// the reports on them, are the same before and after it. By [`answers_are_one`] there is one answer before, and it is the one after.
pub fn what_is_withdrawn_changes_no_other_hours()
    ensures lines { (history : List entry.EntryValue) (withdrawal : entry.EntryValue)
        (seq from to : ℕ) (lines : List LineValue) → IsLegal history
        → judged history withdrawal ≡ verdict.Accept → withdrawal.command ≡ withdraw seq
        → HasNoRowBetween from to withdrawal.origin seq history
        → (AreLinesOf history from to lines
        ↔ AreLinesOf (history ++ withdrawal ∷ []) from to lines) }
    ensures reports { (history : List entry.EntryValue) (withdrawal : entry.EntryValue) (seq : ℕ)
        (key : List ℕ) (from to : ℕ) (report : List EntryValue) → IsLegal history
        → judged history withdrawal ≡ verdict.Accept → withdrawal.command ≡ withdraw seq
        → HasNoRowBetween from to withdrawal.origin seq history
        → (IsReportOn history key from to report
        ↔ IsReportOn (history ++ withdrawal ∷ []) key from to report) }
{}
