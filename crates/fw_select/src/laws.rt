//! What holds of every selection: laws, each the contract of a function that does nothing.
ghost use Rattle.std.specs.Prelude.{◌≡◌, ℕ, ◌++◌, List};
ghost use Rattle.fw_amortise.specs.LineValue.{LineValue};
ghost use Rattle.fw_sums.specs.Costs as sums;
ghost use Rattle.fw_select.specs.Groups.{AreTotals, GroupCost};
ghost use Rattle.fw_select.specs.Laws.{AreSplit, IsOneTag, IsPlain, IsWithout, mapped_group, of_one_text, regrouped, without};
ghost use Rattle.fw_select.specs.Selections.{IsSelectionOf};
ghost use Rattle.fw_select.specs.Selectors.{costs_of};
ghost use Rattle.fw_select.specs.declared.selector.Selector.{Selector};

/// The groups of several keys, with one of the keys left out, add up to the groups of the others.
pub fn fewer_keys_have_the_sums_of_more()
    ensures { (place : ℕ) (fewer s : Selector) (lines : List LineValue) (few groups : List
        GroupCost)
        → IsWithout place fewer s → IsSelectionOf s lines groups → IsSelectionOf fewer lines few
        → AreTotals (regrouped (without place) groups) few }
{}

/// The groups of values as they are, each under what the maps of the keys make of it, add up to the groups of the mapped values.
pub fn mapped_groups_are_sums()
    ensures { (unmapped s : Selector) (lines : List LineValue) (plain groups : List GroupCost)
        → IsPlain unmapped s → IsSelectionOf unmapped lines plain → IsSelectionOf s lines groups
        → AreTotals (regrouped (mapped_group s.keys.now) plain) groups }
{}

/// A filter and its opposite, one of which holds of each line: their groups, added up, are those without either.
pub fn a_filter_and_its_opposite_sum_to_the_whole()
    ensures { (yes no s : Selector) (lines : List LineValue) (a b all : List GroupCost)
        → AreSplit yes no s → IsSelectionOf yes lines a → IsSelectionOf no lines b
        → IsSelectionOf s lines all → AreTotals (a ++ b) all }
{}

/// A selector of one tag, without maps and filters, counts of lines what a report by that tag does: each line, with both of its costs, in the group
/// of its text of the tag.
pub fn one_tag_counts_as_a_report_does()
    ensures { (name : List ℕ) (s : Selector) (lines : List LineValue)
        → IsOneTag name s → costs_of s lines ≡ of_one_text (sums.costs_of name lines) }
{}
