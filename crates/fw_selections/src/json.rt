//! Selections as JSON.
ghost use Rattle.std.specs.Prelude.{◌≡◌, ◌++◌, IfOk, OnOk, Some, map, option_copied, string_bytes};
ghost use Rattle.serde_json.specs.Data.{string};
ghost use Rattle.serde_json.specs.Written.{compact_text};
ghost use Rattle.fw_selections.specs.JsonMembers.{WritesAll, WritesHead, WritesHours, WritesPart, WritesParts, WritesPeriods, WritesSelections, comma_at, later_members, listed, member_text, members_line};
ghost use Rattle.fw_selections.specs.JsonText.{IsJsonText, costs_members, key_members, columns_of, keyed_rows, row_object, selection_members, step_word, sum_members};
ghost use Rattle.fw_selections.specs.Shown.{is_chosen, row_value};

use crate::csv_text::{kind_of, text_at};
use crate::parts::{SelectedPart, Selections};
use crate::rows::{Costs, Row, Shown, all_costs, largest, rows_of};
use crate::sheet::{KeyName, Sheet};
use fw_calendar::{Period, Step, hour_text};
use fw_select::Selection;
use serde_json::Value;
use std::alloc::{AllocError, Global};

/// Selections as one object of JSON, ended by a line feed. Amounts are strings, exact to the nano.
pub(crate) fn json_text(
    alloc: Global,
    selections: &Selections,
    sheet: &Sheet<'_, '_, '_>,
) -> Result<String, AllocError>
    ensures { IfOk result (λ text. IsJsonText selections.now sheet.now (string_bytes text)) }
{
    let mut text = String::new(alloc);
    push_head(alloc, &mut text, sheet)?;
    push_selections(alloc, &mut text, selections, sheet)?;
    text.push_str("}\n")?;
    Ok(text)
}

// A text as a string of JSON, quotes and all.
fn json_string(alloc: Global, text: &str) -> Result<String, AllocError>
    ensures { IfOk result (λ s. string_bytes s ≡ compact_text (string text.now)) }
{
    Value::String(String::from_str(alloc, text)?).to_string(alloc)
}

// Adds the brace, what was asked, and the comma behind it.
fn push_head(alloc: Global, text: &mut String, sheet: &Sheet<'_, '_, '_>) -> Result<(), AllocError>
    ensures { OnOk result (WritesHead (string_bytes text.old) (string_bytes text.new) sheet.now) }
{
    let currency = json_string(alloc, sheet.currency)?;
    text.push_str("{\"keys\":[")?;
    push_names(alloc, text, sheet.keys)?;
    text.push_str("],\"currency\":")?;
    text.push_str(currency.as_str())?;
    text.push_str(",")?;
    push_hours(alloc, text, sheet.hours)?;
    text.push_str(",")?;
    Ok(())
}

// Adds the names of keys.
fn push_names(alloc: Global, text: &mut String, keys: &[KeyName<'_>]) -> Result<(), AllocError>
    ensures { OnOk result (string_bytes text.new ≡ string_bytes text.old
        ++ listed (map (λ key. compact_text (string key.name.now)) keys.now)) }
{
    for (place, key) in keys.iter().enumerate() {
        push_comma(text, place)?;
        let name = json_string(alloc, key.name)?;
        text.push_str(name.as_str())?;
    }
    Ok(())
}

// Adds the comma before what stands at a place.
fn push_comma(text: &mut String, place: usize) -> Result<(), AllocError>
    ensures { OnOk result (string_bytes text.new ≡ string_bytes text.old ++ comma_at place) }
{
    if place == 0 {
        return Ok(());
    }
    text.push_str(",")
}

// Adds the members of a range of hours.
fn push_hours(alloc: Global, text: &mut String, hours: Period) -> Result<(), AllocError>
    ensures { OnOk result (WritesHours (string_bytes text.old) (string_bytes text.new) hours) }
{
    let first = hour_text(alloc, hours.from)?;
    let end = hour_text(alloc, hours.to)?;
    let from = json_string(alloc, first.as_str())?;
    let to = json_string(alloc, end.as_str())?;
    text.push_str("\"from\":")?;
    text.push_str(from.as_str())?;
    text.push_str(",\"to\":")?;
    text.push_str(to.as_str())?;
    Ok(())
}

// Adds the members of all groups, or of the largest.
fn push_selections(
    alloc: Global,
    text: &mut String,
    selections: &Selections,
    sheet: &Sheet<'_, '_, '_>,
) -> Result<(), AllocError>
    ensures { OnOk result (WritesSelections (string_bytes text.old) (string_bytes text.new)
        selections.now sheet.now) }
{
    match sheet.top {
        Some(count) => {
            let chosen = largest(alloc, &selections.whole, count)?;
            let shown = Shown::of(chosen.as_slice());
            push_all(alloc, text, selections, sheet, shown)
        }
        None => push_all(alloc, text, selections, sheet, Shown::all()),
    }
}

// Adds the members of the whole range, and the objects of its periods.
fn push_all(
    alloc: Global,
    text: &mut String,
    selections: &Selections,
    sheet: &Sheet<'_, '_, '_>,
    chosen: Shown<'_>,
) -> Result<(), AllocError>
    ensures { OnOk result (WritesAll (string_bytes text.old) (string_bytes text.new)
        selections.now sheet.now (is_chosen chosen.entry)) }
{
    push_selection(alloc, text, &selections.whole, sheet, chosen)?;
    push_periods(alloc, text, selections.parts.as_slice(), sheet, chosen)?;
    Ok(())
}

// Adds the members of the periods, where there are such, each with a comma in front.
fn push_periods(
    alloc: Global,
    text: &mut String,
    parts: &[SelectedPart],
    sheet: &Sheet<'_, '_, '_>,
    chosen: Shown<'_>,
) -> Result<(), AllocError>
    ensures { OnOk result (WritesPeriods (string_bytes text.old) (string_bytes text.new)
        (columns_of sheet.now) (is_chosen chosen.entry) sheet.now.step parts.now) }
{
    match sheet.step {
        Some(step) => push_cut(alloc, text, step, parts, sheet, chosen),
        None => Ok(()),
    }
}

// Adds the members of the periods of a step, each with a comma in front.
fn push_cut(
    alloc: Global,
    text: &mut String,
    step: Step,
    parts: &[SelectedPart],
    sheet: &Sheet<'_, '_, '_>,
    chosen: Shown<'_>,
) -> Result<(), AllocError>
    ensures { OnOk result (WritesPeriods (string_bytes text.old) (string_bytes text.new)
        (columns_of sheet.now) (is_chosen chosen.entry) (Some step) parts.now) }
{
    text.push_str(",\"by\":\"")?;
    text.push_str(word_of(step))?;
    text.push_str("\",\"periods\":[")?;
    push_parts(alloc, text, parts, sheet, chosen)?;
    text.push_str("]")?;
    Ok(())
}

// The word for a step.
fn word_of(step: Step) -> &'static str
    ensures { result.now ≡ step_word step }
{
    match step {
        Step::Hour => "hour",
        Step::Day => "day",
        Step::Month => "month",
    }
}

// Adds the objects of periods.
fn push_parts(
    alloc: Global,
    text: &mut String,
    parts: &[SelectedPart],
    sheet: &Sheet<'_, '_, '_>,
    chosen: Shown<'_>,
) -> Result<(), AllocError>
    ensures { OnOk result (WritesParts (string_bytes text.old) (string_bytes text.new)
        (columns_of sheet.now) (is_chosen chosen.entry) parts.now) }
{
    for (place, part) in parts.iter().enumerate() {
        push_comma(text, place)?;
        push_part(alloc, text, part, sheet, chosen)?;
    }
    Ok(())
}

// Adds the object of a period.
fn push_part(
    alloc: Global,
    text: &mut String,
    part: &SelectedPart,
    sheet: &Sheet<'_, '_, '_>,
    chosen: Shown<'_>,
) -> Result<(), AllocError>
    ensures { OnOk result (WritesPart (string_bytes text.old) (string_bytes text.new)
        (columns_of sheet.now) (is_chosen chosen.entry) part.now) }
{
    text.push_str("{")?;
    push_hours(alloc, text, part.period)?;
    text.push_str(",")?;
    push_selection(alloc, text, &part.selection, sheet, chosen)?;
    text.push_str("}")?;
    Ok(())
}

// Adds the members of a selection: its rows, and the sums of all its groups.
fn push_selection(
    alloc: Global,
    text: &mut String,
    selection: &Selection,
    sheet: &Sheet<'_, '_, '_>,
    chosen: Shown<'_>,
) -> Result<(), AllocError>
    ensures { OnOk result (string_bytes text.new ≡ string_bytes text.old ++ members_line
        (selection_members (columns_of sheet.now) (is_chosen chosen.entry) selection.now)) }
{
    let all = all_costs(selection)?;
    text.push_str("\"groups\":[")?;
    push_groups(alloc, text, selection, sheet, chosen)?;
    text.push_str("],\"total\":{")?;
    push_costs(alloc, text, sheet.sum, all)?;
    text.push_str("}")?;
    Ok(())
}

// Adds the objects of the rows of a selection: none without keys.
fn push_groups(
    alloc: Global,
    text: &mut String,
    selection: &Selection,
    sheet: &Sheet<'_, '_, '_>,
    chosen: Shown<'_>,
) -> Result<(), AllocError>
    ensures { OnOk result (string_bytes text.new ≡ string_bytes text.old ++ listed
        (map (λ row. compact_text (row_object (columns_of sheet.now) row))
        (keyed_rows (columns_of sheet.now).keys (is_chosen chosen.entry) selection.now))) }
{
    if sheet.keys.is_empty() {
        return Ok(());
    }
    let rows = rows_of(alloc, selection, chosen)?;
    push_rows(alloc, text, sheet, rows.as_slice())?;
    Ok(())
}

// Adds the objects of rows.
fn push_rows(
    alloc: Global,
    text: &mut String,
    sheet: &Sheet<'_, '_, '_>,
    rows: &[Row<'_>],
) -> Result<(), AllocError>
    ensures { OnOk result (string_bytes text.new ≡ string_bytes text.old ++ listed
        (map (λ row. compact_text (row_object (columns_of sheet.now) (row_value row)))
        rows.now)) }
{
    for (place, row) in rows.iter().enumerate() {
        push_comma(text, place)?;
        push_row(alloc, text, sheet, row)?;
    }
    Ok(())
}

// Adds the object of a row.
fn push_row(
    alloc: Global,
    text: &mut String,
    sheet: &Sheet<'_, '_, '_>,
    row: &Row<'_>,
) -> Result<(), AllocError>
    ensures { OnOk result (string_bytes text.new ≡ string_bytes text.old
        ++ compact_text (row_object (columns_of sheet.now) (row_value row.now))) }
{
    text.push_str("{\"keys\":{")?;
    push_keys(alloc, text, sheet.keys, row)?;
    text.push_str("},\"kind\":\"")?;
    text.push_str(kind_of(row))?;
    text.push_str("\",")?;
    push_costs(alloc, text, sheet.sum, row.costs)?;
    text.push_str("}")?;
    Ok(())
}

// Adds the texts of a row as members, each under the name of its key.
fn push_keys(
    alloc: Global,
    text: &mut String,
    keys: &[KeyName<'_>],
    row: &Row<'_>,
) -> Result<(), AllocError>
    ensures { OnOk result (string_bytes text.new ≡ string_bytes text.old ++ members_line
        (key_members (map (λ key. key.name.now) keys.now) (row_value row.now).texts)) }
{
    for (place, key) in keys.iter().enumerate() {
        push_comma(text, place)?;
        push_member(alloc, text, key.name, text_at(row, place))?;
    }
    Ok(())
}

// Adds a text as a member under a name.
fn push_member(alloc: Global, text: &mut String, name: &str, value: &str) -> Result<(), AllocError>
    ensures { OnOk result (string_bytes text.new ≡ string_bytes text.old
        ++ member_text (name.now, string value.now)) }
{
    let name = json_string(alloc, name)?;
    let value = json_string(alloc, value)?;
    text.push_str(name.as_str())?;
    text.push_str(":")?;
    text.push_str(value.as_str())?;
    Ok(())
}

// Adds the members of costs, and of the sum of a tag's amounts, where a tag has amounts.
fn push_costs(
    alloc: Global,
    text: &mut String,
    sum: Option<&str>,
    costs: Costs,
) -> Result<(), AllocError>
    ensures { OnOk result (string_bytes text.new ≡ string_bytes text.old
        ++ members_line (costs_members (option_copied sum.entry) costs)) }
{
    let billed = fw_money::text(alloc, costs.billed)?;
    let effective = fw_money::text(alloc, costs.effective)?;
    text.push_str("\"billed\":\"")?;
    text.push_str(billed.as_str())?;
    text.push_str("\",\"effective\":\"")?;
    text.push_str(effective.as_str())?;
    text.push_str("\"")?;
    push_sum(alloc, text, sum, costs)?;
    Ok(())
}

// Adds the member of the sum of a tag's amounts with a comma in front, where a tag has amounts.
fn push_sum(
    alloc: Global,
    text: &mut String,
    sum: Option<&str>,
    costs: Costs,
) -> Result<(), AllocError>
    ensures { OnOk result (string_bytes text.new ≡ string_bytes text.old
        ++ later_members (sum_members (option_copied sum.entry) costs.amount)) }
{
    match sum {
        Some(tag) => push_sum_of(alloc, text, tag, costs),
        None => Ok(()),
    }
}

// Adds the member of the sum of a tag's amounts with a comma in front.
fn push_sum_of(alloc: Global, text: &mut String, tag: &str, costs: Costs) -> Result<(), AllocError>
    ensures { OnOk result (string_bytes text.new ≡ string_bytes text.old
        ++ later_members (sum_members (Some tag.now) costs.amount)) }
{
    let amount = fw_money::text(alloc, costs.amount)?;
    text.push_str(",\"sums\":{")?;
    push_member(alloc, text, tag, amount.as_str())?;
    text.push_str("}")?;
    Ok(())
}
