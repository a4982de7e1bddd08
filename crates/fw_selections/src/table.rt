//! Selections as tables.
ghost use Rattle.std.specs.Prelude.{◌≡◌, ◌++◌, ◌∷◌, [], IfOk, OnOk, codes, if◌then◌else◌, map, option_copied, replicate, string_bytes};
ghost use Rattle.std.specs.Option.{is_some};
ghost use Rattle.fw_selections.specs.Lines.{AddsCosts, AddsPart, AddsParts, AddsRows, AddsShown, AddsSum};
ghost use Rattle.fw_selections.specs.Shown.{costs_of, is_chosen, row_value};
ghost use Rattle.fw_selections.specs.TableText.{AreGroupLines, AreLines, ArePeriod, AreSums, IsCosts, IsRow, IsTotal, blanks, cells, heads, is_sums, line_value, shown_at, shown_under};
ghost use Rattle.fw_selections.specs.CsvText.{in_sum};
ghost use Rattle.fw_selections.specs.Written.{parts_by, sum_name};
ghost use Rattle.fw_table.specs.Shown.{AreShownLines};

use crate::parts::{SelectedPart, Selections};
use crate::rows::{Costs, Row, Shown, all_costs, largest, rows_under};
use crate::sheet::{KeyName, OTHERS, Sheet};
use fw_calendar::{Period, Step};
use fw_select::Selection;
use fw_table::{Align, Line, cents_text, share_text, table_text};
use std::alloc::{AllocError, Global};

/// Selections as a table: a line for each group, of each period where there are periods, with its share of the EffectiveCost of the period, and a
/// line with the sums of the whole range. No text of it acts on a terminal.
pub(crate) fn table_of(
    alloc: Global,
    selections: &Selections,
    sheet: &Sheet<'_, '_, '_>,
) -> Result<String, AllocError>
    ensures { IfOk result (λ text. AreShownLines (string_bytes text)) }
{
    let lines = lines_of(alloc, selections, sheet)?;
    let aligns = aligns_of(alloc, sheet)?;
    table_text(alloc, aligns.as_slice(), lines.as_slice())
}

// Whether only sums are asked for.
fn is_sums(sheet: &Sheet<'_, '_, '_>) -> bool
    ensures { result ≡ is_sums sheet.now }
{
    sheet.keys.is_empty() && sheet.step.is_none()
}

// Whether the range is cut.
fn is_cut(sheet: &Sheet<'_, '_, '_>) -> bool
    ensures { result ≡ is_some sheet.now.step }
{
    sheet.step.is_some()
}

// How the columns line up: those of texts, and those of amounts.
fn aligns_of(alloc: Global, sheet: &Sheet<'_, '_, '_>) -> Result<Vec<Align>, AllocError> {
    let mut aligns = Vec::new(alloc);
    if is_cut(sheet) {
        aligns.push(Align::Left)?;
    }
    for _key in sheet.keys {
        aligns.push(Align::Left)?;
    }
    aligns.push(Align::Right)?;
    aligns.push(Align::Right)?;
    if !is_sums(sheet) {
        aligns.push(Align::Right)?;
    }
    if sheet.sum.is_some() {
        aligns.push(Align::Right)?;
    }
    Ok(aligns)
}

// The lines of the table.
fn lines_of(
    alloc: Global,
    selections: &Selections,
    sheet: &Sheet<'_, '_, '_>,
) -> Result<Vec<Line>, AllocError>
    ensures { IfOk result (λ lines. AreLines (is_sums sheet.now) selections.now sheet.now
        (map line_value lines.items)) }
{
    if is_sums(sheet) {
        return sums_lines(alloc, sheet, &selections.whole);
    }
    group_lines(alloc, selections, sheet)
}

// The lines of costs alone.
fn sums_lines(
    alloc: Global,
    sheet: &Sheet<'_, '_, '_>,
    selection: &Selection,
) -> Result<Vec<Line>, AllocError>
    ensures { IfOk result (λ lines. AreSums (sum_name sheet.now) (costs_of selection.now)
        (map line_value lines.items)) }
{
    let all = all_costs(selection)?;
    let mut lines = Vec::new(alloc);
    lines.push(names_line(alloc, sheet)?)?;
    lines.push(Line::Rule)?;
    lines.push(costs_line(alloc, sheet, all)?)?;
    Ok(lines)
}

// The line of the names of costs alone.
fn names_line(alloc: Global, sheet: &Sheet<'_, '_, '_>) -> Result<Line, AllocError>
    ensures { IfOk result (λ line. line_value line ≡ cells (codes "BilledCost"
        ∷ (codes "EffectiveCost" ∷ in_sum (sum_name sheet.now)))) }
{
    let mut texts = pair_of(alloc, "BilledCost", "EffectiveCost")?;
    push_sum_name(alloc, &mut texts, sheet.sum)?;
    Ok(Line::Cells(texts))
}

// The line of costs alone.
fn costs_line(alloc: Global, sheet: &Sheet<'_, '_, '_>, costs: Costs) -> Result<Line, AllocError>
    ensures { IfOk result (λ line. IsCosts (sum_name sheet.now) costs (line_value line)) }
{
    let billed = cents_text(alloc, costs.billed)?;
    let effective = cents_text(alloc, costs.effective)?;
    let mut texts = pair_of(alloc, billed.as_str(), effective.as_str())?;
    push_sum(alloc, &mut texts, sheet.sum, costs)?;
    Ok(Line::Cells(texts))
}

// Two texts.
fn pair_of(alloc: Global, first: &str, second: &str) -> Result<Vec<String>, AllocError>
    ensures { IfOk result (λ texts.
        map string_bytes texts.items ≡ first.now ∷ (second.now ∷ [])) }
{
    let mut texts = Vec::new(alloc);
    push_text(alloc, &mut texts, first)?;
    push_text(alloc, &mut texts, second)?;
    Ok(texts)
}

// Adds the tag whose amounts stand beside the costs, where one's do.
fn push_sum_name(
    alloc: Global,
    texts: &mut Vec<String>,
    sum: Option<&str>,
) -> Result<(), AllocError>
    ensures { OnOk result (map string_bytes texts.new.items
        ≡ map string_bytes texts.old.items ++ in_sum (option_copied sum.entry)) }
{
    match sum {
        Some(tag) => push_text(alloc, texts, tag),
        None => Ok(()),
    }
}

// Adds the text of the amount beside costs, where a tag has amounts.
fn push_sum(
    alloc: Global,
    texts: &mut Vec<String>,
    sum: Option<&str>,
    costs: Costs,
) -> Result<(), AllocError>
    ensures { OnOk result (AddsSum (map string_bytes texts.old.items)
        (map string_bytes texts.new.items) (option_copied sum.entry) costs) }
{
    if let Some(_tag) = sum {
        texts.push(cents_text(alloc, costs.amount)?)?;
    }
    Ok(())
}

// The lines of groups.
fn group_lines(
    alloc: Global,
    selections: &Selections,
    sheet: &Sheet<'_, '_, '_>,
) -> Result<Vec<Line>, AllocError>
    ensures { IfOk result (λ lines.
        AreGroupLines selections.now sheet.now (map line_value lines.items)) }
{
    let mut lines = Vec::new(alloc);
    lines.push(head_line(alloc, sheet)?)?;
    lines.push(Line::Rule)?;
    push_shown(alloc, &mut lines, selections, sheet)?;
    lines.push(Line::Rule)?;
    lines.push(total_line(alloc, sheet, &selections.whole)?)?;
    Ok(lines)
}

// The line of the names of the columns.
fn head_line(alloc: Global, sheet: &Sheet<'_, '_, '_>) -> Result<Line, AllocError>
    ensures { IfOk result (λ line. line_value line ≡ cells (heads sheet.now)) }
{
    let mut texts = period_head(alloc, is_cut(sheet))?;
    push_names(alloc, &mut texts, sheet.keys)?;
    push_text(alloc, &mut texts, "BilledCost")?;
    push_text(alloc, &mut texts, "EffectiveCost")?;
    push_text(alloc, &mut texts, "Share")?;
    push_sum_name(alloc, &mut texts, sheet.sum)?;
    Ok(Line::Cells(texts))
}

// The name of the column of periods, where there is one.
fn period_head(alloc: Global, has: bool) -> Result<Vec<String>, AllocError>
    ensures { IfOk result (λ texts. map string_bytes texts.items
        ≡ (if has then codes "Period" ∷ [] else [])) }
{
    let mut texts = Vec::new(alloc);
    if has {
        push_text(alloc, &mut texts, "Period")?;
    }
    Ok(texts)
}

// Adds the names of keys.
fn push_names(
    alloc: Global,
    texts: &mut Vec<String>,
    keys: &[KeyName<'_>],
) -> Result<(), AllocError>
    ensures { OnOk result (map string_bytes texts.new.items
        ≡ map string_bytes texts.old.items ++ map (λ key. key.name.now) keys.now) }
{
    for key in keys {
        push_text(alloc, texts, key.name)?;
    }
    Ok(())
}

// Adds a text.
fn push_text(alloc: Global, texts: &mut Vec<String>, text: &str) -> Result<(), AllocError>
    ensures { OnOk result (map string_bytes texts.new.items
        ≡ map string_bytes texts.old.items ++ text.now ∷ []) }
{
    texts.push(String::from_str(alloc, text)?)?;
    Ok(())
}

// Adds the lines of all groups, or of the largest.
fn push_shown(
    alloc: Global,
    lines: &mut Vec<Line>,
    selections: &Selections,
    sheet: &Sheet<'_, '_, '_>,
) -> Result<(), AllocError>
    ensures { OnOk result (AddsShown (map line_value lines.old.items)
        (map line_value lines.new.items) selections.now sheet.now) }
{
    match sheet.top {
        Some(count) => {
            let chosen = largest(alloc, &selections.whole, count)?;
            let shown = Shown::of(chosen.as_slice());
            push_all(alloc, lines, selections, sheet, shown)
        }
        None => push_all(alloc, lines, selections, sheet, Shown::all()),
    }
}

// Adds the lines of the whole range, or of each period.
fn push_all(
    alloc: Global,
    lines: &mut Vec<Line>,
    selections: &Selections,
    sheet: &Sheet<'_, '_, '_>,
    chosen: Shown<'_>,
) -> Result<(), AllocError>
    ensures { OnOk result (AddsParts (map line_value lines.old.items)
        (map line_value lines.new.items) sheet.now (is_chosen chosen.entry)
        (parts_by sheet.now.step sheet.now.hours selections.now)) }
{
    match sheet.step {
        Some(_) => push_parts(alloc, lines, selections.parts.as_slice(), sheet, chosen),
        None => {
            push_part(alloc, lines, sheet.hours, &selections.whole, sheet, chosen)?;
            Ok(())
        }
    }
}

// Adds the lines of each period.
fn push_parts(
    alloc: Global,
    lines: &mut Vec<Line>,
    parts: &[SelectedPart],
    sheet: &Sheet<'_, '_, '_>,
    chosen: Shown<'_>,
) -> Result<(), AllocError>
    ensures { OnOk result (AddsParts (map line_value lines.old.items)
        (map line_value lines.new.items) sheet.now (is_chosen chosen.entry) parts.now) }
{
    for part in parts {
        push_part(alloc, lines, part.period, &part.selection, sheet, chosen)?;
    }
    Ok(())
}

// Adds the lines of a selection of these hours.
fn push_part(
    alloc: Global,
    lines: &mut Vec<Line>,
    hours: Period,
    selection: &Selection,
    sheet: &Sheet<'_, '_, '_>,
    chosen: Shown<'_>,
) -> Result<(), AllocError>
    ensures { OnOk result (AddsPart (map line_value lines.old.items)
        (map line_value lines.new.items) sheet.now (is_chosen chosen.entry)
        (record { period = hours; selection = selection.now })) }
{
    let all = all_costs(selection)?;
    let period = period_texts(alloc, sheet.step, hours)?;
    let rows = rows_under(alloc, sheet.keys, selection, chosen)?;
    push_rows(alloc, lines, sheet, period.as_slice(), all, rows.as_slice())?;
    Ok(())
}

// The text of a period, where the range is cut.
fn period_texts(alloc: Global, step: Option<Step>, hours: Period) -> Result<Vec<String>, AllocError>
    ensures { IfOk result (λ texts. ArePeriod step hours (map string_bytes texts.items)) }
{
    let mut texts = Vec::new(alloc);
    if let Some(step) = step {
        texts.push(step.text(alloc, hours.from)?)?;
    }
    Ok(texts)
}

// Adds the lines of rows.
fn push_rows(
    alloc: Global,
    lines: &mut Vec<Line>,
    sheet: &Sheet<'_, '_, '_>,
    period: &[String],
    all: Costs,
    rows: &[Row<'_>],
) -> Result<(), AllocError>
    ensures { OnOk result (AddsRows (map line_value lines.old.items)
        (map line_value lines.new.items) sheet.now (map string_bytes period.now) all
        (map row_value rows.now)) }
{
    for row in rows {
        lines.push(row_line(alloc, sheet, period, all, row)?)?;
    }
    Ok(())
}

// The line of a row.
fn row_line(
    alloc: Global,
    sheet: &Sheet<'_, '_, '_>,
    period: &[String],
    all: Costs,
    row: &Row<'_>,
) -> Result<Line, AllocError>
    ensures { IfOk result (λ line. IsRow sheet.now (map string_bytes period.now) all
        (row_value row.now) (line_value line)) }
{
    let mut texts = copied(alloc, period)?;
    push_shown_texts(alloc, &mut texts, sheet.keys, row)?;
    push_costs(alloc, &mut texts, row.costs, all)?;
    push_sum(alloc, &mut texts, sheet.sum, row.costs)?;
    Ok(Line::Cells(texts))
}

// The same texts.
fn copied(alloc: Global, texts: &[String]) -> Result<Vec<String>, AllocError>
    ensures { IfOk result (λ copied.
        map string_bytes copied.items ≡ map string_bytes texts.now) }
{
    let mut copied = Vec::new(alloc);
    for text in texts {
        push_text(alloc, &mut copied, text.as_str())?;
    }
    Ok(copied)
}

// Adds what people see of a row under keys.
fn push_shown_texts(
    alloc: Global,
    texts: &mut Vec<String>,
    keys: &[KeyName<'_>],
    row: &Row<'_>,
) -> Result<(), AllocError>
    ensures { OnOk result (map string_bytes texts.new.items
        ≡ map string_bytes texts.old.items ++ shown_under keys.now (row_value row.now).texts) }
{
    for place in 0..keys.len() {
        push_text(alloc, texts, shown_at(keys, row, place))?;
    }
    Ok(())
}

// What people see of a row under the key at a place.
fn shown_at<'g>(keys: &[KeyName<'_>], row: &Row<'g>, place: usize) -> &'g str
    ensures { result.now ≡ shown_at keys.now (row_value row.now).texts place }
{
    let Some(texts) = row.texts else {
        return if place == 0 { OTHERS } else { "" };
    };
    match (texts.get(place), keys.get(place)) {
        (Some(text), Some(key)) => key.shown(text.as_str()),
        _ => "",
    }
}

// The line of the sums.
fn total_line(
    alloc: Global,
    sheet: &Sheet<'_, '_, '_>,
    selection: &Selection,
) -> Result<Line, AllocError>
    ensures { IfOk result (λ line. IsTotal sheet.now selection.now (line_value line)) }
{
    let all = all_costs(selection)?;
    let mut texts = Vec::new(alloc);
    push_text(alloc, &mut texts, "Total")?;
    push_blanks(alloc, &mut texts, blanks_of(sheet))?;
    push_costs(alloc, &mut texts, all, all)?;
    push_sum(alloc, &mut texts, sheet.sum, all)?;
    Ok(Line::Cells(texts))
}

// How many columns of texts stand behind the first.
fn blanks_of(sheet: &Sheet<'_, '_, '_>) -> usize
    ensures { result ≡ blanks sheet.now }
{
    if is_cut(sheet) {
        sheet.keys.len()
    } else {
        sheet.keys.len().saturating_sub(1)
    }
}

// Adds so many empty texts.
fn push_blanks(alloc: Global, texts: &mut Vec<String>, count: usize) -> Result<(), AllocError>
    ensures { OnOk result (map string_bytes texts.new.items
        ≡ map string_bytes texts.old.items ++ replicate count []) }
{
    for _place in 0..count {
        texts.push(String::new(alloc))?;
    }
    Ok(())
}

// Adds the texts of costs, and of their share of the EffectiveCost of all groups.
fn push_costs(
    alloc: Global,
    texts: &mut Vec<String>,
    costs: Costs,
    all: Costs,
) -> Result<(), AllocError>
    ensures { OnOk result (AddsCosts (map string_bytes texts.old.items)
        (map string_bytes texts.new.items) costs all) }
{
    let billed = cents_text(alloc, costs.billed)?;
    let effective = cents_text(alloc, costs.effective)?;
    let share = share_text(alloc, costs.effective, all.effective)?;
    texts.push(billed)?;
    texts.push(effective)?;
    texts.push(share)?;
    Ok(())
}
