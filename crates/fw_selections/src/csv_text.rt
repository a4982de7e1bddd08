//! Selections as CSV.
ghost use Rattle.std.specs.Prelude.{◌≡◌, ◌++◌, ◌∷◌, [], IfOk, List, OnOk, map, option_copied, option_map, string_bytes, ℕ};
ghost use Rattle.fw_query.specs.Texts.{record_line};
ghost use Rattle.fw_query.specs.Writers.{HasWritten};
ghost use Rattle.fw_selections.specs.CsvText.{IsCsvText, has_hours, header, in_front, in_sum, placed, placed_rows, sum_text};
ghost use Rattle.fw_selections.specs.Shown.{is_chosen, row_value};
ghost use Rattle.fw_selections.specs.Writing.{WritesRecords, WritesShown};
ghost use Rattle.fw_selections.specs.Written.{kind_word, parts_by, rows_in, sum_name, text_at, texts_under};

use crate::parts::{SelectedPart, Selections};
use crate::rows::{Row, Shown, largest, rows_under};
use crate::sheet::{KeyName, OTHERS, Sheet};
use csv::{Writer, WriterBuilder};
use fw_calendar::{Period, hour_text};
use fw_select::Selection;
use std::alloc::{AllocError, Global};

/// Selections as CSV: a line of names, and a record for each group with its texts and its costs. By period, or with the largest groups alone, each
/// record has the hours that it is of in front, and whether it is of one group or of all others.
pub(crate) fn csv_text(
    alloc: Global,
    selections: &Selections,
    sheet: &Sheet<'_, '_, '_>,
) -> Result<Vec<u8>, AllocError>
    ensures { IfOk result (λ text. IsCsvText selections.now sheet.now text.items) }
{
    let mut writer = WriterBuilder::new().from_writer(Vec::new(alloc));
    write_header(alloc, &mut writer, sheet)?;
    write_shown(alloc, &mut writer, selections, sheet)?;
    match writer.into_inner() {
        Ok(text) => Ok(text),
        Err(_) => Err(AllocError),
    }
}

// Whether the records have their hours in front.
fn has_hours(sheet: &Sheet<'_, '_, '_>) -> bool
    ensures { result ≡ has_hours sheet.now }
{
    sheet.step.is_some() || sheet.top.is_some()
}

// Writes the names of the columns.
fn write_header(
    alloc: Global,
    writer: &mut Writer<Vec<u8>>,
    sheet: &Sheet<'_, '_, '_>,
) -> Result<(), AllocError>
    ensures { OnOk result ((text : List ℕ) → HasWritten writer.old text
        → HasWritten writer.new (text ++ record_line (header sheet.now))) }
{
    let names = names_of(alloc, sheet)?;
    write_record(writer, names.as_slice())
}

// The names of the columns.
#[tactic(auto, unfolding(crate::specs::CsvText::header))]
fn names_of<'n>(alloc: Global, sheet: &Sheet<'_, 'n, '_>) -> Result<Vec<&'n [u8]>, AllocError>
    ensures { IfOk result (λ names. map (λ n. n.now) names.items ≡ header sheet.now) }
{
    let mut names = front(alloc, has_hours(sheet), "From", "To", "Kind")?;
    push_names(&mut names, sheet.keys)?;
    push_costs(&mut names, "BilledCost", "EffectiveCost")?;
    push_sum(&mut names, sheet.sum)?;
    Ok(names)
}

// Adds the names of keys.
fn push_names<'n>(names: &mut Vec<&'n [u8]>, keys: &[KeyName<'n>]) -> Result<(), AllocError>
    ensures { OnOk result (map (λ n. n.now) names.new.items
        ≡ map (λ n. n.now) names.old.items ++ map (λ key. key.name.now) keys.now) }
{
    for key in keys {
        names.push(key.name.as_bytes())?;
    }
    Ok(())
}

// The fields of hours and of a kind, where there are such.
fn front<'f>(
    alloc: Global,
    has: bool,
    from: &'f str,
    to: &'f str,
    kind: &'f str,
) -> Result<Vec<&'f [u8]>, AllocError>
    ensures { IfOk result (λ fields.
        map (λ f. f.now) fields.items ≡ in_front has from.now to.now kind.now) }
{
    let mut fields: Vec<&'f [u8]> = Vec::new(alloc);
    if has {
        fields.push(from.as_bytes())?;
        fields.push(to.as_bytes())?;
        fields.push(kind.as_bytes())?;
    }
    Ok(fields)
}

// Adds the fields of costs.
fn push_costs<'f>(
    fields: &mut Vec<&'f [u8]>,
    billed: &'f str,
    effective: &'f str,
) -> Result<(), AllocError>
    ensures { OnOk result (map (λ f. f.now) fields.new.items
        ≡ map (λ f. f.now) fields.old.items ++ billed.now ∷ (effective.now ∷ [])) }
{
    fields.push(billed.as_bytes())?;
    fields.push(effective.as_bytes())?;
    Ok(())
}

// Adds the field of a sum, where there is one.
fn push_sum<'f>(fields: &mut Vec<&'f [u8]>, sum: Option<&'f str>) -> Result<(), AllocError>
    ensures { OnOk result (map (λ f. f.now) fields.new.items
        ≡ map (λ f. f.now) fields.old.items ++ in_sum (option_copied sum.entry)) }
{
    if let Some(sum) = sum {
        fields.push(sum.as_bytes())?;
    }
    Ok(())
}

// The text of the amount of a row, where a tag has amounts.
fn amount_text(
    alloc: Global,
    sheet: &Sheet<'_, '_, '_>,
    row: &Row<'_>,
) -> Result<Option<String>, AllocError>
    ensures { IfOk result (λ text. option_map string_bytes text
        ≡ sum_text (sum_name sheet.now) (row_value row.now).costs.amount) }
{
    match sheet.sum {
        Some(_) => Ok(Some(fw_money::text(alloc, row.costs.amount)?)),
        None => Ok(None),
    }
}

// A text that may be there, lent.
fn lent(text: &Option<String>) -> Option<&str>
    ensures { option_copied result ≡ option_map string_bytes text.now }
{
    match text {
        Some(text) => Some(text.as_str()),
        None => None,
    }
}

// Writes the records of all groups, or of the largest.
fn write_shown(
    alloc: Global,
    writer: &mut Writer<Vec<u8>>,
    selections: &Selections,
    sheet: &Sheet<'_, '_, '_>,
) -> Result<(), AllocError>
    ensures { OnOk result ((text : List ℕ) → HasWritten writer.old text
        → WritesShown writer.new text selections.now sheet.now) }
{
    match sheet.top {
        Some(count) => {
            let chosen = largest(alloc, &selections.whole, count)?;
            let shown = Shown::of(chosen.as_slice());
            write_all(alloc, writer, selections, sheet, shown)
        }
        None => write_all(alloc, writer, selections, sheet, Shown::all()),
    }
}

// Writes the records of the whole range, or of each period.
fn write_all(
    alloc: Global,
    writer: &mut Writer<Vec<u8>>,
    selections: &Selections,
    sheet: &Sheet<'_, '_, '_>,
    chosen: Shown<'_>,
) -> Result<(), AllocError>
    ensures { OnOk result ((text : List ℕ) → HasWritten writer.old text
        → WritesRecords writer.new text sheet.now (placed_rows sheet.now (is_chosen chosen.entry)
        (parts_by sheet.now.step sheet.now.hours selections.now))) }
{
    match sheet.step {
        Some(_) => write_parts(alloc, writer, selections.parts.as_slice(), sheet, chosen),
        None => write_selection(alloc, writer, &selections.whole, sheet, sheet.hours, chosen),
    }
}

// Writes the records of periods.
fn write_parts(
    alloc: Global,
    writer: &mut Writer<Vec<u8>>,
    parts: &[SelectedPart],
    sheet: &Sheet<'_, '_, '_>,
    chosen: Shown<'_>,
) -> Result<(), AllocError>
    ensures { OnOk result ((text : List ℕ) → HasWritten writer.old text
        → WritesRecords writer.new text sheet.now
        (placed_rows sheet.now (is_chosen chosen.entry) parts.now)) }
{
    for part in parts {
        write_selection(alloc, writer, &part.selection, sheet, part.period, chosen)?;
    }
    Ok(())
}

// Writes the records of a selection. Without keys there is one, with all costs.
fn write_selection(
    alloc: Global,
    writer: &mut Writer<Vec<u8>>,
    selection: &Selection,
    sheet: &Sheet<'_, '_, '_>,
    hours: Period,
    chosen: Shown<'_>,
) -> Result<(), AllocError>
    ensures { OnOk result ((text : List ℕ) → HasWritten writer.old text
        → WritesRecords writer.new text sheet.now (placed hours
        (rows_in sheet.now.keys.now (is_chosen chosen.entry) selection.now))) }
{
    let rows = rows_under(alloc, sheet.keys, selection, chosen)?;
    write_rows(alloc, writer, sheet, hours, rows.as_slice())
}

// Writes the records of rows.
fn write_rows(
    alloc: Global,
    writer: &mut Writer<Vec<u8>>,
    sheet: &Sheet<'_, '_, '_>,
    hours: Period,
    rows: &[Row<'_>],
) -> Result<(), AllocError>
    ensures { OnOk result ((text : List ℕ) → HasWritten writer.old text
        → WritesRecords writer.new text sheet.now (placed hours (map row_value rows.now))) }
{
    for row in rows {
        write_row(alloc, writer, sheet, hours, row)?;
    }
    Ok(())
}

// Writes the record of a row.
fn write_row(
    alloc: Global,
    writer: &mut Writer<Vec<u8>>,
    sheet: &Sheet<'_, '_, '_>,
    hours: Period,
    row: &Row<'_>,
) -> Result<(), AllocError>
    ensures { OnOk result ((text : List ℕ) → HasWritten writer.old text
        → WritesRecords writer.new text sheet.now (placed hours (row_value row.now ∷ []))) }
{
    let from = hour_text(alloc, hours.from)?;
    let to = hour_text(alloc, hours.to)?;
    let billed = fw_money::text(alloc, row.costs.billed)?;
    let effective = fw_money::text(alloc, row.costs.effective)?;
    let amount = amount_text(alloc, sheet, row)?;
    let kind = kind_of(row);
    let mut fields = front(alloc, has_hours(sheet), from.as_str(), to.as_str(), kind)?;
    push_texts(&mut fields, sheet.keys.len(), row)?;
    push_costs(&mut fields, billed.as_str(), effective.as_str())?;
    push_sum(&mut fields, lent(&amount))?;
    write_record(writer, fields.as_slice())
}

// Adds the texts of a row under so many keys.
fn push_texts<'f>(fields: &mut Vec<&'f [u8]>, keys: usize, row: &Row<'f>) -> Result<(), AllocError>
    ensures { OnOk result (map (λ f. f.now) fields.new.items
        ≡ map (λ f. f.now) fields.old.items ++ texts_under keys (row_value row.now).texts) }
{
    for place in 0..keys {
        fields.push(text_at(row, place).as_bytes())?;
    }
    Ok(())
}

/// Whether a row is of a group or of others, for programs.
pub(crate) fn kind_of(row: &Row<'_>) -> &'static str
    ensures { result.now ≡ kind_word (row_value row.now).texts }
{
    match row.texts {
        Some(_) => "group",
        None => "others",
    }
}

/// The text of a row under a key, for programs.
pub(crate) fn text_at<'g>(row: &Row<'g>, place: usize) -> &'g str
    ensures { result.now ≡ text_at (row_value row.now).texts place }
{
    match row.texts {
        Some(texts) => match texts.get(place) {
            Some(text) => text.as_str(),
            None => "",
        },
        None => OTHERS,
    }
}

// Writes a record.
fn write_record(writer: &mut Writer<Vec<u8>>, fields: &[&[u8]]) -> Result<(), AllocError>
    ensures { OnOk result ((text : List ℕ) → HasWritten writer.old text
        → HasWritten writer.new (text ++ record_line (map (λ field. field.now) fields.now))) }
{
    let Ok(()) = writer.write_fields(fields) else {
        return Err(AllocError);
    };
    Ok(())
}
