//! The text of a report.
ghost use Rattle.std.specs.Prelude.{◌≡◌, ◌++◌, List, ℕ, map, IfOk, OnOk};
ghost use Rattle.std.specs.List.{concat};
ghost use Rattle.fw_query.specs.Texts.{fields_of, header, record_line, report_text};
ghost use Rattle.fw_query.specs.Writers.{HasWritten};

use crate::entries::{Entry, Report};
use csv::{Writer, WriterBuilder};
use std::alloc::{AllocError, Global};

/// The text of a report as CSV: a line of names, and a record for each entry, with its group and its costs in units of the currency with
/// nine digits after the point. The one error is that memory ran out.
pub fn report_csv(alloc: Global, report: &Report) -> Result<Vec<u8>, AllocError>
    ensures { IfOk result (λ text. text.items ≡ report_text report.now) }
{
    let mut writer = WriterBuilder::new().from_writer(Vec::new(alloc));
    write_header(&mut writer)?;
    write_entries(alloc, &mut writer, report.entries())?;
    match writer.into_inner() {
        Ok(text) => Ok(text),
        Err(_) => Err(AllocError),
    }
}

// Writes the names of the columns.
#[tactic(auto, unfolding(crate::specs::Texts::header))]
fn write_header(writer: &mut Writer<Vec<u8>>) -> Result<(), AllocError>
    ensures { OnOk result ((text : List ℕ) → HasWritten writer.old text
        → HasWritten writer.new (text ++ record_line header)) }
{
    let names: [&[u8]; 4] = [b"Group", b"BilledCost", b"EffectiveCost", b"ChargedCost"];
    write_record(writer, &names)
}

// Writes the records of the entries.
fn write_entries(
    alloc: Global,
    writer: &mut Writer<Vec<u8>>,
    entries: &[Entry],
) -> Result<(), AllocError>
    ensures { OnOk result ((text : List ℕ) → HasWritten writer.old text
        → HasWritten writer.new (text ++ concat (map record_line (map fields_of entries.now)))) }
{
    for entry in entries {
        write_entry(alloc, writer, entry)?;
    }
    Ok(())
}

// Writes the record of an entry.
fn write_entry(alloc: Global, writer: &mut Writer<Vec<u8>>, entry: &Entry) -> Result<(), AllocError>
    ensures { OnOk result ((text : List ℕ) → HasWritten writer.old text
        → HasWritten writer.new (text ++ record_line (fields_of entry.now))) }
{
    let billed = fw_money::text(alloc, entry.billed())?;
    let direct = fw_money::text(alloc, entry.direct())?;
    let charged = fw_money::text(alloc, entry.charged())?;
    let fields: [&[u8]; 4] = [
        entry.group().as_bytes(),
        billed.as_bytes(),
        direct.as_bytes(),
        charged.as_bytes(),
    ];
    write_record(writer, &fields)
}

// Writes a record.
pub(crate) fn write_record(writer: &mut Writer<Vec<u8>>, fields: &[&[u8]]) -> Result<(), AllocError>
    ensures { OnOk result ((text : List ℕ) → HasWritten writer.old text
        → HasWritten writer.new (text ++ record_line (map (λ field. field.now) fields.now))) }
{
    let Ok(()) = writer.write_fields(fields) else {
        return Err(AllocError);
    };
    Ok(())
}
