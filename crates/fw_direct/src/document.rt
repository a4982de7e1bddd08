//! A direct report that was written.
ghost use Rattle.std.specs.Prelude.{◌<◌};

use crate::fault::DocumentFault;
use crate::member::{count_of, list_of, member_fault, nanos_of, period_of, step_of, text_of};
use crate::part::DirectPart;
use crate::periods::periods_by;
use fw_calendar::{Period, Step};
use fw_charge::Currency;
use fw_shards::{Direct, DirectReport};
use serde_json::Value;
use std::alloc::Global;

/// A direct report that was written.
#[derive(Debug)]
pub struct DirectDocument {
    /// The tag whose values are the groups.
    pub tag: String,
    /// The currency of all costs.
    pub currency: Currency,
    /// The hours of the report.
    pub range: Period,
    /// What they are cut by, where they are.
    pub step: Option<Step>,
    /// How many entries the warehouse has.
    pub entries: u64,
    /// How many commitments it has.
    pub commitments: u64,
    /// How many rows that count it has.
    pub rows: u64,
    /// The periods in order, each with its report.
    pub parts: Vec<DirectPart>,
}

impl Drop for DirectDocument {
    fn drop(self) {
        let Self {
            tag: _,
            currency: _,
            range: _,
            step: _,
            entries: _,
            commitments: _,
            rows: _,
            parts: _,
        } = self;
    }
}

impl DirectDocument {
    /// The periods, each with its report, to keep.
    pub fn into_parts(self) -> Vec<DirectPart> {
        let Self {
            tag: _,
            currency: _,
            range: _,
            step: _,
            entries: _,
            commitments: _,
            rows: _,
            parts,
        } = self;
        parts
    }
}

/// Reads a direct report from a text of JSON, as [`direct_text`](crate::direct_text) writes it. Members that it doesn't know are passed over. A period
/// without groups may be left out.
///
/// # Errors
/// `Syntax` where the text is no JSON, `Member` for the first member that isn't what it must be, `NoMemory` where memory ran out.
pub fn read_document(alloc: Global, text: &str) -> Result<DirectDocument, DocumentFault> {
    match Value::from_str(alloc, text) {
        Ok(value) => document_of(alloc, &value),
        Err(error) if error.is_memory() => Err(DocumentFault::NoMemory),
        Err(_) => Err(DocumentFault::Syntax),
    }
}

// The direct report that a value of JSON has.
fn document_of(alloc: Global, value: &Value) -> Result<DirectDocument, DocumentFault> {
    if value.get("direct").and_then(Value::as_u64) != Some(1) {
        return Err(member_fault("direct", "1, as focusd report --direct prints it"));
    }
    let tag = String::from_str(alloc, text_of(value, "tag")?)?;
    let Some(currency) = Currency::new(text_of(value, "currency")?.as_bytes()) else {
        return Err(member_fault("currency", "three capital letters, as USD"));
    };
    let range = period_of(alloc, value)?;
    let step = step_of(value)?;
    let entries = count_of(value, "entries")?;
    let commitments = count_of(value, "commitments")?;
    let rows = count_of(value, "rows")?;
    let parts = parts_of(alloc, value, range, step)?;
    Ok(DirectDocument {
        tag,
        currency,
        range,
        step,
        entries,
        commitments,
        rows,
        parts,
    })
}

// The periods, each with its report. They have to be periods of the range, in order.
fn parts_of(
    alloc: Global,
    value: &Value,
    range: Period,
    step: Option<Step>,
) -> Result<Vec<DirectPart>, DocumentFault>
    requires { range.from < range.to }
{
    let all = periods_by(alloc, step, range.from, range.to)?;
    let mut parts = Vec::new(alloc);
    let mut next = 0;
    for object in list_of(value, "periods")? {
        let period = period_of(alloc, object)?;
        let Some(place) = place_of(all.as_slice(), next, period) else {
            return Err(member_fault(
                "periods",
                "those that by cuts the range from from to to into, in order",
            ));
        };
        next = place.saturating_add(1);
        let report = report_of(alloc, object)?;
        parts.push(DirectPart { period, report })?;
    }
    Ok(parts)
}

// The place of a period among periods, from a place on.
fn place_of(periods: &[Period], from: usize, period: Period) -> Option<usize> {
    for place in from..periods.len() {
        if periods[place] == period {
            return Some(place);
        }
    }
    None
}

// The direct report of a period.
fn report_of(alloc: Global, object: &Value) -> Result<DirectReport, DocumentFault> {
    let mut entries: Vec<Direct> = Vec::new(alloc);
    for group in list_of(object, "groups")? {
        let entry = entry_of(alloc, group)?;
        if let Some(last) = entries.as_slice().last() {
            if last.group() >= entry.group() {
                return Err(member_fault("groups", "groups in rising byte order, each once"));
            }
        }
        entries.push(entry)?;
    }
    Ok(DirectReport::of_entries(entries))
}

// The costs of a group.
fn entry_of(alloc: Global, object: &Value) -> Result<Direct, DocumentFault> {
    let group = String::from_str(alloc, text_of(object, "group")?)?;
    let billed = nanos_of(object, "billed")?;
    let direct = nanos_of(object, "direct")?;
    Ok(Direct::of_fields(group, billed, direct))
}
