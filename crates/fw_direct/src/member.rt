//! Members of an object of JSON.
ghost use Rattle.std.specs.Prelude.{◌<◌, IfOk};

use crate::fault::DocumentFault;
use fw_calendar::{Period, Step, read_time};
use fw_query::MOST_HOURS;
use serde_json::Value;
use std::alloc::Global;

/// A fault of a member.
pub(crate) fn member_fault(name: &'static str, expected: &'static str) -> DocumentFault {
    DocumentFault::Member { name, expected }
}

/// The member that is a text.
pub(crate) fn text_of<'v>(object: &'v Value, name: &'static str) -> Result<&'v str, DocumentFault> {
    match object.get(name).and_then(Value::as_str) {
        Some(text) => Ok(text),
        None => Err(member_fault(name, "a text")),
    }
}

/// The member that is a list.
pub(crate) fn list_of<'v>(
    object: &'v Value,
    name: &'static str,
) -> Result<&'v [Value], DocumentFault> {
    match object.get(name).and_then(Value::as_array) {
        Some(list) => Ok(list.as_slice()),
        None => Err(member_fault(name, "a list")),
    }
}

/// The member that is a count.
pub(crate) fn count_of(object: &Value, name: &'static str) -> Result<u64, DocumentFault> {
    match object.get(name).and_then(Value::as_u64) {
        Some(count) => Ok(count),
        None => Err(member_fault(name, "a whole number")),
    }
}

/// The member that is an amount in nanos.
pub(crate) fn nanos_of(object: &Value, name: &'static str) -> Result<i128, DocumentFault> {
    let text = text_of(object, name)?;
    match text.parse::<i128>() {
        Ok(nanos) => Ok(nanos),
        Err(_) => Err(member_fault(name, "a text of a whole number of nanos, within 128 bits")),
    }
}

/// The step.
pub(crate) fn step_of(object: &Value) -> Result<Option<Step>, DocumentFault> {
    match object.get("by") {
        Some(Value::Null) => Ok(None),
        Some(Value::String(word)) => match word.as_str() {
            "hour" => Ok(Some(Step::Hour)),
            "day" => Ok(Some(Step::Day)),
            "month" => Ok(Some(Step::Month)),
            _ => Err(wrong_step()),
        },
        _ => Err(wrong_step()),
    }
}

// The fault of a step.
fn wrong_step() -> DocumentFault {
    member_fault("by", "hour, day, month or null")
}

/// The range of hours of an object.
pub(crate) fn period_of(alloc: Global, object: &Value) -> Result<Period, DocumentFault>
    ensures { IfOk result (λ period. period.from < period.to) }
{
    let from = hour_of(alloc, object, "from")?;
    let to = hour_of(alloc, object, "to")?;
    if from < to && to - from <= MOST_HOURS {
        Ok(Period { from, to })
    } else {
        Err(member_fault("to", "an hour behind that of from, by at most 26,304"))
    }
}

// The member that is an instant on a whole hour.
fn hour_of(alloc: Global, object: &Value, name: &'static str) -> Result<u64, DocumentFault> {
    let text = text_of(object, name)?;
    match read_time(alloc, text)? {
        Some(hour) => Ok(hour),
        None => Err(member_fault(name, "a whole hour, as 2024-01-31T14:00Z")),
    }
}
