//! The keys of the tags that the rows and the commitments of a range of hours have.
ghost use Rattle.std.specs.Prelude.{◌<◌, length};

use fw_calendar::Period;
use fw_charge::hour_of;
use fw_columns::{Columns, LentTags};
use fw_snapshot::State;
use fw_terms::{Commitment, Purchase};
use std::alloc::{AllocError, Global};
use std::collections::BTreeSet;

/// Whether a row that counts and starts in these hours, or a commitment that has a line there, has a tag of this key. The one error is
/// that memory ran out.
pub fn has_key(alloc: Global, state: &State, hours: Period, key: &str) -> Result<bool, AllocError> {
    for commitment in state.commitment_list() {
        if has_line_in(commitment, hours) && tags_have(commitment_tags(commitment), key) {
            return Ok(true);
        }
    }
    let counting = state.counting_segments(alloc)?;
    let segments = counting.references(alloc)?;
    for columns in &segments {
        if rows_have(columns, hours, key) {
            return Ok(true);
        }
    }
    Ok(false)
}

/// The keys of the tags of the rows that count and start in these hours, and of the commitments that have a line there: in rising order of
/// their bytes, each once. The one error is that memory ran out.
pub fn keys_in(alloc: Global, state: &State, hours: Period) -> Result<Vec<String>, AllocError> {
    let counting = state.counting_segments(alloc)?;
    let segments = counting.references(alloc)?;
    let mut keys = BTreeSet::new(alloc);
    for commitment in state.commitment_list() {
        if has_line_in(commitment, hours) {
            insert_keys(&mut keys, commitment_tags(commitment))?;
        }
    }
    for columns in &segments {
        insert_row_keys(&mut keys, columns, hours)?;
    }
    let mut texts = Vec::with_capacity(alloc, keys.len())?;
    for key in keys.iter() {
        texts.push(String::from_str(alloc, key)?)?;
    }
    Ok(texts)
}

// Whether a row of these hours has a tag of this key.
fn rows_have(columns: &Columns, hours: Period, key: &str) -> bool {
    for place in 0..columns.len() {
        if starts_in(columns, place, hours) && tags_have(columns.lent(place).tags(), key) {
            return true;
        }
    }
    false
}

// Adds the keys of the rows of these hours.
fn insert_row_keys<'a>(
    keys: &mut BTreeSet<&'a str>,
    columns: &'a Columns,
    hours: Period,
) -> Result<(), AllocError> {
    for place in 0..columns.len() {
        if starts_in(columns, place, hours) {
            insert_keys(keys, columns.lent(place).tags())?;
        }
    }
    Ok(())
}

// Adds the keys of tags.
fn insert_keys<'a>(keys: &mut BTreeSet<&'a str>, tags: LentTags<'a>) -> Result<(), AllocError> {
    let mut rest = tags;
    for _ in 0..tags.len() {
        if let Some((tag, after)) = rest.split_first() {
            keys.insert(tag.key)?;
            rest = after;
        }
    }
    Ok(())
}

// Whether tags have this key.
fn tags_have(tags: LentTags<'_>, key: &str) -> bool {
    let mut rest = tags;
    for _ in 0..tags.len() {
        if let Some((tag, after)) = rest.split_first() {
            if tag.key == key {
                return true;
            }
            rest = after;
        }
    }
    false
}

// Whether the row at a place starts in these hours.
fn starts_in(columns: &Columns, place: usize, hours: Period) -> bool
    requires { place < length columns.now }
{
    let hour = hour_of(columns.starts()[place].unsigned_abs());
    hours.from <= hour && hour < hours.to
}

// The tags of a commitment.
fn commitment_tags(commitment: &Commitment) -> LentTags<'_> {
    LentTags::of_tags(commitment.tags())
}

// Whether a commitment runs in these hours, or was paid for there.
fn has_line_in(commitment: &Commitment, hours: Period) -> bool {
    let start = u64::from(commitment.start());
    let end = start + u64::from(commitment.hours());
    let runs = start < hours.to && hours.from < end;
    runs || commitment
        .purchases()
        .iter()
        .any(|purchase| is_paid_in(purchase, hours))
}

// Whether a purchase was paid in these hours.
fn is_paid_in(purchase: &Purchase, hours: Period) -> bool {
    let hour = hour_of(purchase.at());
    hours.from <= hour && hour < hours.to
}
