//! What a report leaves out, said on standard error.
use crate::wanted::{Condition, Wanted, WantedKey};
use fw_calendar::Period;
use fw_snapshot::State;
use fw_table::shown_text;
use fw_views::{has_key, keys_in};
use std::alloc::{AllocError, Global};

/// The most keys that are named.
const MOST_KEYS: usize = 20;

/// Says where no row and no commitment of the hours has a tag of this key, and where the policy is for another key.
pub(crate) fn say_left_out(
    rt: &HostRuntime,
    state: &State,
    hours: Period,
    key: &str,
) -> Result<(), AllocError> {
    say_if_missing(rt, state, hours, key)?;
    match state.policy() {
        Some(policy) if policy.key() != key => say_other_policy(rt, policy.key()),
        _ => Ok(()),
    }
}

/// Says of a report by several keys, under filters and maps: where no row and no commitment of the hours has a tag of one of its keys, what its
/// filters leave out, where no row has the tag whose amounts are summed, and that it has no ChargedCost.
pub fn say_selected(
    rt: &HostRuntime,
    state: &State,
    hours: Period,
    wanted: &Wanted,
) -> Result<(), AllocError> {
    say_missing(rt, state, hours, wanted.keys.as_slice())?;
    for condition in &wanted.conditions {
        say_key(rt, state, hours, &condition.key)?;
        say_condition(rt, condition)?;
    }
    if let Some(tag) = wanted.sum() {
        say_if_missing(rt, state, hours, tag)?;
    }
    let why = if wanted.one_tag().is_some() {
        "a report with --sum has no policy"
    } else {
        "a policy shares the costs of all lines, by one tag"
    };
    let _ = eprintln!(rt; "ChargedCost is left out: {why}");
    Ok(())
}

/// Says how many rows have no amount in a tag whose amounts are summed, where some have none.
pub(crate) fn say_unsummed(rt: &HostRuntime, tag: &str, count: i128) -> Result<(), AllocError> {
    if count == 0 {
        return Ok(());
    }
    let rows = if count == 1 { "row has" } else { "rows have" };
    let tag = shown_text(rt.alloc(), tag)?;
    let _ = eprintln!(rt; "{count} {rows} no amount in the tag {tag}");
    Ok(())
}

/// Says of each of these keys where no row and no commitment of the hours has the tag that it is.
pub(crate) fn say_missing(
    rt: &HostRuntime,
    state: &State,
    hours: Period,
    keys: &[WantedKey],
) -> Result<(), AllocError> {
    for key in keys {
        say_key(rt, state, hours, key)?;
    }
    Ok(())
}

// Says where no row and no commitment of the hours has the tag that a key is.
fn say_key(
    rt: &HostRuntime,
    state: &State,
    hours: Period,
    key: &WantedKey,
) -> Result<(), AllocError> {
    if key.is_tag() {
        say_if_missing(rt, state, hours, key.name())?;
    }
    Ok(())
}

/// Says where no row and no commitment of the hours has a tag of this key.
pub(crate) fn say_if_missing(
    rt: &HostRuntime,
    state: &State,
    hours: Period,
    key: &str,
) -> Result<(), AllocError> {
    let alloc = rt.alloc();
    if !has_key(alloc, state, hours, key)? {
        say_no_key(rt, key, keys_in(alloc, state, hours)?.as_slice())?;
    }
    Ok(())
}

// Says which lines a condition leaves out.
fn say_condition(rt: &HostRuntime, condition: &Condition) -> Result<(), AllocError> {
    let text = condition_text(rt.alloc(), condition)?;
    let text = shown_text(rt.alloc(), text.as_str())?;
    let _ = eprintln!(rt; "{text}");
    Ok(())
}

/// What the conditions of a report leave out, on one line.
pub(crate) fn conditions_text(alloc: Global, wanted: &Wanted) -> Result<String, AllocError> {
    let mut text = String::new(alloc);
    for condition in &wanted.conditions {
        if !text.is_empty() {
            text.push_str("; ")?;
        }
        let one = condition_text(alloc, condition)?;
        text.push_str(one.as_str())?;
    }
    Ok(text)
}

// Which lines a condition leaves out.
fn condition_text(alloc: Global, condition: &Condition) -> Result<String, AllocError> {
    let key = condition.key.name();
    let values = values_text(alloc, condition)?;
    if condition.is_one {
        format!(in alloc; "counted are only lines whose {key} is {values}")
    } else {
        format!(in alloc; "not counted are lines whose {key} is {values}")
    }
}

// The values of a condition, as a line names them.
fn values_text(alloc: Global, condition: &Condition) -> Result<String, AllocError> {
    let mut text = String::new(alloc);
    for (place, value) in condition.values.as_slice().iter().enumerate() {
        if place > 0 {
            text.push_str(" or ")?;
        }
        if value.is_empty() {
            text.push_str("empty")?;
        }
        text.push_str(value.as_str())?;
    }
    Ok(text)
}

// Says that no row and no commitment has a tag of this key, and which keys there are.
fn say_no_key(rt: &HostRuntime, key: &str, keys: &[String]) -> Result<(), AllocError> {
    let key = shown_text(rt.alloc(), key)?;
    let there = keys_text(rt.alloc(), keys)?;
    let _ = eprintln!(rt;
        "focusd: no row and no commitment of the range has the tag {key}; the tags there are: {there}"
    );
    Ok(())
}

// Says that the policy is for another tag.
fn say_other_policy(rt: &HostRuntime, key: &str) -> Result<(), AllocError> {
    let key = shown_text(rt.alloc(), key)?;
    let _ = eprintln!(rt; "the policy is for the tag {key}, so ChargedCost is EffectiveCost");
    Ok(())
}

// Keys as a line names them: at most so many, and how many more there are.
fn keys_text(alloc: Global, keys: &[String]) -> Result<String, AllocError> {
    let mut text = String::new(alloc);
    if keys.is_empty() {
        text.push_str("none")?;
    }
    for place in 0..keys.len().min(MOST_KEYS) {
        if place > 0 {
            text.push_str(", ")?;
        }
        let key = shown_text(alloc, keys[place].as_str())?;
        text.push_str(key.as_str())?;
    }
    if keys.len() > MOST_KEYS {
        let more = keys.len() - MOST_KEYS;
        write!(text, " and {more} more")?;
    }
    Ok(text)
}
