//! Whether runs of rows are equal.
ghost use Rattle.std.specs.Prelude.{◌≡◌, ◌<◌, ◌≤◌, ◌+◌, ◌^◌, ◌↔◌, IsTrue, length, slice_get, slice_index_or, take, drop};
ghost use Rattle.fw_stored_rows.specs.Runs.{AreKnown, IsNoted};

use crate::comparing::{agree_beside_tags, are_same_tags};
use fw_columns::Columns;
use std::alloc::Global;

/// Whether `count` rows of `one`, from the place `first` on, are as many of `other`, from the place `from` on, each in all its fields. It reads rows up to the
/// first that differs. Lists of tags that were found equal aren't compared again: for each list of `other`, up to the last one that was read, it remembers
/// which list of `one` is equal. Where there is no memory for that, lists are compared again.
pub fn are_same_runs(
    alloc: Global,
    one: &Columns,
    first: usize,
    other: &Columns,
    from: usize,
    count: usize,
) -> bool
    requires one { first + count ≤ length one.now }
    requires other { from + count ≤ length other.now }
    ensures { IsTrue result
        ↔ (take count (drop first one.now) ≡ take count (drop from other.now)) }
{
    // Proves that the places are numbers.
    let _rows = (one.len(), other.len());
    let mut known = Vec::new(alloc);
    for place in 0..count {
        if !are_same_at(one, first + place, other, from + place, &mut known) {
            return false;
        }
    }
    true
}

// Whether the rows at two places are equal. Tags are compared where it isn't known that their lists are equal.
fn are_same_at(
    one: &Columns,
    place: usize,
    other: &Columns,
    at: usize,
    known: &mut Vec<u64>,
) -> bool
    requires one { place < length one.now }
    requires other { at < length other.now }
    requires known { AreKnown known.old.items one.now other.now }
    ensures same { IsTrue result ↔ (slice_get one.now place ≡ slice_get other.now at) }
    ensures known { AreKnown known.new.items one.now other.now }
{
    let row = one.lent(place);
    let read = other.lent(at);
    if !agree_beside_tags(&row, &read) {
        return false;
    }
    let own = u64::from(one.tag_list_code(place)) + 1;
    let code = other.tag_list_code(at) as usize;
    if known_of(known.as_slice(), code) == own {
        return true;
    }
    if !are_same_tags(row.tags(), read.tags()) {
        return false;
    }
    note(known, code, own);
    true
}

// What is noted of a code: 0 where nothing is.
fn known_of(known: &[u64], code: usize) -> u64
    ensures { result ≡ slice_index_or known.now code 0 }
{
    match known.get(code) {
        Some(number) => *number,
        None => 0,
    }
}

// Notes a number of a code. Where there is no memory for it, nothing is noted.
fn note(known: &mut Vec<u64>, code: usize, number: u64)
    requires { code < 2 ^ 32 }
    ensures { IsNoted known.old.items known.new.items code number }
{
    if code >= known.len() && known.resize(code + 1, 0).is_err() {
        return;
    }
    known[code] = number;
}
