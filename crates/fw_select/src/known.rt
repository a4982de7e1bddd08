//! What is known of the rows of a segment under a selector.
ghost use Rattle.std.specs.Prelude.{◌≡◌, ◌<◌, ◌++◌, ◌∷◌, [], IfOk, List, length, replicate, slice_index_or, slice_set, vec_len};
ghost use Rattle.fw_select.specs.Rows.{AgreeOnAll, IsKnown, found_at, sources_of};
ghost use Rattle.fw_select.specs.declared.key.Source.{Source};
ghost use Rattle.fw_select.specs.declared.known.Found.TheVariants as finding;
ghost use Rattle.fw_select.specs.declared.table.Table.{Table};

use crate::apart::told_apart;
use crate::codes::codes_of;
use crate::key::Source;
use crate::selector::Selector;
use fw_columns::Columns;
use std::alloc::{AllocError, Global};

// What was found of rows that a selector sees alike.
#[derive(Clone, Copy, Drop)]
pub(crate) enum Found {
    // Nothing yet.
    Unknown,
    // They aren't taken.
    Left,
    // The place of their group.
    At(usize),
}

// Numbers of the rows of a segment, where rows with one number are alike to a selector, and what was found of each number.
pub(crate) struct Known {
    pub(crate) numbers: Vec<u32>,
    pub(crate) found: Vec<Found>,
}

impl Drop for Known {
    fn drop(self) {
        let Self {
            numbers: _,
            found: _,
        } = self;
    }
}

impl Known {
    // Of the rows of a segment, of which nothing was found yet.
    pub(crate) fn of_segment(
        alloc: Global,
        segment: &Columns,
        selector: &Selector<'_, '_, '_>,
    ) -> Result<Known, AllocError>
        ensures { IfOk result (λ known. (table : Table) → IsKnown selector.now table segment.now
            known) }
    {
        let numbers = numbers_of(alloc, segment, selector)?;
        let found = nothing_found(alloc, behind_most(numbers.as_slice()))?;
        Ok(Known { numbers, found })
    }

    // What was found of the row at a place.
    pub(crate) fn at(&self, place: usize) -> Found
        requires { place < vec_len self.now.numbers }
        ensures { result ≡ found_at self.now place }
    {
        let number = self.numbers[place] as usize;
        match self.found.get(number) {
            Some(found) => *found,
            None => Found::Unknown,
        }
    }

    // Notes what was found of the row at a place.
    pub(crate) fn note(&mut self, place: usize, found: Found)
        requires { place < vec_len self.old.numbers }
        ensures numbers { self.new.numbers.items ≡ self.old.numbers.items }
        ensures found { self.new.found.items ≡ slice_set self.old.found.items (slice_index_or
            self.old.numbers.items place 0) found }
    {
        let number = self.numbers[place] as usize;
        if number < self.found.len() {
            self.found[number] = found;
        }
    }
}

// A number for each row of a segment: rows with one number have one text under each source that a selector looks at.
fn numbers_of(
    alloc: Global,
    segment: &Columns,
    selector: &Selector<'_, '_, '_>,
) -> Result<Vec<u32>, AllocError>
    ensures { IfOk result (λ numbers. AgreeOnAll (sources_of selector.now) segment.now
        numbers.items) }
{
    let mut numbers = vec![in alloc; 0_u32; segment.len()]?;
    for key in selector.keys {
        numbers = told_by(alloc, segment, numbers.as_slice(), key.source)?;
    }
    for filter in selector.filters {
        numbers = told_by(alloc, segment, numbers.as_slice(), filter.key.source)?;
    }
    Ok(numbers)
}

// New numbers of rows: equal only where the old ones are, and the rows agree under one source more.
fn told_by(
    alloc: Global,
    segment: &Columns,
    numbers: &[u32],
    source: Source<'_>,
) -> Result<Vec<u32>, AllocError>
    requires { length numbers.now ≡ length segment.now }
    ensures { IfOk result (λ new. (sources : List Source) → AgreeOnAll sources segment.now
        numbers.now → AgreeOnAll (sources ++ source.entry ∷ []) segment.now new.items) }
{
    let codes = codes_of(alloc, segment, source)?;
    told_apart(alloc, numbers, codes.as_slice())
}

// That nothing was found yet of so many numbers.
fn nothing_found(alloc: Global, numbers: usize) -> Result<Vec<Found>, AllocError>
    ensures { IfOk result (λ list. list.items ≡ replicate numbers finding.Unknown) }
{
    let mut list = Vec::with_capacity(alloc, numbers)?;
    for _number in 0..numbers {
        list.push(Found::Unknown)?;
    }
    Ok(list)
}

// The number behind the largest of some.
fn behind_most(numbers: &[u32]) -> usize {
    let mut most = 0_usize;
    for number in numbers {
        most = most.max(*number as usize);
    }
    most.saturating_add(1)
}
