//! What commitments list of the SKUs of rows, looked up once for each code of a SKU. Of a row whose SKU none lists they take nothing, so it needn't be lent
//! to be covered.
ghost use Rattle.std.specs.Prelude.{◌≡◌, ◌<◌, ◌++◌, [], List, Some, not, filter, length, map, slice_get, slice_index_or, All, IfOk, IfSome, OnOk};
ghost use Rattle.std.specs.List.{filter_map, list_any};
ghost use Rattle.fw_charge.specs.Charge.{Charge};
ghost use Rattle.fw_columns.specs.BySku.{sku_codes};
ghost use Rattle.fw_columns.specs.Hours.{hours_of};
ghost use Rattle.fw_cover.specs.Offers.{sku_offers};
ghost use Rattle.fw_cover.specs.RosterView.{offers_of_row};
ghost use Rattle.fw_row_table.specs.Texts.{names_of};
ghost use Rattle.fw_sums.specs.Hours.{HasRow, IsThere, lent, row_at, row_places, row_places_at, row_places_there};
ghost use Rattle.fw_sums.specs.Listed.{AreListed, AreOffersByCode, AreOffersOf, IsOnly, found_at, is_marked_code, may_be_listed};

use crate::hours::{HourPlace, RowPlace};
use crate::marks::{has_mark, place_of_hour};
use crate::segments::count_at;
use fw_columns::{Columns, Names};
use fw_cover::{Roster, SkuOffers};
use std::alloc::{AllocError, Global};

// What the commitments of a roster list of the SKUs of some segments' rows: for each segment by the SKU's code, where it was looked up. A code of which it was
// found that none lists it is called marked. A code that isn't marked, or a segment without codes, may have rows that they list.
#[derive(Drop)]
pub(crate) struct Listed<'r, 'a> {
    pub(crate) by_code: Vec<Vec<Option<SkuOffers<'r, 'a>>>>,
}

// What the commitments of a roster list of the SKU with a code, where the code is in use: nothing where it is that of no SKU.
#[tactic(auto, unfolding(crate::specs::Listed::AreOffersOf))]
fn offers_of_code<'r, 'a>(
    roster: &'r Roster<'a>,
    names: &Names,
    code: usize,
    is_used: bool,
) -> Option<SkuOffers<'r, 'a>>
    ensures { IfSome result (AreOffersOf roster.now names.now code) }
{
    if !is_used {
        return None;
    }
    if code == 0 {
        return Some(SkuOffers::none());
    }
    let place = code - 1;
    if place >= names.len() {
        return None;
    }
    Some(roster.offers(names.text(place as u32)))
}

// Notes codes of SKUs that are in use.
fn note_used(used: &mut Vec<bool>, codes: &[u32]) -> Result<(), AllocError> {
    for code in codes {
        let code = *code as usize;
        if code >= used.len() {
            used.resize(code + 1, false)?;
        }
        used[code] = true;
    }
    Ok(())
}

// What the commitments of a roster list of a segment's SKUs, by code. Each SKU is looked up once, and only where a row of a marked hour has it; the first mark
// is of the hour `from`. Of a segment without such rows nothing is looked up.
fn offers_by_code<'r, 'a>(
    alloc: Global,
    segment: &Columns,
    roster: &'r Roster<'a>,
    from: u64,
    marks: &[bool],
) -> Result<Vec<Option<SkuOffers<'r, 'a>>>, AllocError>
    ensures { IfOk result (λ by_code. AreOffersByCode roster.now
        (names_of segment.now) by_code.items) }
{
    let hours = segment.hours();
    let mut used = Vec::new(alloc);
    for number in 0..hours.len() {
        if place_of_hour(u64::from(hours[number]), from, marks).is_some() {
            note_used(&mut used, segment.skus_in(number))?;
        }
    }
    let mut by_code = Vec::with_capacity(alloc, used.len())?;
    for (code, is_used) in used.iter().enumerate() {
        by_code.push(offers_of_code(roster, segment.names(), code, *is_used))?;
    }
    Ok(by_code)
}

// Adds rows of a segment.
fn push_places(listed: &mut Vec<RowPlace>, segment: u32, places: &[u16]) -> Result<(), AllocError>
    ensures { OnOk result (listed.new.items ≡ listed.old.items ++ row_places segment places.now) }
{
    for place in places {
        listed.push(RowPlace {
            segment,
            place: *place,
        })?;
    }
    Ok(())
}

impl<'r, 'a> Listed<'r, 'a> {
    // What a roster lists of the rows of marked hours; the first mark is of the hour `from`.
    pub(crate) fn of_segments(
        alloc: Global,
        segments: &[&Columns],
        roster: &'r Roster<'a>,
        from: u64,
        marks: &[bool],
    ) -> Result<Listed<'r, 'a>, AllocError>
        ensures { IfOk result (AreListed (lent segments.now) roster.now) }
    {
        let mut by_code = Vec::new(alloc);
        if !has_mark(marks) {
            return Ok(Listed { by_code });
        }
        for segment in segments {
            by_code.push(offers_by_code(alloc, segment, roster, from, marks)?)?;
        }
        Ok(Listed { by_code })
    }

    // What was found of a segment's code.
    fn found(&self, segment: usize, code: usize) -> Option<SkuOffers<'r, 'a>>
        ensures { result ≡ found_at self.now segment code }
    {
        let Some(by_code) = self.by_code.get(segment) else {
            return None;
        };
        match by_code.get(code) {
            Some(found) => *found,
            None => None,
        }
    }

    // Whether a segment's code is marked.
    fn is_marked(&self, segment: usize, code: usize) -> bool
        ensures { result ≡ is_marked_code self.now segment code }
    {
        match self.found(segment, code) {
            Some(found) => found.is_empty(),
            None => false,
        }
    }

    // What was found of the code of the SKU of the row at a place of a segment.
    fn found_of(&self, segment: &Columns, at: &RowPlace) -> Option<SkuOffers<'r, 'a>>
        requires { at.now.place < length segment.now }
        ensures { result ≡ found_at self.now at.now.segment
            (slice_index_or (sku_codes segment.now) at.now.place 0) }
    {
        let code = segment.sku_codes()[usize::from(at.place)];
        self.found(at.segment as usize, code as usize)
    }

    // What the commitments list of the SKU of the row at a place of a segment: as it was found by the SKU's code, or else as the roster finds it.
    fn offers_of(
        &self,
        roster: &'r Roster<'a>,
        segment: &Columns,
        at: &RowPlace,
    ) -> SkuOffers<'r, 'a>
        requires { at.now.place < length segment.now }
        ensures { (segments : List (List Charge))
            → slice_index_or segments at.now.segment [] ≡ segment.now
            → AreListed segments roster.now self.now → (row : Charge)
            → slice_get segment.now at.now.place ≡ Some row
            → sku_offers result ≡ offers_of_row roster.now row }
    {
        match self.found_of(segment, at) {
            Some(found) => found,
            None => roster.offers_of_row(&segment.lent(usize::from(at.place))),
        }
    }

    // So of each row at these places.
    pub(crate) fn offers_at(
        &self,
        alloc: Global,
        segments: &[&Columns],
        roster: &'r Roster<'a>,
        places: &[RowPlace],
    ) -> Result<Vec<SkuOffers<'r, 'a>>, AllocError>
        requires there { All (HasRow (lent segments.now)) places.now }
        requires listed { AreListed (lent segments.now) roster.now self.now }
        ensures { IfOk result (λ offers. map sku_offers offers.items
            ≡ map (offers_of_row roster.now) (filter_map (row_at (lent segments.now)) places.now)) }
    {
        let mut offers = Vec::with_capacity(alloc, places.len())?;
        for at in places {
            let segment = segments[at.segment as usize];
            offers.push(self.offers_of(roster, segment, at))?;
        }
        Ok(offers)
    }

    // Whether the SKU of the row at a place of a segment may be one that a commitment lists.
    fn may_list(&self, segment: &Columns, at: &RowPlace) -> bool
        requires { at.now.place < length segment.now }
        ensures { result ≡ not (is_marked_code self.now at.now.segment
            (slice_index_or (sku_codes segment.now) at.now.place 0)) }
    {
        let code = segment.sku_codes()[usize::from(at.place)];
        !self.is_marked(at.segment as usize, code as usize)
    }

    // Whether one of these codes of a segment may be of a SKU that a commitment lists.
    fn may_list_any(&self, segment: usize, codes: &[u32]) -> bool
        ensures { result ≡ list_any (λ code. not (is_marked_code self.now segment code)) codes.now }
    {
        codes
            .iter()
            .any(|code| !self.is_marked(segment, *code as usize))
    }

    // Whether one of these codes of a segment is marked.
    fn marks_any(&self, segment: usize, codes: &[u32]) -> bool
        ensures { result ≡ list_any (λ code. is_marked_code self.now segment code) codes.now }
    {
        codes
            .iter()
            .any(|code| self.is_marked(segment, *code as usize))
    }

    // The place of the one among these codes of a segment that isn't marked; none where others aren't either.
    fn only_listed(&self, segment: usize, codes: &[u32]) -> Option<usize>
        ensures { IfSome result (IsOnly self.now segment codes.now) }
    {
        let mut only = None;
        for which in 0..codes.len() {
            if !self.is_marked(segment, codes[which] as usize) {
                if only.is_some() {
                    return None;
                }
                only = Some(which);
            }
        }
        only
    }

    // Adds those of a segment's rows at these places that may have a SKU that a commitment lists.
    fn add_places(
        &self,
        listed: &mut Vec<RowPlace>,
        segment: &Columns,
        number: u32,
        places: &[u16],
    ) -> Result<(), AllocError>
        requires { All (λ place. place < length segment.now) places.now }
        ensures { OnOk result ((segments : List (List Charge))
            → slice_index_or segments number [] ≡ segment.now
            → listed.new.items ≡ listed.old.items
            ++ filter (may_be_listed self.now segments) (row_places number places.now)) }
    {
        for place in places {
            let at = RowPlace {
                segment: number,
                place: *place,
            };
            if self.may_list(segment, &at) {
                listed.push(at)?;
            }
        }
        Ok(())
    }

    // Adds those of a segment's rows of an hour that may have a SKU that a commitment lists. A row is looked at only where some SKUs of the hour may be listed
    // and others aren't.
    fn add_hour(
        &self,
        listed: &mut Vec<RowPlace>,
        segment: &Columns,
        at: HourPlace,
    ) -> Result<(), AllocError>
        requires { at.number < length (hours_of segment.now) }
        ensures { OnOk result ((segments : List (List Charge))
            → slice_index_or segments at.segment [] ≡ segment.now
            → listed.new.items ≡ listed.old.items
            ++ filter (may_be_listed self.now segments) (row_places_there segments at)) }
    {
        let number = at.number as usize;
        let codes = segment.skus_in(number);
        if !self.may_list_any(at.segment as usize, codes) {
            return Ok(());
        }
        if !self.marks_any(at.segment as usize, codes) {
            push_places(listed, at.segment, segment.places_in(number))?;
            return Ok(());
        }
        if let Some(which) = self.only_listed(at.segment as usize, codes) {
            push_places(listed, at.segment, segment.places_of_sku(number, which))?;
            return Ok(());
        }
        let rows = segment.places_in(number);
        self.add_places(listed, segment, at.segment, rows)?;
        Ok(())
    }

    // Where those rows of the hours at these places are that may have a SKU that a commitment lists.
    pub(crate) fn places(
        &self,
        alloc: Global,
        segments: &[&Columns],
        places: &[HourPlace],
    ) -> Result<Vec<RowPlace>, AllocError>
        requires { All (IsThere (lent segments.now)) places.now }
        ensures { IfOk result (λ listed. listed.items
            ≡ filter (may_be_listed self.now (lent segments.now))
            (row_places_at (lent segments.now) places.now)) }
    {
        let mut listed = Vec::with_capacity(alloc, count_at(segments, places))?;
        for at in places {
            let segment = segments[at.segment as usize];
            self.add_hour(&mut listed, segment, *at)?;
        }
        Ok(listed)
    }
}
