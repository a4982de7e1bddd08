//! Which SKUs the rows of each hour have, and at which places.
ghost use Rattle.std.specs.Prelude.{◌≡◌, ◌==◌, ◌<◌, ◌≤◌, ◌+◌, ◌^◌, ◌++◌, [], ◌∷◌, ℕ, List, Some, filter, length, map, slice_get, slice_index, slice_index_or, take, vec_items, vec_len, All, IfOk, OnOk, if◌then◌else◌};
ghost use Rattle.std.specs.List.{slice_range};
ghost use Rattle.fw_charge.specs.Charge.{Charge};
ghost use Rattle.fw_columns.specs.ByHour.{AreByHour};
ghost use Rattle.fw_columns.specs.BySku.{sku_codes, each_once, AreSkusByHour, HasSkus};
ghost use Rattle.fw_row_table.specs.Table.{most_column_rows};

use crate::by_hour::RowsByHour;
use fw_row_table::Packed;
use std::alloc::{AllocError, Global};

/// The codes of the SKUs that the rows of each hour have, and the places of the rows that have them: 8 bytes for each SKU of an hour, 4 an hour, and 2 a row.
/// Where a row of an hour has no SKU, 0 is among the hour's codes.
pub struct SkusByHour {
    /// The codes, hour by hour, those of an hour each once, in the order in which they first occur among its rows.
    codes: Vec<u32>,
    /// For each hour how many codes are of earlier ones, and last how many codes there are.
    before: Vec<u32>,
    /// For each of the codes the places of the rows of its hour that have it, in rising order.
    places: Packed<u16>,
}

impl Drop for SkusByHour {
    fn drop(self) {
        let Self {
            codes: _,
            before: _,
            places: _,
        } = self;
    }
}

impl SkusByHour {
    /// The codes of rows that are in order by hour, and their places, given the code of each row's SKU.
    pub fn of_rows(
        alloc: Global,
        by_hour: &RowsByHour,
        skus: &[u32],
    ) -> Result<SkusByHour, AllocError>
        requires few { length skus.now ≤ most_column_rows }
        requires rows { (rows : List Charge) × AreByHour by_hour.now rows
            × (skus.now ≡ sku_codes rows) }
        ensures { IfOk result (λ by_sku. (rows : List Charge) → AreByHour by_hour.now rows
            → skus.now ≡ sku_codes rows → AreSkusByHour by_sku rows) }
    {
        let hours = by_hour.hours().len();
        let mut codes = Vec::new(alloc);
        let mut before = Vec::with_capacity(alloc, hours + 1)?;
        let mut places = Packed::new(alloc);
        let mut met = Met {
            last: Vec::new(alloc),
            lists: Vec::new(alloc),
        };
        before.push(0)?;
        for number in 0..hours {
            let count = met.add_codes(&mut codes, skus, by_hour.places_in(number))?;
            places = with_lists(places, &met.lists[..count])?;
            before.push(codes.len() as u32)?;
        }
        codes.shrink_to_fit();
        places.shrink();
        Ok(SkusByHour {
            codes,
            before,
            places,
        })
    }

    /// The codes of the hour with this number, counted from 0.
    pub fn codes_in(&self, number: usize) -> &[u32]
        requires { HasSkus self.now number }
        ensures { result.now ≡ slice_range self.now.codes.items
            (slice_index self.now.before.items number)
            (slice_index self.now.before.items (number + 1)) }
    {
        let first = self.before[number] as usize;
        let end = self.before[number + 1] as usize;
        &self.codes[first..end]
    }

    /// The places of the rows of the hour with this number that have the code at a place among the hour's codes, both counted from 0.
    pub fn places_of(&self, number: usize, which: usize) -> &[u16]
        requires hour { HasSkus self.now number }
        requires code { slice_index self.now.before.items number + which
            < slice_index self.now.before.items (number + 1) }
        ensures { slice_get self.now.places (slice_index self.now.before.items number + which)
            ≡ Some result.now }
    {
        let first = self.before[number] as usize;
        self.places.list(first + which)
    }
}

// What is noted while the codes of hours are listed, hour by hour.
#[derive(Drop)]
struct Met {
    // For each code 1 more than the last place at which it is listed; 0, or nothing, where it isn't listed yet.
    last: Vec<usize>,
    // For each code that is listed in this hour the places of its rows. The lists behind them are of earlier hours.
    lists: Vec<Vec<u16>>,
}

impl Met {
    // Adds the codes of the rows at these places, each once, and lists the places of each. Says how many codes are added. No code is met in this hour yet.
    fn add_codes(
        &mut self,
        codes: &mut Vec<u32>,
        skus: &[u32],
        places: &[u16],
    ) -> Result<usize, AllocError>
        requires places { All (λ place. place < length skus.now) places.now }
        requires earlier { (c : ℕ) → slice_index_or self.old.last.items c 0 ≤ vec_len codes.old }
        ensures codes { OnOk result (codes.new.items
            ≡ codes.old.items ++ each_once
            (map (λ place. slice_index_or skus.now place 0) places.now)) }
        ensures met { OnOk result ((c : ℕ) → slice_index_or self.new.last.items c 0
            ≤ vec_len codes.new) }
        ensures count { IfOk result (λ count. count ≤ vec_len self.new.lists) }
        ensures lists { IfOk result (λ count. take count (map vec_items self.new.lists.items)
            ≡ map (λ code. filter (λ place. slice_index_or skus.now place 0 == code) places.now)
            (each_once (map (λ place. slice_index_or skus.now place 0) places.now))) }
    {
        let before = codes.len();
        for place in places {
            let code = skus[usize::from(*place)];
            let last = last_of(&self.last, code as usize);
            if last > before {
                add_place(&mut self.lists, last - before - 1, *place)?;
            } else {
                begin_list(&mut self.lists, codes.len() - before, *place)?;
                codes.push(code)?;
                note(&mut self.last, code as usize, codes.len())?;
            }
        }
        Ok(codes.len() - before)
    }
}

// What is noted of a code: 0 where nothing is.
fn last_of(last: &[usize], code: usize) -> usize
    ensures { result ≡ slice_index_or last.now code 0 }
{
    match last.get(code) {
        Some(last) => *last,
        None => 0,
    }
}

// Notes something of a code.
fn note(last: &mut Vec<usize>, code: usize, listed: usize) -> Result<(), AllocError>
    requires { code < 2 ^ 32 }
    ensures { OnOk result ((c : ℕ) → slice_index_or last.new.items c 0
        ≡ (if c == code then listed else slice_index_or last.old.items c 0)) }
{
    if code >= last.len() {
        last.resize(code + 1, 0)?;
    }
    last[code] = listed;
    Ok(())
}

/// Adds a place to one of the lists.
pub(crate) fn add_place(
    lists: &mut Vec<Vec<u16>>,
    which: usize,
    place: u16,
) -> Result<(), AllocError>
    requires { which < vec_len lists.old }
    ensures lists { OnOk result ((k : ℕ) → slice_index_or (map vec_items lists.new.items) k []
        ≡ (if k == which then slice_index_or (map vec_items lists.old.items) k [] ++ place ∷ []
        else slice_index_or (map vec_items lists.old.items) k [])) }
    ensures len { vec_len lists.new ≡ vec_len lists.old }
{
    lists[which].push(place)?;
    Ok(())
}

// Makes one of the lists, or one more, the list of one place. A list that was there keeps its memory.
fn begin_list(lists: &mut Vec<Vec<u16>>, which: usize, place: u16) -> Result<(), AllocError>
    requires { which ≤ vec_len lists.old }
    ensures lists { OnOk result ((k : ℕ) → slice_index_or (map vec_items lists.new.items) k []
        ≡ (if k == which then place ∷ []
        else slice_index_or (map vec_items lists.old.items) k [])) }
    ensures some { OnOk result (which < vec_len lists.new) }
    ensures len { OnOk result (vec_len lists.old ≤ vec_len lists.new) }
{
    if which == lists.len() {
        lists.push(Vec::new(*lists.allocator()))?;
    } else {
        lists[which].clear();
    }
    add_place(lists, which, place)?;
    Ok(())
}

// The lists, and others behind them.
fn with_lists(places: Packed<u16>, lists: &[Vec<u16>]) -> Result<Packed<u16>, AllocError>
    ensures { IfOk result (λ all. all ≡ places ++ map vec_items lists.now) }
{
    let mut all = places;
    for list in lists {
        all = all.with(list.as_slice())?;
    }
    Ok(all)
}
