//! What is in a text.
ghost use Rattle.std.specs.Prelude.{◌≡◌, ◌-◌, ◌<◌, ℕ, List, Some, length, map, nat_eq, All, OnOk};
ghost use Rattle.fw_charge.specs.Codes.{category_code, category_count};
ghost use Rattle.fw_check.specs.Counts.{counted, counted_all, text_counts};
ghost use Rattle.fw_check.specs.Kept.{kept_value};
ghost use Rattle.fw_check.specs.Known.{key_place, with_sums, AreKnown};
ghost use Rattle.fw_check.specs.Seen.{seen_in, nothing_seen, with_counts, with_row, with_rows, with_values};
ghost use Rattle.fw_row_table.specs.Table.{tags_of, text_at};
ghost use Rattle.std.specs.Str.{bytes_eq};

use crate::kept::{KeptColumn, count_kept};
use fw_charge::Category;
use fw_columns::{Columns, LentRow, Names};
use indexmap::IndexMap;
use std::alloc::{AllocError, Global};

/// How many rows have a tag.
pub struct Coverage {
    /// The tag keys in the order in which they first come, each with the number of rows that have it.
    pub keys: IndexMap<String, u64>,
}

impl Drop for Coverage {
    fn drop(self) {
        let Self { keys: _ } = self;
    }
}

/// What is in a text: counts and sums of the rows that break no rule.
pub struct Statistics {
    /// How many rows there are.
    pub rows: u64,
    /// BilledCost of all rows, in nanos.
    pub billed: i128,
    /// EffectiveCost of all rows, in nanos.
    pub effective: i128,
    /// How many rows there are of each category, in the order of `Category::ALL`.
    pub categories: [u64; Category::COUNT],
    /// The hours in which rows start, counted from 1970, each with the number of its rows.
    pub hours: IndexMap<u32, u64>,
    /// The currencies of these rows, each with the number of rows.
    pub currencies: IndexMap<String, u64>,
    /// The tags.
    pub tags: Coverage,
    /// The columns that are kept as tags.
    pub kept: Vec<KeptColumn>,
}

impl Drop for Statistics {
    fn drop(self) {
        let Self {
            rows: _,
            billed: _,
            effective: _,
            categories: _,
            hours: _,
            currencies: _,
            tags: _,
            kept: _,
        } = self;
    }
}

/// So many more under a key.
pub(crate) fn count_text(
    alloc: Global,
    counts: &mut IndexMap<String, u64>,
    key: &str,
    times: u64,
) -> Result<(), AllocError>
    ensures { OnOk result (text_counts counts.new.entries
        ≡ counted bytes_eq key.now times (text_counts counts.old.entries)) }
{
    if let Some(place) = counts.get_index_of(key) {
        count_at(counts, place, times);
        return Ok(());
    }
    let key = String::from_str(alloc, key)?;
    counts.insert(key, times)?;
    Ok(())
}

// So many more under the key at a place.
fn count_at(counts: &mut IndexMap<String, u64>, place: usize, times: u64)
    requires { place < length counts.old.entries }
    ensures { (key : List ℕ) → key_place key (text_counts counts.old.entries) ≡ Some place
        → text_counts counts.new.entries
        ≡ counted bytes_eq key times (text_counts counts.old.entries) }
{
    counts[place] = counts[place].saturating_add(times);
}

// One more in an hour.
fn count_hour(counts: &mut IndexMap<u32, u64>, hour: u32) -> Result<(), AllocError>
    ensures { OnOk result (counts.new.entries ≡ counted nat_eq hour 1 counts.old.entries) }
{
    if let Some(place) = counts.get_index_of(&hour) {
        counts[place] = counts[place].saturating_add(1);
        return Ok(());
    }
    counts.insert(hour, 1)?;
    Ok(())
}

// One more under a name. The place of its key in the counts is looked up once and is known from then on.
fn count_name(
    alloc: Global,
    counts: &mut IndexMap<String, u64>,
    names: &Names,
    known: &mut [Option<usize>],
    name: u32,
) -> Result<(), AllocError>
    requires within { name < length names.now }
    requires places { AreKnown names.now known.old (text_counts counts.old.entries) }
    ensures counted { OnOk result (text_counts counts.new.entries
        ≡ counted bytes_eq (text_at names.now name) 1 (text_counts counts.old.entries)) }
    ensures places { OnOk result (AreKnown names.now known.new
        (text_counts counts.new.entries)) }
{
    if let Some(place) = known[name as usize] {
        count_at(counts, place, 1);
        return Ok(());
    }
    let key = names.text(name);
    count_text(alloc, counts, key, 1)?;
    known[name as usize] = counts.get_index_of(key);
    Ok(())
}

// One more under the key of each tag of a list: the place of each key in the names, and behind it that of its value.
fn count_tags(
    alloc: Global,
    counts: &mut IndexMap<String, u64>,
    names: &Names,
    known: &mut [Option<usize>],
    list: &[u32],
) -> Result<(), AllocError>
    requires within { All (λ one. one < length names.now) list.now }
    requires places { AreKnown names.now known.old (text_counts counts.old.entries) }
    ensures counted { OnOk result (text_counts counts.new.entries
        ≡ counted_all (map (λ t. t.key) (tags_of names.now list.now))
        (text_counts counts.old.entries)) }
    ensures places { OnOk result (AreKnown names.now known.new
        (text_counts counts.new.entries)) }
{
    let mut rest = list;
    while let [key, _value, after @ ..] = rest {
        count_name(alloc, counts, names, known, *key)?;
        rest = after;
    }
    Ok(())
}

impl Statistics {
    /// Nothing was seen. The values of these columns are counted.
    pub(crate) fn new(alloc: Global, kept: Vec<KeptColumn>) -> Statistics
        ensures { seen_in result ≡ nothing_seen (map kept_value kept.items) }
    {
        Statistics {
            rows: 0,
            billed: 0,
            effective: 0,
            categories: [0; Category::COUNT],
            hours: IndexMap::new(alloc),
            currencies: IndexMap::new(alloc),
            tags: Coverage {
                keys: IndexMap::new(alloc),
            },
            kept,
        }
    }

    // Counts a row, whose tags are this list of places of names.
    fn add(
        &mut self,
        alloc: Global,
        row: &LentRow<'_>,
        names: &Names,
        known: &mut [Option<usize>],
        list: &[u32],
    ) -> Result<(), AllocError>
        requires within { All (λ one. one < length names.now) list.now }
        requires tags { tags_of names.now list.now ≡ row.now.tags }
        requires places { AreKnown names.now known.old (text_counts self.old.tags.keys.entries) }
        ensures row { OnOk result (seen_in self.new ≡ with_row row.now (seen_in self.old)) }
        ensures places { OnOk result (AreKnown names.now known.new
            (text_counts self.new.tags.keys.entries)) }
    {
        self.add_sums(row)?;
        count_tags(alloc, &mut self.tags.keys, names, known, list)?;
        self.add_kept(alloc, row)
    }

    // Counts a row, but for its tags and its values in kept columns.
    fn add_sums(&mut self, row: &LentRow<'_>) -> Result<(), AllocError>
        ensures { OnOk result (seen_in self.new ≡ with_sums row.now (seen_in self.old)) }
    {
        self.rows = self.rows.saturating_add(1);
        self.billed = self.billed.saturating_add(i128::from(row.billed().count()));
        self.effective = self
            .effective
            .saturating_add(i128::from(row.effective().count()));
        let category = place_of(row.category());
        self.categories[category] = self.categories[category].saturating_add(1);
        count_hour(&mut self.hours, row.hour())
    }

    // Counts the values of a row in kept columns.
    fn add_kept(&mut self, alloc: Global, row: &LentRow<'_>) -> Result<(), AllocError>
        ensures { OnOk result (seen_in self.new ≡ with_values row.now (seen_in self.old)) }
    {
        count_kept(alloc, self.kept.as_mut_slice(), row.tags())
    }

    /// Counts rows.
    pub(crate) fn add_all(&mut self, alloc: Global, rows: &Columns) -> Result<(), AllocError>
        ensures { OnOk result (seen_in self.new ≡ with_rows rows.now (seen_in self.old)) }
    {
        let names = rows.names();
        let mut places = vec![in alloc; None; names.len()]?;
        let known = places.as_mut_slice();
        for place in 0..rows.len() {
            let row = rows.lent(place);
            let list = rows.tag_places(place);
            self.add(alloc, &row, names, known, list)?;
        }
        Ok(())
    }
}

// The place of a category among all.
#[tactic(auto, using(fw_charge::proofs::CodeFacts::category_within))]
fn place_of(category: Category) -> usize
    ensures place { result ≡ category_code category - 1 }
    ensures within { result < category_count }
{
    usize::from(category.code() - 1)
}
