//! How many bytes the rows of columns have where they are written.
ghost use Rattle.std.specs.Prelude.{◌≡◌, ◌<◌, ◌≤◌, ◌+◌, ◌^◌, ◌∷◌, length, map, slice_range, All, IfOk, IsUtf8};
ghost use Rattle.std.specs.List.{flat_map};
ghost use Rattle.fw_charge.specs.Spelling.{row, tag, IsRow};
ghost use Rattle.fw_charge.specs.Tags.{longest_tag_text, IsTags};
ghost use Rattle.fw_row_table.specs.Lengths.{AreLengths};
ghost use Rattle.fw_row_table.specs.Reading.{HasRow};
ghost use Rattle.fw_row_table.specs.Table.{charge_at, rows_of, tags_of, AreColumns};

use crate::lending::LentTags;
use crate::lengths::tags_len;
use crate::lists::Lists;
use crate::names::Names;
use crate::table::Table;
use std::alloc::{AllocError, Global};

/// How many bytes each text and each list of tags of a table is written in, by its code: 4 bytes of memory for each. So the length of a row is found
/// without a look at its texts and its tags.
#[derive(Drop)]
pub struct Lengths {
    // of a text that may be null: first of null, and then of the names in turn
    texts: Vec<u32>,
    // of the tags of each list, without their number
    lists: Vec<u32>,
}

impl Lengths {
    /// The lengths of a table, whose rows each have a spelling. Each text and each list of tags is looked at once, however many rows have it.
    pub fn of_table(alloc: Global, table: &Table) -> Result<Lengths, AllocError>
        requires { AreColumns table.now (rows_of table.now) }
        ensures lengths { IfOk result (λ lengths. AreLengths lengths table.now) }
        ensures valid { IfOk result (λ _. All IsRow (rows_of table.now)) }
    {
        let texts = text_lens(alloc, &table.names)?;
        let lists = list_lens(alloc, &table.names, &table.lists)?;
        Ok(Lengths { texts, lists })
    }

    /// How many bytes the rows of the table have where they are written, together: those from the place `first` on and before the place `end`.
    pub fn of_rows(&self, table: &Table, first: usize, end: usize) -> usize
        requires table { AreColumns table.now (rows_of table.now) }
        requires lengths { AreLengths self.now table.now }
        requires order { first ≤ end }
        requires within { end ≤ length (rows_of table.now) }
        ensures { result ≡ length (flat_map row (slice_range (rows_of table.now) first end)) }
    {
        let texts = self.texts.as_slice();
        let lists = self.lists.as_slice();
        let mut len = 0;
        for place in first..end {
            len += row_len(table, texts, lists, place);
        }
        len
    }
}

// How many bytes a text that may be null is written in, by its code: first null, and then the names in turn, each of which is text.
fn text_lens(alloc: Global, names: &Names) -> Result<Vec<u32>, AllocError>
    requires { All (λ name. length name ≤ longest_tag_text) names.now }
    ensures lens { IfOk result (λ lens. lens.items ≡ 1 ∷ map (λ name. 5 + length name) names.now) }
    ensures text { IfOk result (λ _. All IsUtf8 names.now) }
{
    let count = names.len();
    let mut lens = Vec::with_capacity(alloc, count + 1)?;
    lens.push(1)?;
    for code in 0..count as u32 {
        let name = names.text(code);
        lens.push(5 + name.len() as u32)?;
    }
    Ok(lens)
}

// How many bytes the tags of each list are written in, without their number.
fn list_lens(alloc: Global, names: &Names, lists: &Lists) -> Result<Vec<u32>, AllocError>
    requires { All (λ list. IsTags (tags_of names.now list)) lists.now }
    ensures { IfOk result (λ lens. lens.items
        ≡ map (λ list. length (flat_map tag (tags_of names.now list))) lists.now) }
{
    let mut lens = Vec::with_capacity(alloc, lists.len())?;
    for code in 0..lists.len() as u32 {
        let list = lists.list(code);
        lens.push(tags_len(LentTags::Listed { names, list }) as u32)?;
    }
    Ok(lens)
}

// How many bytes the row at a place has, by the lengths of the texts and of the lists of tags.
fn row_len(table: &Table, texts: &[u32], lists: &[u32], place: usize) -> usize
    requires row { HasRow table.now place }
    requires texts { texts.now ≡ 1 ∷ map (λ name. 5 + length name) table.now.names }
    requires lists { lists.now ≡ map (λ list. length (flat_map tag (tags_of table.now.names list)))
        table.now.lists }
    ensures value { result ≡ length (row (charge_at table.now place)) }
    ensures few { result < 2 ^ 35 }
{
    let quantity = if table.has_quantity[place] { 9 } else { 1 };
    let id = texts[table.discounts[place] as usize] as usize;
    let unit = texts[table.units[place] as usize] as usize;
    let sku = texts[table.skus[place] as usize] as usize;
    let sub_account = texts[table.sub_accounts[place] as usize] as usize;
    let tags = lists[table.tags[place] as usize] as usize;
    40 + quantity + id + unit + sku + sub_account + tags
}
