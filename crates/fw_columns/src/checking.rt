//! Whether columns that were put together elsewhere are those of rows.
ghost use Rattle.std.specs.Prelude.{◌≡◌, ◌≢◌, ◌+◌, ◌<◌, ◌≤◌, ◌↔◌, [], ◌∷◌, List, length, map, pos, nat_abs, option_to_list, slice_index_or, All, IfNone, IfOk, IfSome, IsNone, IsTrue};
ghost use Rattle.fw_charge.specs.Charge.{Charge};
ghost use Rattle.fw_charge.specs.Tags.{longest_tag_text};
ghost use Rattle.fw_columns.specs.Parts.{AgreeAt, AreDiscountCodes, AreListsSeen, AreNumbered, AreOutOfTurn, ArePlacesOfTags, HasFieldsInRange, HasNoRows, HaveLength, HaveRows, HaveSeen, IsQuantityKept, IsTagList, lists_there, texts_there};
ghost use Rattle.fw_row_table.specs.Table.{AreColumns, rows_of, category_at, list_at, text_at, text_of, tags_of};
ghost use Rattle.fw_bytes.specs.Order.{rise};

use crate::columns::Columns;
use fw_charge::Category;
use fw_row_table::{Lists, Names, Table, category_at};
use std::alloc::{AllocError, Global};

impl Columns {
    /// The columns of the rows that have this table, each of whose fields is in its range, and whose lists of tags are numbered as they are first seen.
    /// `None` exactly where no rows have it: as where a name is no text of a row, or stands before one that occurs earlier.
    ///
    /// # Errors
    /// [`AllocError`] only where memory is refused.
    pub fn checked(alloc: Global, table: Table) -> Result<Option<Columns>, AllocError>
        requires fields { HasFieldsInRange table }
        requires few { length table.lists ≤ length table.tags.items }
        requires numbered { AreNumbered table.lists table.tags.items
            (lists_there table.lists table.tags.items) }
        ensures some { IfOk result (λ made. IfSome made (λ columns. AreColumns table columns)) }
        ensures exactly { IfOk result (λ made. IsNone made ↔ HasNoRows table) }
    {
        if !are_columns(&table) {
            return Ok(None);
        }
        let columns = Columns::of_table(alloc, table)?;
        Ok(Some(columns))
    }
}

/// Whether columns are those of rows.
fn are_columns(table: &Table) -> bool
    requires fields { HasFieldsInRange table.now }
    requires few { length table.now.lists ≤ length table.now.tags.items }
    requires numbered { AreNumbered table.now.lists table.now.tags.items
        (lists_there table.now.lists table.now.tags.items) }
    ensures columns { IsTrue result → AreColumns table.now (rows_of table.now) }
    ensures of_rows { (rows : List Charge) → AreColumns table.now rows → IsTrue result }
{
    // Proves that no text is there twice.
    let _names = table.names.len();
    if !are_tag_lists(&table.names, &table.lists) {
        return false;
    }
    have_rows(table)
}

/// Whether the keys of each list rise, so that it stands for tags.
fn are_tag_lists(names: &Names, lists: &Lists) -> bool
    requires sized { All (λ text. length text ≤ longest_tag_text) names.now }
    requires places { All (ArePlacesOfTags names.now) lists.now }
    ensures { IsTrue result ↔ All (IsTagList names.now) lists.now }
{
    for place in 0..lists.len() as u32 {
        if !keys_rise(names, lists.list(place)) {
            return false;
        }
    }
    true
}

/// Whether the keys at the places of tags rise strictly in the order of their bytes.
fn keys_rise(names: &Names, list: &[u32]) -> bool
    requires { All (λ place. place < length names.now) list.now }
    ensures { result ≡ rise (map (λ t. t.key) (tags_of names.now list.now)) }
{
    let [first, _, rest @ ..] = list else {
        return true;
    };
    let mut last = names.text(*first);
    let mut rest = rest;
    while let [key, _, after @ ..] = rest {
        let key = names.text(*key);
        if last >= key {
            return false;
        }
        last = key;
        rest = after;
    }
    true
}

/// Whether the second at a place isn't after the end of a period.
fn is_period(starts: &[i64], place: usize, end: u64) -> bool
    requires { place < length starts.now }
    ensures { IsTrue result ↔ (nat_abs (slice_index_or starts.now place (pos 0)) ≤ end) }
{
    starts[place].unsigned_abs() <= end
}

/// Whether the codes of a discount agree in a row of a category.
fn is_discount(category: Category, id: u32, kind: u8, status: u8) -> bool
    ensures { IsTrue result ↔ AreDiscountCodes category id kind status }
{
    if id == 0 {
        return kind == 0 && status == 0;
    }
    if kind == 0 {
        return false;
    }
    match category {
        Category::Usage => status != 0,
        _ => true,
    }
}

/// Whether the amount at a place is what a quantity is kept as.
fn is_quantity(counts: &[i64], place: usize, is_there: bool) -> bool
    requires { place < length counts.now }
    ensures { IsTrue result ↔ IsQuantityKept is_there (slice_index_or counts.now place (pos 0)) }
{
    is_there || counts[place].unsigned_abs() == 0
}

/// Whether the fields at a place agree with each other.
fn agree_at(table: &Table, place: usize) -> bool
    requires all { HaveLength table.now (length table.now.billed.items) }
    requires within { place < length table.now.billed.items }
    ensures { IsTrue result ↔ AgreeAt table.now place }
{
    if !is_period(table.starts.as_slice(), place, table.ends[place]) {
        return false;
    }
    let category = category_at(table.categories.as_slice(), place);
    let id = table.discounts[place];
    if !is_discount(category, id, table.kinds[place], table.statuses[place]) {
        return false;
    }
    is_quantity(
        table.quantities.as_slice(),
        place,
        table.has_quantity[place],
    )
}

/// How many names are seen once the one at a place is seen too. `None` where one before it wasn't.
fn see_place(names: &Names, seen: u32, place: u32) -> Option<u32>
    requires seen { seen ≤ length names.now }
    requires place { place < length names.now }
    ensures some { IfSome result (λ now.
        HaveSeen names.now seen now (text_at names.now place ∷ [])) }
    ensures none { IfNone result (AreOutOfTurn names.now seen (text_at names.now place ∷ [])) }
    ensures grows { IfSome result (λ now. seen ≤ now) }
    ensures within { IfSome result (λ now. place < now) }
{
    prove!(names.len() <= 1 << 30);
    if place < seen {
        Some(seen)
    } else if place == seen {
        Some(seen + 1)
    } else {
        None
    }
}

/// The same of the text of a code; null is none.
fn see_code(names: &Names, seen: u32, code: u32) -> Option<u32>
    requires seen { seen ≤ length names.now }
    requires code { code ≤ length names.now }
    ensures some { IfSome result (λ now.
        HaveSeen names.now seen now (option_to_list (text_of names.now code))) }
    ensures none { IfNone result
        (AreOutOfTurn names.now seen (option_to_list (text_of names.now code))) }
    ensures grows { IfSome result (λ now. seen ≤ now) }
{
    match code.checked_sub(1) {
        None => Some(seen),
        Some(place) => see_place(names, seen, place),
    }
}

/// The same of the texts at places in turn.
fn see_list(names: &Names, seen: u32, list: &[u32]) -> Option<u32>
    requires seen { seen ≤ length names.now }
    requires list { All (λ place. place < length names.now) list.now }
    ensures some { IfSome result (λ now.
        HaveSeen names.now seen now (map (text_at names.now) list.now)) }
    ensures none { IfNone result (AreOutOfTurn names.now seen (map (text_at names.now) list.now)) }
    ensures grows { IfSome result (λ now. seen ≤ now) }
    ensures within { IfSome result (λ now. All (λ place. place < now) list.now) }
{
    let mut now = seen;
    for place in list {
        match see_place(names, now, *place) {
            Some(more) => now = more,
            None => return None,
        }
    }
    Some(now)
}

/// The same of the texts of the list of tags with a code. Those of the first lists are seen already.
fn see_tags(table: &Table, seen: u32, lists_seen: u32, code: u32) -> Option<u32>
    requires seen { seen ≤ length table.now.names }
    requires lists { All (ArePlacesOfTags table.now.names) table.now.lists }
    requires code { code < length table.now.lists }
    requires before { AreListsSeen table.now.lists lists_seen seen }
    ensures some { IfSome result (λ now. HaveSeen table.now.names seen now
        (map (text_at table.now.names) (slice_index_or table.now.lists code []))) }
    ensures none { IfNone result (AreOutOfTurn table.now.names seen
        (map (text_at table.now.names) (slice_index_or table.now.lists code []))) }
    ensures grows { IfSome result (λ now. seen ≤ now) }
    ensures within { IfSome result (λ now.
        All (λ place. place < now) (slice_index_or table.now.lists code [])) }
{
    if code < lists_seen {
        return Some(seen);
    }
    see_list(&table.names, seen, table.lists.list(code))
}

/// The same of the texts of a row in turn. Those of the first lists of tags are seen already.
fn see_row(table: &Table, seen: u32, lists_seen: u32, place: usize) -> Option<u32>
    requires fields { HasFieldsInRange table.now }
    requires within { place < length table.now.billed.items }
    requires seen { seen ≤ length table.now.names }
    requires list { slice_index_or table.now.tags.items place 0 < length table.now.lists }
    requires before { AreListsSeen table.now.lists lists_seen seen }
    ensures some { IfSome result (λ now.
        HaveSeen table.now.names seen now (texts_there table.now place)) }
    ensures none { IfNone result (AreOutOfTurn table.now.names seen (texts_there table.now place)) }
    ensures grows { IfSome result (λ now. seen ≤ now) }
    ensures list { IfSome result (λ now. All (λ text. text < now) (list_at table.now place)) }
{
    let names = &table.names;
    let seen = see_code(names, seen, table.discounts[place])?;
    let seen = see_code(names, seen, table.units[place])?;
    let seen = see_code(names, seen, table.skus[place])?;
    let seen = see_code(names, seen, table.sub_accounts[place])?;
    see_tags(table, seen, lists_seen, table.tags[place])
}

/// How many of the first lists are seen once the one with a code is.
fn lists_after(lists_seen: u32, code: u32) -> u32
    ensures few { result ≤ lists_seen + 1 }
    ensures same { code ≢ lists_seen → result ≤ lists_seen }
{
    if code == lists_seen {
        lists_seen.saturating_add(1)
    } else {
        lists_seen
    }
}

/// Whether columns are those of rows, whose names are numbered as their texts are first seen.
fn have_rows(table: &Table) -> bool
    requires fields { HasFieldsInRange table.now }
    requires tags { All (λ place. place < length table.now.lists) table.now.tags.items }
    ensures { IsTrue result ↔ HaveRows table.now (length table.now.billed.items) }
{
    let mut seen = 0;
    let mut lists_seen = 0;
    for place in 0..table.billed.len() {
        if !agree_at(table, place) {
            return false;
        }
        match see_row(table, seen, lists_seen, place) {
            Some(now) => seen = now,
            None => return false,
        }
        lists_seen = lists_after(lists_seen, table.tags[place]);
    }
    seen as usize == table.names.len()
}
