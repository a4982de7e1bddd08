//! The groups of rows under a tag key.
ghost use Rattle.std.specs.Prelude.{◌≡◌, ◌≤◌, ◌<◌, ◌^◌, length, map, All, IfOk};
ghost use Rattle.fw_columns.specs.Codes.{tag_code};
ghost use Rattle.fw_row_table.specs.Table.{AreColumns, rows_of};
ghost use Rattle.fw_columns.specs.Grouping.{found_code};

use crate::joining::push_replaced;
use fw_row_table::{Lists, Table};
use std::alloc::{AllocError, Global};

/// The code of each row's group under a key: each list of tags is searched once.
pub fn group_codes(alloc: Global, table: &Table, key: &str) -> Result<Vec<u32>, AllocError>
    requires { AreColumns table.now (rows_of table.now) }
    ensures { IfOk result (λ codes. codes.items
        ≡ map (tag_code key.now table.now.names) (rows_of table.now)) }
{
    let key = table.names.place(key);
    let empty = table.names.place("");
    let by_list = list_codes(alloc, &table.lists, key, empty)?;
    let mut codes = Vec::with_capacity(alloc, table.tags.len())?;
    push_replaced(&mut codes, table.tags.as_slice(), by_list.as_slice())?;
    Ok(codes)
}

/// The code of the group of each list.
fn list_codes(alloc: Global, lists: &Lists, key: u32, empty: u32) -> Result<Vec<u32>, AllocError>
    requires { All (λ list. All (λ place. place < 2 ^ 30) list) lists.now }
    ensures { IfOk result (λ codes. codes.items ≡ map (found_code key empty) lists.now) }
{
    let mut codes = Vec::with_capacity(alloc, lists.len())?;
    for code in 0..lists.len() as u32 {
        codes.push(found_code(lists.list(code), key, empty))?;
    }
    Ok(codes)
}

/// The code of the group of a list: of the value under the key of a place, or 0 where that is the empty text or there is none.
fn found_code(list: &[u32], key: u32, empty: u32) -> u32
    requires { All (λ place. place < 2 ^ 30) list.now }
    ensures { result ≡ found_code key empty list.now }
{
    let mut rest = list;
    while let [found, value, after @ ..] = rest {
        if *found == key {
            return if *value == empty { 0 } else { 1 + *value };
        }
        rest = after;
    }
    0
}
